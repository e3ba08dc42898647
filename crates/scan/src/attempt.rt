// Attempts at one place after the other, up to the first that finds something.
ghost use Rattle.std.specs.Prelude.{◌≡◌, ℕ, Bool as Test, true, List, Some as Just, None as Neither, IsUtf8, Option as Maybe, MatchResult};
ghost use Rattle.std.specs.Str.{IsCharBoundary};
ghost use Rattle.matcher.specs.declared.answer.Region.{Region as Found};
ghost use Rattle.matcher.specs.Refusals.{verdict};
ghost use Rattle.scan.specs.Attempts.{TakesEdges, FindsAs};
ghost use Rattle.scan.specs.Earliest.{earliest, found_from, Placed};

use chars::edges::is_edge;
use matcher::answer::{Answer, Illegal, Region};

// What a matcher gives that tries one place at a time: where it refuses an expression, and the match that begins at a place.
pub trait Attempt {
    // The place at which an expression is refused, if it is.
    ghost refusal: { Self → List ℕ → Maybe ℕ };

    // The match that begins at a place, of a legal expression in a UTF-8 line.
    ghost at: { Self → List ℕ → List ℕ → ℕ → Maybe Found };

    // Whether an expression is legal.
    fn refuses(&self, expression: &[u8]) -> Result<(), Illegal>
        ensures { result ≡ verdict (refusal self.now expression.now) };

    fn attempt(&self, expression: &[u8], line: &str, place: usize) -> Option<Region>
        requires legal { refusal self.now expression.now ≡ Neither }
        requires at_edge { IsCharBoundary line.now place }
        ensures { result ≡ at self.now expression.now line.now place };

    ghost placed: { (a : Self) (e l : List ℕ) (p : ℕ) (r : Found) → refusal a e ≡ Neither → IsUtf8 l → IsCharBoundary l p → at a e l p ≡ Just r → Placed l p r };
}

// What the attempt finds at the first edge from the place on at which it finds something; off the edges of the line there is nothing.
// An error of the attempt ends the search.
pub fn first_from<E, F: FnMut(usize) -> Result<Option<Region>, E>>(
    line: &str,
    place: usize,
    mut attempt: F,
) -> Result<Option<Region>, E>
    requires { TakesEdges F.FnMut line.now attempt }
    ensures { (at : ℕ → Maybe Found) (fails : E → Test) → FindsAs F.FnMut line.now at fails attempt
        → MatchResult result (λ o. o ≡ found_from line.now at place) (λ e. fails e ≡ true) }
{
    if !is_edge(line, place) {
        return Ok(None);
    }
    for here in place..=line.len() {
        if is_edge(line, here) {
            // a region is large: at a place where nothing is found none is moved
            match attempt(here) {
                Ok(None) => {}
                Ok(Some(region)) => return Ok(Some(region)),
                Err(failure) => return Err(failure),
            }
        }
    }
    Ok(None)
}

// What is found in a UTF-8 line.
pub fn scan_text<T: Attempt>(attempts: &T, expression: &[u8], line: &str, place: usize) -> Answer
    ensures { result ≡ earliest (T.refusal attempts.now) (T.at attempts.now) expression.now line.now place }
{
    attempts.refuses(expression)?;
    first_from(line, place, |at| {
        Ok(attempts.attempt(expression, line, at))
    })
}

// What is found in any line.
pub fn scan<T: Attempt>(attempts: &T, expression: &[u8], line: &[u8], place: usize) -> Answer
    ensures { result ≡ earliest (T.refusal attempts.now) (T.at attempts.now) expression.now line.now place }
{
    match std::str::from_utf8(line) {
        Ok(text) => scan_text(attempts, expression, text, place),
        Err(_) => attempts.refuses(expression).and(Ok(None)),
    }
}
