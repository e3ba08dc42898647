// The matcher: its meaning, its laws, and what a search says of the line.
ghost use Rattle.std.specs.Prelude.{◌≡◌, IfOk};
ghost use Rattle.scan.specs.Earliest.{found_from};
ghost use Rattle.ways.specs.Meaning.{at as match_at_spec, meaning};
ghost use Rattle.ways.specs.Matched.{Keeps};
ghost use Rattle.preference.specs.Found.{Told};
ghost use Rattle.expression.specs.Attempts.{IsTriedAt, IsFoundFrom};
ghost use Rattle.preference.proofs.Placing.{expression_lawful};
ghost use Rattle.preference.proofs.Telling;

use crate::attempts::match_at;
use grammar::expression::Expression;
use grammar::legality;
use matcher::answer::{Answer, Illegal, Region};
use matcher::search::Matcher;
use scan::attempt::first_from;
use std::alloc::Global;
use table::fill::Table;
use tries::limit::{Fuel, Unlimited};
use tries::run::Tries;
use ways::cursor::Cursor;
use ways::find::FindWay;
use ways::start::Alternatives;

// How deep the quick tries may nest.
const DEPTH: usize = 2048;

// It remembers what matches where in memory of the heap, where the quick tries do not suffice.
#[derive(Clone, Copy, Debug)]
pub struct ExpressionMatcher {
    heap: Global,
}

impl ExpressionMatcher {
    // A matcher that takes its memory from the heap. Nothing is missed where the heap has none: the search is slower then.
    pub fn new(heap: Global) -> ExpressionMatcher
        ensures { result.heap ≡ heap }
    {
        ExpressionMatcher { heap }
    }
}

// How many tries are quick: some for each byte of the line and of the expression.
fn quick(expression: &Expression<'_>, line: &str) -> Fuel {
    Fuel {
        left: line
            .len()
            .saturating_add(expression.text.len())
            .saturating_mul(8)
            .saturating_add(256),
    }
}

// The first match from the place on, by this way of finding that of an alternative.
fn find_by<W: FindWay>(
    way: &mut W,
    alternatives: Alternatives<'_>,
    line: &str,
    place: usize,
) -> Result<Option<Region>, W::Stop>
    ensures { IfOk result (IsFoundFrom (W.serves way.old) alternatives.entry line.now place) }
{
    first_from(
        line,
        place,
        |at|
            ensures found { IfOk result (IsTriedAt (W.serves way.entry.now) alternatives.entry line.entry.now at) }
            ensures same { Keeps W.serves way.entry.now way.exit.now }
        {
            match Cursor::new(line, at) {
                Some(from) => match_at(way, alternatives, &from),
                None => Ok(None),
            }
        },
    )
}

// The first match from the place on.
fn find(heap: Global, expression: &Expression<'_>, line: &str, place: usize) -> Option<Region>
    ensures { result ≡ found_from line.now (match_at_spec expression.now.text.now line.now) place }
{
    let alternatives = Alternatives::new(expression);
    let mut quick_tries = Tries::new(quick(expression, line), DEPTH);
    if let Ok(found) = find_by(&mut quick_tries, alternatives, line, place) {
        return found;
    }
    let surely = match Table::fill(heap, expression, line) {
        Ok(mut table) => find_by(&mut table, alternatives, line, place),
        Err(_) => find_by(&mut Tries::new(Unlimited, ()), alternatives, line, place),
    };
    match surely {
        Ok(found) => found,
        Err(never) => match never {},
    }
}

impl Matcher for ExpressionMatcher {
    ghost means = { λ _. meaning };

    ghost tells = { λ _. Told };

    ghost lawful = { λ m. expression_lawful };

    ghost told = { λ m e l p. Telling.told_meaning e l p };

    fn check(&self, expression: &[u8]) -> Result<(), Illegal> {
        legality::check(expression)
    }

    fn search_text(&self, expression: &[u8], line: &str, place: usize) -> Answer {
        let expression = Expression::new(expression)?;
        Ok(find(self.heap, &expression, line, place))
    }
}
