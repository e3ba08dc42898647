// The matcher: its meaning, its laws, and what a search says of the line.
ghost use Rattle.std.specs.Prelude.{◌≡◌};
ghost use Rattle.std.specs.Str.{IsCharBoundary};
ghost use Rattle.words.specs.Reader.{refusal as refusal_of};
ghost use Rattle.words.specs.Meaning.{word_at as word_at_spec, meaning};
ghost use Rattle.words.specs.Found.{Told};
ghost use Rattle.words.proofs.Telling;
ghost use Rattle.words.proofs.Telling.{word_lawful};

use crate::walk::{first_word, free_before};
use matcher::answer::{Answer, Illegal, Region};
use matcher::reading;
use matcher::search::Matcher;
use scan::attempt::{Attempt, first_from};
use words::reader::State;

#[derive(Clone, Copy, Debug)]
pub struct WordMatcher;

// The first word of the expression that counts at the place.
fn word_at(expression: &[u8], line: &str, place: usize) -> Option<Region>
    requires { IsCharBoundary line.now place }
    ensures { result ≡ word_at_spec expression.now line.now place }
{
    let bytes = line.as_bytes();
    if !free_before(bytes, place) {
        return None;
    }
    let end = first_word(expression, bytes, place)?;
    Some(Region::spanning(place, end))
}

impl Attempt for WordMatcher {
    ghost refusal = { λ _. refusal_of };

    ghost at = { λ _. word_at_spec };

    ghost placed = { λ a e l p r fine utf8 edge h. Telling.placed e l p r fine utf8 edge h };

    fn refuses(&self, expression: &[u8]) -> Result<(), Illegal> {
        reading::check(State::Empty, expression)
    }

    fn attempt(&self, expression: &[u8], line: &str, place: usize) -> Option<Region> {
        word_at(expression, line, place)
    }
}

impl Matcher for WordMatcher {
    ghost means = { λ _. meaning };

    ghost tells = { λ _. Told };

    ghost lawful = { λ m. word_lawful };

    ghost told = { λ m e l p. Telling.told_meaning e l p };

    fn check(&self, expression: &[u8]) -> Result<(), Illegal> {
        self.refuses(expression)
    }

    fn search_text(&self, expression: &[u8], line: &str, place: usize) -> Answer {
        self.check(expression)?;
        first_from(line, place, |at| Ok(word_at(expression, line, at)))
    }
}
