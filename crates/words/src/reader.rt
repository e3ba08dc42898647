// How far a word expression has been read.
ghost use Rattle.std.specs.Prelude.{◌≡◌};
ghost use Rattle.words.specs.Reader.{next as next_of, done as done_of, begun as begun_of, inside as inside_of};

use chars::leads::{Owed, lead_of};
use chars::marks::{is_bare, is_mark};
use chars::sets::Set;
use matcher::reading::Reader;

#[derive(Clone, Copy, Debug, PartialEq, Eq)]
pub enum State {
    // at the begin of a word
    Empty,
    // in a word that may end here
    Filled,
    // after a backslash
    Escape,
    // in a character that owes bytes
    Inside(Owed),
}

// A character of a word begins with the byte.
fn begun(b: u8) -> Option<State>
    ensures { result ≡ begun_of b }
{
    if is_bare(b) {
        return Some(State::Filled);
    }
    if b == b'\\' {
        return Some(State::Escape);
    }
    lead_of(b).map(State::Inside)
}

// A character goes on with the byte.
fn inside(owed: Owed, b: u8) -> Option<State>
    ensures { result ≡ inside_of owed b }
{
    owed.takes(b)
        .then_some(owed.rest().map_or(State::Filled, State::Inside))
}

impl Reader for State {
    ghost next = { next_of };

    ghost done = { done_of };

    fn step(self, b: u8) -> Option<State> {
        match self {
            State::Empty => begun(b),
            State::Filled if b == b'|' => Some(State::Empty),
            State::Filled => begun(b),
            State::Escape if is_mark(b) || Set::Digits.takes(b) => Some(State::Filled),
            State::Escape => None,
            State::Inside(owed) => inside(owed, b),
        }
    }

    fn may_end(self) -> bool {
        matches!(self, State::Filled)
    }
}
