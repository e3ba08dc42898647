// What a byte of an expression is, by where it stands.
ghost use Rattle.std.specs.Prelude.{◌≡◌};
ghost use Rattle.grammar.specs.Bytes.{kind_of, inside_of as inside_of_spec, set_of as set_of_spec, escaped_of as escaped_of_spec};

use chars::leads::{Owed, lead_of};
use chars::marks::{is_bare, is_mark};
use chars::sets::Set;

// Outside of a class.
#[derive(Clone, Copy, Debug, PartialEq, Eq)]
pub(crate) enum Kind {
    Bare,
    Lead(Owed),
    Bar,
    Open,
    Close,
    Start,
    End,
    Dot,
    Repeat,
    Backslash,
    Bracket,
}

// In a class.
#[derive(Clone, Copy, Debug, PartialEq, Eq)]
pub(crate) enum Inside {
    Bare,
    Backslash,
    Shut,
    Dash,
}

// After a backslash.
#[derive(Clone, Copy, Debug, PartialEq, Eq)]
pub(crate) enum Escaped {
    Mark,
    Digit,
    Set(Set),
}

// None where nothing begins with the byte.
pub(crate) fn kind_of(b: u8) -> Option<Kind>
    ensures { result ≡ kind_of b }
{
    if is_bare(b) {
        return Some(Kind::Bare);
    }
    match b {
        b'|' => Some(Kind::Bar),
        b'(' => Some(Kind::Open),
        b')' => Some(Kind::Close),
        b'^' => Some(Kind::Start),
        b'$' => Some(Kind::End),
        b'.' => Some(Kind::Dot),
        b'?' | b'*' | b'+' => Some(Kind::Repeat),
        b'\\' => Some(Kind::Backslash),
        b'[' => Some(Kind::Bracket),
        _ => lead_of(b).map(Kind::Lead),
    }
}

// None where the byte may not stand there.
pub(crate) fn inside_of(b: u8) -> Option<Inside>
    ensures { result ≡ inside_of_spec b }
{
    if b < 128 && !is_mark(b) {
        return Some(Inside::Bare);
    }
    match b {
        b'\\' => Some(Inside::Backslash),
        b']' => Some(Inside::Shut),
        b'-' => Some(Inside::Dash),
        _ => None,
    }
}

// The set that the letter names.
pub(crate) fn set_of(letter: char) -> Option<Set>
    ensures { result ≡ set_of_spec letter }
{
    match letter {
        'd' => Some(Set::Digits),
        'w' => Some(Set::Words),
        's' => Some(Set::Spaces),
        _ => None,
    }
}

// None where no backslash may stand before the byte.
pub(crate) fn escaped_of(b: u8) -> Option<Escaped>
    ensures { result ≡ escaped_of_spec b }
{
    if is_mark(b) {
        return Some(Escaped::Mark);
    }
    if Set::Digits.takes(b) {
        return Some(Escaped::Digit);
    }
    set_of(char::from(b)).map(Escaped::Set)
}
