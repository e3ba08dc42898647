// The items of an expression, read one at a time.
ghost use Rattle.std.specs.Prelude.{◌≡◌, ◌<◌, ◌≤◌, ◌∷◌, false, length, drop, slice_index, IfSome};
ghost use Rattle.grammar.specs.Parse.{Repeats};
ghost use Rattle.grammar.specs.Places.{shape, token, whole as whole_by, wide_of as wide_of_spec, repeated_as, escaped_as, item_of, ReadsAt};
ghost use Rattle.std.specs.Iterator.{at_most};
ghost use Rattle.grammar.specs.Items.{shut_of, Reads, Yields};

use crate::bytes::{Escaped, Kind, escaped_of, kind_of, set_of};
use crate::class::Class;
use chars::leads::Owed;
use chars::sets::Set;

// What takes one character.
#[derive(Clone, Copy, Debug, PartialEq, Eq)]
pub enum Piece<'a> {
    // this character, bare or behind a backslash
    Char(char),
    // `.`
    Any,
    Set(Set),
    Class(Class<'a>),
}

#[derive(Clone, Copy, Debug, PartialEq, Eq)]
pub enum Times {
    Once,
    // `?`
    Maybe,
    // `*`
    Many,
    // `+`
    Some,
}

#[derive(Clone, Copy, Debug, PartialEq, Eq)]
pub enum Item<'a> {
    Take(Piece<'a>, Times),
    // `^`
    Start,
    // `$`
    End,
    // a backslash and a digit, which matches nowhere
    Never,
    Open,
    Close,
    Bar,
}

// The items that are left of an expression.
#[derive(Clone, Copy, Debug, PartialEq, Eq)]
pub struct Items<'a> {
    pub rest: &'a str,
}

// What is read behind a piece: how often it is taken.
#[inline(always)]
fn repeated<'a>(piece: Piece<'a>, rest: &'a str) -> (Item<'a>, Items<'a>)
    ensures repeats { Repeats piece.entry rest.now result }
    ensures within { length result.1.rest.now ≤ length rest.now }
{
    let mut chars = rest.chars();
    let (times, rest) = match chars.next() {
        Some('?') => (Times::Maybe, chars.as_str()),
        Some('*') => (Times::Many, chars.as_str()),
        Some('+') => (Times::Some, chars.as_str()),
        _ => (Times::Once, rest),
    };
    (Item::Take(piece, times), Items { rest })
}

// What is read behind a backslash: a set, a digit, or a mark that stands for itself.
fn escaped(rest: &str) -> Option<(Item<'_>, Items<'_>)>
    ensures reads { Reads (92 ∷ rest.now) result }
    ensures within { IfSome result (λ r. length r.1.rest.now ≤ length rest.now) }
{
    let mut chars = rest.chars();
    let c = chars.next()?;
    let rest = chars.as_str();
    if c.is_ascii_digit() {
        return Some((Item::Never, Items { rest }));
    }
    let piece = match set_of(c) {
        Some(set) => Piece::Set(set),
        None => Piece::Char(c),
    };
    Some(repeated(piece, rest))
}

impl<'a> Items<'a> {
    // The first item and the others, if one is left. Costs as many steps as the item has bytes.
    #[inline(always)]
    pub fn split_first(&self) -> Option<(Item<'a>, Items<'a>)>
        ensures reads { Reads self.now.rest.now result }
        ensures onward { IfSome result (λ r. length r.1.rest.now < length self.now.rest.now) }
    {
        let mut chars = self.rest.chars();
        let first = chars.next()?;
        let rest = chars.as_str();
        Some(match first {
            '|' => (Item::Bar, Items { rest }),
            '(' => (Item::Open, Items { rest }),
            ')' => (Item::Close, Items { rest }),
            '^' => (Item::Start, Items { rest }),
            '$' => (Item::End, Items { rest }),
            '.' => repeated(Piece::Any, rest),
            '[' => {
                let (class, rest) = Class::split(rest);
                repeated(Piece::Class(class), rest)
            }
            '\\' => escaped(rest)?,
            _ => repeated(Piece::Char(first), rest),
        })
    }
}

impl<'a> Iterator for Items<'a> {
    type Item = Item<'a>;

    ghost next_gives = { Yields };

    ghost remaining = { λ s. at_most (length s.rest.now) };

    fn next(&mut self) -> Option<Item<'a>> {
        let (first, others) = self.split_first()?;
        *self = others;
        Some(first)
    }
}

// The byte at `k`, and 0 past the end.
fn byte_at(bytes: &[u8], k: usize) -> u8
    ensures { result ≡ slice_index bytes.now k }
{
    bytes.get(k).copied().unwrap_or(0)
}

// What stands from `k` on.
fn bytes_from(bytes: &[u8], k: usize) -> &[u8]
    ensures { result.now ≡ drop k bytes.now }
{
    bytes.get(k..).unwrap_or(&[])
}

// What follows the class, as `after_class`, of bytes that need not be text.
fn past_class(members: &[u8]) -> &[u8]
    ensures { result.now ≡ shut_of false members.now }
{
    let mut left = members;
    while let [b, others @ ..] = left {
        left = others;
        match *b {
            b']' => return left,
            b'\\' => left = bytes_from(left, 1),
            _ => {}
        }
    }
    left
}

// Whether the bytes go on with all that a character owes.
fn is_whole(owed: Owed, rest: &[u8]) -> bool
    ensures { result ≡ whole_by owed rest.now }
{
    let next = 0x80..=0xbf;
    owed.takes(byte_at(rest, 0))
        && (owed.more < 1 || next.contains(&byte_at(rest, 1)))
        && (owed.more < 2 || next.contains(&byte_at(rest, 2)))
}

// The character that begins with `b` and owes this; where its bytes are broken, the replacement character.
fn wide_of(owed: Owed, b: u8, rest: &[u8]) -> char
    ensures { result ≡ wide_of_spec owed b rest.now }
{
    let first = u32::from(b);
    let second = u32::from(byte_at(rest, 0)).saturating_sub(0x80);
    let third = u32::from(byte_at(rest, 1)).saturating_sub(0x80);
    let fourth = u32::from(byte_at(rest, 2)).saturating_sub(0x80);
    let value = match owed.more {
        0 => first.saturating_sub(0xc0) * 0x40 + second,
        1 => first.saturating_sub(0xe0) * 0x1000 + second * 0x40 + third,
        _ => first.saturating_sub(0xf0) * 0x40000 + second * 0x1000 + third * 0x40 + fourth,
    };
    match char::from_u32(value) {
        Some(c) if is_whole(owed, rest) => c,
        _ => char::REPLACEMENT_CHARACTER,
    }
}

// The piece, and how often it is taken, which the byte behind it says.
fn repeated_at<'a>(piece: Piece<'a>, rest: &'a [u8]) -> (Item<'a>, &'a [u8])
    ensures item { token result.0 ≡ (repeated_as (shape piece.entry) rest.now).0 }
    ensures rest { result.1.now ≡ (repeated_as (shape piece.entry) rest.now).1 }
{
    let (times, rest) = match byte_at(rest, 0) {
        b'?' => (Times::Maybe, bytes_from(rest, 1)),
        b'*' => (Times::Many, bytes_from(rest, 1)),
        b'+' => (Times::Some, bytes_from(rest, 1)),
        _ => (Times::Once, rest),
    };
    (Item::Take(piece, times), rest)
}

// What stands behind a backslash.
fn escaped_at(bytes: &[u8]) -> (Item<'_>, &[u8])
    ensures item { token result.0 ≡ (escaped_as bytes.now).0 }
    ensures rest { result.1.now ≡ (escaped_as bytes.now).1 }
{
    let b = byte_at(bytes, 0);
    let rest = bytes_from(bytes, 1);
    match escaped_of(b) {
        Some(Escaped::Mark) => repeated_at(Piece::Char(char::from(b)), rest),
        Some(Escaped::Set(set)) => repeated_at(Piece::Set(set), rest),
        Some(Escaped::Digit) | None => (Item::Never, rest),
    }
}

// The item that begins the bytes, and what follows it.
fn first_of(bytes: &[u8]) -> (Item<'_>, &[u8])
    ensures item { token result.0 ≡ (item_of bytes.now).0 }
    ensures rest { result.1.now ≡ (item_of bytes.now).1 }
{
    let b = byte_at(bytes, 0);
    let rest = bytes_from(bytes, 1);
    match kind_of(b) {
        Some(Kind::Bare) => repeated_at(Piece::Char(char::from(b)), rest),
        Some(Kind::Lead(owed)) => {
            let c = wide_of(owed, b, rest);
            repeated_at(Piece::Char(c), bytes_from(rest, usize::from(owed.more) + 1))
        }
        Some(Kind::Bar) => (Item::Bar, rest),
        Some(Kind::Open) => (Item::Open, rest),
        Some(Kind::Close) => (Item::Close, rest),
        Some(Kind::Start) => (Item::Start, rest),
        Some(Kind::End) => (Item::End, rest),
        Some(Kind::Dot) => repeated_at(Piece::Any, rest),
        Some(Kind::Backslash) => escaped_at(rest),
        Some(Kind::Bracket) => repeated_at(Piece::Class(Class::at(bytes, 0)), past_class(rest)),
        Some(Kind::Repeat) | None => (Item::Never, rest),
    }
}

// The item that begins at `i`, and where the next one begins. From the end on no item begins: a zero byte is read there, and the
// place is the end. Costs as many steps as the item has bytes.
pub fn item_at<'a>(expression: &'a [u8], i: usize) -> (Item<'a>, usize)
    ensures within { result.1 ≤ length expression.now }
    ensures onward { i < length expression.now → i < result.1 }
    ensures item { token result.0 ≡ (item_of (drop i expression.now)).0 }
    ensures rest { drop result.1 expression.now ≡ (item_of (drop i expression.now)).1 }
    ensures reads { ReadsAt expression.now i result.0 result.1 }
{
    let (item, rest) = first_of(bytes_from(expression, i));
    (item, expression.len() - rest.len())
}
