// A class, and which characters it takes.
ghost use Rattle.std.specs.Prelude.{◌≡◌, ◌+◌, ◌≤◌, false, length, drop};
ghost use Rattle.grammar.specs.Items.{shut_of};
ghost use Rattle.grammar.specs.Classes.{unless, fresh as fresh_to, single as single_to, up_to, after_escape as after_escape_spec, passes, listed, complemented, members_of, taken, OpensAt, Opens, Tests, TestsWide};
ghost use Rattle.grammar.specs.Bytes.{escaped_of};
ghost use Rattle.grammar.specs.declared.class.Spot.TheVariants.{Fresh};

use crate::bytes::{Escaped, escaped_of};
use std::ops::ControlFlow;

// How far the members have been read.
#[derive(Clone, Copy)]
enum Spot {
    // at the begin of a member
    Fresh,
    // after a backslash
    Escape,
    // after a character, which may begin a range
    Last(u8),
    // after the dash of a range from this character
    Range(u8),
    RangeEscape(u8),
}

// What one byte more of a class says of a character: whether it is taken, once that is known, or how the class goes on.
type Passed = ControlFlow<bool, Spot>;

// The character is taken, or the class goes on.
fn unless_taken(taken: bool, spot: Spot) -> Passed
    ensures { result ≡ unless taken spot }
{
    if taken {
        Passed::Break(true)
    } else {
        Passed::Continue(spot)
    }
}

// The byte is a member, or the first of a range.
fn single(c: u8, b: u8) -> Passed
    ensures { result ≡ single_to c b }
{
    unless_taken(c == b, Spot::Last(b))
}

// A member begins with the byte, or the class ends.
fn fresh(c: u8, b: u8) -> Passed
    ensures { result ≡ fresh_to c b }
{
    match b {
        b'\\' => Passed::Continue(Spot::Escape),
        b']' => Passed::Break(false),
        _ => single(c, b),
    }
}

// Behind a backslash: a set, or a mark.
fn after_escape(c: u8, b: u8) -> Passed
    ensures { result ≡ after_escape_spec c b (escaped_of b) }
{
    match escaped_of(b) {
        Some(Escaped::Set(set)) => unless_taken(set.takes(c), Spot::Fresh),
        _ => single(c, b),
    }
}

// A range, both ends in.
fn up_to(c: u8, low: u8, b: u8) -> Passed
    ensures { result ≡ up_to c low b }
{
    unless_taken(low <= c && c <= b, Spot::Fresh)
}

// One byte more of the class, wherever it has been read to.
fn pass(c: u8, spot: Spot, b: u8) -> Passed
    ensures { result ≡ passes c spot b }
{
    match spot {
        Spot::Fresh => fresh(c, b),
        Spot::Escape => after_escape(c, b),
        Spot::Last(low) if b == b'-' => Passed::Continue(Spot::Range(low)),
        Spot::Last(_) => fresh(c, b),
        Spot::Range(low) if b == b'\\' => Passed::Continue(Spot::RangeEscape(low)),
        Spot::Range(low) | Spot::RangeEscape(low) => up_to(c, low, b),
    }
}

// Whether a member of the class takes the character. Reads the class once, up to its end at most.
fn lists(members: &[u8], c: u8) -> bool
    ensures { result ≡ listed c Fresh members.now }
{
    members
        .iter()
        .try_fold(Spot::Fresh, |spot, b| pass(c, spot, *b))
        .break_value()
        .unwrap_or(false)
}

// What follows the class: it ends at the first `]` that no backslash precedes.
fn after_class(members: &str) -> &str
    ensures shut { result.now ≡ shut_of false members.now }
    ensures within { length result.now ≤ length members.now }
{
    let mut chars = members.chars();
    while let Some(c) = chars.next() {
        match c {
            ']' => return chars.as_str(),
            '\\' => {
                chars.next();
            }
            _ => {}
        }
    }
    chars.as_str()
}

// A class of an expression. `members` begins with the first member, and the `]` that ends the class stands within it.
#[derive(Clone, Copy, Debug, PartialEq, Eq)]
pub struct Class<'a> {
    pub negated: bool,
    pub members: &'a [u8],
}

impl<'a> Class<'a> {
    // The class whose `[` stands at `i`. Where none stands there, some class.
    pub fn at(expression: &'a [u8], i: usize) -> Class<'a>
        ensures negated { result.negated ≡ complemented (drop (i + 1) expression.now) }
        ensures members { result.members.now ≡ members_of (drop (i + 1) expression.now) }
        ensures opens { OpensAt expression.now i result.negated result.members.now }
    {
        let behind = match expression.get(i..) {
            Some([_, behind @ ..]) => behind,
            _ => &[],
        };
        match behind {
            [b'^', members @ ..] => Class {
                negated: true,
                members,
            },
            _ => Class {
                negated: false,
                members: behind,
            },
        }
    }

    // The class whose bytes behind `[` begin the text, and what follows its `]`. Where there is no such class, some class.
    pub(crate) fn split(text: &'a str) -> (Class<'a>, &'a str)
        ensures negated { result.0.negated ≡ complemented text.now }
        ensures members { result.0.members.now ≡ members_of text.now }
        ensures opens { Opens text.now result.0.negated result.0.members.now result.1.now }
        ensures within { length result.1.now ≤ length text.now }
    {
        let (negated, members) = match text.strip_prefix('^') {
            Some(members) => (true, members),
            None => (false, text),
        };
        let class = Class {
            negated,
            members: members.as_bytes(),
        };
        (class, after_class(members))
    }

    // Whether the class takes the ASCII character `c`. Costs at most as many steps as the class has bytes.
    pub fn takes(&self, c: u8) -> bool
        ensures computed { result ≡ taken self.now.negated self.now.members.now c }
        ensures tests { Tests self.now.negated self.now.members.now c result }
    {
        lists(self.members, c) != self.negated
    }

    // Whether the class takes a character above 127: all of them or none.
    pub fn takes_wide(&self) -> bool
        ensures computed { result ≡ self.now.negated }
        ensures tests { TestsWide self.now.negated self.now.members.now result }
    {
        self.negated
    }
}
