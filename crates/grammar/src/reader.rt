// How far an expression has been read.
ghost use Rattle.std.specs.Prelude.{◌≡◌, Some as Just};
ghost use Rattle.grammar.specs.Bytes.{kind_of, inside_of, escaped_of};
ghost use Rattle.grammar.specs.Reader.{next as next_of, done as done_of};

use crate::bytes::{Escaped, Inside, Kind, escaped_of, inside_of, kind_of};
use chars::leads::Owed;
use matcher::reading::Reader;

#[derive(Clone, Copy, Debug, PartialEq, Eq)]
pub(crate) enum Mode {
    // between items, where no repeat may follow
    Plain,
    // behind a piece, which a repeat may follow
    Taken,
    // after a backslash
    Escape,
    // in a character that owes bytes
    Owing(Owed),
    // after `[`, and after `[^`
    ClassOpen,
    ClassFirst,
    // in a class with a member, and after a character that may begin a range
    Class,
    ClassLast(u8),
    ClassEscape,
    // after the dash of a range from this character
    Range(u8),
    RangeEscape(u8),
}

#[derive(Clone, Copy, Debug, PartialEq, Eq)]
pub(crate) struct State {
    // pairs that were opened so far
    pub(crate) groups: u8,
    // those that are open
    pub(crate) depth: u8,
    pub(crate) mode: Mode,
}

impl State {
    ghost use Rattle.grammar.specs.Reader.{to, opened, closed, outside, behind_piece, first, within, last, upper, escape, class_escape, range_escape, owing};

    // The same pairs, in another mode.
    fn to(self, mode: Mode) -> Option<State>
        ensures { result ≡ to self mode }
    {
        Some(State { mode, ..self })
    }

    // One pair more. The depth never passes the number of groups; it is tested all the same, so that it cannot overflow.
    fn opened(self) -> Option<State>
        ensures { result ≡ opened self }
    {
        let more = self.groups < 15 && self.depth < 15;
        more.then(|| State {
            groups: self.groups + 1,
            depth: self.depth + 1,
            mode: Mode::Plain,
        })
    }

    // The innermost pair closed.
    fn closed(self) -> Option<State>
        ensures { result ≡ closed self }
    {
        let depth = self.depth.checked_sub(1)?;
        Some(State {
            depth,
            mode: Mode::Plain,
            ..self
        })
    }

    // Between items: a repeat has nothing to repeat.
    fn outside(self, kind: Kind) -> Option<State>
        ensures { result ≡ outside self (Just kind) }
    {
        match kind {
            Kind::Bare | Kind::Dot => self.to(Mode::Taken),
            Kind::Lead(owed) => self.to(Mode::Owing(owed)),
            Kind::Bar if self.depth == 0 => self.to(Mode::Plain),
            Kind::Open => self.opened(),
            Kind::Close => self.closed(),
            Kind::Start | Kind::End => self.to(Mode::Plain),
            Kind::Backslash => self.to(Mode::Escape),
            Kind::Bracket => self.to(Mode::ClassOpen),
            Kind::Bar | Kind::Repeat => None,
        }
    }

    // Behind a piece: its repeat, or what stands between items.
    fn behind_piece(self, kind: Kind) -> Option<State>
        ensures { result ≡ behind_piece self (Just kind) }
    {
        match kind {
            Kind::Repeat => self.to(Mode::Plain),
            other => self.outside(other),
        }
    }

    // The first member of a class: no class is empty.
    fn first(self, b: u8, inside: Inside) -> Option<State>
        ensures { result ≡ first self b (Just inside) }
    {
        match inside {
            Inside::Shut => None,
            other => self.within(b, other),
        }
    }

    // After a member that begins no range.
    fn within(self, b: u8, inside: Inside) -> Option<State>
        ensures { result ≡ within self b (Just inside) }
    {
        match inside {
            Inside::Bare => self.to(Mode::ClassLast(b)),
            Inside::Backslash => self.to(Mode::ClassEscape),
            Inside::Shut => self.to(Mode::Taken),
            Inside::Dash => None,
        }
    }

    // After the character `low`. No ASCII character is above 127, so no range begins with it.
    fn after_last(self, low: u8, b: u8, inside: Inside) -> Option<State>
        ensures { result ≡ last self low b (Just inside) }
    {
        match inside {
            Inside::Dash if low < 127 => self.to(Mode::Range(low)),
            other => self.within(b, other),
        }
    }

    // The upper end of a range. No mark is above 126, so none ends a range from there.
    fn upper(self, low: u8, b: u8) -> Option<State>
        ensures { result ≡ upper self low b (inside_of b) }
    {
        match inside_of(b)? {
            Inside::Bare if low < b => self.to(Mode::Class),
            Inside::Backslash if low < 126 => self.to(Mode::RangeEscape(low)),
            _ => None,
        }
    }

    // Behind a backslash, outside of a class.
    fn escape(self, b: u8) -> Option<State>
        ensures { result ≡ escape self (escaped_of b) }
    {
        match escaped_of(b)? {
            Escaped::Mark | Escaped::Set(_) => self.to(Mode::Taken),
            Escaped::Digit => self.to(Mode::Plain),
        }
    }

    // Behind a backslash, in a class.
    fn class_escape(self, b: u8) -> Option<State>
        ensures { result ≡ class_escape self b (escaped_of b) }
    {
        match escaped_of(b)? {
            Escaped::Mark => self.to(Mode::ClassLast(b)),
            Escaped::Set(_) => self.to(Mode::Class),
            Escaped::Digit => None,
        }
    }

    // Behind the backslash of a range's upper end.
    fn range_escape(self, low: u8, b: u8) -> Option<State>
        ensures { result ≡ range_escape self low b (escaped_of b) }
    {
        match escaped_of(b)? {
            Escaped::Mark if low < b => self.to(Mode::Class),
            _ => None,
        }
    }

    // A character goes on with the byte.
    fn owing(self, owed: Owed, b: u8) -> Option<State>
        ensures { result ≡ owing self owed b }
    {
        if !owed.takes(b) {
            return None;
        }
        self.to(owed.rest().map_or(Mode::Taken, Mode::Owing))
    }
}

impl Reader for State {
    ghost next = { next_of };

    ghost done = { done_of };

    fn step(self, b: u8) -> Option<State> {
        match self.mode {
            Mode::Plain => self.outside(kind_of(b)?),
            Mode::Taken => self.behind_piece(kind_of(b)?),
            Mode::Escape => self.escape(b),
            Mode::Owing(owed) => self.owing(owed, b),
            Mode::ClassOpen if b == b'^' => self.to(Mode::ClassFirst),
            Mode::ClassOpen | Mode::ClassFirst => self.first(b, inside_of(b)?),
            Mode::Class => self.within(b, inside_of(b)?),
            Mode::ClassLast(low) => self.after_last(low, b, inside_of(b)?),
            Mode::ClassEscape => self.class_escape(b),
            Mode::Range(low) => self.upper(low, b),
            Mode::RangeEscape(low) => self.range_escape(low, b),
        }
    }

    fn may_end(self) -> bool {
        matches!(self.mode, Mode::Plain | Mode::Taken) && self.depth == 0
    }
}
