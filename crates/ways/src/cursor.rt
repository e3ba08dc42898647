// A place of a line, and one step from it.
ghost use Rattle.std.specs.Prelude.{◌≡◌, ◌<◌, ◌↔◌, ◌==◌, drop, IsSome, IfSome};
ghost use Rattle.std.specs.Str.{IsCharBoundary};

use crate::taking::takes;
use grammar::items::Piece;

#[derive(Clone, Copy, Debug, PartialEq, Eq)]
pub struct Cursor<'a> {
    pub line: &'a str,
    // the line may be cut there
    pub place: usize,
    ghost edge: { IsCharBoundary line.now place },
}

impl<'a> Cursor<'a> {
    ghost use Rattle.ways.specs.Match.{at_end};
    ghost use Rattle.ways.specs.Pieces.{Steps};

    // The place of the line; none off its edges.
    pub fn new(line: &'a str, place: usize) -> Option<Cursor<'a>>
        ensures at_edge { IsSome result ↔ IsCharBoundary line.now place }
        ensures here { IfSome result (λ c. (c.line.now ≡ line.now) × (c.place ≡ place)) }
    {
        if line.is_char_boundary(place) {
            Some(Cursor { line, place })
        } else {
            None
        }
    }

    // What is left of the line.
    fn rest(&self) -> &'a str
        ensures { result.now ≡ drop self.now.place self.now.line.now }
    {
        &self.line[self.place..]
    }

    // Whether `^` holds: at the line's begin.
    pub fn is_at_start(&self) -> bool
        ensures { result ≡ (self.now.place == 0) }
    {
        self.place == 0
    }

    // Whether `$` holds: at the line's end, and before a byte 10 that ends the line.
    pub fn is_at_end(&self) -> bool
        ensures { result ≡ at_end self.now.line.now self.now.place }
    {
        matches!(self.rest(), "" | "\n")
    }

    // The place behind the next character, if the piece takes that.
    #[inline(always)]
    pub fn step(&self, piece: &Piece<'_>) -> Option<Cursor<'a>>
        ensures steps { Steps piece.now self.now.line.now self.now.place result }
        ensures on { IfSome result (λ c. (c.line.now ≡ self.now.line.now) × (self.now.place < c.place)) }
    {
        let c = self.rest().chars().next()?;
        if takes(piece, c) {
            Some(Cursor {
                line: self.line,
                place: self.place + c.len_utf8(),
            })
        } else {
            None
        }
    }
}
