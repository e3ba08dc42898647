// How far a piece goes on the preferred way: as far as it can so that the items behind it still match.
ghost use Rattle.std.specs.Prelude.{◌≡◌};

use crate::cell::{Rows, is_set};
use grammar::items::{Piece, Times};
use ways::cursor::Cursor;

impl<'r> Rows<'r> {
    ghost use Rattle.table.specs.Walks.{Goes, GoesMost};

    // Where the piece ends, taken as often as can be from the place on.
    fn most<'a>(&self, piece: &Piece<'_>, from: &Cursor<'a>) -> Cursor<'a>
        ensures same { result.line.now ≡ from.now.line.now }
        ensures goes { GoesMost piece.now from.now self.now result.place }
    {
        let mut end = *from;
        while let Some(next) = end.step(piece) {
            if !is_set(self.here, next.place) && !is_set(self.below, next.place) {
                return end;
            }
            end = next;
        }
        end
    }

    // Where the piece ends on the preferred way from the place, if there is one.
    pub(crate) fn take<'a>(&self, piece: &Piece<'_>, times: Times, from: &Cursor<'a>) -> Cursor<'a>
        ensures same { result.line.now ≡ from.now.line.now }
        ensures goes { Goes piece.now times from.now self.now result.place }
    {
        match (times, from.step(piece)) {
            (Times::Once, Some(next)) => next,
            (Times::Maybe, Some(next)) if is_set(self.below, next.place) => next,
            (Times::Many, _) => self.most(piece, from),
            (Times::Some, Some(next)) => self.most(piece, &next),
            (Times::Once | Times::Maybe | Times::Some, _) => *from,
        }
    }
}
