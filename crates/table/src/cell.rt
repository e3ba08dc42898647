// One cell of a table: whether the items from one on, up to the next bar, match from a place of the line.
ghost use Rattle.std.specs.Prelude.{◌≡◌, false, slice_index_or};

use grammar::items::{Item, Piece, Times};
use ways::cursor::Cursor;

// Whether there is such a cell, and it is set.
pub(crate) fn is_set(cells: &[bool], place: usize) -> bool
    ensures { result ≡ slice_index_or cells.now place false }
{
    cells.get(place).copied().unwrap_or(false)
}

// Two rows: of an item and those behind it, and of those behind it alone.
#[derive(Clone, Copy)]
pub(crate) struct Rows<'r> {
    pub here: &'r [bool],
    pub below: &'r [bool],
}

impl<'r> Rows<'r> {
    ghost use Rattle.table.specs.Cells.{Tells, TellsTaken};

    // Whether the piece, as often as `times` says, and the items behind it match from the place. Of the row `here` the cells of
    // the places above are known.
    fn taken(&self, piece: &Piece<'_>, times: Times, from: &Cursor<'_>) -> bool
        ensures { TellsTaken piece.now times from.now self.now result }
    {
        match (times, from.step(piece)) {
            (Times::Once, Some(next)) => is_set(self.below, next.place),
            (Times::Maybe, Some(next)) => is_set(self.below, next.place)
                || is_set(self.below, from.place),
            (Times::Many, Some(next)) => is_set(self.here, next.place)
                || is_set(self.below, from.place),
            (Times::Some, Some(next)) => is_set(self.here, next.place)
                || is_set(self.below, next.place),
            (Times::Maybe | Times::Many, None) => is_set(self.below, from.place),
            (Times::Once | Times::Some, None) => false,
        }
    }

    // Whether the item and those behind it match from the place. Of the row `here` the cells of the places above are known.
    pub(crate) fn cell(&self, item: &Item<'_>, from: &Cursor<'_>) -> bool
        ensures { Tells item.now from.now self.now result }
    {
        match item {
            Item::Take(piece, times) => self.taken(piece, *times, from),
            Item::Bar => true,
            Item::Open | Item::Close => is_set(self.below, from.place),
            Item::Start => from.is_at_start() && is_set(self.below, from.place),
            Item::End => from.is_at_end() && is_set(self.below, from.place),
            Item::Never => false,
        }
    }
}
