// The way through the items that leave no choice.
ghost use Rattle.std.specs.Prelude.{◌≡◌, OnOk};

use crate::limit::Limit;
use grammar::items::{Item, Items, Piece, Times};
use ways::cursor::Cursor;

// What comes behind them.
#[derive(Clone, Copy)]
pub(crate) enum Choice<'e, 'l> {
    // nothing: here the items end, if they match
    Ended(Option<usize>),
    // a piece that is taken up to this place, or not at all
    Maybe(Cursor<'l>),
    // a piece that is taken as often as can be
    Many(Piece<'e>),
    // a bracket, whose place is noted once the items behind it match
    Bracket,
}

// How far a try has come.
#[derive(Clone, Copy)]
pub(crate) struct Reached<'e, 'l> {
    pub left: Items<'e>,
    pub here: Cursor<'l>,
    // what comes there
    pub choice: Choice<'e, 'l>,
}

impl<'e, 'l> Reached<'e, 'l> {
    ghost use Rattle.tries.specs.Choices.{Comes, Onward};

    // Goes past the items that leave no choice, and past the one that leaves it; each is a try, and nests the next one deeper. A
    // call of its own, and one that writes the choice where it is read, so that little is held where tries nest.
    #[inline(never)]
    pub(crate) fn forward<L: Limit>(
        &mut self,
        limit: &mut L,
        depth: L::Depth,
    ) -> Result<L::Depth, L::Stop>
        ensures comes { OnOk result (Comes self.old.left self.old.here self.new.choice self.new.left self.new.here) }
        ensures onward { OnOk result (Onward self.old.left self.new.choice self.new.left) }
        ensures line { self.new.here.line.now ≡ self.old.here.line.now }
    {
        let mut depth = depth;
        while let Some((item, others)) = self.left.split_first() {
            depth = limit.deeper(depth)?;
            self.left = others;
            self.choice = match item {
                Item::Take(piece, times) => match (times, self.here.step(&piece)) {
                    (Times::Once, Some(next)) => {
                        self.here = next;
                        continue;
                    }
                    (Times::Maybe, Some(next)) => Choice::Maybe(next),
                    (Times::Many, _) => Choice::Many(piece),
                    (Times::Some, Some(next)) => {
                        self.here = next;
                        Choice::Many(piece)
                    }
                    (Times::Maybe, None) => continue,
                    (Times::Once | Times::Some, None) => Choice::Ended(None),
                },
                Item::Open | Item::Close => Choice::Bracket,
                Item::Start if self.here.is_at_start() => continue,
                Item::End if self.here.is_at_end() => continue,
                Item::Start | Item::End | Item::Never => Choice::Ended(None),
                Item::Bar => Choice::Ended(Some(self.here.place)),
            };
            return Ok(depth);
        }
        self.choice = Choice::Ended(Some(self.here.place));
        Ok(depth)
    }
}
