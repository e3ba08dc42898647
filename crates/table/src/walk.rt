// The preferred way through a filled table.
ghost use Rattle.std.specs.Prelude.{ℕ, List};
ghost use Rattle.grammar.specs.Grammar as g;
ghost use Rattle.ways.specs.Match.{run};
ghost use Rattle.ways.specs.Meaning.{leading};
ghost use Rattle.ways.specs.Matched.{Matches};
ghost use Rattle.ways.specs.Starts.{Begins};
ghost use Rattle.table.specs.Tables.{Filled, RowsFrom};
ghost use Rattle.table.specs.Walks.{Follows};

use crate::cell::{Rows, is_set};
use crate::fill::Table;
use arrayvec::ArrayVec;
use grammar::items::{Item, Items};
use std::convert::Infallible;
use ways::cursor::Cursor;
use ways::find::{FindWay, Matched};
use ways::start::Start;

// The way of the items from the place up to the next bar, where there is one; the rows are those of the items.
fn follow(mut rows: &[Vec<bool>], items: &Items<'_>, from: &Cursor<'_>) -> Matched
    ensures { Follows rows.now items.now.rest.now from.now result }
{
    let mut end = *from;
    let mut brackets = ArrayVec::new();
    let mut left = *items;
    while let (Some((item, others)), [here, below, ..]) = (left.split_first(), rows) {
        match item {
            Item::Take(piece, times) => {
                end = Rows { here, below }.take(&piece, times, &end);
            }
            Item::Open | Item::Close => {
                // an expression has no more brackets than there is room for
                let _ = brackets.try_push(end.place);
            }
            // these hold here, since there is a way
            Item::Start | Item::End | Item::Never => {}
            Item::Bar => break,
        }
        left = others;
        rows = &rows[1..];
    }
    Matched {
        end: end.place,
        brackets,
    }
}

impl Table {
    // The rows of the items of an alternative and of those behind it. The last row is that of no item.
    fn rows_from(&self, start: &Start<'_>) -> &[Vec<bool>]
        ensures { RowsFrom self.now start.now result.now }
    {
        let last = self.rows.len().saturating_sub(1);
        &self.rows[start.nth.min(last)..]
    }

    // The match that begins at the place `from` of the line, of the alternative that begins at `start`.
    pub fn walk(&self, start: &Start<'_>, from: &Cursor<'_>) -> Option<Matched>
        ensures { (e : List ℕ) (is : List g.Item) → Filled e from.now.line.now self.now → Begins e start.now is → Matches (leading is) from.now.place (run from.now.line.now (leading is) from.now.place) result }
    {
        let rows = self.rows_from(start);
        match rows.first() {
            Some(row) if is_set(row, from.place) => Some(follow(rows, &start.items, from)),
            _ => None,
        }
    }
}

impl FindWay for Table {
    type Stop = Infallible;

    ghost serves = { λ t e l. Filled e l t };

    fn find_way(
        &mut self,
        start: &Start<'_>,
        from: &Cursor<'_>,
    ) -> Result<Option<Matched>, Infallible> {
        Ok(self.walk(start, from))
    }
}
