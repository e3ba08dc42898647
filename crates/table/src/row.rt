// One row of a table: whether the items from one on, up to the next bar, match, for each place of the line.
ghost use Rattle.std.specs.Prelude.{IfOk};
ghost use Rattle.table.specs.Cells.{RowOn};

use crate::cell::Rows;
use grammar::items::Item;
use std::alloc::{AllocError, Global};
use ways::cursor::Cursor;

// The row of the item, the last place first, from that of the items behind it.
pub(crate) fn row(
    heap: Global,
    item: &Item<'_>,
    line: &str,
    below: &[bool],
) -> Result<Vec<bool>, AllocError>
    ensures { IfOk result (λ v. RowOn item.now line.now below.now v.items) }
{
    let mut here = vec![in heap; false; below.len()]?;
    for place in (0..here.len()).rev() {
        if let Some(from) = Cursor::new(line, place) {
            let set = Rows { here: &here, below }.cell(item, &from);
            here[place] = set;
        }
    }
    Ok(here)
}
