// A table of which items match from which places, filled from the last item to the first.
ghost use Rattle.std.specs.Prelude.{◌≡◌, true, false, List, [], IfOk};
ghost use Rattle.grammar.specs.Grammar as g;
ghost use Rattle.grammar.specs.Grammar.{Legal};
ghost use Rattle.table.specs.Cells.{Row};
ghost use Rattle.table.specs.Places.{WrittenAt, FirstIs, Stand};

use crate::row::row;
use grammar::expression::Expression;
use grammar::items::{Item, Items};
use std::alloc::{AllocError, Global};

// Which of the items of an expression match from which places of a line.
#[derive(Drop)]
pub struct Table {
    // the row n is that of the items from the nth on; the last one is that of no item
    pub(crate) rows: Vec<Vec<bool>>,
}

// Where the items of the expression stand. A place takes less memory than its item, which is read again there.
fn places(heap: Global, expression: &Expression<'_>) -> Result<Vec<usize>, AllocError>
    ensures { IfOk result (λ v. Stand expression.now.text.now v.items) }
{
    let mut places = Vec::new(heap);
    let mut left = expression.items();
    while let Some((_, others)) = left.split_first() {
        places.push(expression.text.len() - left.rest.len())?;
        left = others;
    }
    Ok(places)
}

// The item that stands at the place, if one does.
fn read_at<'a>(expression: &Expression<'a>, place: usize) -> Option<Item<'a>>
    ensures { (is : List g.Item) → WrittenAt expression.now.text.now place is → FirstIs is result }
{
    let rest = expression.text.get(place..)?;
    let (item, _) = Items { rest }.split_first()?;
    Some(item)
}

// The row of no items, which match from everywhere.
fn last_row(heap: Global, line: &str) -> Result<Vec<bool>, AllocError>
    ensures { IfOk result (λ v. Row line.now [] v.items) }
{
    vec![in heap; true; line.len() + 1]
}

impl Table {
    ghost use Rattle.table.specs.Tables.{is_filled as is_filled_spec, Filled};

    // A table that is not filled. Allocates nothing.
    pub fn none(heap: Global) -> Table
        ensures { is_filled_spec result ≡ false }
    {
        Table {
            rows: Vec::new(heap),
        }
    }

    pub fn is_filled(&self) -> bool
        ensures { result ≡ is_filled_spec self.now }
    {
        !self.rows.is_empty()
    }

    // The table of the expression and the line. Costs as many steps as the product of their lengths.
    pub fn fill(heap: Global, expression: &Expression<'_>, line: &str) -> Result<Table, AllocError>
        ensures { IfOk result (λ t. Filled expression.now.text.now line.now t) }
    {
        let mut places = places(heap, expression)?;
        let mut rows = Vec::with_capacity(heap, places.len() + 1)?;
        let mut below = last_row(heap, line)?;
        while let Some(place) = places.pop() {
            if let Some(item) = read_at(expression, place) {
                let here = row(heap, &item, line, &below)?;
                rows.push(below)?;
                below = here;
            }
        }
        rows.push(below)?;
        rows.reverse();
        Ok(Table { rows })
    }

    // The same of any bytes. Those that are no legal expression have the row of no items alone.
    pub fn fill_bytes(heap: Global, expression: &[u8], line: &str) -> Result<Table, AllocError>
        ensures filled { IfOk result (λ t. is_filled_spec t ≡ true) }
        ensures rows { IfOk result (λ t. Legal expression.now → Filled expression.now line.now t) }
    {
        match Expression::new(expression) {
            Ok(expression) => Table::fill(heap, &expression, line),
            Err(_) => {
                let last = last_row(heap, line)?;
                Ok(Table {
                    rows: vec![in heap; last]?,
                })
            }
        }
    }
}
