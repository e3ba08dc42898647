// The match of an alternative by a table: which items of an expression match from which places of a line.
//
// Trying (the crate `tries`) can take time beyond all bounds, as `a*a*a*b` on many an `a` does. A table has a cell for each item
// and each place, which tells whether that item and those behind it, up to the next bar, match from there. `Table::fill` sets the
// cells from the last item to the first and from the last place to the first, so that each is told by a few that are set already.
// `Table::walk` then reads off the preferred match in one pass: each repeat takes one character more as long as the rest still
// matches. One table serves all alternatives and all begins of matches in its line. Nothing recurses, so that expressions and
// lines may have any length; the table takes as many bytes as there are cells, and `fill` says so where there is no memory.
#![tactic(auto)]

mod cell;
pub mod fill;
mod row;
mod take;
pub mod walk;
