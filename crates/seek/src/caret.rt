// A refused expression, with a caret under the byte at which it is refused.
use crate::trouble::Trouble;
use columns::layout::{before, padding, shown};
use matcher::answer::Illegal;
use std::alloc::Global;
use std::io::Write;

pub(crate) fn print_refusal<W: Write>(
    out: &mut W,
    heap: Global,
    expression: &str,
    illegal: Illegal,
) -> Result<(), Trouble> {
    let place = illegal.at;
    let line = shown(heap, expression)?;
    let gap = padding(heap, before(expression, place))?;
    writeln!(out, "{line}")?;
    writeln!(out, "{gap}^")?;
    writeln!(out, "refused {place}")?;
    Ok(())
}
