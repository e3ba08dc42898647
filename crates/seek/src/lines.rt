// The lines of a sheet, and the matches of each.
use crate::trouble::Trouble;
use chars::lines::lines;
use matcher::Matcher;
use matcher::answer::{Region, Span};
use matches::all::all_matches;
use matches::step::next_match;
use std::alloc::Global;
use std::io::Write;
use std::{fmt, io};

// How many lines and matches there were.
#[derive(Clone, Copy)]
pub struct Tally {
    lines: u64,
    matches: u64,
}

impl fmt::Display for Tally {
    fn fmt<W: fmt::Write>(&self, f: &mut fmt::Formatter<W>) -> fmt::Result {
        let Tally { lines, matches } = *self;
        let lines_end = if lines == 1 { "" } else { "s" };
        let matches_end = if matches == 1 { "" } else { "es" };
        write!(f, "{lines} line{lines_end}, {matches} match{matches_end}")
    }
}

// Where the span lies in its line, and its text.
fn print_span<W: Write>(out: &mut W, line: &[u8], span: Span) -> io::Result<()> {
    let Span { begin, end } = span;
    write!(out, "{begin} {end} ")?;
    // a match lies within its line
    out.write_all(line.get(begin..end).unwrap_or(b""))?;
    out.write_all(b"\n")
}

// The groups that are present, each in a line of its own.
fn print_groups<W: Write>(out: &mut W, line: &[u8], region: &Region) -> io::Result<()> {
    for (k, group) in region.groups.iter().enumerate().skip(1) {
        if let Some(span) = group {
            write!(out, "  ({k}) ")?;
            print_span(out, line, *span)?;
        }
    }
    Ok(())
}

// What is looked for, and by which matcher.
#[derive(Drop)]
pub(crate) struct Quest<'a, M> {
    pub heap: Global,
    pub matcher: &'a M,
    pub expression: &'a [u8],
}

impl<M: Matcher> Quest<'_, M> {
    // The matches, with their groups: from its begin on, every matcher finds a match again.
    fn print_matches<W: Write>(
        &self,
        out: &mut W,
        number: u64,
        line: &str,
        spans: &[Span],
    ) -> io::Result<()> {
        for span in spans {
            write!(out, "{number} ")?;
            print_span(out, line.as_bytes(), *span)?;
            if let Ok(Some(found)) = next_match(self.matcher, self.expression, line, span.begin) {
                print_groups(out, line.as_bytes(), &found.region)?;
            }
        }
        Ok(())
    }

    // Prints the matches of one line, and says how many there were.
    fn seek_line<W: Write>(&self, out: &mut W, number: u64, line: &[u8]) -> Result<usize, Trouble> {
        let Ok(text) = std::str::from_utf8(line) else {
            writeln!(out, "{number} not UTF-8")?;
            return Ok(0);
        };
        let spans = all_matches(self.heap, self.matcher, self.expression, text)?;
        self.print_matches(out, number, text, spans.as_slice())?;
        Ok(spans.len())
    }

    // Prints the matches of each line, and counts them.
    pub(crate) fn seek_lines<W: Write>(&self, out: &mut W, sheet: &[u8]) -> Result<Tally, Trouble> {
        let mut tally = Tally {
            lines: 0,
            matches: 0,
        };
        for (number, line) in (1u64..).zip(lines(sheet)) {
            tally.lines = number;
            // the line break is no part of the line
            let content = line.strip_suffix(b"\n").unwrap_or(line);
            let count = self.seek_line(out, number, content)?;
            tally.matches = tally.matches.saturating_add(count as u64);
        }
        Ok(tally)
    }
}
