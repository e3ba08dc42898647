// The answer of each record.
ghost use Rattle.std.specs.Prelude.{◌≡◌, ℕ, suc, ◌<◌, ◌≤◌, None as Absent, ◌≢◌};
ghost use Rattle.matcher.specs.Regions.{group};

use crate::mistake::Mistake;
use crate::records::{Named, Record, read_record};
use chars::lines::{lines, next_line};
use matcher::answer::{Answer, Illegal, Region, Span};
use matcher::search::Matcher;
use std::alloc::Global;
use std::io;
use std::io::Write;
use word::WordMatcher;

// How many groups there are up to the last that is present.
fn groups_present(region: &Region) -> usize
    ensures rest { (k : ℕ) → result ≤ k → k < 16 → group region.now k ≡ Absent }
    ensures last { (k : ℕ) → suc k ≡ result → group region.now k ≢ Absent }
{
    let last = region.groups.iter().rposition(|group| group.is_some());
    last.map_or(0, |k| k + 1)
}

fn print_region<W: Write>(out: &mut W, region: &Region) -> io::Result<()> {
    out.write_all(b"= found")?;
    for group in region.groups.iter().take(groups_present(region)) {
        match group {
            Some(Span { begin, end }) => write!(out, " {begin} {end}")?,
            None => out.write_all(b" - -")?,
        }
    }
    out.write_all(b"\n")
}

fn print_answer<W: Write>(out: &mut W, answer: &Answer) -> io::Result<()> {
    match answer {
        Ok(Some(region)) => print_region(out, region),
        Ok(None) => out.write_all(b"= nothing\n"),
        Err(Illegal { at }) => writeln!(out, "= refused {at}"),
    }
}

// What goes from record to record: where the answers are printed, the number of the line, and the matcher that was named last.
#[derive(Drop)]
pub(crate) struct Replay<'w, W> {
    out: &'w mut W,
    heap: Global,
    number: u64,
    matcher: Option<Named>,
}

impl<'w, W: Write> Replay<'w, W> {
    // Before the first record no matcher is named.
    pub(crate) fn new(out: &'w mut W, heap: Global) -> Replay<'w, W> {
        Replay {
            out,
            heap,
            number: 0,
            matcher: None,
        }
    }

    fn print_mistake(&mut self, mistake: Mistake) -> io::Result<()> {
        let number = self.number;
        writeln!(self.out, "? line {number}: {mistake}")
    }

    fn print_unanswered(&mut self, kind: &str, name: &[u8]) -> io::Result<()> {
        let number = self.number;
        write!(self.out, "? line {number}: not answered: {kind}")?;
        self.out.write_all(name)?;
        self.out.write_all(b"\n")
    }

    fn answer_search(&mut self, expression: &[u8], line: &[u8], place: u32) -> io::Result<()> {
        match self.matcher {
            Some(Named::Word) => print_answer(
                self.out,
                &WordMatcher.search(expression, line, place as usize),
            ),
            Some(Named::Expression) => self.print_unanswered(
                "search",
                b" with the matcher expression",
            ),
            None => self.print_mistake(Mistake::NoMatcher),
        }
    }

    fn answer_next_line(&mut self, from: u32, bytes: &[u8]) -> io::Result<()> {
        let begin = from as usize;
        if bytes.len() < begin {
            return self.print_mistake(Mistake::Past);
        }
        match next_line(&bytes[begin..]) {
            Some((_, behind)) => {
                let end = bytes.len() - behind.len();
                writeln!(self.out, "= line {begin} {end}")
            }
            None => self.out.write_all(b"= none\n"),
        }
    }

    // Prints what a record answers; a record that names a matcher changes the one for what follows.
    fn answer(&mut self, record: &Record<'_>) -> io::Result<()> {
        match record {
            Record::Case(case) => writeln!(self.out, "case {case}"),
            Record::End => Ok(()),
            Record::Matcher(name) => {
                self.matcher = Some(*name);
                Ok(())
            }
            Record::Search {
                expression,
                line,
                place,
            } => self.answer_search(expression.as_slice(), line.as_slice(), *place),
            Record::NextLine { from, bytes } => self.answer_next_line(*from, bytes.as_slice()),
            Record::Set(name) => self.print_unanswered("", name),
            Record::Call(name) => self.print_unanswered("call ", name),
        }
    }

    // A line that is empty or begins with `#` or with `= ` holds no record to answer.
    fn answer_line(&mut self, line: &[u8]) -> io::Result<()> {
        if matches!(line, [] | [b'#', ..] | [b'=', b' ', ..]) {
            return Ok(());
        }
        match read_record(self.heap, line) {
            Ok(record) => self.answer(&record),
            Err(mistake) => self.print_mistake(mistake),
        }
    }

    // Answers all records, line by line.
    pub(crate) fn answer_all(&mut self, cases: &[u8]) -> io::Result<()> {
        for (number, line) in (1u64..).zip(lines(cases)) {
            self.number = number;
            self.answer_line(line.strip_suffix(b"\n").unwrap_or(line))?;
        }
        Ok(())
    }
}
