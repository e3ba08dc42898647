// Finds the matches of an expression in the lines of standard input.
//
//     seek word 'salt|pepper' < sheet.txt
//     seek expression '(\d+) ([kg]+)' < sheet.txt
//
// prints a line for each match, as `3 0 5 500 g`: the line's number from 1, the bytes of the line from which and up to which the
// match goes, and its text; below it a line for each group that is present, as `  (1) 0 3 500`. A line break is no part of its line.
// A line that is not UTF-8 is named and skipped, and the last line says how many lines and matches there were. An expression that is
// refused is shown with a caret under the first byte with which no expression goes on, and no input is read. After a refusal, and
// where the arguments are wrong or reading or writing fails, the status is 1.
#![tactic(auto)]

mod caret;
mod lines;
mod trouble;

use crate::caret::print_refusal;
use crate::lines::Quest;
use crate::trouble::Trouble;
use expression::ExpressionMatcher;
use matcher::Matcher;
use std::env;
use std::io::{BufWriter, Read, Write};
use std::process::ExitCode;
use word::WordMatcher;

// The matches in standard input, unless the matcher refuses the expression.
fn seek<M: Matcher>(rt: &HostRuntime, matcher: &M, expression: &str) -> Result<(), Trouble> {
    let mut out = BufWriter::new(rt.alloc(), rt.stdout())?;
    if let Err(illegal) = matcher.check(expression.as_bytes()) {
        print_refusal(&mut out, rt.alloc(), expression, illegal)?;
        out.flush()?;
        return Err(Trouble::Refused);
    }
    let mut sheet = Vec::new(rt.alloc());
    rt.stdin().read_to_end(&mut sheet)?;
    let quest = Quest {
        heap: rt.alloc(),
        matcher,
        expression: expression.as_bytes(),
    };
    let tally = quest.seek_lines(&mut out, sheet.as_slice())?;
    writeln!(out, "{tally}")?;
    out.flush()?;
    Ok(())
}

fn run(rt: &HostRuntime) -> Result<(), Trouble> {
    let mut args = env::args(rt)?;
    let (Some(_), Some(matcher), Some(expression), None) = (
        args.next(),
        args.next(),
        args.next(),
        args.next(),
    ) else {
        return Err(Trouble::Usage);
    };
    match matcher.as_str() {
        "word" => seek(rt, &WordMatcher, expression.as_str()),
        "expression" => seek(rt, &ExpressionMatcher::new(rt.alloc()), expression.as_str()),
        _ => Err(Trouble::Usage),
    }
}

fn main(rt: HostRuntime) -> ExitCode {
    match run(&rt) {
        Ok(()) => ExitCode::SUCCESS,
        // the caret has shown it
        Err(Trouble::Refused) => ExitCode::FAILURE,
        Err(trouble) => {
            let _ = eprintln!(rt; "{trouble}");
            ExitCode::FAILURE
        }
    }
}
