// Answers cases: reads their records on standard input, and prints what each call and each search answers.
//
//     matcher word
//     search 73616c74 35206720 0
//
// is answered `= nothing`. Before the answers of a case stands `case N`. A line that is empty or begins with `#` or with `= `, an
// expected answer, is passed over. Of a record that is not answered here, or is not written as it should be, one line that
// begins with `?` says which and why, and reading goes on.
#![tactic(auto)]

mod answers;
mod mistake;
mod records;

use crate::answers::Replay;
use std::io;
use std::io::{BufWriter, Read, Write};
use std::process::ExitCode;

fn run(rt: &HostRuntime) -> io::Result<()> {
    let mut cases = Vec::new(rt.alloc());
    rt.stdin().read_to_end(&mut cases)?;
    let mut out = BufWriter::new(rt.alloc(), rt.stdout())?;
    Replay::new(&mut out, rt.alloc()).answer_all(cases.as_slice())?;
    out.flush()
}

fn main(rt: HostRuntime) -> ExitCode {
    match run(&rt) {
        Ok(()) => ExitCode::SUCCESS,
        Err(error) => {
            let _ = eprintln!(rt; "replay: {error}");
            ExitCode::FAILURE
        }
    }
}
