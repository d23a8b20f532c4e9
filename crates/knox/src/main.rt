//! The program `knox`: verifies a hardware security module against its specification.
#![tactic(auto)]

use knox_edge::{FileShelf, StreamSink};
use knox_run::{NoWords, program_words, run};
use std::process::ExitCode;

/// Runs the words of the command line over the files and the streams of the system. Where the
/// system doesn't give the words, nothing runs, and the number is 9 for want of memory, else 12.
fn main(rt: HostRuntime) -> ExitCode {
    let words = match program_words(&rt, rt.alloc()) {
        Ok(words) => words,
        Err(NoWords::Memory) => return ExitCode::from(9),
        Err(NoWords::Refused) => return ExitCode::from(12),
    };
    let mut shelf = FileShelf::new(&rt, rt.alloc());
    let mut out = StreamSink::new(rt.stdout());
    let mut err = StreamSink::new(rt.stderr());
    let status = run(rt.alloc(), &words, &mut shelf, &mut out, &mut err);
    ExitCode::from(status.number())
}
