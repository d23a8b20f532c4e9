//! A run's answer as one value, and how it reaches the sinks.
ghost use Rattle.std.specs.Prelude.{◌≡◌, ◌<◌, ◌≤◌, length, IfOk, [], slice_index_or};
ghost use Rattle.knox_run.specs.Words.{bytes_of};
ghost use Rattle.knox_run.specs.Outcomes.{status_of, to_out, to_err};
ghost use Rattle.knox_run.specs.Writing.{Puts, Delivers};

use crate::checking::CheckEnd;
use crate::lines::{cannot_read, check_line, text_line, verdict_lines};
use crate::outcome::Outcome;
use crate::solving::solved_lines;
use crate::status::Status;
use knox_edge::{Sink, SinkEnd};
use knox_verify::Verdict;
use sat_core::Solved;
use std::alloc::{AllocError, Global};

/// The line of a command's use.
const USAGE: &[u8] =
    b"usage: knox verify C S D E H [budget N] [paths N] | replay C S D E T | prove F [budget N] | sat F [budget N] | check F P | selftest N\n";

/// The line of what isn't built.
const NOT_YET: &[u8] = b"not yet\n";

/// A status, and the lines for `out` and `err`.
#[derive(Drop)]
pub struct Answer {
    status: Status,
    out: Vec<u8>,
    err: Vec<u8>,
}

/// The status of an outcome.
fn status_of(outcome: &Outcome) -> Status
    ensures { result ≡ status_of outcome.now }
{
    match outcome {
        Outcome::NoCommand => Status::Usage,
        Outcome::Unbuilt => Status::NotYet,
        Outcome::Unread(_) => Status::ReadFault,
        Outcome::Text(_, _) => Status::Text,
        Outcome::Judged(Verdict::Yes) => Status::Yes,
        Outcome::Judged(Verdict::Undecided(_, _)) => Status::Undecided,
        Outcome::Judged(Verdict::TooWide(_, _)) => Status::TooWide,
        Outcome::Checked(CheckEnd::Verified) => Status::Done,
        Outcome::Checked(_) => Status::No,
        Outcome::Solved(Solved::Spent(_)) => Status::Spent,
        Outcome::Solved(_) => Status::Done,
        Outcome::Memory => Status::Memory,
    }
}

/// What is written to `out`: a verdict, how a check ended, or what a formula comes to.
fn to_out(alloc: Global, outcome: &Outcome) -> Result<Vec<u8>, AllocError>
    ensures { IfOk result (λ text. text.items ≡ to_out outcome.now) }
{
    match outcome {
        Outcome::Judged(verdict) => Ok(verdict_lines(alloc, verdict)?.into_bytes()),
        Outcome::Checked(end) => Ok(check_line(alloc, *end)?.into_bytes()),
        Outcome::Solved(solved) => solved_lines(alloc, solved),
        _ => Ok(Vec::new(alloc)),
    }
}

/// The name at a place, or no bytes past the end.
fn name_at(names: &[Vec<u8>], which: usize) -> &[u8]
    ensures { result.now ≡ slice_index_or (bytes_of names.now) which [] }
{
    match names.get(which) {
        Some(name) => name.as_slice(),
        None => b"",
    }
}

/// What is written to `err`, where the command's texts have these names.
fn to_err(alloc: Global, outcome: &Outcome, names: &[Vec<u8>]) -> Result<Vec<u8>, AllocError>
    ensures { IfOk result (λ text. text.items ≡ to_err (bytes_of names.now) outcome.now) }
{
    match outcome {
        Outcome::NoCommand => Vec::from_slice(alloc, USAGE),
        Outcome::Unbuilt => Vec::from_slice(alloc, NOT_YET),
        Outcome::Unread(which) => cannot_read(alloc, name_at(names, *which)),
        Outcome::Text(letter, why) => Ok(text_line(alloc, *letter, *why)?.into_bytes()),
        _ => Ok(Vec::new(alloc)),
    }
}

/// What an outcome says, where the command's texts have these names.
pub fn answer_of(alloc: Global, outcome: &Outcome, names: &[Vec<u8>]) -> Result<Answer, AllocError>
    ensures status { IfOk result (λ a. a.status ≡ status_of outcome.now) }
    ensures out { IfOk result (λ a. a.out.items ≡ to_out outcome.now) }
    ensures err { IfOk result (λ a. a.err.items ≡ to_err (bytes_of names.now) outcome.now) }
{
    let status = status_of(outcome);
    let out = to_out(alloc, outcome)?;
    let err = to_err(alloc, outcome, names)?;
    Ok(Answer { status, out, err })
}

/// How many bytes the first line of a text has.
fn line_length(text: &[u8]) -> usize
    requires { 0 < length text.now }
    ensures more { 0 < result }
    ensures within { result ≤ length text.now }
{
    match text.iter().position(|byte| *byte == b'\n') {
        Some(at) => at + 1,
        None => text.len(),
    }
}

/// Writes a text, each of its lines as one piece. One that isn't written to its end has a status of
/// its own.
fn put_lines<K: Sink>(sink: &mut K, text: &[u8]) -> Result<(), Status>
    ensures { Puts text.now result (K.told sink.old) (K.told sink.new) }
{
    let mut left = text;
    while !left.is_empty() {
        let (line, rest) = left.split_at(line_length(left));
        match sink.put(line) {
            Ok(()) => left = rest,
            Err(SinkEnd::Failed) => return Err(Status::WriteFault),
            Err(SinkEnd::Memory) => return Err(Status::Memory),
        }
    }
    Ok(())
}

/// Writes an answer, and answers its status, or that of a line that wasn't written to its end.
pub fn deliver<O: Sink, E: Sink>(answer: &Answer, out: &mut O, err: &mut E) -> Status
    ensures { Delivers answer.now.out.items answer.now.err.items answer.now.status result (O.told out.old) (O.told out.new) (E.told err.old) (E.told err.new) }
{
    if let Err(status) = put_lines(out, answer.out.as_slice()) {
        return status;
    }
    match put_lines(err, answer.err.as_slice()) {
        Ok(()) => answer.status,
        Err(status) => status,
    }
}
