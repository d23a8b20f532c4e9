//! A run of the program: its words, then the reads, then the work, then the writing.
ghost use Rattle.std.specs.Prelude.{◌≡◌, ◌≤◌, ◌-◌, Some, length, min, take, drop};
ghost use Rattle.knox_run.specs.Words.{bytes_of};
ghost use Rattle.knox_run.specs.Commands.{command_of, most_texts};
ghost use Rattle.knox_run.specs.Outcomes.{status_of, to_out, to_err};
ghost use Rattle.knox_run.specs.Writing.{Delivers};
ghost use Rattle.knox_run.specs.Runs.{seen, Because, Ends, names_of};
ghost use Rattle.knox_run.specs.Consequences.{SaysYes, SaysClosed, SaysOneMeaning, SaysUsage, IsComplete, IsCompleteYes, TellsFirstFault, GoesThrough, Explains, AsksPrefix};

use crate::answer::{answer_of, deliver};
use crate::command::{Command, read_command};
use crate::judging::{check_given, judge, solve_given};
use crate::outcome::Outcome;
use crate::reading::read_texts;
use crate::status::Status;
use crate::words::Words;
use knox_edge::{Shelf, Sink};
use std::alloc::Global;

/// So many words after the first, or all of fewer.
fn first_names(words: &[Vec<u8>], most: usize) -> &[Vec<u8>]
    ensures names { bytes_of result.now ≡ take most (drop 1 (bytes_of words.now)) }
    ensures count { length result.now ≡ min most (length words.now - 1) }
{
    match words {
        [] => words,
        [_, names @ ..] if names.len() > most => &names[..most],
        [_, names @ ..] => names,
    }
}

/// How many names of texts stand behind a command's name at most.
fn most_texts(command: Option<Command>) -> usize
    ensures { result ≡ most_texts command }
{
    match command {
        Some(Command::Sat { .. }) => 1,
        _ => 5,
    }
}

/// The names of a command's texts.
fn text_names(words: &[Vec<u8>]) -> &[Vec<u8>]
    ensures { bytes_of result.now ≡ names_of (bytes_of words.now) }
{
    first_names(words, most_texts(read_command(words)))
}

/// Verifies the texts of these names, which are the five of a verify command.
fn verify<F: Shelf>(
    alloc: Global,
    names: &[Vec<u8>],
    shelf: &mut F,
    budget: u64,
    paths: u32,
) -> Outcome
    requires { length names.now ≡ 5 }
    ensures { Because (Some (Command.Verify budget paths)) (bytes_of names.now) (F.history shelf.old) (F.history shelf.new) result }
{
    match read_texts(Command::Verify { budget, paths }, names, shelf) {
        Ok(first) => judge(alloc, &*shelf, first, budget, paths),
        Err(outcome) => outcome,
    }
}

/// Checks the texts of these names, which are the two of a check command.
fn check<F: Shelf>(alloc: Global, names: &[Vec<u8>], shelf: &mut F) -> Outcome
    requires { length names.now ≡ 2 }
    ensures { Because (Some Command.Check) (bytes_of names.now) (F.history shelf.old) (F.history shelf.new) result }
{
    match read_texts(Command::Check, names, shelf) {
        Ok(first) => check_given(alloc, &*shelf, first),
        Err(outcome) => outcome,
    }
}

/// Solves the formula of this name.
fn sat<F: Shelf>(alloc: Global, names: &[Vec<u8>], shelf: &mut F, budget: u64) -> Outcome
    requires one { length names.now ≡ 1 }
    requires budget { 1 ≤ budget }
    ensures { Because (Some (Command.Sat budget)) (bytes_of names.now) (F.history shelf.old) (F.history shelf.new) result }
{
    match read_texts(Command::Sat { budget }, names, shelf) {
        Ok(place) => solve_given(alloc, &*shelf, place, budget),
        Err(outcome) => outcome,
    }
}

/// What the words come to. Nothing is written here.
fn work<F: Shelf>(alloc: Global, words: &[Vec<u8>], shelf: &mut F) -> Outcome
    ensures { Because (command_of (bytes_of words.now)) (names_of (bytes_of words.now)) (F.history shelf.old) (F.history shelf.new) result }
{
    match read_command(words) {
        None => Outcome::NoCommand,
        Some(Command::Verify { budget, paths }) => {
            verify(alloc, first_names(words, 5), shelf, budget, paths)
        }
        Some(Command::Check) => check(alloc, first_names(words, 5), shelf),
        Some(Command::Sat { budget }) => sat(alloc, first_names(words, 1), shelf, budget),
        Some(_) => Outcome::Unbuilt,
    }
}

/// Puts what an outcome says on the sinks, where the command's texts have these names.
fn say<O: Sink, E: Sink>(
    alloc: Global,
    outcome: &Outcome,
    names: &[Vec<u8>],
    out: &mut O,
    err: &mut E,
) -> Status
    ensures { Delivers (to_out outcome.now) (to_err (bytes_of names.now) outcome.now) (status_of outcome.now) result (O.told out.old) (O.told out.new) (E.told err.old) (E.told err.new) }
{
    match answer_of(alloc, outcome, names) {
        Ok(answer) => deliver(&answer, out, err),
        Err(_) => Status::Memory,
    }
}

/// Does what the words ask for, and answers how that ended. Texts are read from the shelf, a
/// verdict goes to `out`, and a usage line, a fault or `not yet` goes to `err`.
///
/// - `Usage` comes where the words are no command, and nothing is read.
/// - `NotYet` comes where the command isn't built, and then nothing is read, or where the first of
///   five texts without a meaning is in no form that is built.
/// - `ReadFault` and `Text` come where a read was refused; `Text` also with the first fault of a
///   check's texts, of a formula, or of five texts where it is told.
/// - `WriteFault` comes in place of the status that was to come, where a put failed.
/// - `Memory` may come at any point.
pub fn run<F: Shelf, O: Sink, E: Sink>(
    alloc: Global,
    words: &Words,
    shelf: &mut F,
    out: &mut O,
    err: &mut E,
) -> Status
    ensures yes { SaysYes (seen (bytes_of words.now.items.items) (F.history shelf.old) (F.history shelf.new) (O.told out.old) (O.told out.new) (E.told err.old) (E.told err.new) result) }
    ensures closed { SaysClosed (seen (bytes_of words.now.items.items) (F.history shelf.old) (F.history shelf.new) (O.told out.old) (O.told out.new) (E.told err.old) (E.told err.new) result) }
    ensures one_meaning { SaysOneMeaning (seen (bytes_of words.now.items.items) (F.history shelf.old) (F.history shelf.new) (O.told out.old) (O.told out.new) (E.told err.old) (E.told err.new) result) }
    ensures complete { IsComplete (seen (bytes_of words.now.items.items) (F.history shelf.old) (F.history shelf.new) (O.told out.old) (O.told out.new) (E.told err.old) (E.told err.new) result) }
    ensures complete_yes { IsCompleteYes (seen (bytes_of words.now.items.items) (F.history shelf.old) (F.history shelf.new) (O.told out.old) (O.told out.new) (E.told err.old) (E.told err.new) result) }
    ensures first_fault { TellsFirstFault (seen (bytes_of words.now.items.items) (F.history shelf.old) (F.history shelf.new) (O.told out.old) (O.told out.new) (E.told err.old) (E.told err.new) result) }
    ensures unhindered { GoesThrough (seen (bytes_of words.now.items.items) (F.history shelf.old) (F.history shelf.new) (O.told out.old) (O.told out.new) (E.told err.old) (E.told err.new) result) }
    ensures usage { SaysUsage (seen (bytes_of words.now.items.items) (F.history shelf.old) (F.history shelf.new) (O.told out.old) (O.told out.new) (E.told err.old) (E.told err.new) result) }
    ensures names { AsksPrefix (seen (bytes_of words.now.items.items) (F.history shelf.old) (F.history shelf.new) (O.told out.old) (O.told out.new) (E.told err.old) (E.told err.new) result) }
    ensures ends { Ends (seen (bytes_of words.now.items.items) (F.history shelf.old) (F.history shelf.new) (O.told out.old) (O.told out.new) (E.told err.old) (E.told err.new) result) }
    ensures explained { Explains (seen (bytes_of words.now.items.items) (F.history shelf.old) (F.history shelf.new) (O.told out.old) (O.told out.new) (E.told err.old) (E.told err.new) result) result }
{
    let words = words.items.as_slice();
    let outcome = work(alloc, words, shelf);
    say(alloc, &outcome, text_names(words), out, err)
}
