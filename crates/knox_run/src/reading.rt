//! Reads a command's texts in the order of its words.
ghost use Rattle.std.specs.Prelude.{◌≡◌, ◌<◌, ◌≤◌, ◌+◌, ◌^◌, length, MatchResult};
ghost use Rattle.knox_run.specs.Words.{bytes_of};
ghost use Rattle.knox_run.specs.Reading.{ReadWhole, RefusesRead, letter_of};

use crate::command::Command;
use crate::outcome::{Outcome, TextFault};
use knox_edge::{Shelf, ShelfEnd};
use knox_verify::{Letter, TextWhy};

/// The letter of a command's text, by its place.
fn letter_of(command: Command, which: usize) -> Letter
    ensures { result ≡ letter_of command which }
{
    match (command, which) {
        (Command::Sat { .. }, _) => Letter::F,
        (Command::Check, 0) => Letter::F,
        (Command::Check, _) => Letter::P,
        (_, 0) => Letter::C,
        (_, 1) => Letter::S,
        (_, 2) => Letter::D,
        (_, 3) => Letter::E,
        _ => Letter::H,
    }
}

/// Reads the texts of a command, by their names, and answers the place of the first.
pub fn read_texts<F: Shelf>(
    command: Command,
    names: &[Vec<u8>],
    shelf: &mut F,
) -> Result<usize, Outcome>
    requires { 0 < length names.now }
    ensures { MatchResult result
        (λ first. ReadWhole (bytes_of names.now) (F.history shelf.old) (F.history shelf.new) × (first ≡ length (F.history shelf.old).given) × (first + length names.now ≤ 2 ^ 64))
        (RefusesRead command (bytes_of names.now) (F.history shelf.old) (F.history shelf.new)) }
{
    let mut last = 0;
    for (which, name) in names.iter().enumerate() {
        match shelf.read(name.as_slice()) {
            Ok(place) => last = place,
            Err(ShelfEnd::Failed) => return Err(Outcome::Unread(which)),
            Err(ShelfEnd::TooLong) => {
                let letter = letter_of(command, which);
                return Err(Outcome::Text(letter, TextFault::OfDevice(TextWhy::TooLong)));
            }
            Err(ShelfEnd::Memory) => return Err(Outcome::Memory),
        }
    }
    Ok(last - (names.len() - 1))
}
