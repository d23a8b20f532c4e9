//! The commands of the command line. Their words have one fixed order.
ghost use Rattle.std.specs.Prelude.{◌≡◌, ◌≤◌, ◌+◌, ◌-◌, IfSome, length};
ghost use Rattle.std.specs.Option.{option_map};
ghost use Rattle.knox_run.specs.Words.{bytes_of};
ghost use Rattle.knox_run.specs.Commands.{HasTexts, limited, limit_after, budget_after, verify_with, verify_of, budgeted, slots_of, command_of};

use knox_text::natural;

/// What the words after the program's name ask for, with the numbers among them.
#[derive(Clone, Copy, Debug, PartialEq, Eq)]
pub enum Command {
    /// Verifies the five texts C, S, D, E and H, with at most `budget` lemmas for an obligation and
    /// at most `paths` branch words for a call section.
    Verify { budget: u64, paths: u32 },
    /// Replays the trace T of the texts C, S, D and E.
    Replay,
    /// Proves the goal F.
    Prove { budget: u64 },
    /// Solves the formula F.
    Sat { budget: u64 },
    /// Checks the proof P of the formula F.
    Check,
    /// Verifies the generated device with this many slots.
    Selftest { slots: u64 },
}

/// The number from 1 to a limit that a word of decimal digits stands for.
fn limited(most: u64, word: &[u8]) -> Option<u64>
    ensures value { result ≡ limited most word.now }
    ensures bound { IfSome result (λ n. n ≤ most) }
    ensures low { IfSome result (λ n. 1 ≤ n) }
{
    let number = natural(word)?;
    if 1 <= number && number <= u128::from(most) {
        Some(number as u64)
    } else {
        None
    }
}

/// A limit, and the words behind it: the number behind its key where the words begin with that,
/// else its default.
fn limit_after<'a>(
    key: &[u8],
    default: u64,
    most: u64,
    words: &'a [Vec<u8>],
) -> Option<(u64, &'a [Vec<u8>])>
    requires default { default ≤ most }
    requires some { 1 ≤ default }
    ensures value { option_map (λ r. (r.0, bytes_of r.1.now)) result ≡ limit_after key.now default most (bytes_of words.now) }
    ensures bound { IfSome result (λ r. r.0 ≤ most) }
    ensures low { IfSome result (λ r. 1 ≤ r.0) }
{
    match words {
        [word, number, rest @ ..] => {
            if word.as_slice() != key {
                return Some((default, words));
            }
            let number = limited(most, number.as_slice())?;
            Some((number, rest))
        }
        _ => Some((default, words)),
    }
}

/// How many lemmas an obligation may take, and the words behind.
fn budget_after(words: &[Vec<u8>]) -> Option<(u64, &[Vec<u8>])>
    ensures value { option_map (λ r. (r.0, bytes_of r.1.now)) result ≡ budget_after (bytes_of words.now) }
    ensures low { IfSome result (λ r. 1 ≤ r.0) }
{
    limit_after(b"budget", 1_000_000, 4_294_967_296, words)
}

/// The budget and the paths of a verify command, by the words after its texts.
fn verify_with(words: &[Vec<u8>]) -> Option<Command>
    ensures value { result ≡ verify_with (bytes_of words.now) }
    ensures texts { IfSome result (λ command. HasTexts command (length words.now + 5)) }
{
    let (budget, rest) = budget_after(words)?;
    let (paths, rest) = limit_after(b"paths", 4096, 65_536, rest)?;
    let paths = paths as u32;
    rest.is_empty().then_some(Command::Verify { budget, paths })
}

/// C S D E H, and then the budget and the paths.
fn verify_command(words: &[Vec<u8>]) -> Option<Command>
    ensures value { result ≡ verify_of (bytes_of words.now) }
    ensures texts { IfSome result (λ command. HasTexts command (length words.now)) }
{
    if words.len() < 5 {
        return None;
    }
    verify_with(&words[5..])
}

/// F, and then the budget.
fn budgeted(words: &[Vec<u8>]) -> Option<u64>
    ensures value { result ≡ budgeted (bytes_of words.now) }
    ensures low { IfSome result (λ budget. 1 ≤ budget) }
    ensures text { IfSome result (λ _. 1 ≤ length words.now) }
{
    let (_, limits) = words.split_first()?;
    let (budget, rest) = budget_after(limits)?;
    rest.is_empty().then_some(budget)
}

/// How many slots a generated device has.
fn slots_of(words: &[Vec<u8>]) -> Option<u64>
    ensures { result ≡ slots_of (bytes_of words.now) }
{
    let (slots, rest) = words.split_first()?;
    let slots = limited(64, slots.as_slice())?;
    rest.is_empty().then_some(slots)
}

/// The command that some words are. `None` comes exactly where they are none.
pub fn read_command(words: &[Vec<u8>]) -> Option<Command>
    ensures value { result ≡ command_of (bytes_of words.now) }
    ensures texts { IfSome result (λ command. HasTexts command (length words.now - 1)) }
{
    let (name, words) = words.split_first()?;
    let name = name.as_slice();
    if name == b"verify".as_slice() {
        verify_command(words)
    } else if name == b"replay".as_slice() && words.len() == 5 {
        Some(Command::Replay)
    } else if name == b"prove".as_slice() {
        budgeted(words).map(|budget| Command::Prove { budget })
    } else if name == b"sat".as_slice() {
        budgeted(words).map(|budget| Command::Sat { budget })
    } else if name == b"check".as_slice() && words.len() == 2 {
        Some(Command::Check)
    } else if name == b"selftest".as_slice() {
        slots_of(words).map(|slots| Command::Selftest { slots })
    } else {
        None
    }
}
