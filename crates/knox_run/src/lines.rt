//! The lines of an answer.
ghost use Rattle.std.specs.Prelude.{◌≡◌, IfOk, string_bytes};
ghost use Rattle.knox_run.specs.Lines as the;

use crate::checking::CheckEnd;
use crate::outcome::TextFault::{self, OfDevice, OfProof};
use expr_read::LangWhy;
use knox_circuit::Why;
use knox_text::Place;
use knox_verify::{Letter, TextWhy, Verdict};
use knox_words::Word;
use proof_text::ProofFault;
use rat_check::RatStep;
use script_read::ScriptWhy;
use std::alloc::{AllocError, Global};

/// The line of a text that could not be read.
pub fn cannot_read(alloc: Global, name: &[u8]) -> Result<Vec<u8>, AllocError>
    ensures { IfOk result (λ line. line.items ≡ the.cannot_read_line name.now) }
{
    let mut line = Vec::from_slice(alloc, b"cannot read ")?;
    line.extend_from_slice(name)?;
    line.extend_from_slice(b"\n")?;
    Ok(line)
}

/// The name of a variant that holds nothing.
macro_rules! name_of {
    ($value:ident: $kind:ident { $($variant:ident)* }) => {
        match $value {
            $($kind::$variant => stringify!($variant),)*
        }
    };
}

fn letter_name(letter: Letter) -> &'static str
    ensures { result.now ≡ the.letter_name letter }
{
    name_of!(letter: Letter { C S D E H T F P })
}

fn rule_name(why: Why) -> &'static str
    ensures { result.now ≡ the.rule_name why }
{
    name_of!(why: Why {
        TooManyLines Number Order Constraint Unsupported Keyword Operand
        Sort Digits Width Init Next TooManyWords Memory
    })
}

fn lang_name(why: LangWhy) -> &'static str
    ensures { result.now ≡ the.lang_name why }
{
    name_of!(why: LangWhy { Form UnknownName Twice Width Arity Bound Missing Memory })
}

fn script_name(why: ScriptWhy) -> &'static str
    ensures { result.now ≡ the.script_name why }
{
    name_of!(why: ScriptWhy { Form UnknownName Twice Width Arity Bound Missing Memory })
}

/// A text's fault at a place.
fn at_place(alloc: Global, letter: Letter, at: Place, word: &str) -> Result<String, AllocError>
    ensures { IfOk result (λ line. string_bytes line ≡ the.at_place letter at word.now) }
{
    let letter = letter_name(letter);
    format!(in alloc; "text {letter} {}:{} {word}\n", at.line, at.column)
}

/// The line of the fault of a text.
pub fn text_line(alloc: Global, letter: Letter, why: TextFault) -> Result<String, AllocError>
    ensures { IfOk result (λ line. string_bytes line ≡ the.text_line letter why) }
{
    let name = letter_name(letter);
    match why {
        OfDevice(TextWhy::TooLong) => format!(in alloc; "text {name} TooLong\n"),
        OfDevice(TextWhy::Circuit(fault)) => {
            let rule = rule_name(fault.why);
            format!(in alloc; "text {name} line {} {rule}\n", fault.line)
        }
        OfDevice(TextWhy::Lang(fault)) => {
            at_place(alloc, letter, fault.place, lang_name(fault.why))
        }
        OfDevice(TextWhy::Script(fault)) => {
            at_place(alloc, letter, fault.place, script_name(fault.why))
        }
        OfProof(ProofFault::Header(at)) => at_place(alloc, letter, at, "Header"),
        OfProof(ProofFault::Count(at)) => at_place(alloc, letter, at, "Count"),
        OfProof(ProofFault::Variable(at)) => at_place(alloc, letter, at, "Variable"),
        OfProof(ProofFault::Shape(at)) => at_place(alloc, letter, at, "Shape"),
        OfProof(ProofFault::Memory) => format!(in alloc; "text {name} Memory\n"),
    }
}

/// The line of a proof's line that is refused.
fn rejected(alloc: Global, number: u32, why: RatStep) -> Result<String, AllocError>
    ensures { IfOk result (λ line. string_bytes line ≡ the.rejected_line number why) }
{
    match why {
        RatStep::IdNotNew(id) => format!(in alloc; "rejected line {number} IdNotNew {id}\n"),
        RatStep::NoSuchClause(id) => format!(in alloc;
            "rejected line {number} NoSuchClause {id}\n"
        ),
        RatStep::NotUnit(id) => format!(in alloc; "rejected line {number} NotUnit {id}\n"),
        RatStep::NotPivot(id) => format!(in alloc; "rejected line {number} NotPivot {id}\n"),
        RatStep::Uncovered(id) => format!(in alloc; "rejected line {number} Uncovered {id}\n"),
        RatStep::NoPivot => format!(in alloc; "rejected line {number} NoPivot\n"),
        RatStep::NoConflict => format!(in alloc; "rejected line {number} NoConflict\n"),
        RatStep::Memory => format!(in alloc; "rejected line {number} Memory\n"),
    }
}

/// The line of how a check ended.
pub fn check_line(alloc: Global, end: CheckEnd) -> Result<String, AllocError>
    ensures { IfOk result (λ line. string_bytes line ≡ the.check_line end) }
{
    match end {
        CheckEnd::Verified => String::from_str(alloc, "verified\n"),
        CheckEnd::Rejected(number, why) => rejected(alloc, number, why),
        CheckEnd::NoEmptyClause => String::from_str(alloc, "rejected no empty clause\n"),
    }
}

/// The lines of a hint that choices falsify, with the words that the run takes.
fn undecided(alloc: Global, hint: u32, words: &[Word]) -> Result<String, AllocError>
    ensures { IfOk result (λ lines. string_bytes lines ≡ the.undecided_lines hint words.now) }
{
    let mut lines = format!(in alloc; "undecided {hint}\nchoices")?;
    for word in words {
        let spaced = format!(in alloc; " {}", word.value())?;
        lines.push_str(spaced.as_str())?;
    }
    lines.push_str("\n")?;
    Ok(lines)
}

/// The lines of a verdict.
pub fn verdict_lines(alloc: Global, verdict: &Verdict) -> Result<String, AllocError>
    ensures { IfOk result (λ lines. string_bytes lines ≡ the.verdict_lines verdict.now) }
{
    match verdict {
        Verdict::Yes => String::from_str(alloc, "yes\n"),
        Verdict::Undecided(hint, words) => undecided(alloc, hint.0, words.words.as_slice()),
        Verdict::TooWide(hint, bits) => format!(in alloc; "too-wide {} {bits}\n", hint.0),
    }
}
