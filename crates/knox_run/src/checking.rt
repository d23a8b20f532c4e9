//! Checks the proof of a formula: each line is admitted as soon as it is read, so that no more than
//! one of them is held.
ghost use Rattle.std.specs.Prelude.{◌≡◌, ◌≤◌, ◌⊎◌, ◌∷◌, length, List, Ok, Err, OnOk, IfOk, IfErr};
ghost use Rattle.rat_check.specs.declared.rat_step.RatStep.TheVariants.{Memory};
ghost use Rattle.proof_text.specs.declared.fault.ProofFault.TheVariants as fault;
ghost use Rattle.proof_text.specs.Results.{and_then, Answers};
ghost use Rattle.knox_run.specs.Words.{ProofLine, lines_left};
ghost use Rattle.knox_run.specs.Checking.{line_number, with_line, end_of, end_with, Shows, ChecksTo, cause_of};

use crate::outcome::{Outcome, TextFault};
use knox_verify::Letter;
use proof_text::{LratReader, ProofFault, ProofLine, read_cnf};
use rat_check::{RatStep, Refutation};
use std::alloc::Global;

/// How the check of a proof ends.
#[derive(Clone, Copy, Debug, PartialEq, Eq)]
pub enum CheckEnd {
    /// Every line is accepted, and the formula or a lemma is the empty clause.
    Verified,
    /// The line with this number is the first that is refused.
    Rejected(u32, RatStep),
    /// Every line is accepted, and there is no empty clause.
    NoEmptyClause,
}

/// The number of the text's line.
fn number_of(line: &ProofLine) -> u32
    ensures { result ≡ line_number line.now }
{
    match line {
        ProofLine::Add(number, _, _, _) => *number,
        ProofLine::Delete(number, _) => *number,
    }
}

/// Adds the lemma or deletes the clauses of a line, or tells why it is refused.
fn take_line(refutation: &mut Refutation, line: &ProofLine) -> Result<(), RatStep>
    ensures ok { OnOk result (with_line refutation.old line.now ≡ Ok refutation.new) }
    ensures refused { IfErr result (λ why. (why ≡ Memory) ⊎ (with_line refutation.old line.now ≡ Err why)) }
    ensures formula { refutation.new.cnf ≡ refutation.old.cnf }
{
    match line {
        ProofLine::Add(_, id, lits, hints) => {
            refutation.admit(*id, lits.as_slice(), hints.as_slice())
        }
        ProofLine::Delete(_, ids) => refutation.delete(ids.as_slice()),
    }
}

/// Takes a line, unless one before it was refused, and tells the first that is.
fn go_on(
    refutation: &mut Refutation,
    refused: Option<(u32, RatStep)>,
    line: &ProofLine,
) -> Result<Option<(u32, RatStep)>, ProofFault>
    ensures ok { IfOk result (λ now. (ls : List ProofLine) → end_with refused (line.now ∷ ls) refutation.old ≡ end_with now ls refutation.new) }
    ensures memory { IfErr result (λ f. f ≡ fault.Memory) }
    ensures formula { refutation.new.cnf ≡ refutation.old.cnf }
{
    if refused.is_some() {
        return Ok(refused);
    }
    match take_line(refutation, line) {
        Ok(()) => Ok(None),
        Err(RatStep::Memory) => Err(ProofFault::Memory),
        Err(why) => Ok(Some((number_of(line), why))),
    }
}

/// How the check of the lines that are left ends. Behind a line that is refused they are still
/// read, since a fault there comes first.
fn check_lines(
    alloc: Global,
    refutation: Refutation,
    reader: LratReader<'_>,
) -> Result<CheckEnd, ProofFault>
    ensures ends { Answers result (and_then (lines_left reader.entry) (λ ls. Ok (end_of ls refutation))) }
    ensures shows { IfOk result (λ end. Shows end refutation.cnf) }
{
    let mut refutation = refutation;
    let mut reader = reader;
    let mut refused = None;
    while let Some(line) = reader.next_line(alloc)? {
        refused = go_on(&mut refutation, refused, &line)?;
    }
    match refused {
        Some((number, why)) => Ok(CheckEnd::Rejected(number, why)),
        None if refutation.closed() => Ok(CheckEnd::Verified),
        None => Ok(CheckEnd::NoEmptyClause),
    }
}

/// A text with a fault, or want of memory.
pub fn cause(letter: Letter, fault: ProofFault) -> Outcome
    ensures { result ≡ cause_of letter fault }
{
    match fault {
        ProofFault::Memory => Outcome::Memory,
        _ => Outcome::Text(letter, TextFault::OfProof(fault)),
    }
}

/// Checks a proof of a formula, by their bytes.
pub fn check_texts(alloc: Global, formula: &[u8], proof: &[u8]) -> Outcome
    requires formula { length formula.now ≤ 67108864 }
    requires proof { length proof.now ≤ 67108864 }
    ensures { ChecksTo result formula.now proof.now }
{
    let cnf = match read_cnf(alloc, formula) {
        Ok(cnf) => cnf,
        Err(fault) => return cause(Letter::F, fault),
    };
    let Ok(refutation) = Refutation::new(alloc, cnf) else {
        return Outcome::Memory;
    };
    match check_lines(alloc, refutation, LratReader::new(proof)) {
        Ok(end) => Outcome::Checked(end),
        Err(fault) => cause(Letter::P, fault),
    }
}
