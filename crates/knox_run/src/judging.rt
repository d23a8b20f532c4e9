//! Gives texts that were read to the verifier, to the checker of proofs, or to the solver.
ghost use Rattle.std.specs.Prelude.{◌≡◌, ◌≤◌, ◌+◌, ◌^◌, length, drop};
ghost use Rattle.knox_run.specs.Reading.{Within, texts_of};
ghost use Rattle.knox_run.specs.Runs.{VerifiesTo, outcome_of};
ghost use Rattle.knox_run.specs.Checking.{ChecksTexts};
ghost use Rattle.knox_run.specs.Solving.{SolvesTexts};

use crate::checking::check_texts;
use crate::outcome::{Outcome, TextFault};
use crate::solving::solve_text;
use knox_edge::Shelf;
use knox_verify::{Verdict, VerifyFault, verify_texts};
use std::alloc::Global;

/// Verifies the five texts that a shelf gave last, of which this is the place of the first.
pub fn judge<F: Shelf>(alloc: Global, shelf: &F, first: usize, budget: u64, paths: u32) -> Outcome
    requires five { length (drop first (F.history shelf.now).given) ≡ 5 }
    requires within { Within (texts_of (drop first (F.history shelf.now).given)) }
    requires places { first + 5 ≤ 2 ^ 64 }
    ensures { VerifiesTo result (texts_of (drop first (F.history shelf.now).given)) }
{
    let c = shelf.text(first);
    let s = shelf.text(first + 1);
    let d = shelf.text(first + 2);
    let e = shelf.text(first + 3);
    let h = shelf.text(first + 4);
    outcome_of(verify_texts(alloc, c, s, d, e, h, budget, paths))
}

/// The outcome of a verification.
fn outcome_of(verified: Result<Verdict, VerifyFault>) -> Outcome
    ensures { result ≡ outcome_of verified }
{
    match verified {
        Ok(verdict) => Outcome::Judged(verdict),
        Err(VerifyFault::NotYet) => Outcome::Unbuilt,
        Err(VerifyFault::Memory) => Outcome::Memory,
        Err(VerifyFault::Text(letter, why)) => Outcome::Text(letter, TextFault::OfDevice(why)),
    }
}

/// Checks the two texts that a shelf gave last, of which this is the place of the first.
pub fn check_given<F: Shelf>(alloc: Global, shelf: &F, first: usize) -> Outcome
    requires two { length (drop first (F.history shelf.now).given) ≡ 2 }
    requires within { Within (texts_of (drop first (F.history shelf.now).given)) }
    requires places { first + 2 ≤ 2 ^ 64 }
    ensures { ChecksTexts result (texts_of (drop first (F.history shelf.now).given)) }
{
    let formula = shelf.text(first);
    let proof = shelf.text(first + 1);
    check_texts(alloc, formula, proof)
}

/// Solves the text that a shelf gave last, at this place, with so many lemmas at most.
pub fn solve_given<F: Shelf>(alloc: Global, shelf: &F, place: usize, budget: u64) -> Outcome
    requires one { length (drop place (F.history shelf.now).given) ≡ 1 }
    requires within { Within (texts_of (drop place (F.history shelf.now).given)) }
    requires places { place + 1 ≤ 2 ^ 64 }
    requires budget { 1 ≤ budget }
    ensures { SolvesTexts budget result (texts_of (drop place (F.history shelf.now).given)) }
{
    let formula = shelf.text(place);
    solve_text(alloc, formula, budget)
}
