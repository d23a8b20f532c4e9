//! Solves formulas, and the lines of their answers.
ghost use Rattle.std.specs.Prelude.{◌≡◌, ◌≤◌, ◌++◌, length, IfOk, OnOk, string_bytes};
ghost use Rattle.knox_run.specs.Words.{Cnf, Answers};
ghost use Rattle.knox_run.specs.Solving.{spaced_value, model_lines, lemma_shown, refuted_lines, spent_line, solved_lines, ShowsOf, SolvesTo};

use crate::checking::cause;
use crate::outcome::Outcome;
use knox_verify::Letter;
use lrat_check::Lemma;
use proof_text::{ProofLine, print_lrat, read_cnf};
use sat_core::{Solved, solve, spent_budgets_are_small};
use sqlite_items::Items;
use std::alloc::{AllocError, Global};

/// A variable, with a minus where its value is false.
fn spaced_value(alloc: Global, variable: u64, value: bool) -> Result<String, AllocError>
    ensures { IfOk result (λ text. string_bytes text ≡ spaced_value variable value) }
{
    if value {
        format!(in alloc; " {variable}")
    } else {
        format!(in alloc; " -{variable}")
    }
}

/// The lines of a model: a value for each variable from 1 on.
fn model_lines(alloc: Global, values: &[bool]) -> Result<Vec<u8>, AllocError>
    ensures { IfOk result (λ text. text.items ≡ model_lines values.now) }
{
    let mut text = Vec::from_slice(alloc, b"sat\nv")?;
    let _count = values.len();
    for (place, value) in values.iter().enumerate() {
        let spaced = spaced_value(alloc, place as u64 + 1, *value)?;
        text.extend_from_slice(spaced.as_bytes())?;
    }
    text.extend_from_slice(b" 0\n")?;
    Ok(text)
}

/// Appends the line that adds a lemma.
fn put_lemma(alloc: Global, text: &mut Vec<u8>, lemma: &Lemma) -> Result<(), AllocError>
    ensures { OnOk result (text.new.items ≡ text.old.items ++ lemma_shown lemma.now) }
{
    let lits = Items::from_slice(alloc, lemma.lits.lits())?;
    let hints = Items::from_slice(alloc, lemma.hints.as_slice())?;
    let line = [ProofLine::Add(0, lemma.id, lits, hints)];
    let printed = print_lrat(alloc, &line)?;
    text.extend_from_slice(printed.as_slice())?;
    Ok(())
}

/// The lines of a refutation, which are a proof in the form of LRAT.
fn refuted_lines(alloc: Global, lemmas: &[Lemma]) -> Result<Vec<u8>, AllocError>
    ensures { IfOk result (λ text. text.items ≡ refuted_lines lemmas.now) }
{
    let mut text = Vec::from_slice(alloc, b"c unsat\n")?;
    for lemma in lemmas {
        put_lemma(alloc, &mut text, lemma)?;
    }
    Ok(text)
}

/// The line of a budget that is spent.
fn spent_line(alloc: Global, count: usize) -> Result<String, AllocError>
    ensures { IfOk result (λ line. string_bytes line ≡ spent_line count) }
{
    format!(in alloc; "spent {count}\n")
}

/// The lines of an answer.
pub fn solved_lines(alloc: Global, solved: &Solved) -> Result<Vec<u8>, AllocError>
    ensures { IfOk result (λ text. text.items ≡ solved_lines solved.now) }
{
    match solved {
        Solved::Sat(found) => model_lines(alloc, found.values.as_slice()),
        Solved::Unsat(refutation) => refuted_lines(alloc, refutation.lemmas()),
        Solved::Spent(derivation) => {
            Ok(spent_line(alloc, derivation.lemmas().len())?.into_bytes())
        }
    }
}

/// What the derivation of an answer shows.
fn shows(solved: &Solved, budget: u64)
    requires { (formula : Cnf) × Answers formula budget solved.now }
    ensures { ShowsOf budget solved.now }
{
    match solved {
        Solved::Sat(_) => {}
        Solved::Unsat(refutation) => {
            let _lemmas = refutation.lemmas();
            let _closed = refutation.closed();
        }
        Solved::Spent(derivation) => {
            let _lemmas = derivation.lemmas();
            spent_budgets_are_small(derivation);
        }
    }
}

/// Solves a formula, by its bytes, with so many lemmas at most.
pub fn solve_text(alloc: Global, formula: &[u8], budget: u64) -> Outcome
    requires formula { length formula.now ≤ 67108864 }
    requires budget { 1 ≤ budget }
    ensures { SolvesTo budget result formula.now }
{
    let cnf = match read_cnf(alloc, formula) {
        Ok(cnf) => cnf,
        Err(fault) => return cause(Letter::F, fault),
    };
    match solve(alloc, cnf, budget) {
        Ok(solved) => {
            shows(&solved, budget);
            Outcome::Solved(solved)
        }
        Err(_) => Outcome::Memory,
    }
}
