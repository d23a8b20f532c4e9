//! Clauses as they are stored, and the lists of their watches.
ghost use Rattle.std.specs.Prelude.{◌≡◌, ◌<◌, ◌≤◌, ◌+◌, ◌*◌, ◌^◌, ℕ, [], length, IfOk, OnOk, true};
ghost use Rattle.knox_cnf.specs.Formulas.{clause_within, is_within};
ghost use Rattle.sat_core.specs.Chains.{clause_at};
ghost use Rattle.sat_core.specs.Lists.{FitsLists};
ghost use Rattle.sat_core.specs.Storing.{IsAbove, AddsOnce, IsSetOf, Fits, Lists, Stores};

use crate::trail::Trail;
use crate::watch_lists::{Places, Watches, add_watch};
use knox_cnf::{Clause, Lit};
use smallvec::SmallVec;
use std::alloc::{AllocError, Global};

/// Adds a literal, if it isn't there already. The marks tell of each.
fn add_once(lit: Lit, marks: &mut Trail, literals: &mut SmallVec<Lit, 3>) -> Result<(), AllocError>
    requires { marks.old ≡ literals.old.items }
    ensures marks { OnOk result (marks.new ≡ literals.new.items) }
    ensures adds { OnOk result (AddsOnce lit literals.old.items literals.new.items) }
{
    if marks.holds(lit) {
        return Ok(());
    }
    marks.push(lit)?;
    literals.push(lit)?;
    Ok(())
}

/// The literals of a clause, each once. The marks are clear before and behind it.
fn set_of(alloc: Global, lits: &[Lit], marks: &mut Trail) -> Result<Watches, AllocError>
    requires { marks.old ≡ [] }
    ensures set { IfOk result (λ w. IsSetOf lits.now w) }
    ensures clear { OnOk result (marks.new ≡ []) }
{
    let mut literals = SmallVec::new(alloc);
    for lit in lits {
        add_once(*lit, marks, &mut literals)?;
    }
    marks.truncate(0);
    Ok(Watches::new(literals))
}

/// Lists a clause at both of its watches.
pub fn list_clause(lists: &mut [Places], lits: &[Lit], place: usize) -> Result<(), AllocError>
    requires { Fits lits.now (length lists.old) }
    ensures { OnOk result (Lists lits.now place lists.old lists.new) }
{
    if lits.len() < 2 {
        return Ok(());
    }
    add_watch(lists, lits[0], place)?;
    add_watch(lists, lits[1], place)?;
    Ok(())
}

/// Stores clauses, and lists them.
pub fn store(
    alloc: Global,
    clauses: &[Clause],
    lists: &mut [Places],
) -> Result<Vec<Watches>, AllocError>
    requires { FitsLists clauses.now (length lists.old) }
    ensures { IfOk result (λ s. Stores clauses.now s.items lists.new (length lists.old)) }
{
    let mut stored = Vec::new(alloc);
    let mut marks = Trail::new(alloc);
    for clause in clauses {
        let set = set_of(alloc, clause.lits(), &mut marks)?;
        list_clause(lists, set.lits(), stored.len())?;
        stored.push(set)?;
    }
    Ok(stored)
}

fn greater(a: u64, b: u64) -> u64
    ensures left { a ≤ result }
    ensures right { b ≤ result }
    ensures one { (n : ℕ) → a < n → b < n → result < n }
{
    if a < b { b } else { a }
}

/// A number that no variable of the literals is past.
fn widest_of(lits: &[Lit]) -> u64
    ensures above { IsAbove result lits.now }
    ensures small { result < 2 ^ 63 }
    ensures least { (n : ℕ) → clause_within n lits.now ≡ true → result ≤ n }
{
    let mut widest = 0;
    for lit in lits {
        widest = greater(widest, lit.var());
    }
    widest
}

/// A number that no variable of the clauses is past.
pub fn widest(clauses: &[Clause]) -> u64
    ensures above { (k : ℕ) → IsAbove result (clause_at clauses.now k) }
    ensures small { result < 2 ^ 63 }
    ensures least { (n : ℕ) → is_within n clauses.now ≡ true → result ≤ n }
{
    let mut widest = 0;
    for clause in clauses {
        widest = greater(widest, widest_of(clause.lits()));
    }
    widest
}

/// Empty lists for the literals of so many variables.
pub fn empty_lists(alloc: Global, vars: u64) -> Result<Vec<Places>, AllocError>
    requires { vars < 2 ^ 63 }
    ensures { IfOk result (λ ls. length ls.items ≡ 2 * vars + 2) }
{
    let mut lists = Vec::new(alloc);
    for _k in 0..vars + 1 {
        lists.push(Places::new(alloc))?;
        lists.push(Places::new(alloc))?;
    }
    Ok(lists)
}
