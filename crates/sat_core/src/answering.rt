//! Answers about formulas.
ghost use Rattle.std.specs.Prelude.{◌≡◌, ◌≤◌, ◌+◌, ◌*◌, length, IfOk, true, Some};
ghost use Rattle.knox_cnf.specs.Formulas.{is_within};
ghost use Rattle.sat_core.specs.Storing.{Finishes};
ghost use Rattle.sat_core.specs.Searching.{IsSearch};
ghost use Rattle.sat_core.specs.Solving.{IsSound};
ghost use Rattle.sat_core.specs.Answers.{IsSpent, TurnsTo, RunsTo, Answers};

use crate::conflicts::{learn_from, refute_from};
use crate::deciding::go_back;
use crate::exploring::{explore, values};
use crate::search::Search;
use knox_cnf::{Assignment, Cnf};
use lrat_check::Derivation;
use std::alloc::{AllocError, Global};

/// What a formula comes to.
#[derive(Drop)]
pub enum Solved {
    /// It is true under these values.
    Sat(Assignment),
    /// It is true under none: a derivation of the empty clause.
    Unsat(Derivation),
    /// The budget is spent: a derivation of so many lemmas.
    Spent(Derivation),
}

/// What a turn comes to.
#[derive(Clone, Copy, Debug)]
enum Outcome {
    /// All variables are assigned, and no clause is false.
    Model,
    /// The empty lemma was added.
    Refuted,
    /// Another lemma was added.
    Learned,
}

/// Undoes all decisions once in a while.
fn restart(search: &mut Search)
    requires { IsSearch search.old }
    ensures search { IsSearch search.new }
    ensures stored { search.new.stored ≡ search.old.stored }
    ensures lists { search.new.lists ≡ search.old.lists }
{
    if !search.order.is_time() {
        return;
    }
    if search.decisions.is_empty() {
        return;
    }
    go_back(search, 0);
}

/// Goes on to the next false clause, and adds the lemma that follows.
fn turn(
    alloc: Global,
    derivation: &mut Derivation,
    search: &mut Search,
) -> Result<Outcome, AllocError>
    requires { IsSound derivation.old search.old }
    ensures { IfOk result (TurnsTo derivation.old derivation.new search.old search.new) }
{
    restart(search);
    let Some(conflict) = explore(alloc, search)? else {
        return Ok(Outcome::Model);
    };
    let outcome = conclude(alloc, derivation, search, conflict)?;
    Ok(outcome)
}

/// Adds the lemma that follows from a false clause.
fn conclude(
    alloc: Global,
    derivation: &mut Derivation,
    search: &mut Search,
    conflict: usize,
) -> Result<Outcome, AllocError>
    requires sound { IsSound derivation.old search.old }
    requires conflict { Finishes search.old.stored.items search.old.trail (Some conflict) }
    ensures { IfOk result (TurnsTo derivation.old derivation.new search.old search.new) }
{
    if search.decisions.is_empty() {
        refute_from(alloc, derivation, search, conflict)?;
        return Ok(Outcome::Refuted);
    }
    learn_from(alloc, derivation, search, conflict)?;
    Ok(Outcome::Learned)
}

/// Takes so many turns, or ends before.
fn turns(
    alloc: Global,
    derivation: &mut Derivation,
    search: &mut Search,
    budget: u64,
) -> Result<Outcome, AllocError>
    requires sound { IsSound derivation.old search.old }
    requires fits { length search.old.lists.items ≤ 2 * derivation.old.cnf.vars + 2 }
    requires spent { IsSpent derivation.old.cnf 0 derivation.old }
    ensures { IfOk result (RunsTo derivation.old.cnf budget derivation.new search.new) }
{
    for _turn in 0..budget {
        match turn(alloc, derivation, search)? {
            Outcome::Model => return Ok(Outcome::Model),
            Outcome::Refuted => return Ok(Outcome::Refuted),
            Outcome::Learned => {}
        }
    }
    Ok(Outcome::Learned)
}

/// Looks for values under which a formula is true, with so many lemmas at most.
pub fn solve(alloc: Global, cnf: Cnf, budget: u64) -> Result<Solved, AllocError>
    requires within { is_within cnf.vars cnf.clauses ≡ true }
    requires budget { 1 ≤ budget }
    ensures { IfOk result (Answers cnf budget) }
{
    let mut derivation = Derivation::new(alloc, cnf)?;
    if derivation.closed() {
        return Ok(Solved::Unsat(derivation));
    }
    let mut search = Search::new(alloc, derivation.cnf().clauses.as_slice())?;
    match turns(alloc, &mut derivation, &mut search, budget)? {
        Outcome::Model => {
            let found = values(alloc, &search.trail, derivation.cnf().vars)?;
            Ok(Solved::Sat(found))
        }
        Outcome::Refuted => Ok(Solved::Unsat(derivation)),
        Outcome::Learned => Ok(Solved::Spent(derivation)),
    }
}
