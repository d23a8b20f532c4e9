//! The search for a model, up to the next clause that is false.
ghost use Rattle.std.specs.Prelude.{◌≡◌, ◌<◌, ◌≤◌, ◌+◌, ◌*◌, ◌^◌, ◌⊎◌, length, IfOk, IfSome, OnOk, MatchOption, true};
ghost use Rattle.knox_cnf.specs.Literals.{literal, has};
ghost use Rattle.sat_core.specs.Explained.{SameClauses};
ghost use Rattle.sat_core.specs.Searching.{IsSearch};
ghost use Rattle.sat_core.specs.Models.{IsAssigned, AreAssigned, IsChoice, Explored, TellsValues};

use crate::deciding::decide;
use crate::order::Order;
use crate::propagation::propagate_search;
use crate::search::Search;
use crate::trail::Trail;
use crate::visiting::is_false;
use knox_cnf::{Assignment, Lit};
use sqlite_items::Items;
use std::alloc::{AllocError, Global};

/// The literal of a variable that makes it true.
fn positive(var: u64) -> Option<Lit>
    ensures { MatchOption result ((var ≡ 0) ⊎ (2 ^ 63 ≤ var)) (λ l. l ≡ literal var true) }
{
    if var >= 9223372036854775808 {
        return None;
    }
    Lit::new(var as i64)
}

/// The literal of a variable that makes it this, if the variable isn't assigned.
fn unassigned(trail: &Trail, var: u64, phase: bool, limit: usize) -> Option<Lit>
    requires low { 1 ≤ var }
    requires high { 2 * var + 1 < limit }
    ensures { MatchOption result (IsAssigned trail.now var) (IsChoice trail.now limit) }
{
    match positive(var) {
        Some(lit) => {
            if trail.holds(lit) || is_false(trail, lit) {
                return None;
            }
            if phase {
                return Some(lit);
            }
            Some(lit.complement())
        }
        None => None,
    }
}

/// A literal of the first variable that isn't assigned.
fn choose_first(trail: &Trail, limit: usize) -> Option<Lit>
    ensures { MatchOption result (AreAssigned trail.now limit) (IsChoice trail.now limit) }
{
    for var in 1..limit / 2 {
        let choice = unassigned(trail, var as u64, false, limit);
        if choice.is_some() {
            return choice;
        }
    }
    None
}

/// A literal of the variable that is next in the order.
fn choose_next(order: &mut Order, trail: &Trail, limit: usize) -> Option<Lit>
    ensures { IfSome result (IsChoice trail.now limit) }
{
    for _k in 0..order.len() {
        let Some(var) = order.take() else {
            return None;
        };
        if var >= 1 && var < limit / 2 {
            let choice = unassigned(trail, var as u64, order.phase(var), limit);
            if choice.is_some() {
                return choice;
            }
        }
    }
    None
}

/// A literal of a variable that isn't assigned, by the order if it has one.
fn choose(order: &mut Order, trail: &Trail, limit: usize) -> Option<Lit>
    ensures { MatchOption result (AreAssigned trail.now limit) (IsChoice trail.now limit) }
{
    let choice = choose_next(order, trail, limit);
    if choice.is_some() {
        return choice;
    }
    choose_first(trail, limit)
}

/// Decides and propagates until a clause is false, whose place is the answer, or all variables are
/// assigned.
pub fn explore(alloc: Global, search: &mut Search) -> Result<Option<usize>, AllocError>
    requires { IsSearch search.old }
    ensures search { OnOk result (IsSearch search.new) }
    ensures same { OnOk result (SameClauses search.old.stored.items search.new.stored.items) }
    ensures lists { OnOk result (length search.new.lists.items ≡ length search.old.lists.items) }
    ensures explored { IfOk result (Explored search.new.stored.items search.new.trail (length search.new.lists.items)) }
{
    loop {
        let conflict = propagate_search(alloc, search)?;
        if conflict.is_some() {
            return Ok(conflict);
        }
        match choose(&mut search.order, &search.trail, search.lists.len()) {
            Some(lit) => decide(search, lit)?,
            None => return Ok(None),
        }
    }
}

/// Whether a variable is true.
fn is_true(trail: &Trail, var: u64) -> bool
    requires { 1 ≤ var }
    ensures { var < 2 ^ 63 → result ≡ has trail.now (literal var true) }
{
    match positive(var) {
        Some(lit) => trail.holds(lit),
        None => false,
    }
}

/// The values of all variables.
pub fn values(alloc: Global, trail: &Trail, vars: u64) -> Result<Assignment, AllocError>
    ensures { IfOk result (λ a. TellsValues trail.now vars a.values) }
{
    let mut values = Items::new(alloc);
    for before in 0..vars {
        values.push(is_true(trail, before + 1))?;
    }
    Ok(Assignment { values })
}
