//! Propagation to its end, over clauses of any length.
ghost use Rattle.std.specs.Prelude.{◌≡◌, ◌≤◌, length, IfOk, OnOk};
ghost use Rattle.sat_core.specs.Cones.{Reasoned};
ghost use Rattle.sat_core.specs.Explained.{SameClauses};
ghost use Rattle.sat_core.specs.Lists.{IsReady, Appends};
ghost use Rattle.sat_core.specs.Storing.{AssertsUnit, ShortsHold, Units, Finishes, Propagated};
ghost use Rattle.sat_core.specs.Searching.{IsSearch};

use crate::analysis::clause;
use crate::search::Search;
use crate::trail::{Trail, force};
use crate::visiting::is_false;
use crate::watch_lists::{Places, Watches, propagate};
use knox_cnf::Lit;
use std::alloc::{AllocError, Global};

/// Makes the literal of a clause true that has no other: false where the clause is false.
fn assert_unit(
    lits: &[Lit],
    place: usize,
    trail: &mut Trail,
    reasons: &mut Vec<usize>,
) -> Result<bool, AllocError>
    ensures { IfOk result (AssertsUnit lits.now place trail.old trail.new reasons.old.items reasons.new.items) }
{
    if lits.len() >= 2 {
        return Ok(true);
    }
    if lits.is_empty() {
        return Ok(false);
    }
    let lit = lits[0];
    if trail.holds(lit) {
        return Ok(true);
    }
    if is_false(trail, lit) {
        return Ok(false);
    }
    force(trail, reasons, lit, place)?;
    Ok(true)
}

/// Makes the literals of clauses true that have no other, from a place on. The answer is the place of a
/// clause that is false.
fn assert_units(
    stored: &[Watches],
    trail: &mut Trail,
    reasons: &mut Vec<usize>,
    looked: usize,
) -> Result<Option<usize>, AllocError>
    requires shorts { ShortsHold stored.now trail.old looked }
    requires long { length reasons.old.items ≡ length trail.old }
    ensures appends { OnOk result (Appends stored.now trail.old trail.new) }
    ensures reasoned { OnOk result (Reasoned stored.now trail.old trail.new reasons.old.items reasons.new.items) }
    ensures units { IfOk result (λ r. Units stored.now trail.new r) }
{
    for place in looked..stored.len() {
        let stands = assert_unit(clause(stored, place), place, trail, reasons)?;
        if !stands {
            return Ok(Some(place));
        }
    }
    Ok(None)
}

/// Appends what the clauses force, to the end. The answer is the place of a clause that is false.
fn propagate_all(
    alloc: Global,
    stored: &mut [Watches],
    lists: &mut [Places],
    trail: &mut Trail,
    reasons: &mut Vec<usize>,
    looked: usize,
    done: usize,
) -> Result<Option<usize>, AllocError>
    requires ready { IsReady stored.old lists.old trail.old done }
    requires here { done ≤ length trail.old }
    requires shorts { ShortsHold stored.old trail.old looked }
    requires long { length reasons.old.items ≡ length trail.old }
    ensures propagated { IfOk result (λ r. Propagated stored.old stored.new lists.old lists.new trail.old trail.new r) }
    ensures reasoned { OnOk result (Reasoned stored.new trail.old trail.new reasons.old.items reasons.new.items) }
{
    let unit = assert_units(stored, trail, reasons, looked)?;
    if unit.is_some() {
        return Ok(unit);
    }
    let conflict = propagate(stored, lists, trail, reasons, alloc, done)?;
    Ok(conflict)
}

/// Appends what the clauses force, to the end. The answer is the place of a clause that is false.
pub fn propagate_search(alloc: Global, search: &mut Search) -> Result<Option<usize>, AllocError>
    requires { IsSearch search.old }
    ensures search { OnOk result (IsSearch search.new) }
    ensures appends { OnOk result (Appends search.old.stored.items search.old.trail search.new.trail) }
    ensures same { OnOk result (SameClauses search.old.stored.items search.new.stored.items) }
    ensures wide { OnOk result (length search.new.lists.items ≡ length search.old.lists.items) }
    ensures decisions { OnOk result (search.new.decisions ≡ search.old.decisions) }
    ensures finishes { IfOk result (Finishes search.new.stored.items search.new.trail) }
{
    let conflict = propagate_all(
        alloc,
        search.stored.as_mut_slice(),
        search.lists.as_mut_slice(),
        &mut search.trail,
        &mut search.reasons,
        search.looked,
        search.done,
    )?;
    if conflict.is_some() {
        search.done = 0;
        return Ok(conflict);
    }
    search.looked = search.stored.len();
    search.done = search.trail.len();
    Ok(None)
}
