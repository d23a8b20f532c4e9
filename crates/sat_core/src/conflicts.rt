//! What follows from a clause that is false.
ghost use Rattle.std.specs.Prelude.{◌≡◌, ◌<◌, ◌^◌, length, OnOk, Some};
ghost use Rattle.sat_core.specs.Storing.{Finishes};
ghost use Rattle.sat_core.specs.Solving.{IsSound};
ghost use Rattle.sat_core.specs.Deriving.{LearnsNew, Refutes};

use crate::analysis::Analysis;
use crate::deciding::{attach, go_back, level_of};
use crate::explaining::{learn_conflict, refute};
use crate::search::Search;
use lrat_check::Derivation;
use std::alloc::{AllocError, Global};

/// Learns a lemma from a false clause, undoes decisions, and makes the first literal of the lemma true.
pub fn learn_from(
    alloc: Global,
    derivation: &mut Derivation,
    search: &mut Search,
    conflict: usize,
) -> Result<(), AllocError>
    requires sound { IsSound derivation.old search.old }
    requires decided { 0 < length search.old.decisions.items }
    requires few { length search.old.stored.items < 2 ^ 63 }
    requires conflict { Finishes search.old.stored.items search.old.trail (Some conflict) }
    ensures sound { OnOk result (IsSound derivation.new search.new) }
    ensures lists { OnOk result (length search.new.lists.items ≡ length search.old.lists.items) }
    ensures learns { OnOk result (LearnsNew (length search.old.lists.items) derivation.old derivation.new) }
{
    let at = search.decisions[search.decisions.len() - 1];
    let found = learn_conflict(
        derivation,
        search.stored.as_slice(),
        &search.trail,
        search.reasons.as_slice(),
        at,
        conflict,
        alloc,
    )?;
    let Analysis { kept, cone } = found;
    search.order.bump_all(kept.as_slice());
    search
        .order
        .bump_places(search.trail.literals(), cone.as_slice());
    let level = level_of(&search.trail, search.decisions.as_slice(), kept.as_slice());
    go_back(search, level);
    attach(search, kept)?;
    Ok(())
}

/// Adds the empty lemma, where a clause is false and nothing was decided.
pub fn refute_from(
    alloc: Global,
    derivation: &mut Derivation,
    search: &Search,
    conflict: usize,
) -> Result<(), AllocError>
    requires sound { IsSound derivation.old search.now }
    requires decided { length search.now.decisions.items ≡ 0 }
    requires few { length search.now.stored.items < 2 ^ 63 }
    requires conflict { Finishes search.now.stored.items search.now.trail (Some conflict) }
    ensures { OnOk result (Refutes derivation.old derivation.new) }
{
    refute(
        derivation,
        search.stored.as_slice(),
        &search.trail,
        search.reasons.as_slice(),
        conflict,
        alloc,
    )
}
