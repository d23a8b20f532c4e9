//! Decisions, and the way back from them.
ghost use Rattle.std.specs.Prelude.{◌≡◌, ◌-◌, ◌<◌, ◌≤◌, ◌++◌, ◌∷◌, [], ℕ, length, take, OnOk, false};
ghost use Rattle.knox_cnf.specs.Literals.{has};
ghost use Rattle.sat_core.specs.Watches.{is_false as literal_false};
ghost use Rattle.sat_core.specs.Lists.{HasList};
ghost use Rattle.sat_core.specs.Resolved.{IsAssertive};
ghost use Rattle.sat_core.specs.Storing.{Fits, AreGuarded};
ghost use Rattle.sat_core.specs.Searching.{decision_at, AreDecisions, IsAttachable, IsSearch};

use crate::search::Search;
use crate::storing::list_clause;
use crate::trail::{Trail, force};
use crate::watch_lists::Watches;
use knox_cnf::Lit;
use smallvec::SmallVec;
use std::alloc::AllocError;

/// Makes a literal true by decision.
pub fn decide(search: &mut Search, lit: Lit) -> Result<(), AllocError>
    requires search { IsSearch search.old }
    requires quiet { AreGuarded search.old.stored.items search.old.trail }
    requires unset { has search.old.trail lit ≡ false }
    requires free { literal_false search.old.trail lit ≡ false }
    requires listed { HasList (length search.old.lists.items) lit }
    ensures search { OnOk result (IsSearch search.new) }
    ensures stored { search.new.stored ≡ search.old.stored }
    ensures lists { search.new.lists ≡ search.old.lists }
    ensures trail { OnOk result (search.new.trail ≡ search.old.trail ++ lit ∷ []) }
{
    search.decisions.push(search.trail.len())?;
    force(&mut search.trail, &mut search.reasons, lit, 0)?;
    Ok(())
}

/// Undoes a decision and all that came behind it.
pub fn go_back(search: &mut Search, level: usize)
    requires search { IsSearch search.old }
    requires inside { level < length search.old.decisions.items }
    ensures search { IsSearch search.new }
    ensures quiet { AreGuarded search.new.stored.items search.new.trail }
    ensures stored { search.new.stored ≡ search.old.stored }
    ensures lists { search.new.lists ≡ search.old.lists }
    ensures trail { search.new.trail ≡ take (decision_at search.old.decisions.items level) search.old.trail }
    ensures decisions { search.new.decisions.items ≡ take level search.old.decisions.items }
{
    let at = search.decisions[level];
    search.order.release(search.trail.literals(), at);
    search.trail.truncate(at);
    search.reasons.truncate(at);
    search.decisions.truncate(level);
    search.done = at;
    search.looked = search.stored.len();
}

/// The first decision that came behind a place.
fn level_behind(decisions: &[usize], place: usize) -> usize
    requires some { 0 < length decisions.now }
    requires last { place < decision_at decisions.now (length decisions.now - 1) }
    requires rising { (i j : ℕ) → i < j → j < length decisions.now → decision_at decisions.now i < decision_at decisions.now j }
    ensures inside { result < length decisions.now }
    ensures behind { place < decision_at decisions.now result }
    ensures before { (i : ℕ) → i < result → decision_at decisions.now i ≤ place }
{
    let mut level = decisions.len() - 1;
    while level > 0 {
        if decisions[level - 1] <= place {
            return level;
        }
        level -= 1;
    }
    level
}

/// The first decision before which all literals of a lemma but its first were false.
pub fn level_of(trail: &Trail, decisions: &[usize], lemma: &[Lit]) -> usize
    requires some { 0 < length decisions.now }
    requires decided { AreDecisions decisions.now trail.now }
    requires assertive { IsAssertive trail.now (decision_at decisions.now (length decisions.now - 1)) lemma.now }
    ensures inside { result < length decisions.now }
    ensures attachable { IsAttachable (take (decision_at decisions.now result) trail.now) (take result decisions.now) lemma.now }
{
    trail.once();
    if lemma.len() < 2 {
        return 0;
    }
    match trail.place_of(lemma[1].complement()) {
        Some(place) => level_behind(decisions, place),
        None => 0,
    }
}

/// Stores a lemma, and makes its first literal true.
pub fn attach(search: &mut Search, lemma: Vec<Lit>) -> Result<(), AllocError>
    requires search { IsSearch search.old }
    requires quiet { AreGuarded search.old.stored.items search.old.trail }
    requires attachable { IsAttachable search.old.trail search.old.decisions.items lemma.items }
    requires fits { Fits lemma.items (length search.old.lists.items) }
    ensures search { OnOk result (IsSearch search.new) }
    ensures stored { OnOk result (search.new.stored.items ≡ search.old.stored.items ++ lemma.items ∷ []) }
    ensures lists { OnOk result (length search.new.lists.items ≡ length search.old.lists.items) }
{
    let first = lemma[0];
    let place = search.stored.len();
    list_clause(search.lists.as_mut_slice(), lemma.as_slice(), place)?;
    search.stored.push(Watches::new(SmallVec::from_vec(lemma)))?;
    force(&mut search.trail, &mut search.reasons, first, place)?;
    search.looked = search.stored.len();
    Ok(())
}
