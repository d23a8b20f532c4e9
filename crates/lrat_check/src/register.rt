//! Which clause an id names, and which clauses are live.
ghost use Rattle.std.specs.Prelude.{◌≡◌, ◌<◌, ◌^◌, [], ◌++◌, ◌∷◌, Ok, Err, IfOk, IfErr, OnOk, OnErr, IfSome, length, replicate, slice_index_or, slice_set, true, ◌+◌};
ghost use Rattle.lrat_check.specs.Register.{entries, live_place as live_at, is_new as is_new_id, with_id, deleted, revived, Rises};

use crate::places::{is_above, live_place, place};
use std::alloc::{AllocError, Global};
use std::marker::Model;

/// The ids of a formula's clauses, which are 1, 2, 3 and so on, and of the lemmas, which rise; and of
/// each whether it is live.
#[derive(Debug, Drop)]
pub struct Register {
    formula: usize,
    ids: Vec<u64>,
    live: Vec<bool>,
}

impl Model for Register {
    ghost use Rattle.std.specs.Prelude.{◌≡◌, ◌+◌, length};
    ghost use Rattle.lrat_check.specs.Register.{Entries, entries, Rises};

    ghost Value = { Entries };

    ghost view = { λ r. entries r.formula r.ids.items r.live.items };

    ghost invariant = { λ r. Rises r.ids.items × (length r.live.items ≡ r.formula + length r.ids.items) };
}

impl Register {
    /// A formula of so many clauses, all of them live, and no lemmas.
    pub fn new(alloc: Global, formula: usize) -> Result<Register, AllocError>
        ensures { IfOk result (λ r. r ≡ entries formula [] (replicate formula true)) }
    {
        let live = all_live(alloc, formula)?;
        Ok(Register {
            formula,
            ids: Vec::new(alloc),
            live,
        })
    }

    /// Whether the id is above every id before.
    pub fn is_new(&self, id: u64) -> bool
        ensures { result ≡ is_new_id self.now id }
    {
        is_above(self.formula, self.ids.as_slice(), id)
    }

    /// The place of the clause that the id names, if it is live.
    pub fn live_place(&self, id: u64) -> Option<usize>
        ensures { result ≡ live_at self.now id }
    {
        live_place(self.formula, self.ids.as_slice(), self.live.as_slice(), id)
    }

    /// Adds an id, whose clause is live.
    pub fn push(&mut self, id: u64) -> Result<(), AllocError>
        requires { is_new_id self.old id ≡ true }
        ensures ok { OnOk result (self.new ≡ with_id self.old id) }
        ensures err { OnErr result (self.new ≡ self.old) }
    {
        self.ids.push(id)?;
        if self.live.push(true).is_err() {
            self.ids.pop();
            return Err(AllocError);
        }
        Ok(())
    }

    /// Makes clauses not live, or answers the first id that isn't live then and changes nothing.
    pub fn delete(&mut self, ids: &[u64]) -> Result<(), u64>
        ensures ok { OnOk result (deleted self.old ids.now ≡ Ok self.new) }
        ensures refused { IfErr result (λ id. deleted self.old ids.now ≡ Err id) }
        ensures err { OnErr result (self.new ≡ self.old) }
        ensures kept { self.new ≡ entries self.old.formula self.old.ids self.new.live }
    {
        delete(
            self.formula,
            self.ids.as_slice(),
            self.live.as_mut_slice(),
            ids,
        )
    }
}

fn all_live(alloc: Global, count: usize) -> Result<Vec<bool>, AllocError>
    ensures { IfOk result (λ live. live.items ≡ replicate count true) }
{
    let mut live = Vec::new(alloc);
    for _ in 0..count {
        live.push(true)?;
    }
    Ok(live)
}

/// Makes the clause at a place live or not.
fn set_live(live: &mut [bool], place: usize, value: bool)
    ensures { live.new ≡ slice_set live.old place value }
{
    if place < live.len() {
        live[place] = value;
    }
}

/// Makes the clauses live that these ids name, from the last to the first.
fn revive(formula: usize, ids: &[u64], live: &mut [bool], gone: &[u64])
    requires rising { Rises ids.now }
    requires room { formula + length ids.now < 2 ^ 63 }
    ensures { live.new ≡ revived (entries formula ids.now live.old) gone.now }
{
    let mut left = gone;
    while let Some((last, before)) = left.split_last() {
        match place(formula, ids, *last) {
            None => {}
            Some(place) => set_live(live, place, true),
        }
        left = before;
    }
}

fn delete(formula: usize, ids: &[u64], live: &mut [bool], gone: &[u64]) -> Result<(), u64>
    requires rising { Rises ids.now }
    requires room { formula + length ids.now < 2 ^ 63 }
    ensures ok { OnOk result (deleted (entries formula ids.now live.old) gone.now ≡ Ok (entries formula ids.now live.new)) }
    ensures refused { IfErr result (λ id. deleted (entries formula ids.now live.old) gone.now ≡ Err id) }
    ensures err { OnErr result (live.new ≡ live.old) }
{
    for (at, id) in gone.iter().enumerate() {
        match live_place(formula, ids, live, *id) {
            None => {
                revive(formula, ids, live, &gone[..at]);
                return Err(*id);
            }
            Some(place) => set_live(live, place, false),
        }
    }
    Ok(())
}
