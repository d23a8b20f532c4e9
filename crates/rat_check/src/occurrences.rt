//! Which clauses hold a literal.
ghost use Rattle.std.specs.Prelude.{◌≡◌, ◌<◌, ◌+◌, ◌++◌, ℕ, [], true, IsTrue, IfOk, OnOk, length, slice_index_or};
ghost use Rattle.lrat_check.specs.Marks.{index_of};
ghost use Rattle.rat_check.specs.Occurrences.{among, list_at as ids_at, Keeps, KeepsEach, Extends, Lists};

use knox_cnf::{Clause, Cnf, Lit};
use lrat_check::index;
use sqlite_items::Items;
use std::alloc::{AllocError, Global};

/// The table has lists for so many variables at each clause of the formula at most.
const VARIABLES_A_CLAUSE: u64 = 16;

/// The ids of clauses by the literals that they hold. An id is listed for every literal that its clause
/// holds, and may be listed for others.
///
/// The table has a list for each literal whose number is below a limit, which rises with the clauses, so
/// that a literal costs no more than its clause. Literals past the table share one list.
#[derive(Debug, Drop)]
pub struct Occurrences {
    alloc: Global,
    limit: u64,
    near: Vec<Items<u64>>,
    far: Items<u64>,
}

impl Occurrences {
    /// The clauses of a formula, whose ids are 1, 2, 3 and so on.
    pub fn new(alloc: Global, cnf: &Cnf) -> Result<Occurrences, AllocError>
        ensures { IfOk result (λ o. (k : ℕ) → Lists o (k + 1) (slice_index_or cnf.now.clauses k [])) }
    {
        let clauses = cnf.clauses.as_slice();
        let mut occurrences = Occurrences {
            alloc,
            limit: limit_for(cnf.vars, clauses.len()),
            near: Vec::new(alloc),
            far: Items::new(alloc),
        };
        for (at, clause) in clauses.iter().enumerate() {
            occurrences.add(at as u64 + 1, clause.lits())?;
        }
        Ok(occurrences)
    }

    /// The ids in the table's list for a literal.
    pub fn near(&self, lit: Lit) -> &[u64]
        ensures { result.now ≡ ids_at self.now.near.items (index_of lit) }
    {
        match self.near.as_slice().get(index(lit) as usize) {
            Some(ids) => ids.as_slice(),
            None => &[],
        }
    }

    /// The ids in the list of all literals past the table.
    pub fn far(&self) -> &[u64]
        ensures { result.now ≡ self.now.far }
    {
        self.far.as_slice()
    }

    /// Lists a clause for each of its literals.
    pub fn add(&mut self, id: u64, clause: &[Lit]) -> Result<(), AllocError>
        ensures ok { OnOk result (Lists self.new id clause.now) }
        ensures more { Extends self.old self.new }
    {
        self.limit = self.limit.saturating_add(2);
        for lit in clause {
            self.add_at(*lit, id)?;
        }
        Ok(())
    }

    /// Lists a clause for one literal.
    fn add_at(&mut self, lit: Lit, id: u64) -> Result<(), AllocError>
        ensures ok { OnOk result (among (ids_at self.new.near.items (index_of lit) ++ self.new.far) id ≡ true) }
        ensures more { Extends self.old self.new }
    {
        let at = index(lit);
        widen(self.alloc, &mut self.near, at, self.limit)?;
        if (at as usize) < self.near.len() {
            return add_to(self.near.as_mut_slice(), at as usize, id);
        }
        add_id(&mut self.far, id)
    }
}

/// For how many literals the table has lists at most, before more clauses come.
fn limit_for(vars: u64, clauses: usize) -> u64 {
    let most = (clauses as u64).saturating_mul(VARIABLES_A_CLAUSE);
    vars.min(most).saturating_mul(2)
}

/// Adds empty lists up to a place, if it is below a limit.
fn widen(alloc: Global, lists: &mut Vec<Items<u64>>, at: u64, limit: u64) -> Result<(), AllocError>
    ensures { KeepsEach lists.old.items lists.new.items }
{
    if at >= limit {
        return Ok(());
    }
    for _ in lists.len()..at as usize + 1 {
        lists.push(Items::new(alloc))?;
    }
    Ok(())
}

/// Adds an id to the list at a place.
fn add_to(lists: &mut [Items<u64>], at: usize, id: u64) -> Result<(), AllocError>
    requires { at < length lists.old }
    ensures ok { OnOk result (among (ids_at lists.new at) id ≡ true) }
    ensures more { KeepsEach lists.old lists.new }
{
    add_id(&mut lists[at], id)
}

/// Adds an id to a list, if it isn't the last there.
fn add_id(ids: &mut Items<u64>, id: u64) -> Result<(), AllocError>
    ensures ok { OnOk result (among ids.new id ≡ true) }
    ensures more { Keeps ids.old ids.new }
{
    if ends_with(ids.as_slice(), id) {
        return Ok(());
    }
    ids.push(id)
}

fn ends_with(ids: &[u64], id: u64) -> bool
    ensures { IsTrue result → among ids.now id ≡ true }
{
    match ids.split_last() {
        None => false,
        Some((last, _)) => *last == id,
    }
}
