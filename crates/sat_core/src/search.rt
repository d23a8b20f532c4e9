//! The state of a search: clauses with their watches, and the literals that are true.
ghost use Rattle.std.specs.Prelude.{◌≡◌, ◌≤◌, ◌+◌, ◌*◌, ℕ, [], length, IfOk, true};
ghost use Rattle.knox_cnf.specs.Formulas.{is_within};
ghost use Rattle.sat_core.specs.Explained.{SameClauses};
ghost use Rattle.sat_core.specs.Searching.{IsSearch};

use crate::order::Order;
use crate::storing::{empty_lists, store, widest};
use crate::trail::Trail;
use crate::watch_lists::{Places, Watches};
use knox_cnf::Clause;
use std::alloc::{AllocError, Global};

/// Clauses, and the literals that are true.
pub struct Search {
    /// The clauses, each as a set.
    pub stored: Vec<Watches>,
    /// For each literal the clauses that watch it.
    pub lists: Vec<Places>,
    /// The literals that are true.
    pub trail: Trail,
    /// For each of them the place of the clause that forced it. A decision's says nothing.
    pub reasons: Vec<usize>,
    /// At which places of the trail the decisions are.
    pub decisions: Vec<usize>,
    /// From this place of the trail on propagation goes on.
    pub done: usize,
    /// The clauses before this place that have fewer than two literals are satisfied.
    pub looked: usize,
    /// In which order variables are decided.
    pub order: Order,
}

impl Drop for Search {
    fn drop(self) {
        let Search {
            stored: _stored,
            lists: _lists,
            trail: _trail,
            reasons: _reasons,
            decisions: _decisions,
            done: _done,
            looked: _looked,
            order: _order,
        } = self;
    }
}

impl Search {
    /// A search before any step.
    pub fn new(alloc: Global, clauses: &[Clause]) -> Result<Search, AllocError>
        ensures search { IfOk result IsSearch }
        ensures same { IfOk result (λ s. SameClauses clauses.now s.stored.items) }
        ensures wide { (n : ℕ) → is_within n clauses.now ≡ true → IfOk result (λ s. length s.lists.items ≤ 2 * n + 2) }
        ensures fresh { IfOk result (λ s. (s.trail ≡ []) × (s.decisions.items ≡ [])) }
    {
        let mut lists = empty_lists(alloc, widest(clauses))?;
        let stored = store(alloc, clauses, lists.as_mut_slice())?;
        let order = Order::new(alloc, lists.len() / 2)?;
        Ok(Search {
            stored,
            lists,
            trail: Trail::new(alloc),
            reasons: Vec::new(alloc),
            decisions: Vec::new(alloc),
            done: 0,
            looked: 0,
            order,
        })
    }
}
