//! The solver.
ghost use Rattle.std.specs.Prelude.{◌≡◌, ◌<◌, suc, length, IfOk};
ghost use Rattle.sat_core.specs.Plain.{clauses_of};
ghost use Rattle.sat_core.specs.Propagation.{Propagates};
ghost use Rattle.sat_core.specs.Solving.{fresh, EndsAt};

use crate::propagation::propagate_search;
use crate::search::Search;
use crate::watch_lists::Watches;
use knox_cnf::{Cnf, Lit};
use lrat_check::Derivation;
use std::alloc::{AllocError, Global};
use std::marker::Model;

/// A formula with its lemmas, and the literals that are true.
///
/// Where memory ran out in the midst of a step, every later step wants memory too.
pub struct Solver {
    alloc: Global,
    derivation: Derivation,
    search: Search,
    broken: bool,
}

impl Drop for Solver {
    fn drop(self) {
        let Solver {
            alloc: _alloc,
            derivation: _derivation,
            search: _search,
            broken: _broken,
        } = self;
    }
}

impl Model for Solver {
    ghost use Rattle.sat_core.specs.Solving.{Solving, solving_of, IsSolver};

    ghost Value = { Solving };

    ghost view = { solving_of };

    ghost invariant = { IsSolver };
}

/// The id of the clause at a place.
fn id_at(stored: &[Watches], place: usize) -> u64
    requires { place < length stored.now }
    ensures { result ≡ suc place }
{
    let _count = stored.len();
    place as u64 + 1
}

impl Solver {
    /// A solver of this formula, before any step. No literal is true.
    pub fn new(alloc: Global, cnf: Cnf) -> Result<Solver, AllocError>
        ensures { IfOk result (λ s. s ≡ fresh cnf) }
    {
        let derivation = Derivation::new(alloc, cnf)?;
        let search = Search::new(alloc, derivation.cnf().clauses.as_slice())?;
        Ok(Solver {
            alloc,
            derivation,
            search,
            broken: false,
        })
    }

    /// The literals that are true, in the order in which they became so.
    pub fn trail(&self) -> &[Lit]
        ensures { result.now ≡ self.now.trail }
    {
        self.search.trail.literals()
    }

    /// Makes the literals true that the clauses of formula and lemmas force, to the end. The answer is
    /// the id of a clause that is false, or `None` exactly where none is false or unit.
    pub fn propagate(&mut self) -> Result<Option<u64>, AllocError>
        ensures kept { self.new.derivation ≡ self.old.derivation }
        ensures appended { IfOk result (λ r. Propagates (clauses_of self.old.derivation) self.old.trail self.new.trail) }
        ensures ends { IfOk result (EndsAt self.old.derivation self.new.trail) }
    {
        if self.broken {
            return Err(AllocError);
        }
        self.broken = true;
        let conflict = propagate_search(self.alloc, &mut self.search)?;
        self.broken = false;
        let Some(place) = conflict else {
            return Ok(None);
        };
        Ok(Some(id_at(self.search.stored.as_slice(), place)))
    }
}
