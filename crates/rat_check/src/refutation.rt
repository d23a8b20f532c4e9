//! Refutations.
ghost use Rattle.std.specs.Prelude.{◌≡◌, [], true, IsTrue, IfOk, IfErr, OnOk, OnErr, Ok};
ghost use Rattle.lrat_check.specs.Register.{is_new as is_new_id, all_ids};
ghost use Rattle.lrat_check.specs.Derivations.{start_of, entries_of, live_clause, lemma as made_lemma, with_lemma, is_closed};
ghost use Rattle.lrat_check.specs.Soundness.{IsUnsatisfiable};
ghost use Rattle.rat_check.specs.Rat.{Answers, check as checked};
ghost use Rattle.rat_check.specs.Refutations.{answer, live_without, IsShown};
ghost use Rattle.rat_check.specs.Soundness.{StaysSatisfiable};

use crate::checking::check;
use crate::occurrences::Occurrences;
use crate::rat_step::RatStep;
use knox_cnf::{Cnf, Lit};
use lrat_check::{Database, Marks, places_for};
use std::alloc::{AllocError, Global};
use std::marker::Model;

/// A formula and lemmas, of which each passed the check against the clauses that were live before it.
///
/// A deleted clause stays where it is, and isn't live any more.
#[derive(Debug)]
pub struct Refutation {
    database: Database,
    occurrences: Occurrences,
    marks: Marks,
}

impl Drop for Refutation {
    fn drop(self) {
        let Refutation {
            database: _database,
            occurrences: _occurrences,
            marks: _marks,
        } = self;
    }
}

impl Model for Refutation {
    ghost use Rattle.std.specs.Prelude.{◌≡◌, []};
    ghost use Rattle.lrat_check.specs.Derivations.{Proof};
    ghost use Rattle.rat_check.specs.Kept.{Kept};

    ghost Value = { Proof };

    ghost view = { λ r. r.database };

    ghost invariant = { λ r. Kept r.database r.occurrences × (r.marks ≡ []) };
}

impl Refutation {
    /// The formula without lemmas.
    pub fn new(alloc: Global, cnf: Cnf) -> Result<Refutation, AllocError>
        ensures { IfOk result (λ r. r ≡ start_of cnf) }
    {
        let marks = Marks::new(alloc, places_for(cnf.vars))?;
        let occurrences = Occurrences::new(alloc, &cnf)?;
        let database = Database::new(alloc, cnf)?;
        Ok(Refutation {
            database,
            occurrences,
            marks,
        })
    }

    /// Whether the formula or the lemmas have the empty clause, deleted or not.
    pub fn closed(&self) -> bool
        ensures closed { result ≡ is_closed self.now }
        // If an assignment makes the formula true, one makes all live clauses true.
        ensures satisfiable { StaysSatisfiable self.now }
        // No assignment makes the formula true where the refutation is closed.
        ensures unsatisfiable { IsTrue result → IsUnsatisfiable self.now }
    {
        self.database.closed()
    }

    /// Admits a lemma whose hints show that it keeps the live clauses satisfiable.
    pub fn admit(&mut self, id: u64, lemma: &[Lit], hints: &[i64]) -> Result<(), RatStep>
        ensures answer { Answers result (answer self.old id lemma.now hints.now) }
        ensures ok { OnOk result (self.new ≡ with_lemma self.old (made_lemma id lemma.now [])) }
        ensures err { OnErr result (self.new ≡ self.old) }
    {
        if !self.database.is_new(id) {
            return Err(RatStep::IdNotNew(id));
        }
        match self.check(lemma, hints) {
            Ok(()) => {}
            Err(step) => return Err(step),
        }
        match self.add(id, lemma) {
            Ok(()) => Ok(()),
            Err(_) => Err(RatStep::Memory),
        }
    }

    /// Checks a lemma against the live clauses.
    fn check(&mut self, lemma: &[Lit], hints: &[i64]) -> Result<(), RatStep>
        ensures answer { Answers result (checked (live_clause self.old) (all_ids (entries_of self.old)) lemma.now hints.now) }
        ensures same { self.new ≡ self.old }
    {
        let answer = check(
            &self.database,
            &self.occurrences,
            &mut self.marks,
            lemma,
            hints,
        );
        self.marks.clear();
        answer
    }

    /// Adds a lemma that passed.
    fn add(&mut self, id: u64, lemma: &[Lit]) -> Result<(), AllocError>
        requires above { is_new_id (entries_of self.old) id ≡ true }
        requires shown { IsShown self.old lemma.now }
        ensures ok { OnOk result (self.new ≡ with_lemma self.old (made_lemma id lemma.now [])) }
        ensures err { OnErr result (self.new ≡ self.old) }
    {
        self.occurrences.add(id, lemma)?;
        self.database.push(id, lemma, &[])
    }

    /// Deletes clauses: none of them is live from then on. Refused at the first id that isn't live,
    /// as one that stands a second time.
    pub fn delete(&mut self, ids: &[u64]) -> Result<(), RatStep>
        ensures ok { OnOk result (live_without self.old ids.now ≡ Ok self.new.live) }
        ensures same { OnOk result (self.new ≡ record self.old { live = self.new.live }) }
        ensures refused { IfErr result (λ step. live_without self.old ids.now ≡ Err step) }
        ensures err { OnErr result (self.new ≡ self.old) }
    {
        match self.database.delete(ids) {
            Ok(()) => Ok(()),
            Err(id) => Err(RatStep::NoSuchClause(id)),
        }
    }
}
