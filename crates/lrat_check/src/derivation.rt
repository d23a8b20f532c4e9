//! Derivations.
ghost use Rattle.std.specs.Prelude.{◌≡◌, [], true, IsTrue, IfOk, IfErr, OnOk, OnErr, Ok, Err};
ghost use Rattle.lrat_check.specs.Register.{is_new as is_new_id};
ghost use Rattle.lrat_check.specs.Hints.{Answers, check as checked};
ghost use Rattle.lrat_check.specs.Derivations.{start_of, entries_of, live_clause, lemma as made_lemma, with_lemma, answer, live_without, is_closed};
ghost use Rattle.lrat_check.specs.Soundness.{LemmasFollow, IsUnsatisfiable};

use crate::checking::{check, has_negative};
use crate::database::Database;
use crate::lemma::Lemma;
use crate::marks::{Marks, places_for};
use crate::step::Step;
use knox_cnf::{Cnf, Lit};
use std::alloc::{AllocError, Global};
use std::marker::Model;

/// A formula and lemmas that follow from it. Each lemma passed the check against the clauses before it.
///
/// A deleted clause stays where it is, and can't be named any more.
#[derive(Debug)]
pub struct Derivation {
    database: Database,
    marks: Marks,
}

impl Drop for Derivation {
    fn drop(self) {
        let Derivation {
            database: _database,
            marks: _marks,
        } = self;
    }
}

impl Model for Derivation {
    ghost use Rattle.std.specs.Prelude.{◌≡◌, []};
    ghost use Rattle.lrat_check.specs.Derivations.{Proof, IsLrup};

    ghost Value = { Proof };

    ghost view = { λ d. d.database };

    ghost invariant = { λ d. IsLrup d.database.cnf.clauses d.database.lemmas × (d.marks ≡ []) };
}

impl Derivation {
    /// The formula without lemmas.
    pub fn new(alloc: Global, cnf: Cnf) -> Result<Derivation, AllocError>
        ensures { IfOk result (λ d. d ≡ start_of cnf) }
    {
        let marks = Marks::new(alloc, places_for(cnf.vars))?;
        let database = Database::new(alloc, cnf)?;
        Ok(Derivation { database, marks })
    }

    /// The formula.
    pub fn cnf(&self) -> &Cnf
        ensures { result.now ≡ self.now.cnf }
    {
        self.database.cnf()
    }

    /// The lemmas in the order in which they were admitted, deleted ones too.
    pub fn lemmas(&self) -> &[Lemma]
        ensures lemmas { result.now ≡ self.now.lemmas }
        // Every assignment that satisfies the formula satisfies each of them.
        ensures follow { LemmasFollow self.now }
    {
        self.database.lemmas()
    }

    /// Whether the formula or the lemmas have the empty clause, deleted or not.
    pub fn closed(&self) -> bool
        ensures closed { result ≡ is_closed self.now }
        // No assignment satisfies the formula then.
        ensures unsatisfiable { IsTrue result → IsUnsatisfiable self.now }
    {
        self.database.closed()
    }

    /// Admits a lemma whose hints name the live clauses that show it.
    pub fn admit(&mut self, id: u64, lemma: &[Lit], hints: &[i64]) -> Result<(), Step>
        ensures answer { Answers result (answer self.old id lemma.now hints.now) }
        ensures ok { OnOk result (self.new ≡ with_lemma self.old (made_lemma id lemma.now hints.now)) }
        ensures err { OnErr result (self.new ≡ self.old) }
    {
        if !self.database.is_new(id) {
            return Err(Step::IdNotNew(id));
        }
        if has_negative(hints) {
            return Err(Step::Rat(id));
        }
        match self.check(lemma, hints) {
            Ok(()) => {}
            Err(step) => return Err(step),
        }
        match self.add(id, lemma, hints) {
            Ok(()) => Ok(()),
            Err(_) => Err(Step::Memory),
        }
    }

    /// Checks a lemma against the live clauses.
    fn check(&mut self, lemma: &[Lit], hints: &[i64]) -> Result<(), Step>
        ensures answer { Answers result (checked (live_clause self.old) lemma.now hints.now) }
        ensures same { self.new ≡ self.old }
    {
        let answer = check(&self.database, &mut self.marks, lemma, hints);
        self.marks.clear();
        answer
    }

    /// Adds a lemma that was checked.
    fn add(&mut self, id: u64, lemma: &[Lit], hints: &[i64]) -> Result<(), AllocError>
        requires above { is_new_id (entries_of self.old) id ≡ true }
        requires shown { checked (live_clause self.old) lemma.now hints.now ≡ Ok tt }
        ensures ok { OnOk result (self.new ≡ with_lemma self.old (made_lemma id lemma.now hints.now)) }
        ensures err { OnErr result (self.new ≡ self.old) }
    {
        self.database.push(id, lemma, hints)
    }

    /// Deletes clauses: none of them is live from then on. Refused at the first id that isn't live,
    /// as one that stands a second time.
    pub fn delete(&mut self, ids: &[u64]) -> Result<(), Step>
        ensures ok { OnOk result (live_without self.old ids.now ≡ Ok self.new.live) }
        ensures same { OnOk result (self.new ≡ record self.old { live = self.new.live }) }
        ensures refused { IfErr result (λ step. live_without self.old ids.now ≡ Err step) }
        ensures err { OnErr result (self.new ≡ self.old) }
    {
        match self.database.delete(ids) {
            Ok(()) => Ok(()),
            Err(id) => Err(Step::NoSuchClause(id)),
        }
    }
}
