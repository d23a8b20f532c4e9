//! Clauses with their ids.
ghost use Rattle.std.specs.Prelude.{◌≡◌, ◌||◌, true, IfOk, IfErr, OnOk, OnErr, Ok, Err, slice_get};
ghost use Rattle.std.specs.Option.{option_copied};
ghost use Rattle.std.specs.List.{list_any};
ghost use Rattle.lrat_check.specs.Register.{is_new as is_new_id, deleted};
ghost use Rattle.lrat_check.specs.Derivations.{start_of, entries_of, live_clause as live_clause_of, lemma as made_lemma, with_lemma, is_empty as is_empty_clause, is_closed, clauses_with, live_in};

use crate::lemma::Lemma;
use crate::register::Register;
use knox_cnf::{Clause, Cnf, Lit};
use sqlite_items::Items;
use std::alloc::{AllocError, Global};
use std::marker::Model;

/// A formula and lemmas, which have ids that rise.
///
/// A deleted clause stays where it is, and isn't live any more.
#[derive(Debug)]
pub struct Database {
    alloc: Global,
    cnf: Cnf,
    lemmas: Items<Lemma>,
    register: Register,
    closed: bool,
}

impl Drop for Database {
    fn drop(self) {
        let Database {
            alloc: _alloc,
            cnf: _cnf,
            lemmas: _lemmas,
            register: _register,
            closed: _closed,
        } = self;
    }
}

impl Model for Database {
    ghost use Rattle.lrat_check.specs.Derivations.{Proof};
    ghost use Rattle.lrat_check.specs.Kept.{proof_of, Kept};

    ghost Value = { Proof };

    ghost view = { proof_of };

    ghost invariant = { Kept };
}

impl Database {
    /// The formula without lemmas.
    pub fn new(alloc: Global, cnf: Cnf) -> Result<Database, AllocError>
        ensures { IfOk result (λ d. d ≡ start_of cnf) }
    {
        let register = Register::new(alloc, cnf.clauses.len())?;
        let closed = has_empty(cnf.clauses.as_slice());
        Ok(Database {
            alloc,
            cnf,
            lemmas: Items::new(alloc),
            register,
            closed,
        })
    }

    /// The formula.
    pub fn cnf(&self) -> &Cnf
        ensures { result.now ≡ self.now.cnf }
    {
        &self.cnf
    }

    /// The lemmas in the order in which they were added, deleted ones too.
    pub fn lemmas(&self) -> &[Lemma]
        ensures { result.now ≡ self.now.lemmas }
    {
        self.lemmas.as_slice()
    }

    /// Whether the formula or the lemmas have the empty clause, deleted or not.
    pub fn closed(&self) -> bool
        ensures { result ≡ is_closed self.now }
    {
        self.closed
    }

    /// Whether the id is above every id before.
    pub fn is_new(&self, id: u64) -> bool
        ensures { result ≡ is_new_id (entries_of self.now) id }
    {
        self.register.is_new(id)
    }

    /// The live clause that an id names.
    pub fn live_clause(&self, id: u64) -> Option<&Clause>
        ensures { option_copied result ≡ live_clause_of self.now id }
    {
        live_clause(
            self.cnf.clauses.as_slice(),
            self.lemmas.as_slice(),
            &self.register,
            id,
        )
    }

    /// Adds a lemma, which is live.
    pub fn push(&mut self, id: u64, lemma: &[Lit], hints: &[i64]) -> Result<(), AllocError>
        requires { is_new_id (entries_of self.old) id ≡ true }
        ensures ok { OnOk result (self.new ≡ with_lemma self.old (made_lemma id lemma.now hints.now)) }
        ensures err { OnErr result (self.new ≡ self.old) }
    {
        let made = make_lemma(self.alloc, id, lemma, hints)?;
        self.lemmas.push(made)?;
        match self.register.push(id) {
            Err(refused) => {
                self.lemmas.pop();
                Err(refused)
            }
            Ok(()) => {
                self.closed = closed_with(self.closed, lemma);
                Ok(())
            }
        }
    }

    /// Makes clauses not live, or answers the first id that isn't live then and changes nothing.
    pub fn delete(&mut self, ids: &[u64]) -> Result<(), u64>
        ensures ok { OnOk result (deleted (entries_of self.old) ids.now ≡ Ok (entries_of self.new)) }
        ensures same { self.new ≡ record self.old { live = self.new.live } }
        ensures refused { IfErr result (λ id. deleted (entries_of self.old) ids.now ≡ Err id) }
        ensures err { OnErr result (self.new ≡ self.old) }
    {
        self.register.delete(ids)
    }
}

/// The clause at a place: those of the formula come first.
fn clause_at<'a>(formula: &'a [Clause], lemmas: &'a [Lemma], place: usize) -> Option<&'a Clause>
    ensures { option_copied result ≡ slice_get (clauses_with formula.now lemmas.now) place }
{
    if place < formula.len() {
        return formula.get(place);
    }
    match lemmas.get(place - formula.len()) {
        None => None,
        Some(lemma) => Some(&lemma.lits),
    }
}

fn live_clause<'a>(
    formula: &'a [Clause],
    lemmas: &'a [Lemma],
    register: &Register,
    id: u64,
) -> Option<&'a Clause>
    ensures { option_copied result ≡ live_in register.now (clauses_with formula.now lemmas.now) id }
{
    match register.live_place(id) {
        None => None,
        Some(place) => clause_at(formula, lemmas, place),
    }
}

fn make_lemma(alloc: Global, id: u64, lemma: &[Lit], hints: &[i64]) -> Result<Lemma, AllocError>
    ensures { IfOk result (λ m. m ≡ made_lemma id lemma.now hints.now) }
{
    let lits = Clause::from_lits(alloc, lemma)?;
    let hints = Items::from_slice(alloc, hints)?;
    Ok(Lemma { id, lits, hints })
}

/// Whether there is the empty clause, with one more clause.
fn closed_with(closed: bool, lemma: &[Lit]) -> bool
    ensures { result ≡ (closed || is_empty_clause lemma.now) }
{
    closed || lemma.is_empty()
}

fn is_empty(clause: &Clause) -> bool
    ensures { result ≡ is_empty_clause clause.now }
{
    clause.lits().is_empty()
}

fn has_empty(clauses: &[Clause]) -> bool
    ensures { result ≡ list_any is_empty_clause clauses.now }
{
    clauses.iter().any(|clause| is_empty(clause))
}
