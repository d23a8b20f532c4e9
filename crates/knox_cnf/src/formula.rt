//! Clauses, formulas and assignments.
ghost use Rattle.std.specs.Prelude.{◌≡◌, ◌≤◌, IfOk};
ghost use Rattle.knox_cnf.specs.Formulas.{value_in, literal_true, clause_true, clauses_true, clause_within, is_within};

use crate::literal::Lit;
use smallvec::SmallVec;
use sqlite_items::Items;
use std::alloc::{AllocError, Global};
use std::marker::Model;

/// Literals of which one is to be true. Contracts see the list of them.
#[derive(Debug, Drop)]
pub struct Clause {
    lits: SmallVec<Lit, 3>,
}

impl Model for Clause {
    ghost use Rattle.std.specs.Prelude.{List};
    ghost use Rattle.knox_cnf.specs.Literals.{Literal};

    ghost Value = { List Literal };

    ghost view = { λ c. c.lits.items };
}

impl Clause {
    /// The clause of these literals, in this order.
    pub fn from_lits(alloc: Global, lits: &[Lit]) -> Result<Clause, AllocError>
        ensures { IfOk result (λ c. c ≡ lits.now) }
    {
        let lits = SmallVec::from_slice(alloc, lits)?;
        Ok(Clause { lits })
    }

    /// The literals.
    pub fn lits(&self) -> &[Lit]
        ensures { result.now ≡ self.now }
    {
        self.lits.as_slice()
    }

    fn is_within(&self, vars: u64) -> bool
        ensures { result ≡ clause_within vars self.now }
    {
        self.lits().iter().all(|lit| lit.var() <= vars)
    }
}

/// A formula: clauses that are all to be true, over the variables from 1 to `vars`.
#[derive(Debug, Drop)]
pub struct Cnf {
    pub vars: u64,
    pub clauses: Items<Clause>,
}

impl Cnf {
    /// Whether no literal's variable is past `vars`.
    pub fn is_within(&self) -> bool
        ensures { result ≡ is_within self.now.vars self.now.clauses }
    {
        self.clauses
            .as_slice()
            .iter()
            .all(|clause| clause.is_within(self.vars))
    }
}

/// A value for each variable. Variable v has place v - 1, and one past the list is false.
#[derive(Debug, Drop)]
pub struct Assignment {
    pub values: Items<bool>,
}

impl Assignment {
    fn value(&self, var: u64) -> bool
        requires { 1 ≤ var }
        ensures { result ≡ value_in self.now.values var }
    {
        let at = (var - 1) as usize;
        self.values.as_slice().get(at).copied().unwrap_or(false)
    }

    fn makes_true(&self, lit: Lit) -> bool
        ensures { result ≡ literal_true (value_in self.now.values) lit }
    {
        self.value(lit.var()) == lit.is_positive()
    }
}

fn satisfies_clause(clause: &Clause, a: &Assignment) -> bool
    ensures { result ≡ clause_true (value_in a.now.values) clause.now }
{
    clause.lits().iter().any(|lit| a.makes_true(*lit))
}

/// Whether the assignment makes each clause true.
pub fn satisfies(cnf: &Cnf, a: &Assignment) -> bool
    ensures { result ≡ clauses_true (value_in a.now.values) cnf.now.clauses }
{
    cnf.clauses
        .as_slice()
        .iter()
        .all(|clause| satisfies_clause(clause, a))
}
