//! Which literals are taken to be true.
ghost use Rattle.std.specs.Prelude.{◌≡◌, ◌<◌, ◌^◌, ◌+◌, ◌*◌, nat_lt, if◌then◌else◌, ◌++◌, ◌∷◌, [], OnOk, OnErr, IfOk, true, false, length, take, ◌-◌};
ghost use Rattle.knox_cnf.specs.Literals.{has};
ghost use Rattle.lrat_check.specs.Marks.{index_of, with_true};

use knox_cnf::Lit;
use std::alloc::{AllocError, Global};
use std::collections::BTreeSet;
use std::marker::Model;

/// The table has places for so many variables at most. The literals of others stand in a set.
const NEAR_VARIABLES: u64 = 10_000_000;

/// The literals that are taken to be true, in order. A table tells of the literals of the first
/// variables, and a set of the others, so that a literal costs no more than itself.
#[derive(Debug, Drop)]
pub struct Marks {
    trail: Vec<Lit>,
    near: Vec<bool>,
    far: BTreeSet<u64>,
}

impl Model for Marks {
    ghost use Rattle.std.specs.Prelude.{List};
    ghost use Rattle.knox_cnf.specs.Literals.{Literal};
    ghost use Rattle.lrat_check.specs.Marks.{Tell};

    ghost Value = { List Literal };

    ghost view = { λ m. m.trail.items };

    ghost invariant = { λ m. Tell m.near.items m.far m.trail.items };
}

/// How many places the table has for a formula of so many variables.
pub fn places_for(vars: u64) -> usize
    ensures { result ≡ 2 * (if nat_lt vars NEAR_VARIABLES then vars else NEAR_VARIABLES) + 2 }
{
    if vars < NEAR_VARIABLES {
        (2 * vars + 2) as usize
    } else {
        (2 * NEAR_VARIABLES + 2) as usize
    }
}

/// The number of a literal, which no other has.
pub fn index(lit: Lit) -> u64
    ensures value { result ≡ index_of lit }
{
    let double = lit.var() * 2;
    if lit.is_positive() {
        double
    } else {
        double + 1
    }
}

impl Marks {
    /// No literal is true, and the table has so many places.
    pub fn new(alloc: Global, places: usize) -> Result<Marks, AllocError>
        ensures { IfOk result (λ m. m ≡ []) }
    {
        let mut near = Vec::new(alloc);
        for _ in 0..places {
            near.push(false)?;
        }
        Ok(Marks {
            trail: Vec::new(alloc),
            near,
            far: BTreeSet::new(alloc),
        })
    }

    /// Whether the literal is one of these.
    pub fn holds(&self, lit: Lit) -> bool
        ensures { result ≡ has self.now lit }
    {
        let at = index(lit);
        match self.near.as_slice().get(at as usize) {
            Some(mark) => *mark,
            None => self.far.contains(&at),
        }
    }

    /// How many literals are true.
    pub fn len(&self) -> usize
        ensures { result ≡ length self.now }
    {
        self.trail.len()
    }

    /// Takes a literal to be true.
    pub fn assume(&mut self, lit: Lit) -> Result<(), AllocError>
        ensures ok { OnOk result (self.new ≡ with_true self.old lit) }
        ensures err { OnErr result (self.new ≡ self.old) }
    {
        if self.holds(lit) {
            return Ok(());
        }
        self.add(lit)
    }

    /// Adds a literal that isn't one of these.
    fn add(&mut self, lit: Lit) -> Result<(), AllocError>
        requires { has self.old lit ≡ false }
        ensures ok { OnOk result (self.new ≡ self.old ++ lit ∷ []) }
        ensures err { OnErr result (self.new ≡ self.old) }
    {
        let at = index(lit);
        self.trail.push(lit)?;
        if (at as usize) < self.near.len() {
            self.near[at as usize] = true;
            return Ok(());
        }
        match self.far.insert(at) {
            Ok(_) => Ok(()),
            Err(_) => {
                self.trail.pop();
                Err(AllocError)
            }
        }
    }

    /// Takes back the assumptions behind so many first ones, at the cost of their number.
    pub fn undo(&mut self, first: usize)
        ensures { self.new ≡ take first self.old }
    {
        while self.trail.len() > first {
            self.take_back();
        }
    }

    /// Takes back the last assumption, if there is one.
    fn take_back(&mut self)
        ensures { self.new ≡ take (length self.old - 1) self.old }
    {
        if let Some(lit) = self.trail.pop() {
            let at = index(lit);
            if (at as usize) < self.near.len() {
                self.near[at as usize] = false;
            } else {
                let _was = self.far.remove(&at);
            }
        }
    }

    /// Takes back every assumption, at the cost of their number.
    pub fn clear(&mut self)
        ensures { self.new ≡ [] }
    {
        while let Some(lit) = self.trail.pop() {
            let at = index(lit) as usize;
            if at < self.near.len() {
                self.near[at] = false;
            }
        }
        self.far.clear();
    }
}
