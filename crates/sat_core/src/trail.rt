//! The literals that are true.
ghost use Rattle.std.specs.Prelude.{◌≡◌, ◌+◌, ◌<◌, ◌≤◌, ◌++◌, ◌∷◌, [], ℕ, length, take, slice_index_or, slice_set, OnOk, OnErr, MatchOption, true, false};
ghost use Rattle.knox_cnf.specs.Literals.{literal, has};
ghost use Rattle.lrat_check.specs.Marks.{index_of, Extends};
ghost use Rattle.sat_core.specs.Resolved.{IsFirst};
ghost use Rattle.sat_core.specs.Tables.{AreOnce, Tells};

use knox_cnf::Lit;
use std::alloc::{AllocError, Global};
use std::marker::Model;

/// The literals that are true, in the order in which they became so, each once. A table tells of each
/// at which place it is.
#[derive(Drop)]
pub struct Trail {
    literals: Vec<Lit>,
    places: Vec<usize>,
}

impl Model for Trail {
    ghost use Rattle.std.specs.Prelude.{List};
    ghost use Rattle.knox_cnf.specs.Literals.{Literal};
    ghost use Rattle.sat_core.specs.Tables.{Tells};

    ghost Value = { List Literal };

    ghost view = { λ t. t.literals.items };

    ghost invariant = { λ t. Tells t.places.items t.literals.items };
}

/// The number of a literal.
fn index(lit: Lit) -> usize
    ensures { result ≡ index_of lit }
{
    let double = lit.var() * 2;
    if lit.is_positive() {
        double as usize
    } else {
        (double + 1) as usize
    }
}

/// Makes a table so long that it has a place, and leaves what it tells.
fn cover(table: &mut Vec<usize>, place: usize) -> Result<(), AllocError>
    ensures covered { OnOk result (place < length table.new.items) }
    ensures same { (k : ℕ) → slice_index_or table.new.items k 0 ≡ slice_index_or table.old.items k 0 }
{
    while table.len() <= place {
        table.push(0)?;
    }
    Ok(())
}

/// What a table has for a literal.
fn entry(table: &[usize], lit: Lit) -> usize
    ensures { result ≡ slice_index_or table.now (index_of lit) 0 }
{
    match table.get(index(lit)) {
        Some(place) => *place,
        None => 0,
    }
}

/// Puts a number into a table.
fn note(table: &mut Vec<usize>, at: usize, place: usize)
    requires { at < length table.old.items }
    ensures { table.new.items ≡ slice_set table.old.items at place }
{
    table[at] = place;
}

/// A literal has no place any more.
fn forget(table: &mut Vec<usize>, lit: Lit)
    ensures own { slice_index_or table.new.items (index_of lit) 0 ≡ 0 }
    ensures others { (k : ℕ) → (k ≡ index_of lit → ⊥) → slice_index_or table.new.items k 0 ≡ slice_index_or table.old.items k 0 }
{
    let at = index(lit);
    if at < table.len() {
        note(table, at, 0);
    }
}

/// The last literal isn't true any more.
fn drop_last(literals: &mut Vec<Lit>, places: &mut Vec<usize>)
    requires tells { Tells places.old.items literals.old.items }
    requires some { 0 < length literals.old.items }
    ensures tells { Tells places.new.items literals.new.items }
    ensures shorter { length literals.new.items < length literals.old.items }
    ensures longest { length literals.old.items ≤ length literals.new.items + 1 }
    ensures front { Extends literals.new.items literals.old.items }
{
    if let Some(lit) = literals.pop() {
        forget(places, lit);
    }
}

/// Only the first literals stay true.
fn shorten(literals: &mut Vec<Lit>, places: &mut Vec<usize>, count: usize)
    requires tells { Tells places.old.items literals.old.items }
    requires inside { count ≤ length literals.old.items }
    ensures tells { Tells places.new.items literals.new.items }
    ensures front { literals.new.items ≡ take count literals.old.items }
{
    while literals.len() > count {
        drop_last(literals, places);
    }
}

impl Trail {
    /// No literal is true.
    pub fn new(alloc: Global) -> Trail
        ensures { result ≡ [] }
    {
        Trail {
            literals: Vec::new(alloc),
            places: Vec::new(alloc),
        }
    }

    /// How many literals are true.
    pub fn len(&self) -> usize
        ensures { result ≡ length self.now }
    {
        self.literals.len()
    }

    /// No literal is true twice.
    pub fn once(&self)
        ensures { AreOnce self.now }
    {
        let _count = self.literals.len();
    }

    /// The literals.
    pub fn literals(&self) -> &[Lit]
        ensures { result.now ≡ self.now }
    {
        self.literals.as_slice()
    }

    /// The literal at a place.
    pub fn at(&self, place: usize) -> Lit
        requires { place < length self.now }
        ensures { result ≡ slice_index_or self.now place (literal 1 true) }
    {
        self.literals[place]
    }

    /// The place of a literal, if it is true.
    pub fn place_of(&self, lit: Lit) -> Option<usize>
        ensures { MatchOption result (has self.now lit ≡ false) (IsFirst self.now lit) }
    {
        let place = entry(self.places.as_slice(), lit);
        if place == 0 { None } else { Some(place - 1) }
    }

    /// Whether the literal is true.
    pub fn holds(&self, lit: Lit) -> bool
        ensures { result ≡ has self.now lit }
    {
        self.place_of(lit).is_some()
    }

    /// One more literal is true.
    pub fn push(&mut self, lit: Lit) -> Result<(), AllocError>
        requires { has self.old lit ≡ false }
        ensures ok { OnOk result (self.new ≡ self.old ++ lit ∷ []) }
        ensures err { OnErr result (self.new ≡ self.old) }
    {
        let at = index(lit);
        cover(&mut self.places, at)?;
        self.literals.push(lit)?;
        note(&mut self.places, at, self.literals.len());
        Ok(())
    }

    /// Only the first literals stay true.
    pub fn truncate(&mut self, count: usize)
        requires { count ≤ length self.old }
        ensures { self.new ≡ take count self.old }
    {
        shorten(&mut self.literals, &mut self.places, count);
    }
}

/// One more literal is true, and a clause at this place is why.
pub fn force(
    trail: &mut Trail,
    reasons: &mut Vec<usize>,
    lit: Lit,
    reason: usize,
) -> Result<(), AllocError>
    requires { has trail.old lit ≡ false }
    ensures trail { OnOk result (trail.new ≡ trail.old ++ lit ∷ []) }
    ensures reasons { OnOk result (reasons.new.items ≡ reasons.old.items ++ reason ∷ []) }
{
    trail.push(lit)?;
    reasons.push(reason)?;
    Ok(())
}
