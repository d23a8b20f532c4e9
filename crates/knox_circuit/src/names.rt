//! The names of the lines of a kind, given line after line.
ghost use Rattle.std.specs.Prelude.{◌≡◌, ◌||◌, ◌&&◌, ℕ, List, [], false, if◌then◌else◌, IfOk, OnOk};
ghost use Rattle.std.specs.Str.{bytes_eq};
ghost use Rattle.knox_circuit.specs.Names.{name_of, plays, bears};
ghost use Rattle.knox_circuit.specs.Taken.{has};

use crate::port::Role;
use circuit_table::{Line, Shape};
use sqlite_items::Items;
use std::alloc::{AllocError, Global};
use std::collections::BTreeSet;

/// The symbols that the lines of a kind have so far.
#[derive(Drop)]
pub struct Names<'a> {
    pub taken: BTreeSet<&'a [u8]>,
}

/// The name that a symbol gives: none where it begins with `@`.
fn name_of(alloc: Global, symbol: &[u8]) -> Result<Items<u8>, AllocError>
    ensures { IfOk result (λ n. n ≡ name_of symbol.now) }
{
    match symbol {
        [first, ..] if *first == 64 => Ok(Items::new(alloc)),
        _ => Items::from_slice(alloc, symbol),
    }
}

fn plays(role: Role, shape: &Shape) -> bool
    ensures { result ≡ plays role shape.now }
{
    match role {
        Role::Input => match shape {
            Shape::Input(_) => true,
            _ => false,
        },
        Role::Output => match shape {
            Shape::Output(_) => true,
            _ => false,
        },
        Role::State => match shape {
            Shape::State(_) => true,
            _ => false,
        },
    }
}

impl<'a> Names<'a> {
    /// No symbols.
    #[tactic(auto, unfolding(crate::specs::Taken::has))]
    pub fn new(alloc: Global) -> Names<'a>
        ensures { (q : List ℕ) → has result q ≡ false }
    {
        Names {
            taken: BTreeSet::new(alloc),
        }
    }

    /// Whether a line so far has a symbol.
    #[tactic(auto, unfolding(crate::specs::Taken::has))]
    fn has(&self, symbol: &[u8]) -> bool
        ensures { result ≡ has self.now symbol.now }
    {
        self.taken.contains(symbol)
    }

    fn add(&mut self, symbol: &'a [u8]) -> Result<(), AllocError>
        ensures { OnOk result ((q : List ℕ) → has self.new q ≡ (has self.old q || bytes_eq symbol.now q)) }
    {
        match self.taken.insert(symbol) {
            Ok(_) => Ok(()),
            Err(_) => Err(AllocError),
        }
    }

    /// The name of one more line: the first line with a symbol has it as its name.
    pub fn name(&self, alloc: Global, symbol: &[u8]) -> Result<Items<u8>, AllocError>
        ensures { IfOk result (λ n. n ≡ (if has self.now symbol.now then [] else name_of symbol.now)) }
    {
        if self.has(symbol) {
            return Ok(Items::new(alloc));
        }
        name_of(alloc, symbol)
    }

    /// Keeps the symbol of one more line, where it is of the kind.
    #[tactic(auto, using(crate::proofs::NamesLemmas::note_steps))]
    pub fn note(&mut self, role: Role, line: &'a Line) -> Result<(), AllocError>
        ensures { OnOk result ((q : List ℕ) → has self.new q ≡ (has self.old q || bears role q line.now)) }
    {
        if plays(role, &line.shape) {
            self.add(line.symbol.as_slice())?;
        }
        Ok(())
    }
}
