//! Lists of gates, operands before the gates that take them and no two equal.
ghost use Rattle.std.specs.Prelude.{◌≡◌, ◌<◌, ◌&&◌, ◌||◌, if◌then◌else◌, [], ◌∷◌, ◌++◌, length, slice_get, Some, OnErr, IfOk};
ghost use Rattle.bit_gates.specs.Gates.{signal_at, gate_over, gate_at, differ, IsBelow, TakesBelow, IsCircuit};
ghost use Rattle.bit_gates.specs.Grown.{Grows, Means};

use crate::signal::{Gate, Signal, complement};
use indexmap::IndexSet;
use std::alloc::{AllocError, Global};
use std::marker::Model;

/// A circuit of gates. Contracts see it as the list of its gates.
#[derive(Drop)]
pub struct Gates {
    gates: IndexSet<Gate>,
}

impl Model for Gates {
    ghost use Rattle.std.specs.Prelude.{List};
    ghost use Rattle.bit_gates.specs.declared.signal.Gate.{Gate};
    ghost use Rattle.bit_gates.specs.Gates.{IsCircuit};

    ghost Value = { List Gate };

    ghost view = { λ g. g.gates.keys };

    ghost invariant = { λ g. IsCircuit g.gates.keys };
}

/// The place of a gate, and whether it is new: it is added where there is none that is equal.
fn insert(gates: &mut IndexSet<Gate>, gate: Gate) -> Result<(usize, bool), AllocError>
    ensures at { IfOk result (λ r. slice_get gates.new.keys r.0 ≡ Some gate) }
    ensures inserts { IfOk result (λ r. gates.new.keys ≡ (if r.1 then gates.old.keys ++ gate ∷ [] else gates.old.keys)) }
    ensures err { OnErr result (gates.new.keys ≡ gates.old.keys) }
{
    let inserted = gates.insert_full(gate)?;
    Ok(inserted)
}

/// The signal of a gate, which is added where there is none that is equal.
#[tactic(auto, using(crate::proofs::GrowthLemmas::inserting))]
fn place_of(gates: &mut IndexSet<Gate>, gate: Gate) -> Result<Signal, AllocError>
    requires below { TakesBelow (length gates.old.keys) gate }
    requires circuit { IsCircuit gates.old.keys }
    ensures circuit { IsCircuit gates.new.keys }
    ensures grows { Grows gates.old.keys gates.new.keys }
    ensures value { IfOk result (λ s. Means gates.new.keys s (λ v. gate_over v (gate_at v gates.old.keys) gate)) }
{
    let (place, _added) = insert(gates, gate)?;
    Ok(Signal::Plain(place))
}

/// A number by which the operands of a gate are put in order.
fn rank(s: Signal) -> usize {
    match s {
        Signal::Constant(_) => 0,
        Signal::Plain(place) => place,
        Signal::Turned(place) => place,
    }
}

/// Whether the second of two operands of a gate is put first.
fn goes_behind(a: Signal, b: Signal) -> bool {
    rank(a) > rank(b)
}

impl Gates {
    /// No gate.
    pub fn new(alloc: Global) -> Gates
        ensures { result ≡ [] }
    {
        Gates {
            gates: IndexSet::new(alloc),
        }
    }

    /// The number of gates.
    pub fn len(&self) -> usize
        ensures length { result ≡ length self.now }
        ensures circuit { IsCircuit self.now }
    {
        self.gates.len()
    }

    /// The gate at a place.
    pub fn at(&self, place: usize) -> Gate
        requires { place < length self.now }
        ensures stands { slice_get self.now place ≡ Some result }
        ensures circuit { IsCircuit self.now }
    {
        let gates = self.gates.as_slice();
        gates[place]
    }

    /// The input of a number.
    pub fn input(&mut self, number: usize) -> Result<Signal, AllocError>
        ensures grows { Grows self.old self.new }
        ensures value { IfOk result (λ s. Means self.new s (λ v. v number)) }
    {
        place_of(&mut self.gates, Gate::Input(number))
    }

    /// The gate of two signals in order.
    #[tactic(auto, using(crate::proofs::GrowthLemmas::turning))]
    fn and_gate(&mut self, a: Signal, b: Signal) -> Result<Signal, AllocError>
        requires a { IsBelow (length self.old) a }
        requires b { IsBelow (length self.old) b }
        ensures grows { Grows self.old self.new }
        ensures value { IfOk result (λ s. Means self.new s (λ v. signal_at v self.old a && signal_at v self.old b)) }
    {
        if goes_behind(a, b) {
            place_of(&mut self.gates, Gate::And(b, a))
        } else {
            place_of(&mut self.gates, Gate::And(a, b))
        }
    }

    /// The gate of two signals in order.
    #[tactic(auto, using(crate::proofs::GrowthLemmas::turning))]
    fn xor_gate(&mut self, a: Signal, b: Signal) -> Result<Signal, AllocError>
        requires a { IsBelow (length self.old) a }
        requires b { IsBelow (length self.old) b }
        ensures grows { Grows self.old self.new }
        ensures value { IfOk result (λ s. Means self.new s (λ v. differ (signal_at v self.old a) (signal_at v self.old b))) }
    {
        if goes_behind(a, b) {
            place_of(&mut self.gates, Gate::Xor(b, a))
        } else {
            place_of(&mut self.gates, Gate::Xor(a, b))
        }
    }

    /// Whether both are 1.
    #[tactic(auto, using(crate::proofs::GrowthLemmas::folding))]
    pub fn and(&mut self, a: Signal, b: Signal) -> Result<Signal, AllocError>
        requires a { IsBelow (length self.old) a }
        requires b { IsBelow (length self.old) b }
        ensures grows { Grows self.old self.new }
        ensures value { IfOk result (λ s. Means self.new s (λ v. signal_at v self.old a && signal_at v self.old b)) }
    {
        if a == Signal::Constant(false) || b == Signal::Constant(false) {
            return Ok(Signal::Constant(false));
        }
        if a == Signal::Constant(true) || a == b {
            return Ok(b);
        }
        if b == Signal::Constant(true) {
            return Ok(a);
        }
        if a == complement(b) {
            return Ok(Signal::Constant(false));
        }
        self.and_gate(a, b)
    }

    /// Whether one is 1.
    #[tactic(auto, using(crate::proofs::GrowthLemmas::either))]
    pub fn or(&mut self, a: Signal, b: Signal) -> Result<Signal, AllocError>
        requires a { IsBelow (length self.old) a }
        requires b { IsBelow (length self.old) b }
        ensures grows { Grows self.old self.new }
        ensures value { IfOk result (λ s. Means self.new s (λ v. signal_at v self.old a || signal_at v self.old b)) }
    {
        let neither = self.and(complement(a), complement(b))?;
        Ok(complement(neither))
    }

    /// Whether the two differ.
    #[tactic(auto, using(crate::proofs::GrowthLemmas::folding))]
    pub fn xor(&mut self, a: Signal, b: Signal) -> Result<Signal, AllocError>
        requires a { IsBelow (length self.old) a }
        requires b { IsBelow (length self.old) b }
        ensures grows { Grows self.old self.new }
        ensures value { IfOk result (λ s. Means self.new s (λ v. differ (signal_at v self.old a) (signal_at v self.old b))) }
    {
        if a == b {
            return Ok(Signal::Constant(false));
        }
        if a == complement(b) {
            return Ok(Signal::Constant(true));
        }
        if let Signal::Constant(bit) = a {
            return Ok(if bit { complement(b) } else { b });
        }
        if let Signal::Constant(bit) = b {
            return Ok(if bit { complement(a) } else { a });
        }
        self.xor_gate(a, b)
    }

    /// The second where the first is 1, and else the third.
    #[tactic(auto, using(crate::proofs::GrowthLemmas::folding))]
    pub fn choose(&mut self, c: Signal, a: Signal, b: Signal) -> Result<Signal, AllocError>
        requires c { IsBelow (length self.old) c }
        requires a { IsBelow (length self.old) a }
        requires b { IsBelow (length self.old) b }
        ensures grows { Grows self.old self.new }
        ensures value { IfOk result (λ s. Means self.new s (λ v. if signal_at v self.old c then signal_at v self.old a else signal_at v self.old b)) }
    {
        if let Signal::Constant(bit) = c {
            return Ok(if bit { a } else { b });
        }
        if a == b {
            return Ok(a);
        }
        if c == b || b == Signal::Constant(false) {
            return self.and(c, a);
        }
        if c == a || a == Signal::Constant(true) {
            return self.or(c, b);
        }
        place_of(&mut self.gates, Gate::Choose(c, a, b))
    }
}
