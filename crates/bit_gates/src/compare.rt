//! Comparisons of words of one width.
ghost use Rattle.std.specs.Prelude.{◌≡◌, ◌<◌, not, length, IfOk};
ghost use Rattle.std.specs.List.{list_all};
ghost use Rattle.knox_words.specs.Ops.{op2_value};
ghost use Rattle.knox_words.specs.declared.op.Op2.TheVariants as op2;
ghost use Rattle.bit_gates.specs.Grown.{Grows, Means};
ghost use Rattle.bit_gates.specs.Words.{bits_at, word_of, Within, Tells};

use crate::gates::Gates;
use crate::pairs::{Pair, complements, pairwise, signal};
use crate::signal::{Signal, complement};
use crate::sums::add;
use std::alloc::{AllocError, Global};

/// Whether all are 0.
#[tactic(auto, using(crate::proofs::CompareLemmas::comparing))]
fn none_of(gates: &mut Gates, a: &[Signal]) -> Result<Signal, AllocError>
    requires { Within gates.old a.now }
    ensures grows { Grows gates.old gates.new }
    ensures value { IfOk result (λ s. Means gates.new s (λ v. list_all not (bits_at v gates.old a.now))) }
{
    let mut all = Signal::Constant(true);
    for i in 0..a.len() {
        let x = signal(a, i);
        all = gates.and(all, complement(x))?;
    }
    Ok(all)
}

/// Whether the words are equal.
pub fn equal(
    gates: &mut Gates,
    alloc: Global,
    a: &[Signal],
    b: &[Signal],
) -> Result<Signal, AllocError>
    requires lengths { length a.now ≡ length b.now }
    requires a { Within gates.old a.now }
    requires b { Within gates.old b.now }
    ensures grows { Grows gates.old gates.new }
    ensures value { IfOk result (λ s. Tells gates.new s (λ v. op2_value op2.Eq (word_of v gates.old a.now) (word_of v gates.old b.now))) }
{
    let apart = pairwise(gates, alloc, Pair::Xor, a, b)?;
    let none = none_of(gates, apart.as_slice())?;
    Ok(none)
}

/// Whether the words differ.
pub fn unequal(
    gates: &mut Gates,
    alloc: Global,
    a: &[Signal],
    b: &[Signal],
) -> Result<Signal, AllocError>
    requires lengths { length a.now ≡ length b.now }
    requires a { Within gates.old a.now }
    requires b { Within gates.old b.now }
    ensures grows { Grows gates.old gates.new }
    ensures value { IfOk result (λ s. Tells gates.new s (λ v. op2_value op2.Neq (word_of v gates.old a.now) (word_of v gates.old b.now))) }
{
    let same = equal(gates, alloc, a, b)?;
    Ok(complement(same))
}

/// Whether the first number is at least the second.
pub fn at_least(
    gates: &mut Gates,
    alloc: Global,
    a: &[Signal],
    b: &[Signal],
) -> Result<Signal, AllocError>
    requires lengths { length a.now ≡ length b.now }
    requires a { Within gates.old a.now }
    requires b { Within gates.old b.now }
    ensures grows { Grows gates.old gates.new }
    ensures value { IfOk result (λ s. Tells gates.new s (λ v. op2_value op2.Ugte (word_of v gates.old a.now) (word_of v gates.old b.now))) }
{
    let turned = complements(alloc, b)?;
    let (_bits, carry) = add(gates, alloc, a, turned.as_slice(), Signal::Constant(true))?;
    Ok(carry)
}

/// Whether the first number is less than the second.
pub fn below(
    gates: &mut Gates,
    alloc: Global,
    a: &[Signal],
    b: &[Signal],
) -> Result<Signal, AllocError>
    requires lengths { length a.now ≡ length b.now }
    requires a { Within gates.old a.now }
    requires b { Within gates.old b.now }
    ensures grows { Grows gates.old gates.new }
    ensures value { IfOk result (λ s. Tells gates.new s (λ v. op2_value op2.Ult (word_of v gates.old a.now) (word_of v gates.old b.now))) }
{
    let least = at_least(gates, alloc, a, b)?;
    Ok(complement(least))
}
