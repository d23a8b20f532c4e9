//! Operators that go bit by bit.
ghost use Rattle.std.specs.Prelude.{◌≡◌, length, IfOk, List};
ghost use Rattle.knox_words.specs.Bits.{truth, ite_value};
ghost use Rattle.knox_words.specs.Ops.{op1_value, op2_value};
ghost use Rattle.knox_words.specs.declared.op.Op1.TheVariants as op1;
ghost use Rattle.knox_words.specs.declared.op.Op2.TheVariants as op2;
ghost use Rattle.bit_gates.specs.Gates.{signal_at, IsBelow};
ghost use Rattle.bit_gates.specs.Grown.{Grows};
ghost use Rattle.bit_gates.specs.Words.{word_of, Within, Gives, Complements};

use crate::gates::Gates;
use crate::pairs::{Pair, complements, pairwise};
use crate::signal::Signal;
use std::alloc::{AllocError, Global};

/// Every bit turned.
pub fn not(alloc: Global, a: &[Signal]) -> Result<Vec<Signal>, AllocError>
    ensures { IfOk result (λ r. Complements a.now r.items) }
{
    let turned = complements(alloc, a)?;
    Ok(turned)
}

/// Whether both bits are 1, at each place.
pub fn and(
    gates: &mut Gates,
    alloc: Global,
    a: &[Signal],
    b: &[Signal],
) -> Result<Vec<Signal>, AllocError>
    requires lengths { length a.now ≡ length b.now }
    requires a { Within gates.old a.now }
    requires b { Within gates.old b.now }
    ensures grows { Grows gates.old gates.new }
    ensures value { IfOk result (λ r. Gives gates.new r.items (λ v. op2_value op2.And (word_of v gates.old a.now) (word_of v gates.old b.now))) }
{
    let bits = pairwise(gates, alloc, Pair::And, a, b)?;
    Ok(bits)
}

/// Whether not both bits are 1, at each place.
pub fn nand(
    gates: &mut Gates,
    alloc: Global,
    a: &[Signal],
    b: &[Signal],
) -> Result<Vec<Signal>, AllocError>
    requires lengths { length a.now ≡ length b.now }
    requires a { Within gates.old a.now }
    requires b { Within gates.old b.now }
    ensures grows { Grows gates.old gates.new }
    ensures value { IfOk result (λ r. Gives gates.new r.items (λ v. op2_value op2.Nand (word_of v gates.old a.now) (word_of v gates.old b.now))) }
{
    let bits = pairwise(gates, alloc, Pair::And, a, b)?;
    let turned = complements(alloc, bits.as_slice())?;
    Ok(turned)
}

/// Whether one bit is 1, at each place.
pub fn or(
    gates: &mut Gates,
    alloc: Global,
    a: &[Signal],
    b: &[Signal],
) -> Result<Vec<Signal>, AllocError>
    requires lengths { length a.now ≡ length b.now }
    requires a { Within gates.old a.now }
    requires b { Within gates.old b.now }
    ensures grows { Grows gates.old gates.new }
    ensures value { IfOk result (λ r. Gives gates.new r.items (λ v. op2_value op2.Or (word_of v gates.old a.now) (word_of v gates.old b.now))) }
{
    let bits = pairwise(gates, alloc, Pair::Or, a, b)?;
    Ok(bits)
}

/// Whether no bit is 1, at each place.
pub fn nor(
    gates: &mut Gates,
    alloc: Global,
    a: &[Signal],
    b: &[Signal],
) -> Result<Vec<Signal>, AllocError>
    requires lengths { length a.now ≡ length b.now }
    requires a { Within gates.old a.now }
    requires b { Within gates.old b.now }
    ensures grows { Grows gates.old gates.new }
    ensures value { IfOk result (λ r. Gives gates.new r.items (λ v. op2_value op2.Nor (word_of v gates.old a.now) (word_of v gates.old b.now))) }
{
    let bits = pairwise(gates, alloc, Pair::Or, a, b)?;
    let turned = complements(alloc, bits.as_slice())?;
    Ok(turned)
}

/// Whether the bits differ, at each place.
pub fn xor(
    gates: &mut Gates,
    alloc: Global,
    a: &[Signal],
    b: &[Signal],
) -> Result<Vec<Signal>, AllocError>
    requires lengths { length a.now ≡ length b.now }
    requires a { Within gates.old a.now }
    requires b { Within gates.old b.now }
    ensures grows { Grows gates.old gates.new }
    ensures value { IfOk result (λ r. Gives gates.new r.items (λ v. op2_value op2.Xor (word_of v gates.old a.now) (word_of v gates.old b.now))) }
{
    let bits = pairwise(gates, alloc, Pair::Xor, a, b)?;
    Ok(bits)
}

/// Whether the bits are equal, at each place.
pub fn xnor(
    gates: &mut Gates,
    alloc: Global,
    a: &[Signal],
    b: &[Signal],
) -> Result<Vec<Signal>, AllocError>
    requires lengths { length a.now ≡ length b.now }
    requires a { Within gates.old a.now }
    requires b { Within gates.old b.now }
    ensures grows { Grows gates.old gates.new }
    ensures value { IfOk result (λ r. Gives gates.new r.items (λ v. op2_value op2.Xnor (word_of v gates.old a.now) (word_of v gates.old b.now))) }
{
    let bits = pairwise(gates, alloc, Pair::Xor, a, b)?;
    let turned = complements(alloc, bits.as_slice())?;
    Ok(turned)
}

/// The first word where the signal is 1, and else the second.
pub fn choice(
    gates: &mut Gates,
    alloc: Global,
    c: Signal,
    a: &[Signal],
    b: &[Signal],
) -> Result<Vec<Signal>, AllocError>
    requires lengths { length a.now ≡ length b.now }
    requires c { IsBelow (length gates.old) c }
    requires a { Within gates.old a.now }
    requires b { Within gates.old b.now }
    ensures grows { Grows gates.old gates.new }
    ensures value { IfOk result (λ r. Gives gates.new r.items (λ v. ite_value (truth (signal_at v gates.old c)) (word_of v gates.old a.now) (word_of v gates.old b.now))) }
{
    let bits = pairwise(gates, alloc, Pair::Choose(c), a, b)?;
    Ok(bits)
}
