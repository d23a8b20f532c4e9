//! Sums, differences and negatives.
ghost use Rattle.std.specs.Prelude.{◌≡◌, length, IfOk};
ghost use Rattle.knox_words.specs.Ops.{op1_value, op2_value};
ghost use Rattle.knox_words.specs.declared.op.Op1.TheVariants as op1;
ghost use Rattle.knox_words.specs.declared.op.Op2.TheVariants as op2;
ghost use Rattle.bit_gates.specs.Grown.{Grows};
ghost use Rattle.bit_gates.specs.Words.{word_of, Within, Gives};

use crate::gates::Gates;
use crate::pairs::{complements, constants};
use crate::signal::Signal;
use crate::sums::add;
use std::alloc::{AllocError, Global};

/// The sum.
pub fn sum(
    gates: &mut Gates,
    alloc: Global,
    a: &[Signal],
    b: &[Signal],
) -> Result<Vec<Signal>, AllocError>
    requires lengths { length a.now ≡ length b.now }
    requires a { Within gates.old a.now }
    requires b { Within gates.old b.now }
    ensures grows { Grows gates.old gates.new }
    ensures value { IfOk result (λ r. Gives gates.new r.items (λ v. op2_value op2.Add (word_of v gates.old a.now) (word_of v gates.old b.now))) }
{
    let (bits, _carry) = add(gates, alloc, a, b, Signal::Constant(false))?;
    Ok(bits)
}

/// The first word less the second.
pub fn difference(
    gates: &mut Gates,
    alloc: Global,
    a: &[Signal],
    b: &[Signal],
) -> Result<Vec<Signal>, AllocError>
    requires lengths { length a.now ≡ length b.now }
    requires a { Within gates.old a.now }
    requires b { Within gates.old b.now }
    ensures grows { Grows gates.old gates.new }
    ensures value { IfOk result (λ r. Gives gates.new r.items (λ v. op2_value op2.Sub (word_of v gates.old a.now) (word_of v gates.old b.now))) }
{
    let turned = complements(alloc, b)?;
    let (bits, _carry) = add(gates, alloc, a, turned.as_slice(), Signal::Constant(true))?;
    Ok(bits)
}

/// The negative.
pub fn negated(gates: &mut Gates, alloc: Global, a: &[Signal]) -> Result<Vec<Signal>, AllocError>
    requires { Within gates.old a.now }
    ensures grows { Grows gates.old gates.new }
    ensures value { IfOk result (λ r. Gives gates.new r.items (λ v. op1_value op1.Neg (word_of v gates.old a.now))) }
{
    let zeros = constants(alloc, a, false)?;
    let bits = difference(gates, alloc, zeros.as_slice(), a)?;
    Ok(bits)
}

/// One more.
pub fn incremented(
    gates: &mut Gates,
    alloc: Global,
    a: &[Signal],
) -> Result<Vec<Signal>, AllocError>
    requires { Within gates.old a.now }
    ensures grows { Grows gates.old gates.new }
    ensures value { IfOk result (λ r. Gives gates.new r.items (λ v. op1_value op1.Inc (word_of v gates.old a.now))) }
{
    let zeros = constants(alloc, a, false)?;
    let (bits, _carry) = add(gates, alloc, a, zeros.as_slice(), Signal::Constant(true))?;
    Ok(bits)
}

/// One less.
pub fn decremented(
    gates: &mut Gates,
    alloc: Global,
    a: &[Signal],
) -> Result<Vec<Signal>, AllocError>
    requires { Within gates.old a.now }
    ensures grows { Grows gates.old gates.new }
    ensures value { IfOk result (λ r. Gives gates.new r.items (λ v. op1_value op1.Dec (word_of v gates.old a.now))) }
{
    let ones = constants(alloc, a, true)?;
    let bits = sum(gates, alloc, a, ones.as_slice())?;
    Ok(bits)
}
