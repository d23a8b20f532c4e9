//! Sums of two words and a carry, bit by bit.
ghost use Rattle.std.specs.Prelude.{◌≡◌, ◌<◌, length, IfOk};
ghost use Rattle.bit_gates.specs.Gates.{signal_at, IsBelow};
ghost use Rattle.bit_gates.specs.Grown.{Grows, Means};
ghost use Rattle.bit_gates.specs.Words.{bits_at, Within, Spells};
ghost use Rattle.bit_gates.specs.Sums.{sum_bit, carry_bit, add_bits, add_carry};

use crate::gates::Gates;
use crate::pairs::signal;
use crate::signal::Signal;
use std::alloc::{AllocError, Global};

/// The sum of three bits, and its carry.
fn full_add(
    gates: &mut Gates,
    a: Signal,
    b: Signal,
    c: Signal,
) -> Result<(Signal, Signal), AllocError>
    requires a { IsBelow (length gates.old) a }
    requires b { IsBelow (length gates.old) b }
    requires c { IsBelow (length gates.old) c }
    ensures grows { Grows gates.old gates.new }
    ensures sum { IfOk result (λ r. Means gates.new r.0 (λ v. sum_bit (signal_at v gates.old a) (signal_at v gates.old b) (signal_at v gates.old c))) }
    ensures carry { IfOk result (λ r. Means gates.new r.1 (λ v. carry_bit (signal_at v gates.old a) (signal_at v gates.old b) (signal_at v gates.old c))) }
{
    let half = gates.xor(a, b)?;
    let sum = gates.xor(half, c)?;
    let carry = gates.choose(half, c, a)?;
    Ok((sum, carry))
}

/// The bits of a sum, and its last carry.
pub(crate) fn add(
    gates: &mut Gates,
    alloc: Global,
    a: &[Signal],
    b: &[Signal],
    start: Signal,
) -> Result<(Vec<Signal>, Signal), AllocError>
    requires lengths { length a.now ≡ length b.now }
    requires a { Within gates.old a.now }
    requires b { Within gates.old b.now }
    requires start { IsBelow (length gates.old) start }
    ensures grows { Grows gates.old gates.new }
    ensures sum { IfOk result (λ r. Spells gates.new r.0.items (λ v. add_bits (signal_at v gates.old start) (bits_at v gates.old a.now) (bits_at v gates.old b.now))) }
    ensures carry { IfOk result (λ r. Means gates.new r.1 (λ v. add_carry (signal_at v gates.old start) (bits_at v gates.old a.now) (bits_at v gates.old b.now))) }
{
    let mut out = Vec::new(alloc);
    let mut carry = start;
    for i in 0..a.len() {
        let x = signal(a, i);
        let y = signal(b, i);
        let (sum, next) = full_add(gates, x, y, carry)?;
        out.push(sum)?;
        carry = next;
    }
    Ok((out, carry))
}
