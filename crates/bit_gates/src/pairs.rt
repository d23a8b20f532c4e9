//! The same gate at each place of two words.
ghost use Rattle.std.specs.Prelude.{◌≡◌, ◌<◌, length, slice_get, Some, IfOk, map};
ghost use Rattle.bit_gates.specs.Gates.{signal_at, opposite, IsBelow};
ghost use Rattle.bit_gates.specs.declared.signal.Signal.TheVariants.{Constant};
ghost use Rattle.bit_gates.specs.Grown.{Grows, Means};
ghost use Rattle.bit_gates.specs.Words.{bits_at, Within, Spells};
ghost use Rattle.bit_gates.specs.Pairs.{pair_bit, pair_bits, IsPairBelow};

use crate::gates::Gates;
use crate::signal::{Signal, complement};
use std::alloc::{AllocError, Global};

/// What is done with two bits.
#[derive(Clone, Copy, Debug)]
pub(crate) enum Pair {
    And,
    Or,
    Xor,
    /// The first bit where this signal is 1, and else the second.
    Choose(Signal),
}

/// The signal at a place.
pub(crate) fn signal(word: &[Signal], place: usize) -> Signal
    requires { place < length word.now }
    ensures { slice_get word.now place ≡ Some result }
{
    word[place]
}

fn pair_gate(gates: &mut Gates, p: Pair, a: Signal, b: Signal) -> Result<Signal, AllocError>
    requires p { IsPairBelow (length gates.old) p }
    requires a { IsBelow (length gates.old) a }
    requires b { IsBelow (length gates.old) b }
    ensures grows { Grows gates.old gates.new }
    ensures value { IfOk result (λ s. Means gates.new s (λ v. pair_bit (signal_at v gates.old) p (signal_at v gates.old a) (signal_at v gates.old b))) }
{
    match p {
        Pair::And => gates.and(a, b),
        Pair::Or => gates.or(a, b),
        Pair::Xor => gates.xor(a, b),
        Pair::Choose(c) => gates.choose(c, a, b),
    }
}

/// The pairs of two words of one width.

pub(crate) fn pairwise(
    gates: &mut Gates,
    alloc: Global,
    p: Pair,
    a: &[Signal],
    b: &[Signal],
) -> Result<Vec<Signal>, AllocError>
    requires lengths { length a.now ≡ length b.now }
    requires p { IsPairBelow (length gates.old) p }
    requires a { Within gates.old a.now }
    requires b { Within gates.old b.now }
    ensures grows { Grows gates.old gates.new }
    ensures bits { IfOk result (λ r. Spells gates.new r.items (λ v. pair_bits (signal_at v gates.old) p (bits_at v gates.old a.now) (bits_at v gates.old b.now))) }
{
    let mut out = Vec::new(alloc);
    for i in 0..a.len() {
        let x = signal(a, i);
        let y = signal(b, i);
        let z = pair_gate(gates, p, x, y)?;
        out.push(z)?;
    }
    Ok(out)
}

/// The complement of each signal.
pub(crate) fn complements(alloc: Global, a: &[Signal]) -> Result<Vec<Signal>, AllocError>
    ensures { IfOk result (λ r. r.items ≡ map opposite a.now) }
{
    let mut out = Vec::new(alloc);
    for i in 0..a.len() {
        out.push(complement(signal(a, i)))?;
    }
    Ok(out)
}

/// As many constants as a word has signals.
pub(crate) fn constants(alloc: Global, a: &[Signal], bit: bool) -> Result<Vec<Signal>, AllocError>
    ensures { IfOk result (λ r. r.items ≡ map (λ s. Constant bit) a.now) }
{
    let mut out = Vec::new(alloc);
    for i in 0..a.len() {
        let _ = signal(a, i);
        out.push(Signal::Constant(bit))?;
    }
    Ok(out)
}
