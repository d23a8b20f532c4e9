//! Signals and gates.
ghost use Rattle.std.specs.Prelude.{◌≡◌};
ghost use Rattle.bit_gates.specs.Gates.{opposite};

/// A bit: a constant, a gate's, or the complement of a gate's. Gates are named by their places.
#[derive(Clone, Copy, Debug, PartialEq, Eq, Hash)]
pub enum Signal {
    /// The same bit always.
    Constant(bool),
    /// The bit of the gate at a place.
    Plain(usize),
    /// Its complement.
    Turned(usize),
}

/// What gives a bit. The signals in a gate stand before it.
#[derive(Clone, Copy, Debug, PartialEq, Eq, Hash)]
pub enum Gate {
    /// The input of a number.
    Input(usize),
    /// Whether both are 1.
    And(Signal, Signal),
    /// Whether the two differ.
    Xor(Signal, Signal),
    /// The second where the first is 1, and else the third.
    Choose(Signal, Signal, Signal),
}

/// The complement of a signal.
pub fn complement(s: Signal) -> Signal
    ensures { result ≡ opposite s }
{
    match s {
        Signal::Constant(bit) => Signal::Constant(!bit),
        Signal::Plain(place) => Signal::Turned(place),
        Signal::Turned(place) => Signal::Plain(place),
    }
}
