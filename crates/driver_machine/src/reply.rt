//! What a driver's body comes to.
use knox_words::Word;

/// The reply of a body.
#[derive(Clone, Copy, Debug, PartialEq, Eq)]
pub enum Reply {
    /// The value of the body's result at its end.
    Value(Word),
    /// The test of a `while` still held after as many turns as its bound allows.
    Stuck,
}

/// What a step of a driver has done.
#[derive(Clone, Copy, Debug, PartialEq, Eq)]
pub enum Moved {
    /// A part of the body that is no tick.
    Ran,
    /// One tick of the circuit.
    Ticked,
    /// The body has ended, in this step or before.
    Done(Reply),
}
