//! What doing the next part of a body comes to.

/// What the part was.
#[derive(Clone, Copy, Debug, PartialEq, Eq)]
pub enum Part {
    Ran,
    Ticked,
    /// A loop's test that still held after the last turn; nothing was done.
    NoTurns,
    /// Nothing but the result is left; nothing was done.
    AtResult,
}
