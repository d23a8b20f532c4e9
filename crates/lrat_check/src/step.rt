//! Why a step of a proof is refused.

/// Why a lemma or a deletion is refused.
#[derive(Clone, Copy, Debug, PartialEq, Eq)]
pub enum Step {
    /// The id isn't above every id before.
    IdNotNew(u64),
    /// The lemma with this id has a negative hint.
    Rat(u64),
    /// The id names no live clause.
    NoSuchClause(u64),
    /// The clause with this id has two literals or more that aren't false.
    NotUnit(u64),
    /// The hints end, and no clause was false.
    NoConflict,
    /// Memory ran out. This says nothing of the proof.
    Memory,
}
