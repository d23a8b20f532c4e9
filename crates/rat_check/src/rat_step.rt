//! Why a step of a proof with RAT lines is refused.

/// Why a lemma or a deletion is refused.
#[derive(Clone, Copy, Debug, PartialEq, Eq)]
pub enum RatStep {
    /// The id isn't above every id before.
    IdNotNew(u64),
    /// The id names no live clause.
    NoSuchClause(u64),
    /// The clause with this id has two literals or more that aren't false.
    NotUnit(u64),
    /// The hints, or those of a group, end, and no clause was false.
    NoConflict,
    /// The empty lemma has groups.
    NoPivot,
    /// The clause with this id has a group, and doesn't hold the pivot's complement.
    NotPivot(u64),
    /// The live clause with this id holds the pivot's complement and has no group. It is the smallest such
    /// id.
    Uncovered(u64),
    /// Memory ran out. This says nothing of the proof.
    Memory,
}
