//! What is wrong with a text, and where.
ghost use Rattle.std.specs.Prelude.{◌≡◌};
ghost use Rattle.proof_text.specs.declared.fault.ProofFault.TheVariants.{Memory};

use knox_text::Place;
use std::alloc::AllocError;

/// The first fault of a text, at the token that breaks a rule, or where a token is missing.
#[derive(Clone, Copy, Debug, PartialEq, Eq)]
pub enum ProofFault {
    /// A formula's text doesn't begin with `p cnf V C`, or `p` stands a second time.
    Header(Place),
    /// A clause too many begins, or the text ends before its last clause does.
    Count(Place),
    /// The literal's variable is past the number of variables.
    Variable(Place),
    /// A token or the end of a line stands where the format has something else.
    Shape(Place),
    /// Memory ran out. This says nothing of the text.
    Memory,
}

impl From<AllocError> for ProofFault {
    ghost from_gives = { λ _ fault. fault ≡ Memory };

    fn from(_e: AllocError) -> ProofFault {
        ProofFault::Memory
    }
}
