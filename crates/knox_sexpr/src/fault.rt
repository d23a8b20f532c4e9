//! What is wrong with a text, and where.
ghost use Rattle.std.specs.Prelude.{◌≡◌};
ghost use Rattle.knox_sexpr.specs.declared.fault.SexprFault.TheVariants.{Memory};

use knox_text::Place;
use std::alloc::AllocError;

/// The first fault of a text, in reading order.
#[derive(Clone, Copy, Debug, PartialEq, Eq)]
pub enum SexprFault {
    /// A list is still open at the end of the text, which is the place.
    Unclosed(Place),
    /// A closing parenthesis, which is the place, closes no list, as the second in `())`.
    Unopened(Place),
    /// At the place begins an atom that breaks the rules, as `12a` or `#x`, or a byte stands that
    /// is neither a blank nor printed in ASCII.
    BadAtom(Place),
    /// The parenthesis at the place would be the 257th that is open.
    TooDeep(Place),
    /// Memory ran out. This says nothing of the text.
    Memory,
}

impl From<AllocError> for SexprFault {
    ghost from_gives = { λ _ fault. fault ≡ Memory };

    fn from(_e: AllocError) -> SexprFault {
        SexprFault::Memory
    }
}
