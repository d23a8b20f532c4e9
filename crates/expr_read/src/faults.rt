//! What is wrong with a text of the languages, and where.
ghost use Rattle.std.specs.Prelude.{◌≡◌};
ghost use Rattle.expr_read.specs.declared.faults.LangWhy.TheVariants.{Memory};

use knox_text::Place;
use std::alloc::AllocError;

/// What is wrong at a place.
#[derive(Clone, Copy, Debug, PartialEq, Eq)]
pub enum LangWhy {
    /// The tree at the place is not of the grammar.
    Form,
    /// Nothing of the name at the place is in scope.
    UnknownName,
    /// The name at the place is declared already on its level.
    Twice,
    /// The width at the place is out of its limits or not the one that is wanted, or a number
    /// does not fit its width.
    Width,
    /// The list at the place has a wrong number of operands or arguments.
    Arity,
    /// The form at the place goes over a limit.
    Bound,
    /// The text ends at the place, and has no tree.
    Missing,
    /// Memory ran out. This says nothing of the text, nor does the place.
    Memory,
}

/// The first fault of a text in reading order.
#[derive(Clone, Copy, Debug, PartialEq, Eq)]
pub struct LangFault {
    pub place: Place,
    pub why: LangWhy,
}

impl From<AllocError> for LangFault {
    ghost from_gives = { λ _ fault. fault ≡ record { place = record { line = 1; column = 1 }; why = Memory } };

    fn from(_e: AllocError) -> LangFault {
        LangFault {
            place: Place { line: 1, column: 1 },
            why: LangWhy::Memory,
        }
    }
}

/// A fault at a place.
pub fn fault(place: Place, why: LangWhy) -> LangFault
    ensures { result ≡ record { place = place; why = why } }
{
    LangFault { place, why }
}
