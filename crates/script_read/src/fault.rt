//! What is wrong with a text of hints, and where.
ghost use Rattle.std.specs.Prelude.{◌≡◌};
ghost use Rattle.script_read.specs.Faults.{why_of, script_fault};

use expr_read::{LangFault, LangWhy};
use knox_text::Place;

/// What is wrong at a place.
#[derive(Clone, Copy, Debug, PartialEq, Eq)]
pub enum ScriptWhy {
    /// The tree at the place is not of the grammar.
    Form,
    /// Nothing of the name at the place is in scope.
    UnknownName,
    /// The name at the place is declared already on its level.
    Twice,
    /// The width at the place is not the one that is wanted.
    Width,
    /// The list at the place has a wrong number of operands.
    Arity,
    /// The number at the place is over its limit.
    Bound,
    /// The text ends at the place, and a form is missing.
    Missing,
    /// Memory ran out. This says nothing of the text, nor does the place.
    Memory,
}

/// The first fault of a text in reading order.
#[derive(Clone, Copy, Debug, PartialEq, Eq)]
pub struct ScriptFault {
    pub place: Place,
    pub why: ScriptWhy,
}

fn why_of(why: LangWhy) -> ScriptWhy
    ensures { result ≡ why_of why }
{
    match why {
        LangWhy::Form => ScriptWhy::Form,
        LangWhy::UnknownName => ScriptWhy::UnknownName,
        LangWhy::Twice => ScriptWhy::Twice,
        LangWhy::Width => ScriptWhy::Width,
        LangWhy::Arity => ScriptWhy::Arity,
        LangWhy::Bound => ScriptWhy::Bound,
        LangWhy::Missing => ScriptWhy::Missing,
        LangWhy::Memory => ScriptWhy::Memory,
    }
}

/// A fault of the languages as one of hints.
pub(crate) fn script_fault(fault: LangFault) -> ScriptFault
    ensures { result ≡ script_fault fault }
{
    ScriptFault {
        place: fault.place,
        why: why_of(fault.why),
    }
}
