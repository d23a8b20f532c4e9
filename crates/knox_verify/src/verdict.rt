//! Verdicts on five texts, and why there is none.
ghost use Rattle.std.specs.Prelude.{◌≡◌};
ghost use Rattle.knox_verify.specs.declared.verdict.VerifyFault.TheVariants.{Memory};

use knox_circuit::BtorFault;
use lang_read::{LangFault, LangWhy};
use script_core::{Choices, HintNo};
use script_read::ScriptFault;
use std::alloc::AllocError;

/// A text of a command: a circuit, a specification, a driver, an emulator, hints, a trace, a formula or a proof.
#[derive(Clone, Copy, Debug, PartialEq, Eq)]
pub enum Letter {
    C,
    S,
    D,
    E,
    H,
    T,
    F,
    P,
}

/// What is wrong with a text.
#[derive(Clone, Copy, Debug, PartialEq, Eq)]
pub enum TextWhy {
    /// It has more than 67,108,864 bytes.
    TooLong,
    /// This fault, the first, of a circuit's text.
    Circuit(BtorFault),
    /// This fault of a driver's text: for now only that a call is missing.
    Lang(LangFault),
    /// This fault of a text of hints: for now only that a form is missing.
    Script(ScriptFault),
}

/// Why five texts got no verdict.
#[derive(Clone, Copy, Debug, PartialEq, Eq)]
pub enum VerifyFault {
    /// This text has a fault.
    Text(Letter, TextWhy),
    /// The circuit's text means a circuit, and the first text without a meaning is in no form that is
    /// built yet and has no fault that is told yet.
    NotYet,
    /// Memory ran out. This says nothing of the texts.
    Memory,
}

impl From<AllocError> for VerifyFault {
    ghost from_gives = { λ _ fault. fault ≡ Memory };

    fn from(_e: AllocError) -> VerifyFault {
        VerifyFault::Memory
    }
}

/// A text of the languages that isn't read is one of a form that isn't built.
impl From<LangFault> for VerifyFault {
    ghost use Rattle.knox_verify.specs.Faults.{of_program};

    ghost from_gives = { λ f fault. fault ≡ of_program f };

    fn from(fault: LangFault) -> VerifyFault {
        match fault.why {
            LangWhy::Memory => VerifyFault::Memory,
            _ => VerifyFault::NotYet,
        }
    }
}

/// What is known of five texts.
#[derive(Drop)]
pub enum Verdict {
    /// The two worlds agree on every list of events.
    Yes,
    /// These choices falsify the hint, which shows nothing of the two worlds.
    Undecided(HintNo, Choices),
    /// The segment of this hint takes this many bits, too many to be tried.
    TooWide(HintNo, u64),
}
