//! Reads specifications, drivers and emulators from the trees of their texts. Start at `read_spec`.
//! Read is the first form of the languages; what is outside it is refused.
#![tactic(auto)]

mod body;
mod calls;
mod driver;
mod emulator;
mod entries;
mod examples;
mod heads;
mod laws;
mod spec;
mod statement;

pub use driver::read_driver;
pub use emulator::read_emulator;
pub use examples::{
    arrays_have_no_names_as_expected, costs_as_expected, entries_as_expected,
    lacking_calls_as_expected, second_calls_as_expected,
};
pub use expr_read::{LangFault, LangWhy};
pub use laws::missing_is_a_call;
pub use spec::read_spec;
