//! The texts of small devices, which the tests of several crates read, and edits of them.
#![tactic(auto)]

mod devices;
mod editing;
mod host_devices;

pub use devices::{
    ANSWERING_EMULATOR, CIRCUIT, DRIVER, EMULATOR, HINTS, LAST, LEAKING, SMALL, SPEC, TORN,
    TORN_DRIVER, TORN_EMULATOR, TORN_HINTS, TORN_SPEC, TWO_OUTPUTS, TWO_STATES, Texts, WEAK_HINTS,
    WIDE_CIRCUIT, WIDE_DRIVER, WIDE_EMULATOR, WIDE_SPEC,
};
pub use editing::edited;
pub use host_devices::{
    IMPATIENT_DRIVER, NOISY_CIRCUIT, NOISY_EMULATOR, PADDED_CIRCUIT, SLOW, SLOW_CIRCUIT,
    SLOW_DRIVER, SLOW_EMULATOR, SLOW_HINTS,
};
