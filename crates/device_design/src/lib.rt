//! Which device of the theory a circuit, a specification, a driver and an emulator are, and its laws.
//! Start at `specs/Meaning.antt`, which defines the device and its design; `devices_are_designs` says
//! that the design keeps every law that the theory asks.
#![tactic(auto)]

mod laws;

pub use laws::{
    devices_are_designs, devices_have_drivers, dialogue_is_the_tick, drivers_are_lawful,
    parts_make_designs, places_are_kept, queries_are_of_operations, rom_words_have_widths,
};
