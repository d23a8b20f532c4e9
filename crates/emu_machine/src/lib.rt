//! Devices: a circuit, a specification, a driver and an emulator that fit each other, and what the
//! emulator shows and does. Start at `Device`; `specs/Fits.antt` says which parts fit, and
//! `specs/Emulator.antt` defines the emulator's power-on, outputs and tick.
#![tactic(auto)]

mod answer;
mod device;
mod emulator;
mod fields;
mod fits;
mod state;

pub use device::Device;
pub use emulator::EmuRoom;
pub use fields::{fields_of, is_cell, name_cells};
pub use state::{EmuState, emu_power, emu_read, emu_tick};
