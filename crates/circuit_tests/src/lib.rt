//! Circuits: nodes and lines by themselves, and whole circuits, whose texts are read, powered and ticked.
//! What is expected was worked by hand from the texts. The definitions are computed on a ROM
//! (`rom_meaning`). No crate stands on this one, so that no crate that is tested is proved a second time
//! with its tests.
#![tactic(auto)]

#[cfg(test)]
mod arrays;
#[cfg(test)]
mod cells;
#[cfg(test)]
mod complements;
#[cfg(test)]
mod device;
#[cfg(test)]
mod faults;
#[cfg(test)]
mod nodes;
#[cfg(test)]
mod operators;
#[cfg(test)]
mod rom;
mod rom_meaning;
#[cfg(test)]
mod running;
#[cfg(test)]
mod table;
#[cfg(test)]
mod texts;

pub use rom_meaning::{
    factory_as_expected, power_as_expected, rom_words_as_expected, text_as_expected,
    tick_as_expected,
};
