//! Laws of circuits, as functions that change nothing: words keep their widths, ROM words their
//! values, and a power-cycle the words of the cells that it keeps. Start at `circuits_keep_widths`.
#![tactic(auto)]

mod laws;

pub use laws::{
    circuits_have_widths, circuits_keep_rom_words, circuits_keep_widths, outputs_have_widths,
    persistent_words_are_spread, power_keeps_persistent_words, rom_words_fit,
};
