//! The definitions of `knox_theory` at work on a device of a few bits: each clause is computed from the definitions alone.
//! `worlds` has answers of both worlds, `runs` has runs of segments and what is told of them, and here is what the theorems say of the device.
#![tactic(auto)]

mod runs;
mod worlds;

ghost use Rattle.knox_theory.specs.Agreement.{Agree, AgreeOnWires};
ghost use Rattle.knox_theory_toy.specs.Toy.{toy};

pub use runs::{
    calls_are_told, choices_are_tried, items_are_checked, runs_end, segments_are_listed,
    steps_are_needed, traces_are_told,
};
pub use worlds::{
    calls_are_answered, dialogue_is_answered, host_refuses, loops_get_stuck, marks_are_kept,
    off_refuses, wires_are_answered, wires_refuse,
};

/// The two worlds agree on the toy device: on all events, by a script with all sections, and on those of the wires, by a script without any for the host.
pub fn toy_agrees()
    ensures all { Agree toy.device }
    ensures wires { AgreeOnWires toy.device }
{}
