//! Circuits in BTOR2: their lines, and what they mean. A circuit is made line by line by a `Draft`.
//! Start at `Circuit`; `specs/Circuit.antt` defines outputs, ticks and power-cycles over the table of
//! resolved lines, `specs/Cells.antt` the states, `specs/Rom.antt` ROM words. Evaluation takes no memory.
#![tactic(auto)]

mod chains;
mod circuit;
mod draft;
mod evaluation;
mod laws;
mod made;
mod many;
mod names;
mod parts;
mod port;
mod rom;
mod states;
mod tables;
mod walk;

pub use circuit::{Circuit, Inputs, Noise, Scratch, State};
pub use circuit_table::{BtorFault, Line, Shape, Why};
pub use draft::{Draft, drafts_obey_the_rules};
pub use laws::circuits_obey_the_rules;
pub use port::{Cell, Port, Role, Stored};
pub use walk::{NoiseCell, NoiseCells};
