//! Reads circuits in BTOR2 from the bytes of a text. Start at `read_circuit`: it answers a circuit
//! exactly where the text means one by `specs/Meaning.antt`, and else the first fault of its lines.
//! `specs/Said.antt` says which line the tokens of a text line say; the rules that only the lines
//! before can tell are those of `circuit_table`.
#![tactic(auto)]

mod examples;
mod keyword;
mod laws;
mod line;
mod numbers;
mod operands;
mod reading;
mod tokens;

pub use examples::{faults_as_expected, forms_as_expected, texts_as_expected};
pub use laws::circuits_have_one_meaning;
pub use reading::read_circuit;
