//! The names of the operators on words, in circuits and in expressions, each by one table, which
//! `specs/Names.antt` has. Start at `op1_named`.
#![tactic(auto)]

mod laws;
mod names;

pub use laws::operators_have_one_name;
pub use names::{named, op1_named, op2_named};
