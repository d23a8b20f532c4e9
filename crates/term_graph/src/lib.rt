//! Terms over words, each node once. Start at `Graph`: it gives a term for each operator, which is
//! simplified where that keeps its value, and keeps the values of all older terms.
//! `specs/Value.antt` says what value a term has under a valuation.
#![tactic(auto)]

mod arithmetic;
mod chain;
mod constructors;
mod graph;
mod node;
mod rules;
mod valuation;

pub use graph::Graph;
pub use node::{Node, Term};
pub use valuation::{Valuation, fits_valuation, value};
