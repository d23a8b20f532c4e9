//! DIMACS formulas and LRAT proofs as texts. Start at `read_cnf` and `read_lrat`, or at
//! `LratReader`, which holds one line at a time. `specs/Dimacs.antt` says which formula a text means,
//! and `specs/Lrat.antt` which proof, or the first fault.
#![tactic(auto)]

mod dimacs;
mod draft;
mod examples;
mod fault;
mod lrat;
mod number;
mod printing;
mod proof_line;
mod reader;

pub use dimacs::read_cnf;
pub use examples::{formulas_as_expected, proofs_as_expected};
pub use fault::ProofFault;
pub use lrat::read_lrat;
pub use printing::{formula_printed_again, print_cnf, print_lrat, proof_printed_again};
pub use proof_line::ProofLine;
pub use reader::LratReader;
