//! Formulas in conjunctive normal form, and the assignments that satisfy them. Start at `satisfies`.
//! `specs/Literals.antt` says what a literal is, `specs/Formulas.antt` what a formula means.
#![tactic(auto)]

mod formula;
mod literal;

pub use formula::{Assignment, Clause, Cnf, satisfies};
pub use literal::Lit;
