//! Checks derivations: each lemma that is admitted follows from the clauses before it. Start at
//! `Derivation`. `specs/Hints.antt` defines the check, after LRAT, and `specs/Soundness.antt` what a
//! derivation shows. `Database`, `Marks` and the functions on hints serve `rat_check` too.
#![tactic(auto)]

mod checking;
mod database;
mod derivation;
mod lemma;
mod marks;
mod places;
mod reading;
mod register;
mod step;

pub use checking::{deny, is_contradictory, walk_hints};
pub use database::Database;
pub use derivation::Derivation;
pub use lemma::Lemma;
pub use marks::{Marks, index, places_for};
pub use step::Step;
