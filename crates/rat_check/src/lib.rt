//! Checks proofs with RAT lines: each lemma that is admitted keeps a satisfiable formula satisfiable. Start
//! at `Refutation`. `specs/Rat.antt` defines the check, after LRAT, and `specs/Soundness.antt` what a
//! refutation shows.
#![tactic(auto)]

mod checking;
mod covering;
mod grouping;
mod occurrences;
mod rat_step;
mod refutation;

pub use rat_step::RatStep;
pub use refutation::Refutation;
