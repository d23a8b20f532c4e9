//! A run of the program: its words, the reads, the work and the lines. Start at `run`.
#![tactic(auto)]

mod answer;
mod checking;
mod command;
mod judging;
mod lines;
mod outcome;
mod program;
mod reading;
mod solving;
mod status;
mod words;

pub use program::run;
pub use status::Status;
pub use words::{NoWords, Words, program_words};
