//! Memories of terms, read and written as lists are. Start at `Memory`, `read_at` and `write_at`.
//! `specs/Memories.antt` says what words a memory holds under a valuation.
#![tactic(auto)]

mod memory;
mod reading;
mod writing;

pub use memory::Memory;
pub use reading::read_at;
pub use writing::write_at;
