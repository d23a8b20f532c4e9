//! The verdict on five texts: a circuit, a specification, a driver, an emulator and a script of
//! hints. Start at `verify_texts`.
#![tactic(auto)]

mod meaning;
mod verdict;
mod verify;

pub use meaning::device_of;
pub use verdict::{Letter, TextWhy, Verdict, VerifyFault};
pub use verify::verify_texts;
