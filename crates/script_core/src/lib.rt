//! Scripts of hints: their segments, the runs of a segment over words, and deciding a segment by
//! trying all choices. Start at `Script` and `check`.
#![tactic(auto)]

mod bits;
mod branch;
mod decide;
mod evaluate;
mod form;
mod host;
mod laws;
mod parts;
mod room;
mod run;
mod script;
mod widths;

pub use bits::choice_bits;
pub use branch::branch_word;
pub use decide::{Checked, Plain, check, plain_decide};
pub use form::fits_script;
pub use laws::scripts_are_formed;
pub use parts::{Act, Choices, HintNo, Item, Kind, ScriptParts, Section, SegmentNo};
pub use run::{ScriptEnd, run_choices};
pub use script::Script;
