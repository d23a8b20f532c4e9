//! Reads scripts of hints from the trees of their texts. Start at `read_script`. Read are `refine`,
//! `idle`, and sections for the host and for wires: calls without items, and `wire` with a cut, a
//! step of one tick and a subsume of that cut.
#![tactic(auto)]

mod draft;
mod fault;
mod item;
mod laws;
mod scope;
mod script;
mod section;

pub use fault::{ScriptFault, ScriptWhy};
pub use laws::texts_mean_scripts;
pub use script::read_script;
