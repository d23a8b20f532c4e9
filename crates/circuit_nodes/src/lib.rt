//! The nodes of a circuit with their operands by place, and what they mean: values, ticks and
//! power-cycles. Start at `Node`; `specs/Values.antt` defines the value of a node, `specs/Ticks.antt`
//! a tick, after BTOR2, and `specs/Starts.antt` states that are built one after another. `fill`
//! evaluates nodes into a scratch area, `advance` ticks in place, `build_states` is a power-cycle, and
//! `logic_of` leaves out the nodes on which nothing hangs. Only `logic_of` takes memory.
#![tactic(auto)]

mod chain;
mod eval;
mod laws;
mod needs;
mod node;
mod packing;
mod power;
mod tick;

pub use eval::{arg_words, fill};
pub use laws::values_hang_on_earlier_places;
pub use node::{Arg, Feed, Kind, Next, Node, Reach, Resolved, Row, SortOf, State};
pub use packing::{Logic, logic_of};
pub use power::{Fresh, build_states};
pub use tick::{advance, has_words};
