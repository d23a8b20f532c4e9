//! Reads what every text of the languages has from its trees: views of a tree, names in scope, fields
//! and expressions. Read is the first form of the languages; what is outside it is refused.
#![tactic(auto)]

mod expression;
mod faults;
mod fields;
mod names;
mod views;

pub use expression::{Typed, expr, expr_of_width};
pub use faults::{LangFault, LangWhy, fault};
pub use fields::{Fields, field_names, fields_of};
pub use names::{
    Group, Named, Seen, arguments, declare, declare_cells, declare_fields, declare_marked,
    declare_ports, declare_words, find, forget, locals, op_number, seen_of, target,
};
pub use views::{
    behind_head, headed_count, is_headed, is_symbol, no_more, number_of, parts_of, place_of,
    symbol_of, width_of,
};
