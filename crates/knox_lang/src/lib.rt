//! The languages of specifications, drivers and emulators: their types, and what expressions,
//! statements and operations mean. Start at `op`, whose meaning is `specs/Operation.antt`.
#![tactic(auto)]

mod binders;
mod evaluate;
mod execute;
mod expr;
mod laws;
mod measured;
mod obey;
mod operate;
mod parts;
mod program;
mod queries;
mod rules;
mod scope;
mod typing;
mod well_formed;

pub use evaluate::{eval, eval_in};
pub use execute::exec_in;
pub use expr::{Expr, Slot, Space, Stmt};
pub use laws::operations_keep_widths;
pub use operate::{SpecAnswers, exec, op};
pub use parts::{Body, DriverParts, EmuParts, Field, Fun, OpHead, SpecParts};
pub use program::{
    DriverProgram, EmuProgram, SpecProgram, SpecState, fits_call, fits_state, initial,
};
pub use queries::{NoQueries, Queries};
pub use scope::{Scope, Spaces};
pub use well_formed::{fits_driver_parts, fits_emu_parts, fits_spec};
