//! Words as gates. Start at `Gates`: it gives a signal for each gate, which folds where an operand is
//! constant or known and is shared where an equal gate stands, and older signals keep their values.
//! A word is a list of signals, the least significant first; `specs/Words.antt` says what word it is
//! under an assignment of the inputs, and each operator's function says what word its list is.
#![tactic(auto)]

mod arithmetic;
mod bitwise;
mod compare;
mod gates;
mod pairs;
mod signal;
mod sums;

pub use arithmetic::{decremented, difference, incremented, negated, sum};
pub use bitwise::{and, choice, nand, nor, not, or, xnor, xor};
pub use compare::{at_least, below, equal, unequal};
pub use gates::Gates;
pub use signal::{Gate, Signal, complement};
