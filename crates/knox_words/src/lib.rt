//! Words of 1 to 128 bits, the operators on them with their typing, lists of words, and what stands
//! at the places of a list that a mask marks. Start at `Word`, `op2`, `op2_typed` and `pick`.
//! `specs/Ops.antt` says what each operator means, after BTOR2 and SMT-LIB, and every operator is
//! proved to be its formula at every width.
#![tactic(auto)]

mod apply;
mod compare;
mod divide;
mod laws;
mod list;
mod numbers;
mod op;
mod picks;
mod resize;
mod shift;
mod total;
mod typing;
mod widths;
mod word;

pub use apply::{and, op1, op2};
pub use laws::{masks_tell_places_apart, values_are_words, words_are_numbered, words_fit_in_parts};
pub use list::Words;
pub use op::{Op1, Op2};
pub use picks::{merge_words, pick, pick_words};
pub use resize::{ite, sext, slice, uext};
pub use total::{choose, op2_or, sext_or, slice_or, uext_or, word_at, word_far, word_or, zero};
pub use typing::{extended, fits2, ite_typed, op1_width, op2_typed, op2_width, slice_typed};
pub use widths::{are_widths, fits, has_width};
pub use word::Word;
