//! Words: corner values of every operator, and every operator on all small words against its formula
//! computed anew.
//! This crate has tests alone, so that no crate that is tested is proved a second time with them.
#![tactic(auto)]

#[cfg(test)]
mod corners;
#[cfg(test)]
mod formulas;
