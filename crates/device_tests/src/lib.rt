//! The PIN store and devices like it, read from their texts: their parts step by step, the ends of runs
//! of their scripts' segments, and the outcomes of their drivers' tests.
//! This crate has tests alone, so that no crate that is tested is proved a second time with them.
#![tactic(auto)]

#[cfg(test)]
mod branches;
#[cfg(test)]
mod parts;
#[cfg(test)]
mod runs;
#[cfg(test)]
mod store;
