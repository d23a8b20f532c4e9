//! Trees that are read and printed, and shelves and sinks over files and in memory.
//! This crate has tests alone, so that no crate that is tested is proved a second time with them.
#![tactic(auto)]

#[cfg(test)]
mod edges;
#[cfg(test)]
mod trees;
