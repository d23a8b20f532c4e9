//! Formulas, derivations, refutations and their texts.
//! This crate has tests alone, so that no crate that is tested is proved a second time with them.
#![tactic(auto)]

#[cfg(test)]
mod derivations;
#[cfg(test)]
mod formulas;
#[cfg(test)]
mod refutations;
#[cfg(test)]
mod texts;
