//! Texts of drivers and emulators by their readers, which tell the first fault with its place, and
//! prefixes of texts.
//! This crate has tests alone, so that no crate that is tested is proved a second time with them.
#![tactic(auto)]

#[cfg(test)]
mod drivers;
#[cfg(test)]
mod emulators;
#[cfg(test)]
mod prefixes;
#[cfg(test)]
mod readers;
