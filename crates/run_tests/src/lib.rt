//! Runs of the program over shelves and sinks in memory. What is expected was worked by hand from the
//! texts. No crate stands on this one, so that no crate that is tested is proved a second time with its
//! tests.
#![tactic(auto)]

#[cfg(test)]
mod check;
#[cfg(test)]
mod circuit;
#[cfg(test)]
mod command;
#[cfg(test)]
mod form;
#[cfg(test)]
mod host;
#[cfg(test)]
mod memory;
#[cfg(test)]
mod sat;
#[cfg(test)]
mod trial;
#[cfg(test)]
mod verdict;
