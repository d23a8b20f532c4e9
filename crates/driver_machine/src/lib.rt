//! Drivers: what a driver's body does to a circuit, as a whole and part by part. Start at `drive`;
//! `specs/Drive.antt` defines the meaning of a body, and `specs/Left.antt` its next part.
#![tactic(auto)]

mod begin;
mod config;
mod examples;
mod laws;
mod met;
mod part;
mod position;
mod reply;
mod scene;
mod settle;
mod whole;

pub use config::DriverConfig;
pub use examples::{bodies_move, bodies_reply, drivers_fit, tests_are_met};
pub use laws::{moves_are_steps, moves_meet_the_tests};
pub use reply::{Moved, Reply};
pub use whole::{drive, tests_met};
