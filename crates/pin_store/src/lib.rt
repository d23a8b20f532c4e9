//! The definitions at work on the PIN store and on its variants: each clause is computed from the definitions alone.
//! `worlds` has answers of both worlds, `runs` has runs of segments and what trying all choices says;
//! `program` ties them to the program's answers.
#![tactic(auto)]

mod parts;
mod program;
mod runs;
mod worlds;

pub use parts::{parts_fit, scripts_fit};
pub use program::{calls_are_run, cuts_are_run};
pub use runs::{
    host_states_run, host_ticks_run, idle_states_fail, impatient_calls_fail, leaks_are_told,
    leaks_fail, power_ons_run, scripts_are_closed, ticks_run, weak_cuts_fail,
};
pub use worlds::{
    calls_are_answered, drivers_get_stuck, guesses_are_answered, host_refuses, hosts_tick_idly,
    leaks_are_answered, modes_are_kept, noise_is_shown, off_refuses, secrets_are_kept,
    wires_refuse,
};
