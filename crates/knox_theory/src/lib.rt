//! The theory of scripts, apart from every language: the two worlds of a device, and the law that a closed script implies that they agree.
//! `event` has what happens to a device and what it answers; `laws` and `search` have the theorems, each the contract of a function with an empty body.
#![tactic(auto)]

mod event;
mod laws;
mod search;

pub use event::{Answer, Event, Trace};
pub use laws::{
    calls_alone_branch, closed_implies_agreement, closed_implies_agreement_on_wires,
    failed_runs_enter, hints_name_their_segments, replies_give_the_dialogue,
    runs_fail_at_own_hints, segments_are_ordered, stops_meet_the_same_tests, traces_fit,
    used_choices_suffice,
};
pub use search::{
    branch_is_safe, choice_bits_bound, leaf_is_safe, numbers_cover_choices, root_is_safe,
    safe_front_closes_below, safe_segments_close, trying_all_closes,
};
