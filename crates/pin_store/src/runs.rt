//! Runs of segments over given choices, and whether choices falsify a hint.
ghost use Rattle.std.specs.Prelude.{◌≡◌, [], ◌∷◌, map, true, false};
ghost use Rattle.knox_words.specs.Bits.{bits};
ghost use Rattle.knox_theory.specs.declared.event.Answer.TheVariants.{Nothing};
ghost use Rattle.knox_theory.specs.Worlds.{real, ideal};
ghost use Rattle.knox_theory.specs.Agreement.{Agree};
ghost use Rattle.knox_theory.specs.Course.{Held, Vacuous, Failed, Short};
ghost use Rattle.knox_theory.specs.Closed.{Closed, Falsifies};
ghost use Rattle.knox_theory.specs.Numbered.{all_tried, is_closed_below};
ghost use Rattle.script_core.specs.Runs.{course_at};
ghost use Rattle.pin_store.specs.Store.{design, device, impatient_design, impatient_device, leaked, shown};
ghost use Rattle.pin_store.specs.Events.{first_leak, showing, first_stuck, stuck_at_once, set_at_once};
ghost use Rattle.pin_store.specs.Hinted.{mimics_in_silence, refine, refine_of, refine_showing, shows, cut_at, idle_where, refined_where};
ghost use Rattle.pin_store.specs.Hinted.{hints, impatient_hints, impatient_parts, parts, parts_with, trace_at};
ghost use Rattle.pin_store.specs.Hinted.{boot_host_run, check_run, cut_run, factory_run, rest_run, set_run, wait_run, wire_run};
ghost use Rattle.pin_store.specs.Hinted.{called, chosen, powered, rested};

/// The segment of `wire` ends at the cut, where the secret is the field, whatever it is; and else its root isn't passed.
pub fn power_ons_run()
    ensures held { wire_run (parts 4 shown) (powered 9 9) ≡ Held }
    ensures vacuous { wire_run (parts 4 shown) (powered 9 3) ≡ Vacuous }
    ensures missing { wire_run (parts 4 shown) (bits 4 9 ∷ []) ≡ Short }
    ensures wide { wire_run (parts 4 shown) (bits 4 9 ∷ bits 5 9 ∷ []) ≡ Short }
    ensures leak { wire_run (parts 4 leaked) (powered 9 9) ≡ Held }
    ensures failed { wire_run (parts_with (cut_at (shows 1)) 4 shown) (powered 9 9) ≡ Failed 2 }
{}

/// The segment of the cut ends at the subsume, whatever the command is: a right guess, a wrong one, a new secret, and none of them.
pub fn ticks_run()
    ensures right { cut_run (parts 4 shown) (chosen 9 9 0 0 2 9) ≡ Held }
    ensures wrong { cut_run (parts 4 shown) (chosen 9 9 1 1 2 3) ≡ Held }
    ensures new { cut_run (parts 4 shown) (chosen 9 9 1 1 1 3) ≡ Held }
    ensures none { cut_run (parts 4 shown) (chosen 9 9 0 0 3 9) ≡ Held }
    ensures secret { cut_run (parts 4 shown) (chosen 9 3 0 0 2 9) ≡ Vacuous }
    ensures emulator { cut_run (parts 4 shown) (chosen 9 9 1 0 2 9) ≡ Vacuous }
    ensures missing { cut_run (parts 4 shown) (bits 4 9 ∷ bits 4 9 ∷ bits 1 0 ∷ bits 1 0 ∷ bits 2 2 ∷ []) ≡ Short }
    ensures wide { cut_run (parts 4 shown) (bits 4 9 ∷ bits 4 9 ∷ bits 2 0 ∷ []) ≡ Short }
{}

/// Cuts that say too little fail at the step: the outputs, and the secret after the tick. One that says too much fails at the subsume.
pub fn weak_cuts_fail()
    ensures outputs { cut_run (parts_with (cut_at refine) 4 shown) (chosen 0 0 0 1 0 0) ≡ Failed 3 }
    ensures same { cut_run (parts_with (cut_at refine) 4 shown) (chosen 0 0 1 1 0 0) ≡ Held }
    ensures subsume { cut_run (parts_with (cut_at mimics_in_silence) 4 shown) (chosen 9 9 0 0 2 9) ≡ Failed 4 }
    ensures silent { cut_run (parts_with (cut_at mimics_in_silence) 4 shown) (chosen 9 9 0 0 2 3) ≡ Held }
{}

/// The segments without a tick: `factory`, which takes no words, `boot-host`, which ends where the secret is the field, and `rest`.
pub fn host_states_run()
    ensures factory { factory_run (parts 4 shown) [] ≡ Held }
    ensures attached { boot_host_run (parts 4 shown) (powered 9 9) ≡ Held }
    ensures other_secret { boot_host_run (parts 4 shown) (powered 9 3) ≡ Vacuous }
    ensures no_secret { boot_host_run (parts 4 shown) (bits 4 9 ∷ []) ≡ Short }
    ensures rested { rest_run (parts 4 shown) (rested 9 9 1) ≡ Held }
    ensures not_idle { rest_run (parts 4 shown) (rested 9 3 1) ≡ Vacuous }
    ensures no_answer { rest_run (parts 4 shown) (bits 4 9 ∷ bits 4 9 ∷ []) ≡ Short }
{}

/// The segments of the host with a tick: `wait`, and the calls, which end whatever is set, and whether the guess is right or wrong.
pub fn host_ticks_run()
    ensures waits { wait_run (parts 4 shown) (rested 9 9 1) ≡ Held }
    ensures not_idle { wait_run (parts 4 shown) (rested 9 3 1) ≡ Vacuous }
    ensures no_answer { wait_run (parts 4 shown) (bits 4 9 ∷ bits 4 9 ∷ bits 2 1 ∷ []) ≡ Short }
    ensures set { set_run (parts 4 shown) (called 9 9 1 3) ≡ Held }
    ensures set_vacuous { set_run (parts 4 shown) (called 9 3 1 3) ≡ Vacuous }
    ensures set_short { set_run (parts 4 shown) (rested 9 9 1) ≡ Short }
    ensures right { check_run (parts 4 shown) (called 9 9 0 9) ≡ Held }
    ensures wrong { check_run (parts 4 shown) (called 9 9 1 3) ≡ Held }
    ensures check_vacuous { check_run (parts 4 shown) (called 9 3 0 9) ≡ Vacuous }
    ensures check_short { check_run (parts 4 shown) (bits 4 9 ∷ bits 4 9 ∷ bits 1 0 ∷ bits 5 9 ∷ []) ≡ Short }
    ensures leak { check_run (parts 4 leaked) (called 8 8 0 3) ≡ Failed 10 }
    ensures leak_odd { check_run (parts 4 leaked) (called 9 9 0 3) ≡ Held }
{}

/// An `idle` that says too much fails where the host is attached, at a tick, and behind calls; one that says too little fails where power may be cut, and
/// at a question. A `refine` that says too much fails at the factory.
pub fn idle_states_fail()
    ensures attached { boot_host_run (parts_with (idle_where (refine_showing 1)) 4 shown) (powered 9 9) ≡ Failed 6 }
    ensures waits { wait_run (parts_with (idle_where (refine_showing 1)) 4 shown) (rested 9 9 1) ≡ Failed 8 }
    ensures set { set_run (parts_with (idle_where (refine_showing 1)) 4 shown) (called 9 9 1 3) ≡ Failed 9 }
    ensures set_silent { set_run (parts_with (idle_where (refine_showing 0)) 4 shown) (called 9 9 0 3) ≡ Held }
    ensures right { check_run (parts_with (idle_where (refine_showing 0)) 4 shown) (called 9 9 0 9) ≡ Failed 10 }
    ensures wrong { check_run (parts_with (idle_where (refine_showing 0)) 4 shown) (called 9 9 0 3) ≡ Held }
    ensures rested { rest_run (parts_with (idle_where (shows 0)) 4 shown) (rested 9 3 0) ≡ Failed 7 }
    ensures asked { check_run (parts_with (idle_where (shows 0)) 4 shown) (called 9 3 0 9) ≡ Failed 10 }
    ensures factory { factory_run (parts_with (refined_where (refine_of 9)) 4 shown) [] ≡ Failed 5 }
{}

/// A driver that gets stuck fails at the hint of its call, and at no other. The trace of these choices shows it: the worlds differ at the call.
pub fn impatient_calls_fail()
    ensures set { set_run (impatient_parts 4) (called 0 0 0 9) ≡ Failed 9 }
    ensures vacuous { set_run (impatient_parts 4) (called 9 3 0 9) ≡ Vacuous }
    ensures check { check_run (impatient_parts 4) (called 9 9 0 9) ≡ Held }
    ensures falsified { Falsifies (impatient_design 4) (impatient_hints 4) 9 (called 0 0 0 9) }
    ensures trace { trace_at 6 (impatient_design 4) (impatient_parts 4) (called 0 0 0 9) ≡ first_stuck }
    ensures real { real (impatient_device 4) [] first_stuck ≡ stuck_at_once }
    ensures ideal { ideal (impatient_device 4) first_stuck ≡ set_at_once }
    ensures closed { Closed (impatient_design 4) (impatient_hints 4) → ⊥ }
    ensures agree { Agree (impatient_device 4) → ⊥ }
{}

/// The leaking circuit shows 1 where the lowest bit of its secret is 0, and the emulator doesn't: the step fails. Where the bit is 1, or where both show
/// 1, it doesn't.
pub fn leaks_fail()
    ensures even { cut_run (parts 4 leaked) (chosen 0 0 0 0 0 0) ≡ Failed 3 }
    ensures eight { cut_run (parts 4 leaked) (chosen 8 8 0 0 2 8) ≡ Failed 3 }
    ensures odd { cut_run (parts 4 leaked) (chosen 9 9 0 0 2 8) ≡ Held }
    ensures shown { cut_run (parts 4 leaked) (chosen 8 8 1 1 1 7) ≡ Held }
    ensures vacuous { cut_run (parts 4 leaked) (chosen 8 9 0 0 0 0) ≡ Vacuous }
    ensures falsified { Falsifies (design 4 leaked) (hints 4 leaked) 3 (chosen 0 0 0 0 0 0) }
{}

/// The trace of these choices: the worlds differ on it for the first time at its fourth event, the read before the tick. So the script isn't closed, and
/// the worlds don't agree.
pub fn leaks_are_told()
    ensures trace { trace_at 1 (design 4 leaked) (parts 4 leaked) (chosen 0 0 0 0 0 0) ≡ first_leak }
    ensures real { real (device 4 leaked) [] first_leak ≡ Nothing ∷ showing 1 1 }
    ensures ideal { ideal (device 4 leaked) first_leak ≡ Nothing ∷ showing 0 0 }
    ensures closed { Closed (design 4 leaked) (hints 4 leaked) → ⊥ }
    ensures agree { Agree (device 4 leaked) → ⊥ }
{}

/// Trying all choices: with a secret of one bit the store's whole script is closed, so its worlds agree; and not that of its leaking variant. The bits of the
/// choices of each segment.
pub fn scripts_are_closed()
    ensures closed { Closed (design 1 shown) (hints 1 shown) }
    ensures tried { all_tried (parts 1 shown) ≡ true }
    ensures agree { Agree (device 1 shown) }
    ensures leaks { is_closed_below (course_at (parts 1 leaked) 1) 7 ≡ false }
    ensures bits { map (λ g. g.choice_bits) (parts 1 shown) ≡ 2 ∷ 7 ∷ 0 ∷ 2 ∷ 3 ∷ 3 ∷ 4 ∷ 4 ∷ [] }
    ensures more { map (λ g. g.choice_bits) (parts 4 shown) ≡ 8 ∷ 16 ∷ 0 ∷ 8 ∷ 9 ∷ 9 ∷ 13 ∷ 13 ∷ [] }
{}
