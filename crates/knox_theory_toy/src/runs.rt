//! Runs of segments over given choices, and what is told of them.
ghost use Rattle.std.specs.Prelude.{◌≡◌, ℕ, Some, None, [], ◌∷◌, map, true, false};
ghost use Rattle.knox_words.specs.Bits.{bits};
ghost use Rattle.knox_theory.specs.declared.event.Event.TheVariants.{PowerHost, PowerWire, Call, Set, Read, Tick};
ghost use Rattle.knox_theory.specs.Script.{is_paced};
ghost use Rattle.knox_theory.specs.Course.{Held, Vacuous, Failed, Short, run, told, used};
ghost use Rattle.knox_theory.specs.Closed.{all_differ, all_hints};
ghost use Rattle.knox_theory.specs.Segments.{segments, wire_segment, boot_host_segment, call_segment, rest_segment, wait_segment, factory_segment};
ghost use Rattle.knox_theory.specs.Numbered.{all_tried, is_closed_below};
ghost use Rattle.knox_theory.specs.Traces.{are_in_range, branch_word, enters_root, passed_checks, trace_of, turned};
ghost use Rattle.knox_theory_toy.specs.Toy.{design_with, leaky, off, on, toy};
ghost use Rattle.knox_theory_toy.specs.Scripts.{bits_of, checked_host, checking, cut_events, cut_run, hints_of, host, idle_script, looping, owner, script, unpinned, wire_run, wire_script};

/// The four ends of a run. A label is reached again behind two ticks and not behind one, where the gate differs; with no pin, the mark at the root isn't
/// the present one. A label behind a cut is reached from the cut's segment.
pub fn runs_end()
    ensures again { wire_run toy (looping 2) (on ∷ on ∷ off ∷ off ∷ off ∷ on ∷ off ∷ []) ≡ Held }
    ensures turned { wire_run toy (looping 1) (on ∷ on ∷ off ∷ off ∷ off ∷ on ∷ []) ≡ Failed 11 }
    ensures unpinned { wire_run toy (unpinned 2) (on ∷ on ∷ off ∷ off ∷ off ∷ on ∷ off ∷ []) ≡ Failed 11 }
    ensures quiet { wire_run toy (unpinned 2) (on ∷ on ∷ off ∷ off ∷ off ∷ off ∷ off ∷ []) ≡ Held }
    ensures vacuous { wire_run toy (looping 2) (on ∷ off ∷ off ∷ off ∷ off ∷ on ∷ off ∷ []) ≡ Vacuous }
    ensures missing { wire_run toy (looping 2) (on ∷ on ∷ off ∷ off ∷ off ∷ on ∷ []) ≡ Short }
    ensures wide { wire_run toy (looping 2) (on ∷ on ∷ off ∷ off ∷ off ∷ bits 2 0 ∷ off ∷ []) ≡ Short }
    ensures label { cut_run toy script (on ∷ on ∷ off ∷ on ∷ on ∷ off ∷ on ∷ on ∷ on ∷ on ∷ []) ≡ Held }
    ensures havoc { cut_run toy script (on ∷ on ∷ off ∷ off ∷ on ∷ off ∷ off ∷ off ∷ on ∷ on ∷ on ∷ []) ≡ Held }
    ensures refused { cut_run toy script (on ∷ on ∷ off ∷ off ∷ on ∷ off ∷ off ∷ off ∷ on ∷ on ∷ off ∷ []) ≡ Vacuous }
    ensures leaks { wire_run leaky script (on ∷ on ∷ off ∷ off ∷ off ∷ on ∷ []) ≡ Failed 10 }
{}

/// Items that check: each at its own hint, and a split that tells its outcome.
pub fn items_are_checked()
    ensures held { wire_run toy (checking off) (on ∷ on ∷ off ∷ off ∷ off ∷ on ∷ off ∷ []) ≡ Held }
    ensures replace { wire_run toy (checking on) (on ∷ on ∷ off ∷ off ∷ off ∷ on ∷ off ∷ []) ≡ Failed 13 }
    ensures shut { run (call_segment toy (checked_host on) 0).course (on ∷ on ∷ off ∷ off ∷ off ∷ off ∷ []) ≡ Held }
    ensures open { run (call_segment toy (checked_host on) 0).course (on ∷ on ∷ off ∷ on ∷ off ∷ off ∷ []) ≡ Held }
    ensures invariant { run (call_segment toy (checked_host off) 0).course (on ∷ on ∷ off ∷ on ∷ off ∷ off ∷ []) ≡ Failed 8 }
    ensures outcome { turned (told (call_segment toy (checked_host on) 0).course (on ∷ on ∷ off ∷ on ∷ off ∷ off ∷ [])) ≡ true ∷ [] }
{}

/// The segments in order of their hint numbers, with and without sections for the host; the bits of their choices; whose hint each number is.
pub fn segments_are_listed()
    ensures hints { hints_of (segments toy script) ≡ 1 ∷ 2 ∷ 3 ∷ 4 ∷ 5 ∷ 8 ∷ 11 ∷ [] }
    ensures wires { hints_of (segments toy wire_script) ≡ 8 ∷ 11 ∷ [] }
    ensures bits { bits_of (segments toy script) ≡ 1 ∷ 5 ∷ 6 ∷ 6 ∷ 7 ∷ 6 ∷ 11 ∷ [] }
    ensures differ { all_differ (all_hints (segments toy script)) ≡ true }
    ensures owners { map (λ h. owner h (segments toy script)) (1 ∷ 7 ∷ 8 ∷ 9 ∷ 11 ∷ 12 ∷ 16 ∷ 17 ∷ []) ≡ 1 ∷ 5 ∷ 8 ∷ 8 ∷ 8 ∷ 11 ∷ 11 ∷ 0 ∷ [] }
{}

/// Trying all choices: the toy's scripts are closed, and a leaking circuit, a driver that gets stuck and a label that isn't reached again are found.
pub fn choices_are_tried()
    ensures closed { all_tried (segments toy script) ≡ true }
    ensures wires { all_tried (segments toy wire_script) ≡ true }
    ensures leaks { is_closed_below (wire_segment leaky script).course (wire_segment leaky script).choice_bits ≡ false }
    ensures stuck { is_closed_below (call_segment (design_with 0) host 0).course (call_segment (design_with 0) host 0).choice_bits ≡ false }
    ensures again { is_closed_below (wire_segment toy (looping 2)).course (wire_segment toy (looping 2)).choice_bits ≡ true }
    ensures turned { is_closed_below (wire_segment toy (looping 1)).course (wire_segment toy (looping 1)).choice_bits ≡ false }
{}

/// Without ticks a script of the leaking circuit would be closed: the test of its form is what refuses it.
pub fn steps_are_needed()
    ensures closed { all_tried (segments leaky idle_script) ≡ true }
    ensures paced { is_paced idle_script.wire ≡ false }
{}

/// A run of a call: the driver's tests with the gate at 0 and at 1, the choices that are taken, and the root that isn't passed.
pub fn calls_are_told()
    ensures shut { branch_word (call_segment toy host 0).course (on ∷ on ∷ off ∷ off ∷ off ∷ off ∷ on ∷ []) ≡ true ∷ false ∷ [] }
    ensures open { branch_word (call_segment toy host 0).course (on ∷ on ∷ off ∷ on ∷ off ∷ off ∷ on ∷ []) ≡ false ∷ [] }
    ensures held { run (call_segment toy host 0).course (on ∷ on ∷ off ∷ off ∷ off ∷ off ∷ on ∷ on ∷ []) ≡ Held }
    ensures used { used (call_segment toy host 0).course (on ∷ on ∷ off ∷ off ∷ off ∷ off ∷ on ∷ on ∷ []) ≡ on ∷ on ∷ off ∷ off ∷ off ∷ off ∷ on ∷ [] }
    ensures entered { enters_root (call_segment toy host 0).course (on ∷ on ∷ off ∷ off ∷ off ∷ off ∷ on ∷ []) ≡ true }
    ensures vacuous { enters_root (call_segment toy host 0).course (on ∷ off ∷ off ∷ off ∷ off ∷ off ∷ on ∷ []) ≡ false }
    ensures stuck { run (call_segment (design_with 0) host 0).course (on ∷ on ∷ off ∷ off ∷ off ∷ off ∷ on ∷ []) ≡ Failed 5 }
{}

/// The traces of choices: those of a step at its first tick, with events before and after it, of the sections of the host, and of a cut, which has the
/// ticks before it; the checks that a run passes; and events that are in range though they are malformed.
pub fn traces_are_told()
    ensures step { (trace_of leaky (Read ∷ []) (Tick ∷ []) (wire_segment leaky script) (on ∷ on ∷ off ∷ on ∷ off ∷ on ∷ [])).events ≡ Read ∷ PowerWire (on ∷ []) ∷ Set 0 on ∷ Read ∷ Tick ∷ Read ∷ Tick ∷ [] }
    ensures zeros { (trace_of leaky [] [] (wire_segment leaky script) (on ∷ on ∷ off ∷ on ∷ off ∷ on ∷ [])).factory ≡ off ∷ [] }
    ensures factory { (trace_of toy [] [] (factory_segment toy script host) (on ∷ [])).factory ≡ on ∷ [] }
    ensures call { (trace_of toy [] [] (call_segment toy host 0) (on ∷ on ∷ off ∷ off ∷ off ∷ off ∷ on ∷ [])).events ≡ PowerHost (off ∷ []) ∷ Call 0 [] ∷ [] }
    ensures wait { (trace_of toy [] [] (wait_segment toy host) (on ∷ on ∷ off ∷ off ∷ off ∷ off ∷ [])).events ≡ PowerHost (off ∷ []) ∷ Tick ∷ [] }
    ensures boot { (trace_of toy [] [] (boot_host_segment toy script host) (on ∷ on ∷ off ∷ on ∷ off ∷ [])).events ≡ PowerHost (on ∷ []) ∷ [] }
    ensures rest { (trace_of toy [] [] (rest_segment toy script host) (on ∷ on ∷ off ∷ on ∷ off ∷ off ∷ [])).events ≡ PowerHost (off ∷ []) ∷ [] }
    ensures cut { cut_events toy script (on ∷ on ∷ off ∷ on ∷ on ∷ off ∷ on ∷ on ∷ on ∷ on ∷ []) ≡ PowerWire (off ∷ []) ∷ Tick ∷ Set 0 on ∷ Read ∷ Tick ∷ Read ∷ [] }
    ensures first { passed_checks 10 (wire_segment leaky script).course (on ∷ on ∷ off ∷ on ∷ off ∷ on ∷ []) ≡ 0 }
    ensures both { passed_checks 10 (wire_segment toy script).course (on ∷ on ∷ off ∷ on ∷ off ∷ on ∷ []) ≡ 2 }
    ensures range { are_in_range toy.device (Call 0 (on ∷ []) ∷ Set 0 (bits 2 0) ∷ PowerWire [] ∷ []) ≡ true }
    ensures beyond { are_in_range toy.device (Set 1 on ∷ []) ≡ false }
{}
