//! The theorems on scripts. Each is the contract of a function with an empty body.
ghost use Rattle.std.specs.Prelude.{◌≡◌, ℕ, Some, List, [], ◌++◌, true, false};
ghost use Rattle.knox_words.specs.Lists.{Words, are_widths};
ghost use Rattle.knox_theory.specs.declared.event.Event.{Event};
ghost use Rattle.knox_theory.specs.Device.{Asking, answered};
ghost use Rattle.knox_theory.specs.Agreement.{Agree, AgreeOnWires};
ghost use Rattle.knox_theory.specs.Design.{Design, Config, go, go_tests, finish_tests};
ghost use Rattle.knox_theory.specs.Lawful.{IsDesign, IsDriver, IsWireDesign};
ghost use Rattle.knox_theory.specs.Dialogue.{asked, fields_after, replied, replies, replies_to};
ghost use Rattle.knox_theory.specs.Script.{HostSections, IsScript, Script};
ghost use Rattle.knox_theory.specs.Course.{Course, Failed, run, told, used};
ghost use Rattle.knox_theory.specs.Segments.{Segment, is_ordered, segments};
ghost use Rattle.knox_theory.specs.Closed.{Closed, Falsifies, IsAmong, StartsRefined, all_differ, all_hints, is_hint_of, segment_of};
ghost use Rattle.knox_theory.specs.Traces.{FitsTrace, are_in_range, branch_word, enters_root, is_of_call, is_of_factory, trace_of};

/// A script with sections for the host, none of whose hints is falsified, implies that the two worlds agree, whatever the factory noise, on every list
/// of events.
pub fn closed_implies_agreement<P>()
    ensures { (d : Design P) (s : Script P) (host : HostSections P) → s.host ≡ Some host → IsDesign d → IsScript d s → Closed d s → Agree d.device }
{}

/// A script none of whose hints is falsified, with `refine` as the device leaves the factory, implies that the two worlds agree, whatever the factory
/// noise, on every list of events without `PowerHost` and `Call`. It needs no sections for the host, and nothing of the driver.
pub fn closed_implies_agreement_on_wires<P>()
    ensures { (d : Design P) (s : Script P) → IsWireDesign d → IsScript d s → Closed d s → StartsRefined d s → AgreeOnWires d.device }
{}

/// A tick of the emulator in dialogue with the specification is its tick under the list of replies that the specification gives to what is asked then;
/// and there is no other list that the specification gives to what is asked under it.
pub fn replies_give_the_dialogue<P>()
    ensures tick { (d : Design P) (tick : Asking) (fields : Words) → replied d (replies d.device fields tick) tick ≡ ((answered d.device fields tick).emu, (answered d.device fields tick).copy) }
    ensures given { (d : Design P) (tick : Asking) (fields : Words) → replies_to d.device fields (asked d (replies d.device fields tick) tick) ≡ replies d.device fields tick }
    ensures after { (d : Design P) (tick : Asking) (fields : Words) → fields_after d.device fields (asked d (replies d.device fields tick) tick) ≡ (answered d.device fields tick).fields }
    ensures only { (d : Design P) (tick : Asking) (fields given : Words) → replies_to d.device fields (asked d given tick) ≡ given → given ≡ replies d.device fields tick }
{}

/// The tests that the driver meets up to its end are the same with a stop after any number of ticks as in one.
pub fn stops_meet_the_same_tests<P>()
    ensures { (d : Design P) → IsDriver d → (o ticks : ℕ) (c : Config P) → d.fits_config o c ≡ true → go_tests d ticks c ++ finish_tests d (go d ticks c) ≡ finish_tests d c }
{}

/// The choices that a run takes are the front of all choices, and give the same run.
pub fn used_choices_suffice()
    ensures run { (t : Course) (cs : Words) → run t (used t cs) ≡ run t cs }
    ensures told { (t : Course) (cs : Words) → told t (used t cs) ≡ told t cs }
    ensures front { (t : Course) (cs : Words) → (more : Words) × (used t cs ++ more ≡ cs) }
{}

/// The segments are in order of their hint numbers.
pub fn segments_are_ordered<P>()
    ensures { (d : Design P) (s : Script P) → is_ordered (segments d s) ≡ true }
{}

/// A run of a segment fails at a hint of that segment.
pub fn runs_fail_at_own_hints<P>()
    ensures { (d : Design P) (s : Script P) (g : Segment) → IsAmong g (segments d s) → (h : ℕ) (cs : Words) → run g.course cs ≡ Failed h → is_hint_of h g.hints ≡ true }
{}

/// Where all hints differ, choices falsify a hint exactly where the run of that hint's segment over them fails at it.
pub fn hints_name_their_segments<P>()
    ensures named { (d : Design P) (s : Script P) → all_differ (all_hints (segments d s)) ≡ true → (h : ℕ) (cs : Words) (f : Falsifies d s h cs) → segment_of h (segments d s) ≡ Some f.segment }
    ensures listed { (d : Design P) (s : Script P) (h : ℕ) (cs : Words) (g : Segment) → segment_of h (segments d s) ≡ Some g → run g.course cs ≡ Failed h → Falsifies d s h cs }
{}

/// The trace of choices that falsify a hint fits the device.
pub fn traces_fit<P>()
    ensures { (d : Design P) (s : Script P) (before after : List Event) (g : Segment) (cs : Words) (h : ℕ) → are_widths d.device.factory_noise ≡ true → are_in_range d.device before ≡ true → are_in_range d.device after ≡ true → IsAmong g (segments d s) → run g.course cs ≡ Failed h → FitsTrace d.device (trace_of d before after g cs) }
{}

/// A run that fails has passed the condition at its segment's root, but in `factory`, which has none.
pub fn failed_runs_enter<P>()
    ensures { (d : Design P) (s : Script P) (g : Segment) → IsAmong g (segments d s) → is_of_factory g.kind ≡ false → (h : ℕ) (cs : Words) → run g.course cs ≡ Failed h → enters_root g.course cs ≡ true }
{}

/// The driver's tests are met in the segments of calls alone.
pub fn calls_alone_branch<P>()
    ensures { (d : Design P) (s : Script P) (g : Segment) → IsAmong g (segments d s) → is_of_call g.kind ≡ false → (cs : Words) → branch_word g.course cs ≡ [] }
{}
