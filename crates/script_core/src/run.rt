//! Runs of a segment over words.
ghost use Rattle.std.specs.Prelude.{◌≡◌, ◌<◌, ℕ, List, drop, length, true, IfOk, if◌then◌else◌};
ghost use Rattle.knox_words.specs.Lists.{fit};
ghost use Rattle.knox_theory.specs.Course.{run};
ghost use Rattle.knox_circuit.specs.Cells.{cells_of, state_widths};
ghost use Rattle.device_design.specs.Roms.{known_fit};
ghost use Rattle.script_core.specs.declared.parts.Item.{Item};
ghost use Rattle.script_core.specs.declared.parts.Kind.TheVariants.{Call};
ghost use Rattle.script_core.specs.Hints.{ops_of, wire_items, first_cut};
ghost use Rattle.script_core.specs.Reached.{course_from, ticks_from, here, wire_run, behind_course, kind_course, first_known, Takes, TakesPart, TakesThree, Leads};
ghost use Rattle.script_core.specs.Rooms.{room_for, made_for, state_in};
ghost use Rattle.script_core.specs.Runs.{ToEnd, ToFailure, reach, reach_of, end_of, end_said, course_at, segments_of};

use crate::parts::{Act, Choices, HintNo, Item, Kind, Root, SegmentNo};
use crate::room::Room;
use crate::script::Script;
use emu_machine::Device;
use knox_words::{Word, Words};
use std::alloc::{AllocError, Global};

/// How a run over choices ends.
#[derive(Clone, Copy, Debug, PartialEq, Eq)]
pub enum ScriptEnd {
    /// At the segment's end.
    Held,
    /// The condition at its root is 0.
    Vacuous,
    /// At the first check that is false, at its hint.
    Failed(HintNo),
    /// Where the next word is missing or has another width.
    Short,
}

/// How far a run comes.
#[derive(Clone, Copy, Debug, PartialEq, Eq)]
pub(crate) enum Progress {
    Held,
    Vacuous,
    Failed(HintNo),
    /// A word of this width is wanted, and none is left.
    Wants(u8),
    /// The next word has another width.
    Misfit,
}

/// The words that are left, or how far the run came.
#[derive(Clone, Copy)]
pub(crate) enum Left<'a> {
    On(&'a [Word]),
    Ended(Progress),
}

/// Takes words of these widths from the front of the words.
pub(crate) fn take_words<'a>(
    widths: &[u8],
    words: &'a [Word],
    into: &mut Words,
) -> Result<Left<'a>, AllocError>
    ensures { IfOk result (λ l. Takes widths.now words.now into.new l) }
{
    into.clear();
    let mut wanted = widths;
    let mut left = words;
    while let Some((width, others)) = wanted.split_first() {
        let Some((word, more)) = left.split_first() else {
            return Ok(Left::Ended(Progress::Wants(*width)));
        };
        if !knox_words::has_width(*word, *width) {
            return Ok(Left::Ended(Progress::Misfit));
        }
        into.push(*word)?;
        wanted = others;
        left = more;
    }
    Ok(Left::On(left))
}

/// What is known of the word at the first place.
fn first_known(known: &[Option<Word>]) -> Option<Word>
    ensures { result ≡ first_known known.now }
{
    match known.first() {
        Some(first) => *first,
        None => None,
    }
}

/// What is known of the words at the others.
fn other_known(known: &[Option<Word>]) -> &[Option<Word>]
    ensures { result.now ≡ drop 1 known.now }
{
    match known.split_first() {
        Some((_, more)) => more,
        None => known,
    }
}

/// All words of these widths: each word that is known in its place, and the others taken from the
/// front of the words.
pub(crate) fn take_part<'a>(
    known: &[Option<Word>],
    widths: &[u8],
    words: &'a [Word],
    into: &mut Words,
) -> Result<Left<'a>, AllocError>
    requires { known_fit known.now widths.now ≡ true }
    ensures { IfOk result (λ l. TakesPart known.now widths.now words.now into.new l) }
{
    into.clear();
    let mut known_left = known;
    let mut wanted = widths;
    let mut left = words;
    while let Some((width, others)) = wanted.split_first() {
        if let Some(word) = first_known(known_left) {
            into.push(word)?;
        } else {
            let Some((word, more)) = left.split_first() else {
                return Ok(Left::Ended(Progress::Wants(*width)));
            };
            if !knox_words::has_width(*word, *width) {
                return Ok(Left::Ended(Progress::Misfit));
            }
            into.push(*word)?;
            left = more;
        }
        known_left = other_known(known_left);
        wanted = others;
    }
    Ok(Left::On(left))
}

/// Takes words of three lists of widths, one after another, but for the words of the second that
/// are known.
pub(crate) fn take_three<'a>(
    first: &[u8],
    known: &[Option<Word>],
    second: &[u8],
    third: &[u8],
    words: &'a [Word],
    into_first: &mut Words,
    into_second: &mut Words,
    into_third: &mut Words,
) -> Result<Left<'a>, AllocError>
    requires { known_fit known.now second.now ≡ true }
    ensures { IfOk result (λ l. TakesThree first.now known.now second.now third.now words.now into_first.new into_second.new into_third.new l) }
{
    let left = match take_words(first, words, into_first)? {
        Left::Ended(end) => return Ok(Left::Ended(end)),
        Left::On(left) => left,
    };
    let left = match take_part(known, second, left, into_second)? {
        Left::Ended(end) => return Ok(Left::Ended(end)),
        Left::On(left) => left,
    };
    let taken = take_words(third, left, into_third)?;
    Ok(taken)
}

/// The run of a segment over words.
pub(crate) fn run_over(
    alloc: Global,
    dev: &Device,
    sc: &Script,
    g: SegmentNo,
    words: &[Word],
    room: &mut Room,
) -> Result<Progress, AllocError>
    requires room { made_for room.old ≡ room_for dev.now }
    requires of { length dev.now.spec.ops ≡ ops_of sc.now }
    ensures run { IfOk result (λ p. reach_of p ≡ reach (course_at (segments_of dev.now.circuit dev.now.spec dev.now.driver dev.now.emulator sc.now) g.0) words.now) }
    ensures room { made_for room.new ≡ made_for room.old }
{
    let _parts = sc.parts();
    match sc.root_of(g) {
        None => Ok(Progress::Held),
        Some(Root::OfCut) => run_cut(alloc, dev, sc, words, room),
        Some(Root::OfKind(kind)) => run_kind(alloc, dev, sc, kind, words, room),
    }
}

/// The run of the segment that begins with a section of this kind.
fn run_kind(
    alloc: Global,
    dev: &Device,
    sc: &Script,
    kind: Kind,
    words: &[Word],
    room: &mut Room,
) -> Result<Progress, AllocError>
    requires room { made_for room.old ≡ room_for dev.now }
    requires op { (o : ℕ) → kind ≡ Call o → o < length dev.now.spec.ops }
    ensures run { IfOk result (λ p. reach_of p ≡ reach (kind_course dev.now sc.now kind) words.now) }
    ensures room { made_for room.new ≡ made_for room.old }
{
    match kind {
        Kind::Factory => room.factory(alloc, dev, sc, words),
        Kind::BootHost => room.boot_host(alloc, dev, sc, words),
        Kind::Rest => room.rest(alloc, dev, sc, words),
        Kind::Wait => room.wait(alloc, dev, sc, words),
        Kind::Call(op) => room.call(alloc, dev, sc, op, words),
        Kind::Wire => run_wire(alloc, dev, sc, words, room),
    }
}

/// The run of the segment of `wire`, from its root through its items.
fn run_wire(
    alloc: Global,
    dev: &Device,
    sc: &Script,
    words: &[Word],
    room: &mut Room,
) -> Result<Progress, AllocError>
    requires { made_for room.old ≡ room_for dev.now }
    ensures run { IfOk result (λ p. reach_of p ≡ reach (wire_run dev.now sc.now) words.now) }
    ensures room { made_for room.new ≡ made_for room.old }
{
    let left = match room.attach(alloc, dev, sc, words)? {
        Left::Ended(end) => return Ok(end),
        Left::On(left) => left,
    };
    let end = run_items(alloc, dev, sc, sc.wire(), left, room)?;
    Ok(end)
}

/// The run of the segment behind the cut, from its root through its items.
fn run_cut(
    alloc: Global,
    dev: &Device,
    sc: &Script,
    words: &[Word],
    room: &mut Room,
) -> Result<Progress, AllocError>
    requires { made_for room.old ≡ room_for dev.now }
    ensures run { IfOk result (λ p. reach_of p ≡ reach (behind_course dev.now sc.now (first_cut (wire_items sc.now))) words.now) }
    ensures room { made_for room.new ≡ made_for room.old }
{
    let Some(condition) = sc.cut() else {
        return Ok(Progress::Held);
    };
    let left = match room.enter(alloc, dev, condition, words)? {
        Left::Ended(end) => return Ok(end),
        Left::On(left) => left,
    };
    let end = run_items(alloc, dev, sc, sc.behind_cut(), left, room)?;
    Ok(end)
}

/// The run of items over words, to the item that ends the segment.
fn run_items(
    alloc: Global,
    dev: &Device,
    sc: &Script,
    items: &[Item],
    words: &[Word],
    room: &mut Room,
) -> Result<Progress, AllocError>
    requires made { made_for room.old ≡ room_for dev.now }
    requires cells { fit (state_widths (cells_of dev.now.circuit.lines)) room.old.device.words ≡ true }
    ensures run { IfOk result (λ p. reach_of p ≡ reach (course_from dev.now sc.now items.now (here (state_in room.old))) words.now) }
    ensures room { made_for room.new ≡ made_for room.old }
{
    let mut left = words;
    for item in items {
        match &item.act {
            Act::Step(count) => match run_ticks(alloc, dev, sc, item.hint, *count, left, room)? {
                Left::Ended(end) => return Ok(end),
                Left::On(more) => left = more,
            },
            Act::Cut(condition) => {
                let holds = room.holds(alloc, dev, condition)?;
                return Ok(checked(holds, item.hint));
            }
            Act::Subsume(target) => {
                let holds = room.passes(alloc, dev, sc, *target)?;
                return Ok(checked(holds, item.hint));
            }
        }
    }
    // Items without a check at their end lead to hint 0, which no cut has.
    let holds = room.passes(alloc, dev, sc, HintNo(0))?;
    Ok(checked(holds, HintNo(0)))
}

/// The end of a segment at its last check.
pub(crate) fn checked(holds: bool, hint: HintNo) -> Progress
    ensures { reach_of result ≡ (if holds then ToEnd else ToFailure hint.0) }
{
    if holds {
        Progress::Held
    } else {
        Progress::Failed(hint)
    }
}

/// So many ticks of a step.
fn run_ticks<'a>(
    alloc: Global,
    dev: &Device,
    sc: &Script,
    hint: HintNo,
    count: u32,
    words: &'a [Word],
    room: &mut Room,
) -> Result<Left<'a>, AllocError>
    requires made { made_for room.old ≡ room_for dev.now }
    requires cells { fit (state_widths (cells_of dev.now.circuit.lines)) room.old.device.words ≡ true }
    ensures run { IfOk result (λ l. (items : List Item) → Leads dev.now (ticks_from dev.now sc.now hint.0 count items (state_in room.old)) words.now (state_in room.new) (λ st. course_from dev.now sc.now items (here st)) l) }
    ensures room { made_for room.new ≡ made_for room.old }
{
    let mut left = words;
    let mut more_ticks = count;
    while more_ticks > 0 {
        more_ticks -= 1;
        match room.tick(alloc, dev, sc, hint, left)? {
            Left::Ended(end) => return Ok(Left::Ended(end)),
            Left::On(more) => left = more,
        }
    }
    Ok(Left::On(left))
}

/// The end of a run, as it is answered.
fn end_at(progress: Progress) -> ScriptEnd
    ensures { end_said result ≡ end_of (reach_of progress) }
{
    match progress {
        Progress::Held => ScriptEnd::Held,
        Progress::Vacuous => ScriptEnd::Vacuous,
        Progress::Failed(hint) => ScriptEnd::Failed(hint),
        Progress::Wants(_) | Progress::Misfit => ScriptEnd::Short,
    }
}

/// The run of a segment over a list of words. Words that are left over are ignored.
pub fn run_choices(
    alloc: Global,
    dev: &Device,
    sc: &Script,
    g: SegmentNo,
    ch: &Choices,
) -> Result<ScriptEnd, AllocError>
    requires of { length dev.now.spec.ops ≡ ops_of sc.now }
    ensures { IfOk result (λ e. end_said e ≡ run (course_at (segments_of dev.now.circuit dev.now.spec dev.now.driver dev.now.emulator sc.now) g.0) ch.now.words) }
{
    let mut room = Room::new(alloc, dev)?;
    let end = run_over(alloc, dev, sc, g, ch.words.as_slice(), &mut room)?;
    Ok(end_at(end))
}
