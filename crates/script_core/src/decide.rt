//! Deciding a segment by trying all choices in ascending order, word by word: the first word is the
//! most significant.
ghost use Rattle.std.specs.Prelude.{◌≡◌, ◌+◌, ◌^◌, ◌≤◌, ◌∷◌, ◌++◌, [], length, Some, IfOk};
ghost use Rattle.knox_words.specs.Bits.{bits};
ghost use Rattle.knox_words.specs.Lists.{total};
ghost use Rattle.knox_theory.specs.Course.{Course, used};
ghost use Rattle.knox_theory.specs.Searched.{wants};
ghost use Rattle.knox_lang.specs.WellFormed.{word_widths};
ghost use Rattle.script_core.specs.Hints.{ops_of};
ghost use Rattle.script_core.specs.Rooms.{room_for, made_for};
ghost use Rattle.script_core.specs.Runs.{segments_of, course_at, bits_at, hint_at, counted};
ghost use Rattle.script_core.specs.Decisions.{Finds, Decides, Checks};

use crate::bits::choice_bits;
use crate::parts::{Choices, HintNo, SegmentNo};
use crate::room::Room;
use crate::run::{Progress, run_over};
use crate::script::Script;
use emu_machine::Device;
use knox_words::{Word, Words};
use std::alloc::{AllocError, Global};

/// The most bits that are tried.
const MOST_BITS: u32 = 20;

/// What trying all choices of a segment finds.
#[derive(Drop)]
pub enum Plain {
    /// No choices falsify a hint of it.
    Holds,
    /// The run over these choices fails at this hint, and takes all of them.
    Falsified(HintNo, Choices),
}

/// What is found of a segment.
#[derive(Drop)]
pub enum Checked {
    /// No choices falsify a hint of it.
    Holds,
    /// The run over these choices fails at this hint, and takes all of them.
    Falsified(HintNo, Choices),
    /// Its runs take more than 20 bits: the hint number of its section or cut, and the bits.
    TooWide(HintNo, u64),
}

/// Tries all choices that begin with these words, all of which are taken, and behind which no run
/// takes more than `left` bits: the hint at which the first of them fails, and then `front` has
/// them.
#[cycle(search)]
fn search(
    alloc: Global,
    dev: &Device,
    sc: &Script,
    g: SegmentNo,
    front: &mut Words,
    left: u32,
    room: &mut Room,
) -> Result<Option<HintNo>, AllocError>
    requires of { length dev.now.spec.ops ≡ ops_of sc.now }
    requires room { made_for room.old ≡ room_for dev.now }
    requires left { total (word_widths front.old) + left ≡ bits_at (segments_of dev.now.circuit dev.now.spec dev.now.driver dev.now.emulator sc.now) g.0 }
    requires few { left ≤ 20 }
    requires taken { used (course_at (segments_of dev.now.circuit dev.now.spec dev.now.driver dev.now.emulator sc.now) g.0) front.old ≡ front.old }
    ensures found { IfOk result (λ found. Finds (course_at (segments_of dev.now.circuit dev.now.spec dev.now.driver dev.now.emulator sc.now) g.0) front.old front.old front.new found) }
    ensures room { made_for room.new ≡ made_for room.old }
{
    match run_over(alloc, dev, sc, g, front.as_slice(), room)? {
        Progress::Failed(hint) => Ok(Some(hint)),
        Progress::Wants(width) => try_words(alloc, dev, sc, g, front, width, left, room),
        Progress::Held | Progress::Vacuous | Progress::Misfit => Ok(None),
    }
}

/// How many words a width has.
#[tactic(auto, using(crate::proofs::Counting::words_of_width))]
fn number_of(width: u8) -> u32
    requires { width ≤ 20 }
    ensures { result ≡ 2 ^ width }
{
    1u32 << width
}

/// Tries each word of the width that a run wants behind these words.
#[cycle(search)]
fn try_words(
    alloc: Global,
    dev: &Device,
    sc: &Script,
    g: SegmentNo,
    front: &mut Words,
    width: u8,
    left: u32,
    room: &mut Room,
) -> Result<Option<HintNo>, AllocError>
    requires of { length dev.now.spec.ops ≡ ops_of sc.now }
    requires room { made_for room.old ≡ room_for dev.now }
    requires left { total (word_widths front.old) + left ≡ bits_at (segments_of dev.now.circuit dev.now.spec dev.now.driver dev.now.emulator sc.now) g.0 }
    requires few { left ≤ 20 }
    requires within { width ≤ left }
    requires wanted { wants (course_at (segments_of dev.now.circuit dev.now.spec dev.now.driver dev.now.emulator sc.now) g.0) front.old ≡ Some width }
    ensures found { IfOk result (λ found. Finds (course_at (segments_of dev.now.circuit dev.now.spec dev.now.driver dev.now.emulator sc.now) g.0) front.old front.old front.new found) }
    ensures room { made_for room.new ≡ made_for room.old }
{
    for value in 0..number_of(width) {
        if let Some(hint) = try_word(alloc, dev, sc, g, front, width, value, left, room)? {
            return Ok(Some(hint));
        }
    }
    Ok(None)
}

/// Tries one of them. A number that is no word of the width is wanted nowhere.
#[cycle(search)]
fn try_word(
    alloc: Global,
    dev: &Device,
    sc: &Script,
    g: SegmentNo,
    front: &mut Words,
    width: u8,
    value: u32,
    left: u32,
    room: &mut Room,
) -> Result<Option<HintNo>, AllocError>
    requires of { length dev.now.spec.ops ≡ ops_of sc.now }
    requires room { made_for room.old ≡ room_for dev.now }
    requires left { total (word_widths front.old) + left ≡ bits_at (segments_of dev.now.circuit dev.now.spec dev.now.driver dev.now.emulator sc.now) g.0 }
    requires few { left ≤ 20 }
    requires within { width ≤ left }
    requires wanted { wants (course_at (segments_of dev.now.circuit dev.now.spec dev.now.driver dev.now.emulator sc.now) g.0) front.old ≡ Some width }
    ensures found { IfOk result (λ found. Finds (course_at (segments_of dev.now.circuit dev.now.spec dev.now.driver dev.now.emulator sc.now) g.0) (front.old ++ bits width value ∷ []) front.old front.new found) }
    ensures room { made_for room.new ≡ made_for room.old }
{
    let Some(word) = Word::new(width, u128::from(value)) else {
        return Ok(None);
    };
    front.push(word)?;
    match search(alloc, dev, sc, g, front, left - u32::from(width), room)? {
        Some(hint) => Ok(Some(hint)),
        None => {
            front.pop();
            Ok(None)
        }
    }
}

/// Decides a segment whose runs take at most 20 bits: tries all choices, in ascending order.
pub fn plain_decide(
    alloc: Global,
    dev: &Device,
    sc: &Script,
    g: SegmentNo,
) -> Result<Plain, AllocError>
    requires of { length dev.now.spec.ops ≡ ops_of sc.now }
    requires few { bits_at (segments_of dev.now.circuit dev.now.spec dev.now.driver dev.now.emulator sc.now) g.0 ≤ 20 }
    ensures { IfOk result (λ plain. Decides (course_at (segments_of dev.now.circuit dev.now.spec dev.now.driver dev.now.emulator sc.now) g.0) plain) }
{
    let mut room = Room::new(alloc, dev)?;
    let mut front = Words::new(alloc);
    let bits = choice_bits(dev, sc, g) as u32;
    let found = search(alloc, dev, sc, g, &mut front, bits, &mut room)?;
    Ok(plain_of(found, front))
}

/// What a search of all choices finds, with the words that it leaves.
fn plain_of(found: Option<HintNo>, words: Words) -> Plain
    ensures { (t : Course) → Finds t [] [] words found → Decides t result }
{
    match found {
        Some(hint) => Plain::Falsified(hint, Choices { words }),
        None => Plain::Holds,
    }
}

/// Decides a segment where its runs take at most 20 bits, and else answers how many they take.
pub fn check(alloc: Global, dev: &Device, sc: &Script, g: SegmentNo) -> Result<Checked, AllocError>
    requires of { length dev.now.spec.ops ≡ ops_of sc.now }
    ensures { IfOk result (λ checked. Checks (course_at (segments_of dev.now.circuit dev.now.spec dev.now.driver dev.now.emulator sc.now) g.0) (hint_at (segments_of dev.now.circuit dev.now.spec dev.now.driver dev.now.emulator sc.now) g.0) (counted (bits_at (segments_of dev.now.circuit dev.now.spec dev.now.driver dev.now.emulator sc.now) g.0)) checked) }
{
    let bits = choice_bits(dev, sc, g);
    if bits > u64::from(MOST_BITS) {
        return Ok(Checked::TooWide(sc.hint_of(g), bits));
    }
    Ok(match plain_decide(alloc, dev, sc, g)? {
        Plain::Holds => Checked::Holds,
        Plain::Falsified(hint, choices) => Checked::Falsified(hint, choices),
    })
}
