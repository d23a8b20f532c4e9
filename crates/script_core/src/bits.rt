//! The bits that the widest run of a segment takes.
ghost use Rattle.std.specs.Prelude.{◌≡◌, ℕ, ◌+◌, length, slice_get, Some, take, drop, replicate, if◌then◌else◌};
ghost use Rattle.knox_words.specs.Lists.{total, pick};
ghost use Rattle.knox_circuit.specs.Cells.{noise_widths, keep_mask, first_keep, size};
ghost use Rattle.knox_circuit.specs.Ports.{input_widths};
ghost use Rattle.knox_lang.specs.Operation.{arg_widths};
ghost use Rattle.knox_lang.specs.WellFormed.{word_widths};
ghost use Rattle.device_design.specs.Meaning.{head_args};
ghost use Rattle.script_core.specs.declared.parts.Kind.TheVariants.{Wire};
ghost use Rattle.script_core.specs.declared.parts.Root.TheVariants.{OfCut};
ghost use Rattle.script_core.specs.Hints.{ops_of, wire_items, behind_cut};
ghost use Rattle.script_core.specs.Reached.{kind_bits, root_bits};
ghost use Rattle.script_core.specs.Widths.{cells_taken, kept_taken, tick_count, items_bits};
ghost use Rattle.script_core.specs.Runs.{segments_of, bits_at, counted};

use crate::parts::{Act, Item, Kind, Root, SegmentNo};
use crate::script::Script;
use emu_machine::Device;
use knox_circuit::Cell;
use knox_lang::OpHead;
use knox_words::Word;

#[tactic(auto, using(crate::proofs::Counting::sums))]
fn bits_of_words(words: &[Word]) -> u64
    ensures { result ≡ counted (total (word_widths words.now)) }
{
    let mut sum = 0u64;
    let mut left = words;
    while let Some((word, more)) = left.split_first() {
        sum = sum.saturating_add(u64::from(word.width()));
        left = more;
    }
    sum
}

#[tactic(auto, using(crate::proofs::Counting::sums))]
fn bits_of(widths: &[u8]) -> u64
    ensures { result ≡ counted (total widths.now) }
{
    let mut sum = 0u64;
    let mut left = widths;
    while let Some((width, more)) = left.split_first() {
        sum = sum.saturating_add(u64::from(*width));
        left = more;
    }
    sum
}

/// The bits of a word, if it is taken.
fn bits_if(taken: bool, width: u8) -> u64
    ensures { result ≡ (if taken then width else 0) }
{
    if taken { u64::from(width) } else { 0 }
}

/// The bits of the words at the places that a mask marks.
fn bits_of_taken(mask: &[bool], widths: &[u8]) -> u64
    ensures { result ≡ counted (total (pick mask.now widths.now)) }
{
    let mut sum = 0u64;
    let mut marks = mask;
    let mut left = widths;
    while let Some((mark, more)) = marks.split_first() {
        let Some((width, rest)) = left.split_first() else {
            return sum;
        };
        sum = sum.saturating_add(bits_if(*mark, *width));
        marks = more;
        left = rest;
    }
    sum
}

/// The ticks of a step; no other item has any, but ends its segment.
fn tick_count(act: &Act) -> Option<u32>
    ensures { result ≡ tick_count act.now }
{
    match act {
        Act::Step(count) => Some(*count),
        _ => None,
    }
}

/// The bits that items take up to the end of their segment, with so many for each tick.
#[tactic(auto, using(crate::proofs::Counting::sums))]
fn bits_of_items(items: &[Item], per_tick: u64) -> u64
    ensures { result ≡ counted (items_bits per_tick items.now) }
{
    let mut sum = 0u64;
    let mut left = items;
    while let Some((item, more)) = left.split_first() {
        match tick_count(&item.act) {
            Some(count) => {
                sum = sum.saturating_add(u64::from(count).saturating_mul(per_tick));
            }
            None => return sum,
        }
        left = more;
    }
    sum
}

/// The bits of the arguments of an operation.
#[tactic(auto, using(crate::proofs::Counting::sums))]
fn bits_of_head(head: &OpHead) -> u64
    ensures { result ≡ counted (total (arg_widths head.now)) }
{
    let mut sum = 0u64;
    let mut left = head.args.as_slice();
    while let Some((arg, more)) = left.split_first() {
        sum = sum.saturating_add(u64::from(arg.1));
        left = more;
    }
    sum
}

/// The same by its number; none where there is no such operation.
fn argument_bits(dev: &Device, op: u32) -> u64
    ensures { result ≡ counted (total (head_args (slice_get dev.now.spec.ops op))) }
{
    match dev.spec.parts().ops.as_slice().get(op as usize) {
        Some(head) => bits_of_head(head),
        None => 0,
    }
}

fn field_bits(dev: &Device) -> u64
    ensures { result ≡ counted (total (word_widths dev.now.spec.init)) }
{
    bits_of_words(dev.spec.parts().init.as_slice())
}

fn emulator_bits(dev: &Device) -> u64
    ensures { result ≡ counted (total (word_widths dev.now.emulator.init)) }
{
    bits_of_words(dev.emulator.parts().init.as_slice())
}

fn cell_bits(dev: &Device) -> u64
    ensures { result ≡ counted (total (cells_taken dev.now)) }
{
    bits_of_taken(dev.circuit.free_mask(), dev.circuit.state_widths())
}

/// How many words a word or an array with indices of this width has, up to 2^64 - 1.
fn words_of(index: Option<u8>) -> u64
    ensures { result ≡ counted (size index) }
{
    let mut words = 1u64;
    for _ in 0..index.unwrap_or(0) {
        words = words.saturating_add(words);
    }
    words
}

/// The bits of a state's words.
fn state_bits(cell: &Cell) -> u64
    ensures { result ≡ counted (total (replicate (size cell.now.index) cell.now.width)) }
{
    u64::from(cell.width).saturating_mul(words_of(cell.index))
}

/// The bits of the noise words of a power-cycle that keeps some cells.
#[tactic(auto, using(crate::proofs::Counting::sums))]
fn noise_bits(dev: &Device, keep: &[bool]) -> u64
    ensures { result ≡ counted (total (noise_widths dev.now.circuit.lines keep.now)) }
{
    let mut sum = 0u64;
    let mut states = dev.circuit.noise_walk(keep);
    while let Some(state) = states.next() {
        sum = sum.saturating_add(state_bits(state.cell));
    }
    sum
}

/// The first entries of a list, this many or all, and those behind them.
fn cut<T>(list: &[T], count: u64) -> (&[T], &[T])
    ensures { (n : ℕ) → count ≡ counted n → (result.0.now ≡ take n list.now) × (result.1.now ≡ drop n list.now) }
{
    let most = list.len() as u64;
    list.split_at(count.min(most) as usize)
}

/// The first of some marks, and those behind it; none is no mark.
fn first_mark(marks: &[bool]) -> (bool, &[bool])
    ensures first { result.0 ≡ first_keep marks.now }
    ensures rest { result.1.now ≡ drop 1 marks.now }
{
    match marks.split_first() {
        Some((mark, others)) => (*mark, others),
        None => (false, marks),
    }
}

/// The bits of a cell's words that are no ROM words, if it is kept.
fn bits_where(kept: bool, free: &[bool], widths: &[u8]) -> u64
    ensures { result ≡ (if kept then counted (total (pick free.now widths.now)) else 0) }
{
    if kept {
        return bits_of_taken(free, widths);
    }
    0
}

/// The bits of the words of the cells that are kept, but for ROM words: `free` marks the device words
/// that are none.
fn bits_of_kept(cells: &[Cell], keep: &[bool], free: &[bool], widths: &[u8]) -> u64
    ensures { result ≡ counted (total (pick (pick (keep_mask cells.now keep.now) free.now) (pick (keep_mask cells.now keep.now) widths.now))) }
{
    let mut sum = 0u64;
    let mut left = cells;
    let mut marks = keep;
    let mut beyond = free;
    let mut sizes = widths;
    while let Some((cell, more)) = left.split_first() {
        let words = words_of(cell.index);
        let (own, other_marks) = cut(beyond, words);
        let (its, other_widths) = cut(sizes, words);
        let (kept, others) = first_mark(marks);
        sum = sum.saturating_add(bits_where(kept, own, its));
        left = more;
        marks = others;
        beyond = other_marks;
        sizes = other_widths;
    }
    sum
}

fn kept_bits(dev: &Device) -> u64
    ensures { result ≡ counted (total (kept_taken dev.now)) }
{
    let circuit = &dev.circuit;
    bits_of_kept(
        circuit.cells(),
        dev.driver.keep(),
        circuit.free_mask(),
        circuit.state_widths(),
    )
}

/// Before a power-cycle: the fields, the cells that are kept but for ROM words, and the noise.
fn power_bits(dev: &Device) -> u64
    ensures { result ≡ counted (total (word_widths dev.now.spec.init) + (total (kept_taken dev.now) + total (noise_widths dev.now.circuit.lines dev.now.driver.keep))) }
{
    let words = kept_bits(dev).saturating_add(noise_bits(dev, dev.driver.keep()));
    field_bits(dev).saturating_add(words)
}

/// Between host calls: the fields and all cells but for ROM words.
fn idle_bits(dev: &Device) -> u64
    ensures { result ≡ counted (total (word_widths dev.now.spec.init) + total (cells_taken dev.now)) }
{
    field_bits(dev).saturating_add(cell_bits(dev))
}

/// The bits that items take on a device.
fn item_bits(dev: &Device, items: &[Item]) -> u64
    ensures { result ≡ counted (items_bits (counted (total (input_widths dev.now.circuit.lines))) items.now) }
{
    bits_of_items(items, bits_of(dev.circuit.input_widths()))
}

/// Of the segment of `wire`: those before a power-cycle, and those of its items.
fn wire_bits(dev: &Device, sc: &Script) -> u64
    ensures { result ≡ counted (kind_bits dev.now sc.now Wire) }
{
    power_bits(dev).saturating_add(item_bits(dev, sc.wire()))
}

/// Of the segment of a call: those between host calls, and the arguments.
fn call_bits(dev: &Device, op: u32) -> u64
    ensures { result ≡ counted ((total (word_widths dev.now.spec.init) + total (cells_taken dev.now)) + total (head_args (slice_get dev.now.spec.ops op))) }
{
    idle_bits(dev).saturating_add(argument_bits(dev, op))
}

/// Of the segment of a section.
fn kind_bits(dev: &Device, sc: &Script, kind: Kind) -> u64
    ensures { result ≡ counted (kind_bits dev.now sc.now kind) }
{
    match kind {
        Kind::Factory => noise_bits(dev, &[]),
        Kind::BootHost => power_bits(dev),
        Kind::Rest | Kind::Wait => idle_bits(dev),
        Kind::Call(op) => call_bits(dev, op),
        Kind::Wire => wire_bits(dev, sc),
    }
}

/// Of the segment of the cut: the fields, all cells but for ROM words, the emulator's words, and those
/// of the items behind it.
fn cut_bits(dev: &Device, sc: &Script) -> u64
    ensures { result ≡ counted (root_bits dev.now sc.now (Some OfCut)) }
{
    let words = idle_bits(dev).saturating_add(emulator_bits(dev));
    words.saturating_add(item_bits(dev, sc.behind_cut()))
}

/// The bits that the widest run of a segment takes, up to 2^64 - 1.
pub fn choice_bits(dev: &Device, sc: &Script, g: SegmentNo) -> u64
    requires of { length dev.now.spec.ops ≡ ops_of sc.now }
    ensures { result ≡ counted (bits_at (segments_of dev.now.circuit dev.now.spec dev.now.driver dev.now.emulator sc.now) g.0) }
{
    let _parts = sc.parts();
    match sc.root_of(g) {
        Some(Root::OfKind(kind)) => kind_bits(dev, sc, kind),
        Some(Root::OfCut) => cut_bits(dev, sc),
        None => 0,
    }
}
