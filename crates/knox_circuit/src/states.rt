//! Some of the states of a circuit, and the widths of their words.
ghost use Rattle.std.specs.Prelude.{◌≡◌, ◌≤◌, ◌+◌, ◌&&◌, ◌++◌, [], ◌∷◌, ℕ, List, not, drop, map, replicate, false, if◌then◌else◌, IfOk, OnOk, MatchOption};
ghost use Rattle.knox_words.specs.Lists.{fit, pick};
ghost use Rattle.knox_circuit.specs.Cells.{size, words_in, state_widths, all_words, cell_mask, bare_mask, first_keep, takes_noise, keep_behind, noise_mask, keep_mask, marked, chosen};

use crate::many;
use crate::port::{Cell, Stored};
use knox_words::Word;
use sqlite_items::Items;
use std::alloc::{AllocError, Global};

/// How many words a word or an array has.
#[tactic(auto, using(crate::proofs::StatesLemmas::size_steps))]
fn size(index: Option<u8>) -> u32
    requires { size index ≤ 2000000 }
    ensures { result ≡ size index }
{
    match index {
        None => 1,
        Some(bits) => 1u32 << bits,
    }
}

/// Which states are cells.
pub(crate) fn cell_mask(alloc: Global, states: &[Stored]) -> Result<Vec<bool>, AllocError>
    ensures { IfOk result (λ mask. mask.items ≡ cell_mask states.now) }
{
    states.iter().map(|state| state.is_cell).collect(alloc)
}

/// Which states are bare.
pub(crate) fn bare_mask(alloc: Global, states: &[Stored]) -> Result<Vec<bool>, AllocError>
    ensures { IfOk result (λ mask. mask.items ≡ bare_mask states.now) }
{
    states
        .iter()
        .map(|state| !state.is_cell && !state.has_init)
        .collect(alloc)
}

/// Whether the first of some cells is kept.
fn first_keep(keep: &[bool]) -> bool
    ensures { result ≡ first_keep keep.now }
{
    match keep.first() {
        Some(first) => *first,
        None => false,
    }
}

/// The truth values behind the first.
fn other_keeps(keep: &[bool]) -> &[bool]
    ensures { result.now ≡ drop 1 keep.now }
{
    match keep.split_first() {
        Some((_, others)) => others,
        None => keep,
    }
}

/// Whether a state takes noise words, where the first truth value is its own if it is a cell.
pub(crate) fn takes_noise(state: &Stored, keep: &[bool]) -> bool
    ensures { result ≡ takes_noise state.now keep.now }
{
    if state.has_init {
        return false;
    }
    if state.is_cell {
        return !first_keep(keep);
    }
    true
}

/// The truth values behind a state's own.
pub(crate) fn keep_behind<'a>(state: &Stored, keep: &'a [bool]) -> &'a [bool]
    ensures { result.now ≡ keep_behind state.now keep.now }
{
    if state.is_cell {
        other_keeps(keep)
    } else {
        keep
    }
}

/// Which states take noise words in a power-cycle that keeps some cells.
pub(crate) fn noise_mask(
    alloc: Global,
    states: &[Stored],
    keep: &[bool],
) -> Result<Vec<bool>, AllocError>
    ensures { IfOk result (λ mask. mask.items ≡ noise_mask states.now keep.now) }
{
    let mut mask = Vec::new(alloc);
    let mut kept = keep;
    let mut left = states;
    while let Some((state, others)) = left.split_first() {
        mask.push(takes_noise(state, kept))?;
        kept = keep_behind(state, kept);
        left = others;
    }
    Ok(mask)
}

/// A cell whose words begin at another place.
fn placed(alloc: Global, cell: &Cell, first: u32) -> Result<Cell, AllocError>
    ensures { IfOk result (λ c. c ≡ record cell.now { first = first }) }
{
    Ok(Cell {
        name: Items::from_slice(alloc, cell.name.as_slice())?,
        number: cell.number,
        width: cell.width,
        index: cell.index,
        first,
    })
}

/// Adds a state whose words begin at a place, where it is marked.
fn push_marked(
    alloc: Global,
    cells: &mut Items<Cell>,
    mark: bool,
    state: &Stored,
    place: u32,
) -> Result<(), AllocError>
    ensures { OnOk result (cells.new ≡ cells.old ++ (if mark then record state.now.cell { first = place } ∷ [] else [])) }
{
    if mark {
        cells.push(placed(alloc, &state.cell, place)?)?;
    }
    Ok(())
}

/// The place behind the words of a state, where it is marked.
pub(crate) fn place_behind(mark: bool, state: &Stored, place: u32) -> u32
    requires { place + size state.now.cell.index ≤ 2000000 }
    ensures { result ≡ (if mark then place + size state.now.cell.index else place) }
{
    if mark {
        place + size(state.cell.index)
    } else {
        place
    }
}

/// The states that a mask marks, each with the place of its first word among theirs.
#[tactic(auto, using(crate::proofs::StatesLemmas::chosen_steps))]
pub(crate) fn chosen(
    alloc: Global,
    mask: &[bool],
    states: &[Stored],
) -> Result<Items<Cell>, AllocError>
    requires { all_words states.now ≤ 2000000 }
    ensures { IfOk result (λ cells. cells ≡ chosen mask.now states.now) }
{
    let mut cells = Items::new(alloc);
    let mut place = 0;
    let mut marks = mask;
    let mut left = states;
    while let Some((mark, others)) = marks.split_first() {
        let Some((state, more)) = left.split_first() else {
            return Ok(cells);
        };
        push_marked(alloc, &mut cells, *mark, state, place)?;
        place = place_behind(*mark, state, place);
        marks = others;
        left = more;
    }
    Ok(cells)
}

/// The widths of the words of some states.
#[tactic(auto, using(crate::proofs::CellsLemmas::word_steps))]
pub(crate) fn state_widths(alloc: Global, cells: &[Cell]) -> Result<Vec<u8>, AllocError>
    requires { words_in cells.now ≤ 2000000 }
    ensures { IfOk result (λ widths. widths.items ≡ state_widths cells.now) }
{
    let mut widths = Vec::new(alloc);
    let mut left = cells;
    while let Some((cell, others)) = left.split_first() {
        many::push_many(&mut widths, size(cell.index), cell.width)?;
        left = others;
    }
    Ok(widths)
}

/// One truth value for each word of some cells: whether the cell is kept.
#[tactic(auto, using(crate::proofs::CellsLemmas::word_steps))]
pub(crate) fn keep_mask(
    alloc: Global,
    cells: &[Cell],
    keep: &[bool],
) -> Result<Vec<bool>, AllocError>
    requires { words_in cells.now ≤ 2000000 }
    ensures { IfOk result (λ mask. mask.items ≡ keep_mask cells.now keep.now) }
{
    let mut mask = Vec::new(alloc);
    let mut kept = keep;
    let mut left = cells;
    while let Some((cell, others)) = left.split_first() {
        many::push_many(&mut mask, size(cell.index), first_keep(kept))?;
        kept = other_keeps(kept);
        left = others;
    }
    Ok(mask)
}

/// The words behind the first `count`, where these have the width.
#[tactic(auto, using(crate::proofs::StatesLemmas::word_steps))]
fn behind(words: &[Word], count: u32, width: u8) -> Option<&[Word]>
    ensures { (ws : List ℕ) → MatchOption result (fit (replicate count width ++ ws) words.now ≡ false) (λ rest. fit (replicate count width ++ ws) words.now ≡ fit ws rest.now) }
{
    let mut left = words;
    let mut lacking = count;
    while lacking > 0 {
        let Some((word, more)) = left.split_first() else {
            return None;
        };
        if !knox_words::has_width(*word, width) {
            return None;
        }
        left = more;
        lacking -= 1;
    }
    Some(left)
}

/// The words behind those of a state that takes some, where these have its width.
fn behind_noise<'a>(takes: bool, cell: &Cell, words: &'a [Word]) -> Option<&'a [Word]>
    requires { size cell.now.index ≤ 2000000 }
    ensures { (ws : List ℕ) → MatchOption result (fit ((if takes then replicate (size cell.now.index) cell.now.width else []) ++ ws) words.now ≡ false) (λ rest. fit ((if takes then replicate (size cell.now.index) cell.now.width else []) ++ ws) words.now ≡ fit ws rest.now) }
{
    if takes {
        return behind(words, size(cell.index), cell.width);
    }
    Some(words)
}

/// Whether words have the widths of those of the states that take noise words.
#[tactic(auto, using(crate::proofs::StatesLemmas::marked_steps))]
fn fits_marked(states: &[Stored], keep: &[bool], words: &[Word]) -> bool
    requires { all_words states.now ≤ 2000000 }
    ensures { result ≡ fit (state_widths (marked (noise_mask states.now keep.now) states.now)) words.now }
{
    let mut kept = keep;
    let mut left = states;
    let mut others = words;
    while let Some((state, more)) = left.split_first() {
        let Some(rest) = behind_noise(takes_noise(state, kept), &state.cell, others) else {
            return false;
        };
        others = rest;
        kept = keep_behind(state, kept);
        left = more;
    }
    others.is_empty()
}

/// Whether words have the widths of the noise words, where the states that take them are laid one
/// behind the other.
#[tactic(auto, using(crate::proofs::StatesLemmas::noise_steps))]
pub(crate) fn fits_noise(states: &[Stored], keep: &[bool], words: &[Word]) -> bool
    requires { all_words states.now ≤ 2000000 }
    ensures { result ≡ fit (state_widths (chosen (noise_mask states.now keep.now) states.now)) words.now }
{
    fits_marked(states, keep, words)
}
