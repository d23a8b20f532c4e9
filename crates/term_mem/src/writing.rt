//! Writing a memory at a term.
ghost use Rattle.std.specs.Prelude.{◌≡◌, ◌<◌, ◌^◌, ◌==◌, if◌then◌else◌, List, length, IfOk, OnOk, OnErr, slice_set};
ghost use Rattle.knox_words.specs.Bits.{Bits};
ghost use Rattle.term_graph.specs.Value.{value, width_of};
ghost use Rattle.term_graph.specs.Kept.{Keeps, Gives};
ghost use Rattle.term_mem.specs.Memories.{seen, AreCells, IsMemory};

use crate::memory::{Memory, named_place};
use knox_words::Op2;
use std::alloc::{AllocError, Global};
use term_graph::{Graph, Term};

/// The word where the index is a number, and else the cell.
#[tactic(auto, using(term_graph::proofs::FoldLemmas::keeping))]
fn cell_after(
    g: &mut Graph,
    number: usize,
    index: Term,
    word: Term,
    cell: Term,
) -> Result<Term, AllocError>
    requires number { number < 2 ^ width_of g.old index }
    requires index { index < length g.old }
    requires word { word < length g.old }
    requires cell { cell < length g.old }
    requires same { width_of g.old word ≡ width_of g.old cell }
    ensures kept { Keeps g.old g.new }
    ensures value { IfOk result (λ t. Gives g.new t (λ v. if (value v g.old index).value == number then value v g.old word else value v g.old cell)) }
{
    let width = g.width(index);
    let named = g.word(knox_words::word_or(width, number as u128))?;
    let same = g.bin(Op2::Eq, index, named)?;
    let t = g.ite(same, word, cell)?;
    Ok(t)
}

/// The cells with a word at an index.
fn cells_after(
    alloc: Global,
    g: &mut Graph,
    cells: &[Term],
    index: Term,
    word: Term,
) -> Result<Vec<Term>, AllocError>
    requires index { index < length g.old }
    requires word { word < length g.old }
    requires memory { IsMemory g.old (width_of g.old index) (width_of g.old word) cells.now }
    ensures kept { Keeps g.old g.new }
    ensures written { IfOk result (λ r. (v : List Bits) → seen v g.new r.items ≡ slice_set (seen v g.old cells.now) (value v g.old index).value (value v g.old word)) }
    ensures cells { IfOk result (λ r. AreCells g.new (width_of g.old word) r.items) }
{
    let mut made = Vec::new(alloc);
    for (number, cell) in cells.iter().enumerate() {
        made.push(cell_after(g, number, index, word, *cell)?)?;
    }
    Ok(made)
}

/// Writes a word into the cell that an index names. `Err` is want of memory, and the memory is as it was.
pub fn write_at(
    alloc: Global,
    g: &mut Graph,
    m: &mut Memory,
    index: Term,
    word: Term,
) -> Result<(), AllocError>
    requires index { index < length g.old }
    requires word { word < length g.old }
    requires memory { IsMemory g.old (width_of g.old index) (width_of g.old word) m.old.words.items }
    ensures kept { Keeps g.old g.new }
    ensures written { OnOk result ((v : List Bits) → seen v g.new m.new.words.items ≡ slice_set (seen v g.old m.old.words.items) (value v g.old index).value (value v g.old word)) }
    ensures memory { OnOk result (IsMemory g.new (width_of g.old index) (width_of g.old word) m.new.words.items) }
    ensures err { OnErr result (m.new.words.items ≡ m.old.words.items) }
{
    if let Some(place) = named_place(g, index) {
        m.words[place] = word;
        return Ok(());
    }
    let words = cells_after(alloc, g, m.words.as_slice(), index, word)?;
    m.words = words;
    Ok(())
}
