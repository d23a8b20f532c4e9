//! Reading a memory at a term.
ghost use Rattle.std.specs.Prelude.{◌≡◌, ◌<◌, ◌≤◌, ◌^◌, ◌%◌, ℕ, length, IfOk};
ghost use Rattle.knox_words.specs.Bits.{word_at};
ghost use Rattle.knox_words.specs.Ops.{slice_or};
ghost use Rattle.term_graph.specs.Value.{value, width_of, ite_or};
ghost use Rattle.term_graph.specs.Kept.{Keeps, Gives};
ghost use Rattle.term_mem.specs.Memories.{seen, IsMemory};

use crate::memory::{Memory, cell_at, named_place};
use std::alloc::AllocError;
use term_graph::{Graph, Term};

/// The second of two terms where a bit of the index is 1, and else the first.
#[tactic(auto, using(term_graph::proofs::FoldLemmas::keeping))]
fn by_bit(
    g: &mut Graph,
    index: Term,
    bit: u8,
    first: Term,
    second: Term,
) -> Result<Term, AllocError>
    requires index { index < length g.old }
    requires bit { bit < width_of g.old index }
    requires first { first < length g.old }
    requires second { second < length g.old }
    requires same { width_of g.old second ≡ width_of g.old first }
    ensures kept { Keeps g.old g.new }
    ensures value { IfOk result (λ t. Gives g.new t (λ v. ite_or (slice_or (value v g.old index) bit bit) (value v g.old second) (value v g.old first))) }
{
    let c = g.slice(index, bit, bit)?;
    let t = g.ite(c, second, first)?;
    Ok(t)
}

/// The cell that the lowest bits of the index name, of as many cells as these bits can name.
fn among(g: &mut Graph, cells: &[Term], index: Term, bits: u8) -> Result<Term, AllocError>
    requires index { index < length g.old }
    requires bits { bits ≤ width_of g.old index }
    requires memory { (w : ℕ) × IsMemory g.old bits w cells.now }
    ensures kept { Keeps g.old g.new }
    ensures value { IfOk result (λ t. Gives g.new t (λ v. word_at (seen v g.old cells.now) ((value v g.old index).value % 2 ^ bits))) }
{
    if bits == 0 {
        return Ok(cells[0]);
    }
    let (low, high) = cells.split_at(cells.len() / 2);
    let first = among(g, low, index, bits - 1)?;
    let second = among(g, high, index, bits - 1)?;
    let t = by_bit(g, index, bits - 1, first, second)?;
    Ok(t)
}

/// The cell that an index names. `Err` is want of memory.
pub fn read_at(g: &mut Graph, m: &Memory, index: Term) -> Result<Term, AllocError>
    requires index { index < length g.old }
    requires memory { (w : ℕ) × IsMemory g.old (width_of g.old index) w m.now.words.items }
    ensures kept { Keeps g.old g.new }
    ensures value { IfOk result (λ t. Gives g.new t (λ v. word_at (seen v g.old m.now.words.items) (value v g.old index).value)) }
{
    let cells = m.words.as_slice();
    if let Some(place) = named_place(g, index) {
        return Ok(cell_at(cells, place));
    }
    let width = g.width(index);
    let t = among(g, cells, index, width)?;
    Ok(t)
}
