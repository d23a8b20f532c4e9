//! Memories of terms.
ghost use Rattle.std.specs.Prelude.{◌≡◌, ◌<◌, length, List, IfSome, slice_index};
ghost use Rattle.knox_words.specs.Bits.{Bits};
ghost use Rattle.term_graph.specs.Value.{value};

use term_graph::{Graph, Node, Term};

/// The words of a memory as terms of one width, from the one at index 0 on.
#[derive(Debug, Drop)]
pub struct Memory {
    pub words: Vec<Term>,
}

/// The term at a place.
pub(crate) fn cell_at(cells: &[Term], place: usize) -> Term
    requires { place < length cells.now }
    ensures { result ≡ slice_index cells.now place }
{
    cells[place]
}

/// The place in a memory that a term names, where its node is a word.
pub(crate) fn named_place(g: &Graph, index: Term) -> Option<usize>
    requires { index < length g.now }
    ensures { IfSome result (λ k. (v : List Bits) → (value v g.now index).value ≡ k) }
{
    let Node::Word(w) = g.node(index) else {
        return None;
    };
    let number = w.value();
    if number > usize::MAX as u128 {
        return None;
    }
    Some(number as usize)
}
