//! Valuations, and the values of terms under them.
ghost use Rattle.std.specs.Prelude.{◌≡◌, ◌<◌, length, IfOk};
ghost use Rattle.knox_words.specs.Bits.{word_at};
ghost use Rattle.knox_words.specs.Lists.{fit};
ghost use Rattle.term_graph.specs.Value.{value, level, of_width, ite_or, var_widths};

use crate::graph::Graph;
use crate::node::{Node, Term};
use knox_words::{Word, Words};
use std::alloc::{AllocError, Global};

/// A word for each variable of a graph, in order of making.
#[derive(Debug, Drop)]
pub struct Valuation {
    pub words: Words,
}

/// A word of a width, or its zero word in place of another.
fn of_width(width: u8, w: Word) -> Word
    ensures { result ≡ of_width width w }
{
    if knox_words::has_width(w, width) {
        w
    } else {
        knox_words::word_or(width, 0)
    }
}

fn ite_or(c: Word, a: Word, b: Word) -> Word
    ensures { result ≡ ite_or c a b }
{
    if a.width() == b.width() {
        knox_words::choose(c, a, b)
    } else {
        knox_words::zero()
    }
}

/// The value of a node, over the values of the terms before it.
fn level(node: Node, v: &[Word], room: &[Word]) -> Word
    ensures { result ≡ level v.now (word_at room.now) node }
{
    match node {
        Node::Var(w, n) => of_width(w, knox_words::word_at(v, n)),
        Node::Word(b) => knox_words::word_or(b.width(), b.value()),
        Node::Un(o, a) => knox_words::op1(o, knox_words::word_at(room, a.place())),
        Node::Bin(o, a, b) => knox_words::op2_or(
            o,
            knox_words::word_at(room, a.place()),
            knox_words::word_at(room, b.place()),
        ),
        Node::Sext(a, n) => knox_words::sext_or(knox_words::word_at(room, a.place()), n),
        Node::Uext(a, n) => knox_words::uext_or(knox_words::word_at(room, a.place()), n),
        Node::Slice(a, h, l) => knox_words::slice_or(knox_words::word_at(room, a.place()), h, l),
        Node::Ite(c, a, b) => ite_or(
            knox_words::word_at(room, c.place()),
            knox_words::word_at(room, a.place()),
            knox_words::word_at(room, b.place()),
        ),
    }
}

/// The value of a term under a valuation. `Err` is want of memory.
#[tactic(auto, using(crate::proofs::ValueLemmas::valuing))]
pub fn value(alloc: Global, g: &Graph, t: Term, v: &Valuation) -> Result<Word, AllocError>
    requires { t < length g.now }
    ensures { IfOk result (λ w. w ≡ value v.now.words g.now t) }
{
    let words = v.words.as_slice();
    let mut room = Vec::new(alloc);
    for i in 0..t.place() {
        room.push(level(g.node(Term::at(i)), words, room.as_slice()))?;
    }
    Ok(level(g.node(t), words, room.as_slice()))
}

/// Whether a valuation has exactly one word of its width for each variable of a graph.
pub fn fits_valuation(g: &Graph, v: &Valuation) -> bool
    ensures { result ≡ fit (var_widths g.now) v.now.words }
{
    let mut left = g.vars();
    let mut others = v.words.as_slice();
    while let Some((var, vars)) = left.split_first() {
        let Some((word, words)) = others.split_first() else {
            return false;
        };
        if !knox_words::has_width(*word, g.width(*var)) {
            return false;
        }
        left = vars;
        others = words;
    }
    others.is_empty()
}
