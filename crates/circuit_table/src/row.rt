//! What rows count and hang on.
ghost use Rattle.std.specs.Prelude.{◌≡◌, ◌≤◌, length, max};
ghost use Rattle.circuit_table.specs.Rows.{nothing, joined, row_words, kind_inputs};

use circuit_nodes::{Kind, Node, Reach, Row};

/// What hangs on nothing.
pub fn nothing() -> Reach
    ensures { result ≡ nothing }
{
    Reach {
        input: false,
        bound: 0,
    }
}

/// What hangs on both.
pub fn joined(a: Reach, b: Reach) -> Reach
    ensures { result ≡ joined a b }
{
    Reach {
        input: a.input || b.input,
        bound: a.bound.max(b.bound),
    }
}

/// The words of an array state, and 0 of another line.
pub fn row_words(row: &Row) -> u32
    ensures { result ≡ row_words row.now }
{
    match &row.kind {
        Kind::Value(_, Node::Array { words, .. }) => *words,
        _ => 0,
    }
}

/// 1 of an input.
pub fn row_inputs(row: &Row) -> u32
    ensures value { result ≡ length (kind_inputs row.now.kind) }
    ensures few { result ≤ 1 }
{
    match &row.kind {
        Kind::Value(_, Node::Input(_, _)) => 1,
        _ => 0,
    }
}
