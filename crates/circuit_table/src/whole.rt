//! The rule of a whole circuit, tested once over all rows.
ghost use Rattle.std.specs.Prelude.{◌≡◌, ◌<◌, ◌≤◌, ◌+◌, ℕ, length, slice_get, Some, is_none, is_some, ◌&&◌, ◌||◌, IfOk, false};
ghost use Rattle.circuit_nodes.specs.Needs.{is_needed};
ghost use Rattle.circuit_table.specs.Whole.{node_hungry, row_hungry, row_lacks, unfed_among};

use circuit_nodes::{Kind, Node, Row};
use std::alloc::{AllocError, Global};

fn is_marked(marks: &[bool], place: u32) -> bool
    ensures { result ≡ is_needed marks.now place }
{
    let at = place as usize;
    at < marks.len() && marks[at]
}

fn marks_two(marks: &[bool], a: u32, b: u32) -> bool
    ensures { result ≡ (is_needed marks.now a || is_needed marks.now b) }
{
    is_marked(marks, a) || is_marked(marks, b)
}

/// Whether a node hangs on a state without a `next`.
fn node_hungry(marks: &[bool], bare: bool, node: &Node) -> bool
    ensures { result ≡ node_hungry (is_needed marks.now) bare node.now }
{
    match node {
        Node::State(_, _) | Node::Array { .. } => bare,
        Node::Un(_, a) => is_marked(marks, a.node),
        Node::Bin(_, a, b) => marks_two(marks, a.node, b.node),
        Node::Slice(a, _, _) => is_marked(marks, a.node),
        Node::Uext(a, _) => is_marked(marks, a.node),
        Node::Sext(a, _) => is_marked(marks, a.node),
        Node::Ite(c, a, b) => is_marked(marks, c.node) || marks_two(marks, a.node, b.node),
        Node::Pick(c, a, b) => is_marked(marks, c.node) || marks_two(marks, *a, *b),
        Node::Read(a, i) => marks_two(marks, *a, i.node),
        Node::Write(a, i, w) => is_marked(marks, *a) || marks_two(marks, i.node, w.node),
        _ => false,
    }
}

fn row_hungry(marks: &[bool], row: &Row) -> bool
    ensures { result ≡ row_hungry (is_needed marks.now) (Some row.now) }
{
    match &row.kind {
        Kind::Value(_, node) => node_hungry(marks, row.next.is_none(), node),
        _ => false,
    }
}

/// Whether a line breaks the rule.
fn row_lacks(marks: &[bool], row: &Row) -> bool
    ensures { result ≡ row_lacks (is_needed marks.now) (Some row.now) }
{
    match &row.kind {
        Kind::Value(_, Node::State(_, _)) | Kind::Value(_, Node::Array { .. }) => {
            row.init.is_some() && row.next.is_none()
        }
        Kind::Output(a, _) => is_marked(marks, a.node),
        Kind::Fed(a) => is_marked(marks, a.node),
        Kind::Bad(a) => is_marked(marks, a.node),
        _ => false,
    }
}

/// The place of the first row that breaks the rule; the marks are false at first.
#[tactic(auto, using(crate::proofs::WholeLemmas::fed_steps))]
fn unfed_by(marks: &mut [bool], rows: &[Row]) -> Option<usize>
    requires long { length marks.old ≡ length rows.now }
    requires none { (k : ℕ) → is_needed marks.old k ≡ false }
    ensures { result ≡ unfed_among rows.now (length rows.now) }
{
    for at in 0..rows.len() {
        let row = row_at(rows, at);
        if row_lacks(marks, row) {
            return Some(at);
        }
        let hungry = row_hungry(marks, row);
        marks[at] = hungry;
    }
    None
}

fn row_at(rows: &[Row], at: usize) -> &Row
    requires { at < length rows.now }
    ensures { slice_get rows.now at ≡ Some result.now }
{
    &rows[at]
}

/// The place of the first row that breaks the rule of a whole circuit. `Err` is want of memory.
#[tactic(auto, using(crate::proofs::WholeLemmas::none_steps))]
pub fn unfed(alloc: Global, rows: &[Row]) -> Result<Option<usize>, AllocError>
    ensures { IfOk result (λ found. found ≡ unfed_among rows.now (length rows.now)) }
{
    let mut marks = vec![in alloc; false; rows.len()]?;
    let found = unfed_by(&mut marks, rows);
    Ok(found)
}
