//! The nodes on which something hangs, from the last to the first.
ghost use Rattle.std.specs.Prelude.{◌≡◌, ◌≤◌, ◌<◌, ◌++◌, [], ◌∷◌, ℕ, List, true, length, IfOk};
ghost use Rattle.circuit_nodes.specs.Needs.{operands, next_place, roots, is_needed, marked, all_marked, AreNeeds, AreClosedFrom};

use crate::eval::node_at;
use crate::node::{Arg, Next, Node};
use std::alloc::{AllocError, Global};

/// Marks a place below a bound.
fn mark(needs: &mut [bool], bound: usize, place: u32)
    requires { bound ≤ length needs.old }
    ensures { needs.new ≡ marked bound place needs.old }
{
    let at = place as usize;
    if at < bound {
        needs[at] = true;
    }
}

fn mark_two(needs: &mut [bool], bound: usize, a: u32, b: u32)
    requires { bound ≤ length needs.old }
    ensures { needs.new ≡ all_marked bound (a ∷ (b ∷ [])) needs.old }
{
    mark(needs, bound, a);
    mark(needs, bound, b);
}

fn mark_three(needs: &mut [bool], bound: usize, a: u32, b: u32, c: u32)
    requires { bound ≤ length needs.old }
    ensures { needs.new ≡ all_marked bound (a ∷ (b ∷ (c ∷ []))) needs.old }
{
    mark(needs, bound, a);
    mark(needs, bound, b);
    mark(needs, bound, c);
}

/// Marks the operands of a node that stand below a bound.
fn mark_operands(needs: &mut [bool], bound: usize, node: &Node)
    requires { bound ≤ length needs.old }
    ensures { needs.new ≡ all_marked bound (operands node.now) needs.old }
{
    match node {
        Node::Un(_, a) => mark(needs, bound, a.node),
        Node::Bin(_, a, b) => mark_two(needs, bound, a.node, b.node),
        Node::Slice(a, _, _) => mark(needs, bound, a.node),
        Node::Uext(a, _) => mark(needs, bound, a.node),
        Node::Sext(a, _) => mark(needs, bound, a.node),
        Node::Ite(c, a, b) => mark_three(needs, bound, c.node, a.node, b.node),
        Node::Pick(c, a, b) => mark_three(needs, bound, c.node, *a, *b),
        Node::Read(a, i) => mark_two(needs, bound, *a, i.node),
        Node::Write(a, i, w) => mark_three(needs, bound, *a, i.node, w.node),
        _ => {}
    }
}

/// Marks the operands of the nodes that are marked, from the last node to the first.
#[tactic(auto, using(crate::proofs::LogicLemmas::close_steps))]
fn close(needs: &mut [bool], nodes: &[Node])
    requires { length needs.old ≡ length nodes.now }
    ensures closed { AreClosedFrom needs.new nodes.now 0 }
    ensures grows { (k : ℕ) → is_needed needs.old k ≡ true → is_needed needs.new k ≡ true }
{
    let mut left = nodes.len();
    while left > 0 {
        left -= 1;
        if needs[left] {
            mark_operands(needs, left, node_at(nodes, left));
        }
    }
}

/// Marks the nodes of operands, and those that states take.
fn mark_roots(needs: &mut [bool], args: &[Arg], nexts: &[Next])
    ensures { needs.new ≡ all_marked (length needs.old) (roots args.now nexts.now) needs.old }
{
    let bound = needs.len();
    let mut left = args;
    while let Some((arg, others)) = left.split_first() {
        mark(needs, bound, arg.node);
        left = others;
    }
    let mut rest = nexts;
    while let Some((next, others)) = rest.split_first() {
        mark(needs, bound, next_place(*next));
        rest = others;
    }
}

fn next_place(next: Next) -> u32
    ensures { result ≡ next_place next }
{
    match next {
        Next::Word(arg) => arg.node,
        Next::Array { node, .. } => node,
    }
}

/// Marks the nodes that are needed for some operands and for what states take.
fn mark_all(needs: &mut [bool], nodes: &[Node], args: &[Arg], nexts: &[Next])
    requires { length needs.old ≡ length nodes.now }
    ensures { AreNeeds needs.new nodes.now (roots args.now nexts.now) }
{
    mark_roots(needs, args, nexts);
    close(needs, nodes);
}

/// Which nodes are needed for some operands and for what states take.
pub(crate) fn mark_needs(
    alloc: Global,
    nodes: &[Node],
    args: &[Arg],
    nexts: &[Next],
) -> Result<Vec<bool>, AllocError>
    ensures { IfOk result (λ needs. AreNeeds needs.items nodes.now (roots args.now nexts.now)) }
{
    let mut needs = vec![in alloc; false; nodes.len()]?;
    mark_all(&mut needs, nodes, args, nexts);
    Ok(needs)
}
