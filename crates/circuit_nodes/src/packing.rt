//! The nodes on which something hangs, alone.
ghost use Rattle.std.specs.Prelude.{◌≡◌, ◌≤◌, ◌<◌, ◌+◌, ◌^◌, ◌++◌, length, map, IfOk, OnOk};
ghost use Rattle.circuit_nodes.specs.Logic.{IsLogic};
ghost use Rattle.circuit_nodes.specs.Needs.{roots, counted, places_from, moved_place, moved_arg, moved_next, moved_node, kept_node, packed, AreNeeds};

use crate::needs::mark_needs;
use crate::node::{Arg, Next, Node};
use sqlite_items::Items;
use std::alloc::{AllocError, Global};

/// Nodes with some operands and with what states take, all by place among these nodes.
#[derive(Debug, Drop)]
pub struct Logic {
    pub nodes: Items<Node>,
    pub outputs: Items<Arg>,
    pub nexts: Items<Next>,
}

/// One more where a node is needed.
fn counted(count: u32, need: bool) -> u32
    requires { count + 1 < 2 ^ 32 }
    ensures { result ≡ counted count need }
{
    if need { count + 1 } else { count }
}

/// The places of nodes among those that are needed.
fn places_of(alloc: Global, needs: &[bool]) -> Result<Items<u32>, AllocError>
    requires { length needs.now < 2 ^ 32 }
    ensures { IfOk result (λ made. made ≡ places_from 0 needs.now) }
{
    let mut made = Items::new(alloc);
    let mut left = needs;
    let mut count = 0u32;
    while let Some((need, others)) = left.split_first() {
        made.push(count)?;
        count = counted(count, *need);
        left = others;
    }
    Ok(made)
}

/// The new place of a node; a place that no node has stays as it is.
fn moved_place(places: &[u32], place: u32) -> u32
    ensures { result ≡ moved_place places.now place }
{
    let at = place as usize;
    if at < places.len() { places[at] } else { place }
}

fn moved_arg(places: &[u32], arg: Arg) -> Arg
    ensures { result ≡ moved_arg places.now arg }
{
    Arg {
        node: moved_place(places, arg.node),
        complement: arg.complement,
    }
}

fn moved_next(places: &[u32], next: Next) -> Next
    ensures { result ≡ moved_next places.now next }
{
    match next {
        Next::Word(arg) => Next::Word(moved_arg(places, arg)),
        Next::Array { node, words } => Next::Array {
            node: moved_place(places, node),
            words,
        },
    }
}

/// A node with its operands by their new places.
fn moved_node(places: &[u32], node: Node) -> Node
    ensures { result ≡ moved_node places.now node }
{
    match node {
        Node::Un(o, a) => Node::Un(o, moved_arg(places, a)),
        Node::Bin(o, a, b) => Node::Bin(o, moved_arg(places, a), moved_arg(places, b)),
        Node::Slice(a, high, low_bit) => Node::Slice(moved_arg(places, a), high, low_bit),
        Node::Uext(a, n) => Node::Uext(moved_arg(places, a), n),
        Node::Sext(a, n) => Node::Sext(moved_arg(places, a), n),
        Node::Ite(c, a, b) => Node::Ite(
            moved_arg(places, c),
            moved_arg(places, a),
            moved_arg(places, b),
        ),
        Node::Pick(c, a, b) => Node::Pick(
            moved_arg(places, c),
            moved_place(places, a),
            moved_place(places, b),
        ),
        Node::Read(a, i) => Node::Read(moved_place(places, a), moved_arg(places, i)),
        Node::Write(a, i, w) => Node::Write(
            moved_place(places, a),
            moved_arg(places, i),
            moved_arg(places, w),
        ),
        _ => node,
    }
}

/// Adds a node where it is needed.
fn push_needed(made: &mut Items<Node>, need: bool, node: Node) -> Result<(), AllocError>
    ensures { OnOk result (made.new ≡ made.old ++ kept_node need node) }
{
    if need {
        made.push(node)?;
    }
    Ok(())
}

/// The nodes that are needed, with their operands by their new places.
fn pack(
    alloc: Global,
    places: &[u32],
    needs: &[bool],
    nodes: &[Node],
) -> Result<Items<Node>, AllocError>
    ensures { IfOk result (λ made. made ≡ packed places.now needs.now nodes.now) }
{
    let mut made = Items::new(alloc);
    let mut left = needs;
    let mut rest = nodes;
    while let Some((need, others)) = left.split_first() {
        let Some((node, more)) = rest.split_first() else {
            return Ok(made);
        };
        push_needed(&mut made, *need, moved_node(places, *node))?;
        left = others;
        rest = more;
    }
    Ok(made)
}

fn move_args(alloc: Global, places: &[u32], args: &[Arg]) -> Result<Items<Arg>, AllocError>
    ensures { IfOk result (λ made. made ≡ map (moved_arg places.now) args.now) }
{
    let mut made = Items::new(alloc);
    let mut left = args;
    while let Some((arg, others)) = left.split_first() {
        made.push(moved_arg(places, *arg))?;
        left = others;
    }
    Ok(made)
}

fn move_nexts(alloc: Global, places: &[u32], nexts: &[Next]) -> Result<Items<Next>, AllocError>
    ensures { IfOk result (λ made. made ≡ map (moved_next places.now) nexts.now) }
{
    let mut made = Items::new(alloc);
    let mut left = nexts;
    while let Some((next, others)) = left.split_first() {
        made.push(moved_next(places, *next))?;
        left = others;
    }
    Ok(made)
}

/// The nodes that are needed, and the operands and what states take, by new places.
fn logic_at(
    alloc: Global,
    places: &[u32],
    needs: &[bool],
    nodes: &[Node],
    args: &[Arg],
    nexts: &[Next],
) -> Result<Logic, AllocError>
    requires places { places.now ≡ places_from 0 needs.now }
    requires needs { AreNeeds needs.now nodes.now (roots args.now nexts.now) }
    ensures { IfOk result (λ made. IsLogic made nodes.now args.now nexts.now) }
{
    let made = pack(alloc, places, needs, nodes)?;
    let outputs = move_args(alloc, places, args)?;
    let nexts = move_nexts(alloc, places, nexts)?;
    Ok(Logic {
        nodes: made,
        outputs,
        nexts,
    })
}

/// The nodes that are needed, alone.
fn logic_by(
    alloc: Global,
    needs: &[bool],
    nodes: &[Node],
    args: &[Arg],
    nexts: &[Next],
) -> Result<Logic, AllocError>
    requires few { length needs.now < 2 ^ 32 }
    requires needs { AreNeeds needs.now nodes.now (roots args.now nexts.now) }
    ensures { IfOk result (λ made. IsLogic made nodes.now args.now nexts.now) }
{
    let places = places_of(alloc, needs)?;
    logic_at(alloc, places.as_slice(), needs, nodes, args, nexts)
}

/// The nodes on which some operands and what states take hang, alone: with them a tick costs what it
/// needs. `Err` is want of memory, or more nodes than have places.
pub fn logic_of(
    alloc: Global,
    nodes: &[Node],
    args: &[Arg],
    nexts: &[Next],
) -> Result<Logic, AllocError>
    ensures { IfOk result (λ made. IsLogic made nodes.now args.now nexts.now) }
{
    if nodes.len() > u32::MAX as usize {
        return Err(AllocError);
    }
    let needs = mark_needs(alloc, nodes, args, nexts)?;
    logic_by(alloc, needs.as_slice(), nodes, args, nexts)
}
