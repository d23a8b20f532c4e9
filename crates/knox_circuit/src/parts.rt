//! What is evaluated of rows, made once.
ghost use Rattle.std.specs.Prelude.{◌≡◌, ◌≤◌, ◌<◌, ◌+◌, ◌++◌, IfOk, OnOk, length, replicate, [], is_some, if◌then◌else◌};
ghost use Rattle.knox_circuit.specs.Parts.{kind_node, row_size, cell_size, bare_size, cell_words, bare_words, with_first, first_of, nodes_from, state_of, states_from, row_nexts, nexts_of, kind_outputs, outputs_of, same, widths_where, all_widths};

use crate::many;
use circuit_nodes::{Arg, Kind, Next, Node, Row, SortOf, State};
use sqlite_items::Items;
use std::alloc::{AllocError, Global};

/// The node of a row.
fn kind_node(kind: &Kind) -> Node
    ensures { result ≡ kind_node kind.now }
{
    match kind {
        Kind::Value(_, node) => *node,
        _ => Node::Const(knox_words::zero()),
    }
}

fn row_size(row: &Row) -> u32
    ensures { result ≡ row_size row.now }
{
    match &row.kind {
        Kind::Value(_, Node::State(_, _)) => 1,
        Kind::Value(_, Node::Array { words, .. }) => *words,
        _ => 0,
    }
}

fn cell_size(row: &Row) -> u32
    ensures { result ≡ cell_size row.now }
{
    if row.next.is_some() { row_size(row) } else { 0 }
}

fn bare_size(row: &Row) -> u32
    ensures { result ≡ bare_size row.now }
{
    if row.next.is_some() { 0 } else { row_size(row) }
}

/// How many words the cells have.
pub(crate) fn cell_words(rows: &[Row]) -> u32
    requires { cell_words rows.now ≤ 4000000 }
    ensures { result ≡ cell_words rows.now }
{
    let mut sum = 0;
    let mut left = rows;
    while let Some((row, others)) = left.split_first() {
        sum += cell_size(row);
        left = others;
    }
    sum
}

/// How many words the states that are no cells have.
pub(crate) fn bare_words(rows: &[Row]) -> u32
    requires { bare_words rows.now ≤ 4000000 }
    ensures { result ≡ bare_words rows.now }
{
    let mut sum = 0;
    let mut left = rows;
    while let Some((row, others)) = left.split_first() {
        sum += bare_size(row);
        left = others;
    }
    sum
}

/// A row's node, with the place of its first word where it is a state.
fn node_from(c: u32, b: u32, row: &Row) -> Node
    ensures { result ≡ with_first (first_of c b row.now) (kind_node row.now.kind) }
{
    let place = if row.next.is_some() { c } else { b };
    match &row.kind {
        Kind::Value(_, Node::State(_, width)) => Node::State(place, *width),
        Kind::Value(_, Node::Array { words, width, .. }) => Node::Array {
            first: place,
            words: *words,
            width: *width,
        },
        kind => kind_node(kind),
    }
}

/// The nodes of rows, where the words of cells stand from `c` on and those of other states from `b` on.
pub(crate) fn nodes_from(
    alloc: Global,
    c: u32,
    b: u32,
    rows: &[Row],
) -> Result<Items<Node>, AllocError>
    requires cells { c + cell_words rows.now ≤ 4000000 }
    requires bares { b + bare_words rows.now ≤ 8000000 }
    ensures { IfOk result (λ nodes. nodes ≡ nodes_from c b rows.now) }
{
    let mut nodes = Items::new(alloc);
    let mut c_now = c;
    let mut b_now = b;
    let mut left = rows;
    while let Some((row, others)) = left.split_first() {
        nodes.push(node_from(c_now, b_now, row))?;
        c_now += cell_size(row);
        b_now += bare_size(row);
        left = others;
    }
    Ok(nodes)
}

/// Adds a row's state.
fn push_state(
    states: &mut Items<State>,
    place: u32,
    c: u32,
    b: u32,
    row: &Row,
) -> Result<(), AllocError>
    ensures { OnOk result (states.new ≡ states.old ++ state_of place (first_of c b row.now) row.now row.now.kind) }
{
    let (words, width, index) = match &row.kind {
        Kind::Value(_, Node::State(_, width)) => (1, *width, None),
        Kind::Value(SortOf::Arrays(index, _), Node::Array { words, width, .. }) => {
            (*words, *width, Some(*index))
        }
        _ => return Ok(()),
    };
    states.push(State {
        node: place,
        first: if row.next.is_some() { c } else { b },
        words,
        width,
        index,
        next: row.next,
        init: row.init,
    })?;
    Ok(())
}

/// The states of rows, of which the first stands at a place.
pub(crate) fn states_from(
    alloc: Global,
    c: u32,
    b: u32,
    rows: &[Row],
) -> Result<Items<State>, AllocError>
    requires cells { c + cell_words rows.now ≤ 4000000 }
    requires bares { b + bare_words rows.now ≤ 8000000 }
    requires few { length rows.now ≤ 1000000 }
    ensures { IfOk result (λ states. states ≡ states_from 0 c b rows.now) }
{
    let mut states = Items::new(alloc);
    let mut place = 0;
    let mut c_now = c;
    let mut b_now = b;
    let mut left = rows;
    while let Some((row, others)) = left.split_first() {
        push_state(&mut states, place, c_now, b_now, row)?;
        place += 1;
        c_now += cell_size(row);
        b_now += bare_size(row);
        left = others;
    }
    Ok(states)
}

/// Adds what a row takes at a tick.
fn push_next(nexts: &mut Items<Next>, row: &Row) -> Result<(), AllocError>
    ensures { OnOk result (nexts.new ≡ nexts.old ++ row_nexts (kind_node row.now.kind) row.now.next) }
{
    let Some(arg) = row.next else {
        return Ok(());
    };
    match &row.kind {
        Kind::Value(_, Node::State(_, _)) => nexts.push(Next::Word(arg))?,
        Kind::Value(_, Node::Array { words, .. }) => nexts.push(Next::Array {
            node: arg.node,
            words: *words,
        })?,
        _ => {}
    }
    Ok(())
}

/// What the cells take at a tick.
pub(crate) fn nexts_of(alloc: Global, rows: &[Row]) -> Result<Items<Next>, AllocError>
    ensures { IfOk result (λ nexts. nexts ≡ nexts_of rows.now) }
{
    let mut nexts = Items::new(alloc);
    let mut left = rows;
    while let Some((row, others)) = left.split_first() {
        push_next(&mut nexts, row)?;
        left = others;
    }
    Ok(nexts)
}

fn push_output(outputs: &mut Items<Arg>, row: &Row) -> Result<(), AllocError>
    ensures { OnOk result (outputs.new ≡ outputs.old ++ kind_outputs row.now.kind) }
{
    match &row.kind {
        Kind::Output(arg, _) => outputs.push(*arg)?,
        _ => {}
    }
    Ok(())
}

/// The operands of the outputs.
pub(crate) fn outputs_of(alloc: Global, rows: &[Row]) -> Result<Items<Arg>, AllocError>
    ensures { IfOk result (λ outputs. outputs ≡ outputs_of rows.now) }
{
    let mut outputs = Items::new(alloc);
    let mut left = rows;
    while let Some((row, others)) = left.split_first() {
        push_output(&mut outputs, row)?;
        left = others;
    }
    Ok(outputs)
}

fn same(fed: bool, has: bool) -> bool
    ensures { result ≡ same fed has }
{
    if fed { has } else { !has }
}

/// Adds the widths of a state's words, where they are wanted.
fn push_width(widths: &mut Vec<u8>, wanted: bool, state: &State) -> Result<(), AllocError>
    ensures { OnOk result (widths.new.items ≡ widths.old.items ++ (if wanted then replicate state.now.words state.now.width else [])) }
{
    if wanted {
        many::push_many(widths, state.words, state.width)?;
    }
    Ok(())
}

/// Adds the widths of the words of the states that have a `next`, or of those that have none.
fn push_widths(widths: &mut Vec<u8>, fed: bool, states: &[State]) -> Result<(), AllocError>
    ensures { OnOk result (widths.new.items ≡ widths.old.items ++ widths_where fed states.now) }
{
    let mut left = states;
    while let Some((state, others)) = left.split_first() {
        push_width(widths, same(fed, state.next.is_some()), state)?;
        left = others;
    }
    Ok(())
}

/// The widths of the words of all states, those of cells before the others.
pub(crate) fn all_widths(alloc: Global, states: &[State]) -> Result<Vec<u8>, AllocError>
    ensures { IfOk result (λ widths. widths.items ≡ all_widths states.now) }
{
    let mut widths = Vec::new(alloc);
    push_widths(&mut widths, true, states)?;
    push_widths(&mut widths, false, states)?;
    Ok(widths)
}
