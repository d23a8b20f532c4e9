//! The tables of a circuit's inputs, outputs and states, made line after line.
ghost use Rattle.std.specs.Prelude.{◌≡◌, ◌++◌, [], ◌∷◌, List, map, IfOk, OnOk};
ghost use Rattle.circuit_table.specs.declared.line.Line.{Line};
ghost use Rattle.knox_circuit.specs.declared.port.Role.{Role};
ghost use Rattle.knox_circuit.specs.declared.port.Role.TheVariants as role;
ghost use Rattle.knox_circuit.specs.Ports.{port, input_port, inputs_among, output_port, outputs_among};
ghost use Rattle.knox_circuit.specs.Cells.{sort_width, sort_index, state_sort, state_cell, stored, stored_among};
ghost use Rattle.knox_circuit.specs.Taken.{Know};

use crate::names::Names;
use crate::port::{Cell, Port, Role, Stored};
use circuit_nodes::{Kind, Node, Row, SortOf};
use circuit_table::Line;
use sqlite_items::Items;
use std::alloc::{AllocError, Global};

/// The port of one more line.
#[tactic(auto, using(crate::proofs::TablesLemmas::port_steps))]
fn port(alloc: Global, names: &Names, line: &Line, width: u8) -> Result<Port, AllocError>
    ensures { IfOk result (λ p. (k : Role) (before : List Line) → Know names.now k before → p ≡ port k before line.now width) }
{
    let name = names.name(alloc, line.symbol.as_slice())?;
    Ok(Port {
        name,
        number: line.number,
        width,
    })
}

fn add_input(
    alloc: Global,
    ports: &mut Items<Port>,
    names: &Names,
    line: &Line,
    row: &Row,
) -> Result<(), AllocError>
    ensures { OnOk result ((before : List Line) → Know names.now role.Input before → ports.new ≡ ports.old ++ input_port before line.now row.now.kind) }
{
    if let Kind::Value(SortOf::Words(width), Node::Input(_, _)) = &row.kind {
        ports.push(port(alloc, names, line, *width)?)?;
    }
    Ok(())
}

/// The inputs in line order.
pub(crate) fn inputs(alloc: Global, lines: &[Line], rows: &[Row]) -> Result<Items<Port>, AllocError>
    ensures { IfOk result (λ ports. ports ≡ inputs_among [] lines.now rows.now) }
{
    let mut ports = Items::new(alloc);
    let mut names = Names::new(alloc);
    let mut left = lines;
    let mut rest = rows;
    while let Some((line, more)) = left.split_first() {
        let Some((row, others)) = rest.split_first() else {
            return Ok(ports);
        };
        add_input(alloc, &mut ports, &names, line, row)?;
        names.note(Role::Input, line)?;
        left = more;
        rest = others;
    }
    Ok(ports)
}

fn add_output(
    alloc: Global,
    ports: &mut Items<Port>,
    names: &Names,
    line: &Line,
    row: &Row,
) -> Result<(), AllocError>
    ensures { OnOk result ((before : List Line) → Know names.now role.Output before → ports.new ≡ ports.old ++ output_port before line.now row.now.kind) }
{
    if let Kind::Output(_, width) = &row.kind {
        ports.push(port(alloc, names, line, *width)?)?;
    }
    Ok(())
}

/// The outputs in line order.
pub(crate) fn outputs(
    alloc: Global,
    lines: &[Line],
    rows: &[Row],
) -> Result<Items<Port>, AllocError>
    ensures { IfOk result (λ ports. ports ≡ outputs_among [] lines.now rows.now) }
{
    let mut ports = Items::new(alloc);
    let mut names = Names::new(alloc);
    let mut left = lines;
    let mut rest = rows;
    while let Some((line, more)) = left.split_first() {
        let Some((row, others)) = rest.split_first() else {
            return Ok(ports);
        };
        add_output(alloc, &mut ports, &names, line, row)?;
        names.note(Role::Output, line)?;
        left = more;
        rest = others;
    }
    Ok(ports)
}

/// The width of the words of a sort, and that of its indices.
fn sort_widths(sort: SortOf) -> (u8, Option<u8>)
    ensures width { result.0 ≡ sort_width sort }
    ensures index { result.1 ≡ sort_index sort }
{
    match sort {
        SortOf::Words(width) => (width, None),
        SortOf::Arrays(index, width) => (width, Some(index)),
    }
}

/// The state of a sort on one more line.
#[tactic(auto, using(crate::proofs::TablesLemmas::port_steps))]
fn state(alloc: Global, names: &Names, line: &Line, sort: SortOf) -> Result<Cell, AllocError>
    ensures { IfOk result (λ c. (before : List Line) → Know names.now role.State before → c ≡ state_cell before line.now sort) }
{
    let name = names.name(alloc, line.symbol.as_slice())?;
    let (width, index) = sort_widths(sort);
    Ok(Cell {
        name,
        number: line.number,
        width,
        index,
        first: 0,
    })
}

/// The sort of a state.
fn state_sort(kind: &Kind) -> Option<SortOf>
    ensures { result ≡ state_sort kind.now }
{
    match kind {
        Kind::Value(sort, Node::State(_, _)) => Some(*sort),
        Kind::Value(sort, Node::Array { .. }) => Some(*sort),
        _ => None,
    }
}

fn add_state(
    alloc: Global,
    states: &mut Items<Stored>,
    names: &Names,
    line: &Line,
    row: &Row,
) -> Result<(), AllocError>
    ensures { OnOk result ((before : List Line) → Know names.now role.State before → states.new ≡ states.old ++ stored before line.now row.now row.now.kind) }
{
    let Some(sort) = state_sort(&row.kind) else {
        return Ok(());
    };
    let cell = state(alloc, names, line, sort)?;
    states.push(Stored {
        cell,
        is_cell: row.next.is_some(),
        has_init: row.init.is_some(),
    })?;
    Ok(())
}

/// The states in line order.
pub(crate) fn states(
    alloc: Global,
    lines: &[Line],
    rows: &[Row],
) -> Result<Items<Stored>, AllocError>
    ensures { IfOk result (λ states. states ≡ stored_among [] lines.now rows.now) }
{
    let mut states = Items::new(alloc);
    let mut names = Names::new(alloc);
    let mut left = lines;
    let mut rest = rows;
    while let Some((line, more)) = left.split_first() {
        let Some((row, others)) = rest.split_first() else {
            return Ok(states);
        };
        add_state(alloc, &mut states, &names, line, row)?;
        names.note(Role::State, line)?;
        left = more;
        rest = others;
    }
    Ok(states)
}

/// The widths of ports.
pub(crate) fn port_widths(alloc: Global, ports: &[Port]) -> Result<Vec<u8>, AllocError>
    ensures { IfOk result (λ widths. widths.items ≡ map (λ p. p.width) ports.now) }
{
    ports.iter().map(|port| port.width).collect(alloc)
}
