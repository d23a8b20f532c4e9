//! Drivers: `(driver (persistent x ..) (idle (x n) ..) (call op body (result e)) ..)`, where the first
//! two may be left out.
ghost use Rattle.std.specs.Prelude.{◌≡◌, IfOk};
ghost use Rattle.knox_circuit.specs.Cells.{cells_of};
ghost use Rattle.expr_read.specs.Views.{Gives};
ghost use Rattle.lang_read.specs.Drivers.{is_among, cell_of, new_cell, named_cells, keep_from, persistent, keep_of, idle_word, idled, idle_in, idle_entry, idle_entries, zero_words, idle_of, bodies, together, driver_in, complete, made, driver_of, driver_text};

use crate::calls::{all_called, bodies_of, calls_of};
use crate::entries::{behind_form, filled, form_trees, new_entry};
use crate::heads::copied_ops;
use crate::statement::Home;
use expr_read::{
    Group, LangFault, LangWhy, Named, Seen, behind_head, declare_cells, declare_ports, fault,
    no_more, number_of, parts_of, place_of, seen_of,
};
use knox_circuit::{Cell, Circuit, Port};
use knox_lang::{Body, DriverParts, DriverProgram, OpHead, Space, SpecProgram};
use knox_sexpr::Tree;
use knox_text::Place;
use knox_words::{Word, Words, word_or};
use sqlite_items::Items;
use std::alloc::{AllocError, Global};

fn is_among(number: u32, numbers: &[u32]) -> bool
    ensures { result ≡ is_among number numbers.now }
{
    for other in numbers {
        if *other == number {
            return true;
        }
    }
    false
}

/// The number of the cell that a tree names.
fn cell_of(tree: &Tree, names: &[Named]) -> Result<u32, LangFault>
    ensures { Gives result (cell_of names.now tree.now) }
{
    let seen = seen_of(Group::Device, tree, names)?;
    Ok(seen.slot.number)
}

/// The number of the cell that a tree names, which none before it names.
fn new_cell(tree: &Tree, names: &[Named], before: &[u32]) -> Result<u32, LangFault>
    ensures { Gives result (new_cell names.now before.now tree.now) }
{
    let cell = cell_of(tree, names)?;
    if is_among(cell, before) {
        return Err(fault(place_of(tree), LangWhy::Twice));
    }
    Ok(cell)
}

/// The numbers of the cells that trees name.
fn named_cells(alloc: Global, trees: &[Tree], names: &[Named]) -> Result<Items<u32>, LangFault>
    ensures { Gives result (named_cells names.now trees.now) }
{
    let mut cells = Items::new(alloc);
    for tree in trees {
        let cell = new_cell(tree, names, cells.as_slice())?;
        cells.push(cell)?;
    }
    Ok(cells)
}

/// Whether each cell is among those of some numbers.
fn kept(alloc: Global, cells: &[Cell], numbers: &[u32]) -> Result<Items<bool>, AllocError>
    ensures { IfOk result (λ keep. keep ≡ keep_from 0 cells.now numbers.now) }
{
    let mut keep = Items::new(alloc);
    let mut number: u32 = 0;
    for cell in cells {
        let _done = cell;
        keep.push(is_among(number, numbers))?;
        number = number.checked_add(1).ok_or(AllocError)?;
    }
    Ok(keep)
}

/// Which cells `(persistent x ..)` names.
fn persistent(alloc: Global, trees: &[Tree], cells: &[Cell]) -> Result<Items<bool>, LangFault>
    ensures { Gives result (persistent cells.now trees.now) }
{
    let mut names = Items::new(alloc);
    declare_cells(alloc, cells, &mut names)?;
    let numbers = named_cells(alloc, trees, names.as_slice())?;
    let keep = kept(alloc, cells, numbers.as_slice())?;
    Ok(keep)
}

/// Which cells are persistent by the form at the front.
fn keep_of(alloc: Global, parts: &[Tree], cells: &[Cell]) -> Result<Items<bool>, LangFault>
    ensures { Gives result (keep_of cells.now parts.now) }
{
    let names = form_trees(parts, b"persistent")?;
    persistent(alloc, names, cells)
}

/// The idle word of an input, whose number is at the place.
fn idle_word(seen: Seen, at: Place, value: u128) -> Result<(u32, Word), LangFault>
    ensures { Gives result (idle_word seen at value) }
{
    match Word::new(seen.width, value) {
        Some(word) => Ok((seen.slot.number, word)),
        None => Err(fault(at, LangWhy::Width)),
    }
}

/// The idle word of the input that a tree names in an entry.
fn idled(
    x: &Tree,
    n: &Tree,
    inputs: &[Named],
    before: &[(u32, Word)],
) -> Result<(u32, Word), LangFault>
    ensures { Gives result (idled inputs.now before.now x.now n.now) }
{
    let seen = new_entry(Group::Input, x, inputs, before)?;
    let value = number_of(n)?;
    idle_word(seen, place_of(n), value)
}

/// The parts of an entry whose list is at the place.
fn idle_in(
    at: Place,
    parts: &[Tree],
    inputs: &[Named],
    before: &[(u32, Word)],
) -> Result<(u32, Word), LangFault>
    ensures { Gives result (idle_in inputs.now at before.now parts.now) }
{
    match parts {
        [x, n] => idled(x, n, inputs, before),
        _ => Err(fault(at, LangWhy::Form)),
    }
}

/// `(x n)`.
fn idle_entry(
    tree: &Tree,
    inputs: &[Named],
    before: &[(u32, Word)],
) -> Result<(u32, Word), LangFault>
    ensures { Gives result (idle_entry inputs.now before.now tree.now) }
{
    let parts = parts_of(tree)?;
    idle_in(place_of(tree), parts, inputs, before)
}

/// The entries of an `idle` list.
fn idle_entries(
    alloc: Global,
    trees: &[Tree],
    inputs: &[Named],
) -> Result<Items<(u32, Word)>, LangFault>
    ensures { Gives result (idle_entries inputs.now trees.now) }
{
    let mut entries = Items::new(alloc);
    for tree in trees {
        let entry = idle_entry(tree, inputs, entries.as_slice())?;
        entries.push(entry)?;
    }
    Ok(entries)
}

/// The words of inputs that idle at 0.
fn zero_words(alloc: Global, inputs: &[Port]) -> Result<Items<Word>, AllocError>
    ensures { IfOk result (λ idle. idle ≡ zero_words inputs.now) }
{
    let mut idle = Items::new(alloc);
    for input in inputs {
        idle.push(word_or(input.width, 0))?;
    }
    Ok(idle)
}

/// The idle words of inputs, by the `idle` form at the front.
fn idle_of(alloc: Global, parts: &[Tree], inputs: &[Port]) -> Result<Words, LangFault>
    ensures { Gives result (idle_of inputs.now parts.now) }
{
    let trees = form_trees(parts, b"idle")?;
    let mut names = Items::new(alloc);
    declare_ports(alloc, Space::Input, inputs, &mut names)?;
    let entries = idle_entries(alloc, trees, names.as_slice())?;
    let zeros = zero_words(alloc, inputs)?;
    let words = filled(zeros, entries);
    let mut idle = Words::new(alloc);
    idle.extend(words.as_slice())?;
    Ok(idle)
}

/// The bodies of a driver's calls, in the order of the operations.
fn bodies(
    alloc: Global,
    c: &Circuit,
    ops: &[OpHead],
    trees: &[Tree],
) -> Result<Items<Body>, LangFault>
    ensures { Gives result (bodies c.now ops.now trees.now) }
{
    let mut inputs = Items::new(alloc);
    declare_ports(alloc, Space::Input, c.inputs(), &mut inputs)?;
    let mut names = Items::new(alloc);
    declare_ports(alloc, Space::Output, c.outputs_list(), &mut names)?;
    let home = Home::Driver(inputs);
    let calls = calls_of(alloc, &home, ops, &mut names, trees)?;
    let bodies = bodies_of(alloc, ops, calls)?;
    Ok(bodies)
}

/// The parts of a driver.
fn together(
    alloc: Global,
    c: &Circuit,
    keep: Items<bool>,
    idle: Words,
    ops: &[OpHead],
    bodies: Items<Body>,
) -> Result<DriverParts, AllocError>
    ensures { IfOk result (λ parts. parts ≡ together c.now keep idle ops.now bodies) }
{
    Ok(DriverParts {
        idle,
        keep,
        outs: Items::from_slice(alloc, c.output_widths())?,
        funs: Items::new(alloc),
        ops: copied_ops(alloc, ops)?,
        bodies,
    })
}

/// What stands in a driver's list, where the specification has these operations.
fn driver_in(
    alloc: Global,
    c: &Circuit,
    ops: &[OpHead],
    parts: &[Tree],
) -> Result<DriverParts, LangFault>
    ensures { Gives result (driver_in c.now ops.now parts.now) }
{
    let keep = keep_of(alloc, parts, c.cells())?;
    let rest = behind_form(parts, b"persistent");
    let idle = idle_of(alloc, rest, c.inputs())?;
    let bodies = bodies(alloc, c, ops, behind_form(rest, b"idle"))?;
    let parts = together(alloc, c, keep, idle, ops, bodies)?;
    Ok(parts)
}

/// Each operation needs a call among the parts of a driver's list, which is at the place.
fn complete(at: Place, ops: &[OpHead], parts: &[Tree]) -> Result<(), LangFault>
    ensures { Gives result (complete at ops.now parts.now) }
{
    if !all_called(ops, parts) {
        return Err(fault(at, LangWhy::Missing));
    }
    Ok(())
}

/// The driver of these parts, whose list is at the place.
fn made(at: Place, parts: DriverParts) -> Result<DriverProgram, LangFault>
    ensures { Gives result (made at parts) }
{
    match DriverProgram::new(parts) {
        Some(driver) => Ok(driver),
        None => Err(fault(at, LangWhy::Width)),
    }
}

/// The driver of a tree, where other trees follow.
fn driver_of(
    alloc: Global,
    tree: &Tree,
    more: &[Tree],
    c: &Circuit,
    s: &SpecProgram,
) -> Result<DriverProgram, LangFault>
    ensures { Gives result (driver_of c.now s.now tree.now more.now) }
{
    let inner = behind_head(tree, b"driver")?;
    let parts = driver_in(alloc, c, s.ops(), inner)?;
    no_more(more)?;
    complete(place_of(tree), s.ops(), inner)?;
    made(place_of(tree), parts)
}

/// The driver that the trees of a text mean over a circuit and a specification, where the text
/// ends at a place. Each operation of the specification has one call. The languages aren't read
/// whole yet, so a call that is missing is told only where all else is read; a text without a tree
/// has no parenthesis at which to tell it, and isn't in the form.
pub fn read_driver(
    alloc: Global,
    trees: &[Tree],
    end: Place,
    c: &Circuit,
    s: &SpecProgram,
) -> Result<DriverProgram, LangFault>
    ensures { Gives result (driver_text c.now s.now end trees.now) }
{
    match trees.split_first() {
        Some((tree, more)) => driver_of(alloc, tree, more, c, s),
        None => Err(fault(end, LangWhy::Form)),
    }
}
