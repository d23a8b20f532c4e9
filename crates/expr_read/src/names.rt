//! Names in scope, and lists of declared names.
ghost use Rattle.std.specs.Prelude.{◌≡◌, ◌++◌, ◌∷◌, [], take, Some, None, OnOk};
ghost use Rattle.knox_lang.specs.declared.expr.Space.TheVariants.{Device};
ghost use Rattle.expr_read.specs.declared.names.Group.TheVariants.{Plain};
ghost use Rattle.expr_read.specs.Views.{Gives};
ghost use Rattle.expr_read.specs.Names.{group_of, is_named, found, seen_of, target_in, target_at, copied, target, op_number, is_declared, pair, argument_in, argument, arguments, local_in, local, locals, naming, numbered, field_names, by_name, line_names, port_names, word_cell_names, cell_names, word_names, where_marked, marked_names};

use crate::faults::{LangFault, LangWhy, fault};
use crate::views::{is_symbol, parts_of, place_of, symbol_of, width_of};
use knox_circuit::{Cell, Port};
use knox_lang::{Field, OpHead, Slot, Space};
use knox_sexpr::Tree;
use knox_text::Place;
use sqlite_items::Items;
use std::alloc::{AllocError, Global};

/// A name in scope, the place of its word, and its width. Of two that a name may mean, the one
/// that was declared last hides the other.
#[derive(Drop)]
pub struct Named {
    pub name: Items<u8>,
    pub slot: Slot,
    pub width: u8,
}

/// The word that a name means.
#[derive(Clone, Copy, Debug, PartialEq, Eq)]
pub struct Seen {
    pub slot: Slot,
    pub width: u8,
}

/// How names of a space are written.
#[derive(Clone, Copy, Debug, PartialEq, Eq)]
pub enum Group {
    /// By the name alone: fields, arguments, locals and bound variables.
    Plain,
    /// `(in x)`.
    Input,
    /// `(out x)`.
    Output,
    /// `(noise x)`.
    Noise,
    /// As a cell in a driver, and `(c x)`.
    Device,
    /// `(s x)`: a field of the specification.
    Spec,
    /// `(e x)`: a field of the emulator.
    Emu,
    /// `(k x)`: a cell of the emulator's copy.
    Copy,
    /// By a form that is not read yet.
    Other,
}

fn group_of(space: Space) -> Group
    ensures { result ≡ group_of space }
{
    match space {
        Space::Own => Group::Plain,
        Space::Arg => Group::Plain,
        Space::Local => Group::Plain,
        Space::Bound => Group::Plain,
        Space::Input => Group::Input,
        Space::Output => Group::Output,
        Space::Device => Group::Device,
        Space::Noise => Group::Noise,
        Space::Spec => Group::Spec,
        Space::Emu => Group::Emu,
        Space::Copy => Group::Copy,
        Space::Taken => Group::Other,
    }
}

/// Is this a name of a group?
fn is_named(group: Group, name: &[u8], named: &Named) -> bool
    ensures { result ≡ is_named group name.now named.now }
{
    group_of(named.slot.space) == group && named.name.as_slice() == name
}

/// The word that a name of a group means.
pub fn find(group: Group, name: &[u8], names: &[Named]) -> Option<Seen>
    ensures { result ≡ found group name.now None names.now }
{
    let mut found = None;
    for named in names {
        if is_named(group, name, named) {
            found = Some(Seen {
                slot: named.slot,
                width: named.width,
            });
        }
    }
    found
}

/// The word of a group that a tree names.
pub fn seen_of(group: Group, tree: &Tree, names: &[Named]) -> Result<Seen, LangFault>
    ensures { Gives result (seen_of group tree.now names.now) }
{
    let name = symbol_of(tree)?;
    match find(group, name, names) {
        Some(seen) => Ok(seen),
        None => Err(fault(place_of(tree), LangWhy::UnknownName)),
    }
}

/// The word, where it is one that a statement may write: of a field or a local.
fn target_in(at: Place, seen: Seen) -> Result<Seen, LangFault>
    ensures { Gives result (target_in at seen seen.slot.space) }
{
    match seen.slot.space {
        Space::Own => Ok(seen),
        Space::Local => Ok(seen),
        _ => Err(fault(at, LangWhy::UnknownName)),
    }
}

/// The word of a name at the place as the target of a statement.
fn named_target(at: Place, name: &[u8], names: &[Named]) -> Result<Seen, LangFault>
    ensures { Gives result (target_at at (found Plain name.now None names.now)) }
{
    match find(Group::Plain, name, names) {
        Some(seen) => target_in(at, seen),
        None => Err(fault(at, LangWhy::UnknownName)),
    }
}

/// The word of the copy that `(k x)` names, whose list is at the place.
fn copied(at: Place, parts: &[Tree], names: &[Named]) -> Result<Seen, LangFault>
    ensures { Gives result (copied at names.now parts.now) }
{
    match parts {
        [head, x] => {
            if !is_symbol(head, b"k") {
                return Err(fault(at, LangWhy::Form));
            }
            seen_of(Group::Copy, x, names)
        }
        _ => Err(fault(at, LangWhy::Form)),
    }
}

/// The word that a tree names as the target of a statement: a field or a local, or one of the copy.
pub fn target(tree: &Tree, names: &[Named]) -> Result<Seen, LangFault>
    ensures { Gives result (target tree.now names.now) }
{
    match tree {
        Tree::Atom(at, name) => named_target(*at, name.as_slice(), names),
        Tree::Number(at, _, _) => Err(fault(*at, LangWhy::Form)),
        Tree::List(at, parts, _) => copied(*at, parts.as_slice(), names),
    }
}

/// The number of the operation of a name.
pub fn op_number(name: &[u8], ops: &[OpHead]) -> Option<usize>
    ensures { result ≡ op_number name.now ops.now }
{
    for (number, op) in ops.iter().enumerate() {
        if op.name.as_slice() == name {
            return Some(number);
        }
    }
    None
}

fn is_declared(name: &[u8], pairs: &[(Items<u8>, u8)]) -> bool
    ensures { result ≡ is_declared name.now pairs.now }
{
    for pair in pairs {
        if pair.0.as_slice() == name {
            return true;
        }
    }
    false
}

/// A name and its width, beside those that its level has already.
fn pair(
    alloc: Global,
    x: &Tree,
    w: &Tree,
    known: &[(Items<u8>, u8)],
) -> Result<(Items<u8>, u8), LangFault>
    ensures { Gives result (pair x.now w.now known.now) }
{
    let name = symbol_of(x)?;
    if is_declared(name, known) {
        return Err(fault(place_of(x), LangWhy::Twice));
    }
    let width = width_of(w)?;
    let name = Items::from_slice(alloc, name)?;
    Ok((name, width))
}

/// The parts of an argument whose list is at the place.
fn argument_in(
    alloc: Global,
    at: Place,
    known: &[(Items<u8>, u8)],
    parts: &[Tree],
) -> Result<(Items<u8>, u8), LangFault>
    ensures { Gives result (argument_in at known.now parts.now) }
{
    match parts {
        [x, w] => pair(alloc, x, w, known),
        _ => Err(fault(at, LangWhy::Form)),
    }
}

/// An argument `(x w)`.
fn argument(
    alloc: Global,
    tree: &Tree,
    known: &[(Items<u8>, u8)],
) -> Result<(Items<u8>, u8), LangFault>
    ensures { Gives result (argument known.now tree.now) }
{
    let parts = parts_of(tree)?;
    argument_in(alloc, place_of(tree), known, parts)
}

/// The arguments `(x w) ..`.
pub fn arguments(alloc: Global, trees: &[Tree]) -> Result<Items<(Items<u8>, u8)>, LangFault>
    ensures { Gives result (arguments trees.now) }
{
    let mut pairs = Items::new(alloc);
    for tree in trees {
        let pair = argument(alloc, tree, pairs.as_slice())?;
        pairs.push(pair)?;
    }
    Ok(pairs)
}

/// The parts of a local whose list is at the place.
fn local_in(
    alloc: Global,
    at: Place,
    known: &[(Items<u8>, u8)],
    parts: &[Tree],
) -> Result<(Items<u8>, u8), LangFault>
    ensures { Gives result (local_in at known.now parts.now) }
{
    match parts {
        [_, x, w] => pair(alloc, x, w, known),
        _ => Err(fault(at, LangWhy::Form)),
    }
}

/// A local `(local x w)`.
fn local(
    alloc: Global,
    tree: &Tree,
    known: &[(Items<u8>, u8)],
) -> Result<(Items<u8>, u8), LangFault>
    ensures { Gives result (local known.now tree.now) }
{
    let parts = parts_of(tree)?;
    local_in(alloc, place_of(tree), known, parts)
}

/// The locals of a body, each of which begins with `local`.
pub fn locals(alloc: Global, trees: &[Tree]) -> Result<Items<(Items<u8>, u8)>, LangFault>
    ensures { Gives result (locals trees.now) }
{
    let mut pairs = Items::new(alloc);
    for tree in trees {
        let pair = local(alloc, tree, pairs.as_slice())?;
        pairs.push(pair)?;
    }
    Ok(pairs)
}

fn declare_one(
    alloc: Global,
    name: &[u8],
    slot: Slot,
    width: u8,
    names: &mut Items<Named>,
) -> Result<(), AllocError>
    ensures { OnOk result (names.new ≡ names.old ++ naming name.now slot width ∷ []) }
{
    let name = Items::from_slice(alloc, name)?;
    names.push(Named { name, slot, width })
}

/// Brings a level of names into scope, whose words are the first ones of a space.
pub fn declare(
    alloc: Global,
    space: Space,
    pairs: &[(Items<u8>, u8)],
    names: &mut Items<Named>,
) -> Result<(), AllocError>
    ensures { OnOk result (names.new ≡ names.old ++ numbered space 0 pairs.now) }
{
    let mut number: u32 = 0;
    for pair in pairs {
        let slot = Slot { space, number };
        declare_one(alloc, pair.0.as_slice(), slot, pair.1, names)?;
        number = number.checked_add(1).ok_or(AllocError)?;
    }
    Ok(())
}

/// Takes the names behind the first ones out of scope.
pub fn forget(names: &mut Items<Named>, first: usize)
    ensures { names.new ≡ take first names.old }
{
    while names.len() > first {
        let _last = names.pop();
    }
}

/// Brings a name into scope, if it isn't empty.
fn by_name(
    alloc: Global,
    name: &[u8],
    slot: Slot,
    width: u8,
    names: &mut Items<Named>,
) -> Result<(), AllocError>
    ensures { OnOk result (names.new ≡ names.old ++ by_name name.now slot width) }
{
    match name {
        [] => Ok(()),
        [..] => declare_one(alloc, name, slot, width, names),
    }
}

/// Brings a name of the circuit into scope, which is also named by `@` and its line's number.
fn declare_line(
    alloc: Global,
    name: &[u8],
    number: u32,
    slot: Slot,
    width: u8,
    names: &mut Items<Named>,
) -> Result<(), AllocError>
    ensures { OnOk result (names.new ≡ names.old ++ line_names name.now number slot width) }
{
    by_name(alloc, name, slot, width, names)?;
    let name = format!(in alloc; "@{number}")?;
    declare_one(alloc, name.as_bytes(), slot, width, names)
}

/// Brings inputs or outputs into scope, which a space has in their order.
pub fn declare_ports(
    alloc: Global,
    space: Space,
    ports: &[Port],
    names: &mut Items<Named>,
) -> Result<(), AllocError>
    ensures { OnOk result (names.new ≡ names.old ++ port_names space 0 ports.now) }
{
    let mut number: u32 = 0;
    for port in ports {
        let slot = Slot { space, number };
        declare_line(
            alloc,
            port.name.as_slice(),
            port.number,
            slot,
            port.width,
            names,
        )?;
        number = number.checked_add(1).ok_or(AllocError)?;
    }
    Ok(())
}

/// Brings fields into scope, whose words are those of a space.
pub fn declare_fields(
    alloc: Global,
    space: Space,
    fields: &[Field],
    names: &mut Items<Named>,
) -> Result<(), AllocError>
    ensures { OnOk result (names.new ≡ names.old ++ field_names space fields.now) }
{
    for field in fields {
        let slot = Slot {
            space,
            number: field.first,
        };
        declare_one(alloc, field.name.as_slice(), slot, field.width, names)?;
    }
    Ok(())
}

/// Brings a cell into scope, if it is one word: arrays have no names yet.
fn declare_cell(
    alloc: Global,
    cell: &Cell,
    slot: Slot,
    names: &mut Items<Named>,
) -> Result<(), AllocError>
    ensures { OnOk result (names.new ≡ names.old ++ word_cell_names cell.now slot) }
{
    if cell.index.is_some() {
        return Ok(());
    }
    let name = cell.name.as_slice();
    declare_line(alloc, name, cell.number, slot, cell.width, names)
}

/// Brings those cells into scope that are one word, whose words are those of a space, by their first
/// words.
pub fn declare_words(
    alloc: Global,
    space: Space,
    cells: &[Cell],
    names: &mut Items<Named>,
) -> Result<(), AllocError>
    ensures { OnOk result (names.new ≡ names.old ++ word_names space cells.now) }
{
    for cell in cells {
        let slot = Slot {
            space,
            number: cell.first,
        };
        declare_cell(alloc, cell, slot, names)?;
    }
    Ok(())
}

/// Brings a cell of one word into scope where it is marked, by its first word.
fn declare_where(
    alloc: Global,
    marked: bool,
    cell: &Cell,
    names: &mut Items<Named>,
) -> Result<(), AllocError>
    ensures { OnOk result (names.new ≡ names.old ++ where_marked marked cell.now) }
{
    if !marked {
        return Ok(());
    }
    let slot = Slot {
        space: Space::Device,
        number: cell.first,
    };
    declare_cell(alloc, cell, slot, names)
}

/// Brings those cells of one word into scope that are marked, by their first words.
pub fn declare_marked(
    alloc: Global,
    cells: &[Cell],
    marks: &[bool],
    names: &mut Items<Named>,
) -> Result<(), AllocError>
    ensures { OnOk result (names.new ≡ names.old ++ marked_names cells.now marks.now) }
{
    let mut left = cells;
    let mut right = marks;
    while let Some((cell, more)) = left.split_first() {
        match right.split_first() {
            Some((marked, others)) => {
                declare_where(alloc, *marked, cell, names)?;
                left = more;
                right = others;
            }
            None => return Ok(()),
        }
    }
    Ok(())
}

/// Brings the cells of one word into scope, each under its number among all cells.
pub fn declare_cells(
    alloc: Global,
    cells: &[Cell],
    names: &mut Items<Named>,
) -> Result<(), AllocError>
    ensures { OnOk result (names.new ≡ names.old ++ cell_names 0 cells.now) }
{
    let mut number: u32 = 0;
    for cell in cells {
        let slot = Slot {
            space: Space::Device,
            number,
        };
        declare_cell(alloc, cell, slot, names)?;
        number = number.checked_add(1).ok_or(AllocError)?;
    }
    Ok(())
}
