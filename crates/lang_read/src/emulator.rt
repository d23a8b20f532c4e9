//! Emulators: `(emulator (field x w n) .. (power (local x w) .. stmt ..) (outputs (x e) ..) (tick (local
//! x w) .. stmt ..))`, where each part may be left out.
ghost use Rattle.std.specs.Prelude.{◌≡◌, IfOk};
ghost use Rattle.expr_read.specs.Views.{Gives};
ghost use Rattle.lang_read.specs.Emulators.{alone, entered, entry_in, outputs_entry, entries, zero_outputs, shown_by, scope, power_scope, power_in, power_of, tick_in, tick_of, all_bodies, outside_of, together, bodies_behind, emulator_in, emulator_made, emulator_at, emulator_of, emulator_text};

use crate::body::{MOST_COST, empty_body, silent_body};
use crate::entries::{behind_form, filled, form_trees, new_entry};
use crate::heads::copied_ops;
use crate::statement::Home;
use expr_read::{
    Fields, Group, LangFault, LangWhy, Named, behind_head, declare_ports, declare_words,
    expr_of_width, fault, field_names, fields_of, headed_count, is_headed, no_more, parts_of,
    place_of,
};
use knox_circuit::{Cell, Circuit, Port};
use knox_lang::{
    Body, DriverProgram, EmuParts, EmuProgram, Expr, Field, OpHead, Space, SpecProgram,
};
use knox_sexpr::Tree;
use knox_text::Place;
use knox_words::word_or;
use sqlite_items::Items;
use std::alloc::{AllocError, Global};

/// An expression that stands in no body.
fn alone(alloc: Global, tree: &Tree, width: u8, names: &[Named]) -> Result<Expr, LangFault>
    ensures { Gives result (alone tree.now width names.now) }
{
    let value = expr_of_width(alloc, tree, width, names)?;
    if value.cost > MOST_COST {
        return Err(fault(place_of(tree), LangWhy::Bound));
    }
    Ok(value.expr)
}

/// The output that an entry names, and its expression.
fn entered(
    alloc: Global,
    x: &Tree,
    e: &Tree,
    outs: &[Named],
    names: &[Named],
    before: &[(u32, Expr)],
) -> Result<(u32, Expr), LangFault>
    ensures { Gives result (entered outs.now names.now before.now x.now e.now) }
{
    let seen = new_entry(Group::Output, x, outs, before)?;
    let expr = alone(alloc, e, seen.width, names)?;
    Ok((seen.slot.number, expr))
}

/// The parts of an entry whose list is at the place.
fn entry_in(
    alloc: Global,
    at: Place,
    parts: &[Tree],
    outs: &[Named],
    names: &[Named],
    before: &[(u32, Expr)],
) -> Result<(u32, Expr), LangFault>
    ensures { Gives result (entry_in outs.now names.now at before.now parts.now) }
{
    match parts {
        [x, e] => entered(alloc, x, e, outs, names, before),
        _ => Err(fault(at, LangWhy::Form)),
    }
}

/// `(x e)`.
fn outputs_entry(
    alloc: Global,
    tree: &Tree,
    outs: &[Named],
    names: &[Named],
    before: &[(u32, Expr)],
) -> Result<(u32, Expr), LangFault>
    ensures { Gives result (outputs_entry outs.now names.now before.now tree.now) }
{
    let parts = parts_of(tree)?;
    entry_in(alloc, place_of(tree), parts, outs, names, before)
}

/// The entries of an `outputs` list.
fn entries(
    alloc: Global,
    trees: &[Tree],
    outs: &[Named],
    names: &[Named],
) -> Result<Items<(u32, Expr)>, LangFault>
    ensures { Gives result (entries outs.now names.now trees.now) }
{
    let mut entries = Items::new(alloc);
    for tree in trees {
        let entry = outputs_entry(alloc, tree, outs, names, entries.as_slice())?;
        entries.push(entry)?;
    }
    Ok(entries)
}

/// Outputs that are all 0.
fn zero_outputs(alloc: Global, ports: &[Port]) -> Result<Items<Expr>, AllocError>
    ensures { IfOk result (λ exprs. exprs ≡ zero_outputs ports.now) }
{
    let mut exprs = Items::new(alloc);
    for port in ports {
        exprs.push(Expr::Lit(word_or(port.width, 0)))?;
    }
    Ok(exprs)
}

/// The expressions of all outputs in line order, by the `outputs` form at the front.
fn shown_by(
    alloc: Global,
    trees: &[Tree],
    ports: &[Port],
    names: &[Named],
) -> Result<Items<Expr>, LangFault>
    ensures { Gives result (shown_by names.now ports.now trees.now) }
{
    let trees = form_trees(trees, b"outputs")?;
    let mut outs = Items::new(alloc);
    declare_ports(alloc, Space::Output, ports, &mut outs)?;
    let entries = entries(alloc, trees, outs.as_slice(), names)?;
    let zeros = zero_outputs(alloc, ports)?;
    Ok(filled(zeros, entries))
}

/// The names that `outputs` sees: fields and inputs.
fn scope(alloc: Global, fields: &[Field], inputs: &[Port]) -> Result<Items<Named>, AllocError>
    ensures { IfOk result (λ names. names ≡ scope fields.now inputs.now) }
{
    let mut names = field_names(alloc, fields)?;
    declare_ports(alloc, Space::Input, inputs, &mut names)?;
    Ok(names)
}

/// The names that a power-on sees: fields and words of noise.
fn power_scope(alloc: Global, fields: &[Field], noise: &[Cell]) -> Result<Items<Named>, AllocError>
    ensures { IfOk result (λ names. names ≡ power_scope fields.now noise.now) }
{
    let mut names = field_names(alloc, fields)?;
    declare_words(alloc, Space::Noise, noise, &mut names)?;
    Ok(names)
}

/// `(power (local x w) .. stmt ..)`.
fn power_in(alloc: Global, tree: &Tree, names: Items<Named>) -> Result<Body, LangFault>
    ensures { Gives result (power_in names tree.now) }
{
    let parts = behind_head(tree, b"power")?;
    let home = Home::Plain;
    silent_body(alloc, &home, place_of(tree), parts, names)
}

/// The body of a `power` form, if one stands at the front.
fn power_of(alloc: Global, trees: &[Tree], names: Items<Named>) -> Result<Body, LangFault>
    ensures { Gives result (power_of names trees.now) }
{
    match trees.split_first() {
        Some((tree, _)) if is_headed(tree, b"power") => power_in(alloc, tree, names),
        _ => Ok(empty_body(alloc)),
    }
}

/// `(tick (local x w) .. stmt ..)`.
fn tick_in(
    alloc: Global,
    tree: &Tree,
    names: Items<Named>,
    ops: &[OpHead],
) -> Result<Body, LangFault>
    ensures { Gives result (tick_in names ops.now tree.now) }
{
    let parts = behind_head(tree, b"tick")?;
    let home = Home::Emulator(copied_ops(alloc, ops)?);
    silent_body(alloc, &home, place_of(tree), parts, names)
}

/// The body of a `tick` form, if there is one.
fn tick_of(
    alloc: Global,
    trees: &[Tree],
    names: Items<Named>,
    ops: &[OpHead],
) -> Result<Body, LangFault>
    ensures { Gives result (tick_of names ops.now trees.now) }
{
    match trees.split_first() {
        None => Ok(empty_body(alloc)),
        Some((tree, rest)) => {
            let body = tick_in(alloc, tree, names, ops)?;
            no_more(rest)?;
            Ok(body)
        }
    }
}

/// The power-on, the outputs and the tick of an emulator.
#[derive(Drop)]
struct Bodies {
    power: Body,
    outputs: Items<Expr>,
    tick: Body,
}

/// What stands behind the fields, where a power-on sees other names than outputs and tick.
fn all_bodies(
    alloc: Global,
    trees: &[Tree],
    powered: Items<Named>,
    names: Items<Named>,
    outs: &[Port],
    ops: &[OpHead],
) -> Result<Bodies, LangFault>
    ensures { Gives result (all_bodies powered names outs.now ops.now trees.now) }
{
    let power = power_of(alloc, trees, powered)?;
    let rest = behind_form(trees, b"power");
    let outputs = shown_by(alloc, rest, outs, names.as_slice())?;
    let tick = tick_of(alloc, behind_form(rest, b"outputs"), names, ops)?;
    Ok(Bodies {
        power,
        outputs,
        tick,
    })
}

/// What an emulator has of its circuit and its specification.
#[derive(Drop)]
struct Outside {
    ins: Items<u8>,
    outs: Items<u8>,
    noise: Items<Field>,
    cells: Items<Field>,
    ops: Items<OpHead>,
}

/// What an emulator has of a circuit and a specification, over the states that have words of noise.
fn outside_of(
    alloc: Global,
    c: &Circuit,
    s: &SpecProgram,
    noise: &[Cell],
) -> Result<Outside, AllocError>
    ensures { IfOk result (λ out. out ≡ outside_of c.now s.now noise.now) }
{
    Ok(Outside {
        ins: Items::from_slice(alloc, c.input_widths())?,
        outs: Items::from_slice(alloc, c.output_widths())?,
        noise: emu_machine::fields_of(alloc, noise)?,
        cells: emu_machine::fields_of(alloc, c.cells())?,
        ops: copied_ops(alloc, s.ops())?,
    })
}

/// The parts of an emulator that has no copy of the circuit.
fn together(alloc: Global, outside: Outside, fields: Fields, bodies: Bodies) -> EmuParts
    ensures { result ≡ together outside fields bodies }
{
    EmuParts {
        fields: fields.fields,
        init: fields.init,
        copy: false,
        ins: outside.ins,
        outs: outside.outs,
        noise: outside.noise,
        cells: outside.cells,
        funs: Items::new(alloc),
        ops: outside.ops,
        power: bodies.power,
        outputs: bodies.outputs,
        tick: bodies.tick,
    }
}

/// The bodies behind the fields, over the states that have words of noise.
fn bodies_behind(
    alloc: Global,
    trees: &[Tree],
    c: &Circuit,
    s: &SpecProgram,
    noise: &[Cell],
    fields: &[Field],
) -> Result<Bodies, LangFault>
    ensures { Gives result (bodies_behind c.now s.now noise.now fields.now trees.now) }
{
    let powered = power_scope(alloc, fields, noise)?;
    let names = scope(alloc, fields, c.inputs())?;
    all_bodies(alloc, trees, powered, names, c.outputs_list(), s.ops())
}

/// What stands in an emulator's list, over the states that have words of noise.
fn emulator_in(
    alloc: Global,
    parts: &[Tree],
    c: &Circuit,
    s: &SpecProgram,
    noise: &[Cell],
) -> Result<EmuParts, LangFault>
    ensures { Gives result (emulator_in c.now s.now noise.now parts.now) }
{
    let outside = outside_of(alloc, c, s, noise)?;
    let count = headed_count(parts, b"field");
    let fields = fields_of(alloc, &parts[..count])?;
    let rest = &parts[count..];
    let bodies = bodies_behind(alloc, rest, c, s, noise, fields.fields.as_slice())?;
    Ok(together(alloc, outside, fields, bodies))
}

/// The emulator of these parts, whose list is at the place.
fn emulator_made(at: Place, parts: EmuParts) -> Result<EmuProgram, LangFault>
    ensures { Gives result (emulator_made at parts) }
{
    match EmuProgram::new(parts) {
        Some(emulator) => Ok(emulator),
        None => Err(fault(at, LangWhy::Width)),
    }
}

/// The emulator of a tree.
fn emulator_at(
    alloc: Global,
    tree: &Tree,
    c: &Circuit,
    s: &SpecProgram,
    d: &DriverProgram,
) -> Result<EmuProgram, LangFault>
    ensures { Gives result (emulator_at c.now s.now d.now tree.now) }
{
    let parts = behind_head(tree, b"emulator")?;
    let noise = c.noise_cells(d.keep())?;
    let parts = emulator_in(alloc, parts, c, s, noise.as_slice())?;
    emulator_made(place_of(tree), parts)
}

/// The emulator of a tree, where other trees follow.
fn emulator_of(
    alloc: Global,
    tree: &Tree,
    more: &[Tree],
    c: &Circuit,
    s: &SpecProgram,
    d: &DriverProgram,
) -> Result<EmuProgram, LangFault>
    ensures { Gives result (emulator_of c.now s.now d.now tree.now more.now) }
{
    let emulator = emulator_at(alloc, tree, c, s, d)?;
    no_more(more)?;
    Ok(emulator)
}

/// The emulator that the trees of a text mean over a circuit, a specification and a driver, where
/// the text ends at a place. The driver says which cells are persistent, and so which states have
/// words of noise at power-on. Read today are fields of one word, `power` with `assign` and `if`,
/// `outputs`, and a `tick` with `query` besides.
pub fn read_emulator(
    alloc: Global,
    trees: &[Tree],
    end: Place,
    c: &Circuit,
    s: &SpecProgram,
    d: &DriverProgram,
) -> Result<EmuProgram, LangFault>
    ensures { Gives result (emulator_text c.now s.now d.now end trees.now) }
{
    match trees.split_first() {
        Some((tree, more)) => emulator_of(alloc, tree, more, c, s, d),
        None => Err(fault(end, LangWhy::Missing)),
    }
}
