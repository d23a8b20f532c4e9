//! Specifications: `(spec (field x w n) .. (op x ((x w) ..) w (local x w) .. stmt .. (result e))
//! ..)`.
ghost use Rattle.std.specs.Prelude.{◌≡◌, ◌≤◌, IfOk, OnOk, length, true};
ghost use Rattle.knox_lang.specs.WellFormed.{spec_fits};
ghost use Rattle.expr_read.specs.Views.{Gives};
ghost use Rattle.lang_read.specs.Bodies.{cut_last};
ghost use Rattle.lang_read.specs.Specifications.{args_of, nameless_op, op_name, op_of, named_op, op_ending, op_in, operation, operations, spec_in, spec_parts, made, spec_of, spec_text};

use crate::body::{MOST_COST, Priced, replying_body, within};
use crate::statement::{Home, earlier};
use expr_read::{
    LangFault, LangWhy, Named, arguments, behind_head, declare, fault, field_names, fields_of,
    forget, headed_count, is_headed, no_more, op_number, parts_of, place_of, symbol_of, width_of,
};
use knox_lang::{Body, OpHead, Space, SpecParts, SpecProgram};
use knox_sexpr::Tree;
use knox_text::Place;
use sqlite_items::Items;
use std::alloc::Global;

/// An operation without its name: the names and widths of its arguments, the width of its result,
/// and its body.
#[derive(Drop)]
struct Nameless {
    args: Items<(Items<u8>, u8)>,
    result: u8,
    body: Priced,
}

/// An operation: its head, and its body.
#[derive(Drop)]
struct OpParts {
    head: OpHead,
    body: Body,
}

/// Operations in order.
#[derive(Drop)]
struct OpList {
    heads: Items<OpHead>,
    bodies: Items<Body>,
}

/// The arguments `((x w) ..)`.
fn args_of(alloc: Global, tree: &Tree) -> Result<Items<(Items<u8>, u8)>, LangFault>
    ensures { Gives result (args_of tree.now) }
{
    let parts = parts_of(tree)?;
    arguments(alloc, parts)
}

/// The arguments, the width and the body of an operation. The names are the fields, here and
/// afterwards.
fn nameless_op(
    alloc: Global,
    names: &mut Items<Named>,
    args: &Tree,
    w: &Tree,
    stmts: &[Tree],
    last: &Tree,
) -> Result<Nameless, LangFault>
    ensures read { Gives result (nameless_op names.old args.now w.now stmts.now last.now) }
    ensures fields { OnOk result (names.new ≡ names.old) }
{
    let args = args_of(alloc, args)?;
    let result = width_of(w)?;
    let fields = names.len();
    declare(alloc, Space::Arg, args.as_slice(), names)?;
    let home = Home::Plain;
    let body = replying_body(alloc, &home, names, result, stmts, last)?;
    forget(names, fields);
    Ok(Nameless { args, result, body })
}

/// The name of an operation, which none before has.
fn op_name(alloc: Global, tree: &Tree, known: &[OpHead]) -> Result<Items<u8>, LangFault>
    ensures { Gives result (op_name known.now tree.now) }
{
    let name = symbol_of(tree)?;
    if op_number(name, known).is_some() {
        return Err(fault(place_of(tree), LangWhy::Twice));
    }
    let name = Items::from_slice(alloc, name)?;
    Ok(name)
}

fn op_of(name: Items<u8>, args: Items<(Items<u8>, u8)>, width: u8, body: Body) -> OpParts
    ensures { result ≡ op_of name args width body }
{
    OpParts {
        head: OpHead {
            name,
            args,
            result: width,
        },
        body,
    }
}

/// The operation whose name is a tree, and whose list is at the place.
fn named_op(
    alloc: Global,
    at: Place,
    known: &[OpHead],
    names: &mut Items<Named>,
    x: &Tree,
    args: &Tree,
    w: &Tree,
    stmts: &[Tree],
    last: &Tree,
) -> Result<OpParts, LangFault>
    ensures read { Gives result (named_op at (op_name known.now x.now) (nameless_op names.old args.now w.now stmts.now last.now)) }
    ensures fields { OnOk result (names.new ≡ names.old) }
{
    let name = op_name(alloc, x, known);
    match nameless_op(alloc, names, args, w, stmts, last) {
        Ok(op) => {
            let body = within(MOST_COST, at, op.body)?;
            let name = name?;
            Ok(op_of(name, op.args, op.result, body))
        }
        Err(behind) => Err(earlier(name, behind)),
    }
}

/// The operation whose statements and result are the last of its parts.
fn op_ending(
    alloc: Global,
    at: Place,
    known: &[OpHead],
    names: &mut Items<Named>,
    x: &Tree,
    args: &Tree,
    w: &Tree,
    ending: &[Tree],
) -> Result<OpParts, LangFault>
    ensures read { Gives result (op_ending at known.now names.old x.now args.now w.now (cut_last ending.now)) }
    ensures fields { OnOk result (names.new ≡ names.old) }
{
    match ending {
        [stmts @ .., last] => {
            if !is_headed(last, b"result") {
                return Err(fault(at, LangWhy::Form));
            }
            named_op(alloc, at, known, names, x, args, w, stmts, last)
        }
        [] => Err(fault(at, LangWhy::Form)),
    }
}

/// `(op x ((x w) ..) w stmt .. (result e))`. The names are the fields, here and afterwards.
fn op_in(
    alloc: Global,
    at: Place,
    known: &[OpHead],
    names: &mut Items<Named>,
    parts: &[Tree],
) -> Result<OpParts, LangFault>
    ensures read { Gives result (op_in at known.now names.old parts.now) }
    ensures fields { OnOk result (names.new ≡ names.old) }
{
    match parts {
        [_, x, args, w, ending @ ..] => op_ending(alloc, at, known, names, x, args, w, ending),
        _ => Err(fault(at, LangWhy::Form)),
    }
}

/// The operation of a tree.
fn operation(
    alloc: Global,
    tree: &Tree,
    known: &[OpHead],
    names: &mut Items<Named>,
) -> Result<OpParts, LangFault>
    ensures read { Gives result (operation names.old known.now tree.now) }
    ensures fields { OnOk result (names.new ≡ names.old) }
{
    if !is_headed(tree, b"op") {
        return Err(fault(place_of(tree), LangWhy::Form));
    }
    let parts = parts_of(tree)?;
    op_in(alloc, place_of(tree), known, names, parts)
}

/// Operations in order. The names are the fields, here and afterwards.
fn operations(alloc: Global, trees: &[Tree], names: &mut Items<Named>) -> Result<OpList, LangFault>
    ensures { Gives result (operations names.old trees.now) }
{
    let mut heads = Items::new(alloc);
    let mut bodies = Items::new(alloc);
    for tree in trees {
        let op = operation(alloc, tree, heads.as_slice(), names)?;
        heads.push(op.head)?;
        bodies.push(op.body)?;
    }
    Ok(OpList { heads, bodies })
}

/// The parts of a specification, whose fields are the trees before the place among them.
fn spec_in(alloc: Global, count: usize, trees: &[Tree]) -> Result<SpecParts, LangFault>
    requires { count ≤ length trees.now }
    ensures { Gives result (spec_in count trees.now) }
{
    let fields = fields_of(alloc, &trees[..count])?;
    let mut names = field_names(alloc, fields.fields.as_slice())?;
    let ops = operations(alloc, &trees[count..], &mut names)?;
    Ok(SpecParts {
        fields: fields.fields,
        init: fields.init,
        funs: Items::new(alloc),
        ops: ops.heads,
        bodies: ops.bodies,
    })
}

fn spec_parts(alloc: Global, tree: &Tree) -> Result<SpecParts, LangFault>
    ensures { Gives result (spec_parts tree.now) }
{
    let parts = behind_head(tree, b"spec")?;
    let count = headed_count(parts, b"field");
    spec_in(alloc, count, parts)
}

/// The specification of these parts, whose list is at the place.
fn made(at: Place, parts: SpecParts) -> Result<SpecProgram, LangFault>
    ensures { Gives result (made at parts) }
{
    match SpecProgram::new(parts) {
        Some(spec) => Ok(spec),
        None => Err(fault(at, LangWhy::Width)),
    }
}

/// The specification of a tree, where other trees follow.
fn spec_of(alloc: Global, tree: &Tree, more: &[Tree]) -> Result<SpecProgram, LangFault>
    ensures { Gives result (spec_of tree.now more.now) }
{
    let parts = spec_parts(alloc, tree)?;
    no_more(more)?;
    made(place_of(tree), parts)
}

/// The specification that the trees of a text mean, where the text ends at a place. Read today are
/// fields of one word and operations with `local`, `assign` and `if`.
pub fn read_spec(alloc: Global, trees: &[Tree], end: Place) -> Result<SpecProgram, LangFault>
    ensures read { Gives result (spec_text end trees.now) }
    ensures fits { IfOk result (λ p. spec_fits p ≡ true) }
{
    match trees.split_first() {
        Some((tree, more)) => spec_of(alloc, tree, more),
        None => Err(fault(end, LangWhy::Missing)),
    }
}
