//! Sections: `(factory)`, `(boot-host)`, `(rest)`, `(wait)`, `(call op)` and `wire`.
ghost use Rattle.expr_read.specs.Views.{Gives};
ghost use Rattle.script_read.specs.Scripts.{once, none_behind, bare, op_at, op_named, call, wire_once, section};

use crate::draft::{Said, is_left};
use crate::item::{operand, wire};
use crate::scope::Names;
use expr_read::{
    LangFault, LangWhy, Named, behind_head, fault, is_headed, op_number, place_of, symbol_of,
};
use knox_lang::OpHead;
use knox_sexpr::Tree;
use knox_text::Place;
use script_core::Kind;
use std::alloc::{AllocError, Global};

/// A section of a kind that is left. Of another the fault is at the place.
fn once(at: Place, why: LangWhy, kind: Kind, left: &[Kind]) -> Result<Said, LangFault>
    ensures { Gives result (once at why kind left.now) }
{
    if is_left(kind, left) {
        Ok(Said::Host(kind))
    } else {
        Err(fault(at, why))
    }
}

/// Refuses what stands behind a word, whose list is at the place.
fn none_behind(at: Place, parts: &[Tree]) -> Result<(), LangFault>
    ensures { Gives result (none_behind at parts.now) }
{
    match parts {
        [] => Ok(()),
        [..] => Err(fault(at, LangWhy::Form)),
    }
}

/// A section that is its word alone.
fn bare(word: &[u8], kind: Kind, left: &[Kind], tree: &Tree) -> Result<Said, LangFault>
    ensures { Gives result (bare word.now kind left.now tree.now) }
{
    let parts = behind_head(tree, word)?;
    none_behind(place_of(tree), parts)?;
    once(place_of(tree), LangWhy::Form, kind, left)
}

/// The number of the operation that a tree names.
fn op_named(ops: &[OpHead], tree: &Tree) -> Result<u32, LangFault>
    ensures { Gives result (op_named ops.now tree.now) }
{
    let name = symbol_of(tree)?;
    match op_number(name, ops) {
        Some(number) => {
            let number = u32::try_from(number).map_err(|_| AllocError)?;
            Ok(number)
        }
        None => Err(fault(place_of(tree), LangWhy::UnknownName)),
    }
}

/// `(call op)`.
fn call(ops: &[OpHead], left: &[Kind], tree: &Tree) -> Result<Said, LangFault>
    ensures { Gives result (call ops.now left.now tree.now) }
{
    let name = operand(tree, b"call")?;
    let number = op_named(ops, name)?;
    once(place_of(name), LangWhy::Twice, Kind::Call(number), left)
}

/// The section `wire`, where it is left.
fn wire_once(alloc: Global, names: &[Named], left: &[Kind], tree: &Tree) -> Result<Said, LangFault>
    ensures { Gives result (wire_once names.now left.now tree.now) }
{
    if !is_left(Kind::Wire, left) {
        return Err(fault(place_of(tree), LangWhy::Form));
    }
    let cut = wire(alloc, tree, names)?;
    Ok(Said::Wire(cut))
}

/// What a section says, where these kinds are left.
pub(crate) fn section(
    alloc: Global,
    names: &Names,
    ops: &[OpHead],
    left: &[Kind],
    tree: &Tree,
) -> Result<Said, LangFault>
    ensures { Gives result (section names.now ops.now left.now tree.now) }
{
    if is_headed(tree, b"factory") {
        return bare(b"factory", Kind::Factory, left, tree);
    }
    if is_headed(tree, b"boot-host") {
        return bare(b"boot-host", Kind::BootHost, left, tree);
    }
    if is_headed(tree, b"rest") {
        return bare(b"rest", Kind::Rest, left, tree);
    }
    if is_headed(tree, b"wait") {
        return bare(b"wait", Kind::Wait, left, tree);
    }
    if is_headed(tree, b"call") {
        return call(ops, left, tree);
    }
    if is_headed(tree, b"wire") {
        return wire_once(alloc, names.cut.as_slice(), left, tree);
    }
    Err(fault(place_of(tree), LangWhy::Form))
}
