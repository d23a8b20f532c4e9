//! Scripts of hints: `refine`, `idle` and sections, in any order.
ghost use Rattle.std.specs.Prelude.{◌≡◌, length, IfOk, true};
ghost use Rattle.expr_read.specs.Views.{Gives};
ghost use Rattle.script_core.specs.Hints.{script_fits};
ghost use Rattle.script_read.specs.Faults.{Tells};
ghost use Rattle.script_read.specs.Scripts.{names_for, nothing, form, forms, finished, text, script_text};

use crate::draft::{Draft, Said, add, finished, nothing};
use crate::fault::{ScriptFault, script_fault};
use crate::item::stated;
use crate::scope::{Names, names_for};
use crate::section::section;
use emu_machine::Device;
use expr_read::{LangFault, is_headed};
use knox_lang::OpHead;
use knox_sexpr::Tree;
use knox_text::Place;
use script_core::{Script, ScriptParts};
use std::alloc::Global;

/// What a tree says, beside what was read so far.
fn form(
    alloc: Global,
    names: &Names,
    ops: &[OpHead],
    draft: &Draft,
    tree: &Tree,
) -> Result<Said, LangFault>
    ensures { Gives result (form names.now ops.now draft.now tree.now) }
{
    if is_headed(tree, b"refine") {
        let known = draft.refine.is_some();
        let condition = stated(alloc, known, tree, b"refine", names.refine.as_slice())?;
        return Ok(Said::Refine(condition));
    }
    if is_headed(tree, b"idle") {
        let known = draft.idle.is_some();
        let condition = stated(alloc, known, tree, b"idle", names.idle.as_slice())?;
        return Ok(Said::Idle(condition));
    }
    section(alloc, names, ops, draft.left.as_slice(), tree)
}

/// What the trees of a text say.
fn forms(alloc: Global, names: &Names, ops: &[OpHead], trees: &[Tree]) -> Result<Draft, LangFault>
    ensures { Gives result (forms names.now ops.now (nothing (length ops.now)) trees.now) }
{
    let mut draft = nothing(alloc, ops.len())?;
    for tree in trees {
        let said = form(alloc, names, ops, &draft, tree)?;
        add(alloc, &mut draft, said)?;
    }
    Ok(draft)
}

/// The parts of the script of a text that ends at a place.
fn text(
    alloc: Global,
    names: &Names,
    ops: &[OpHead],
    end: Place,
    trees: &[Tree],
) -> Result<ScriptParts, LangFault>
    ensures { Gives result (text names.now ops.now end trees.now) }
{
    let draft = forms(alloc, names, ops, trees)?;
    finished(end, draft)
}

/// The script of these parts, which are of the form.
fn script_of(dev: &Device, parts: ScriptParts) -> Script
    requires { script_fits (length dev.now.spec.ops) parts ≡ true }
    ensures { result ≡ parts }
{
    match Script::new(dev, parts) {
        Some(script) => script,
        None => unreachable!(),
    }
}

/// The script of the trees of a text for a device.
fn script_for(alloc: Global, trees: &[Tree], end: Place, dev: &Device) -> Result<Script, LangFault>
    ensures { Gives result (text (names_for dev.now.circuit dev.now.spec dev.now.driver dev.now.emulator) dev.now.spec.ops end trees.now) }
{
    let names = names_for(alloc, dev)?;
    let parts = text(alloc, &names, dev.spec.ops(), end, trees)?;
    Ok(script_of(dev, parts))
}

/// The script of hints that the trees of a text mean for a device, where the text ends at a place:
/// one `refine`, one `idle` and a section of each kind, in any order.
pub fn read_script(
    alloc: Global,
    trees: &[Tree],
    end: Place,
    dev: &Device,
) -> Result<Script, ScriptFault>
    ensures { Tells result (script_text dev.now.circuit dev.now.spec dev.now.driver dev.now.emulator end trees.now) }
{
    match script_for(alloc, trees, end, dev) {
        Ok(script) => Ok(script),
        Err(fault) => Err(script_fault(fault)),
    }
}
