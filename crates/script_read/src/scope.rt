//! The names that conditions see.
ghost use Rattle.std.specs.Prelude.{◌≡◌, IfOk};
ghost use Rattle.script_read.specs.Scripts.{refine_names, all_cells, idle_names, cut_names, names_for};

use emu_machine::Device;
use expr_read::{Named, declare_fields, declare_marked};
use knox_circuit::Cell;
use knox_lang::Space;
use sqlite_items::Items;
use std::alloc::{AllocError, Global};

/// The names that conditions see: `refine`, `idle` and a cut.
#[derive(Drop)]
pub(crate) struct Names {
    pub refine: Items<Named>,
    pub idle: Items<Named>,
    pub cut: Items<Named>,
}

/// The names that `refine` sees: `(s x)`, and `(c x)` of persistent cells.
fn refine_names(alloc: Global, dev: &Device) -> Result<Items<Named>, AllocError>
    ensures { IfOk result (λ names. names ≡ refine_names dev.now.circuit dev.now.spec dev.now.driver) }
{
    let mut names = Items::new(alloc);
    declare_fields(alloc, Space::Spec, dev.spec.fields(), &mut names)?;
    declare_marked(alloc, dev.circuit.cells(), dev.driver.keep(), &mut names)?;
    Ok(names)
}

/// The marks of cells all of which are marked.
fn all_cells(alloc: Global, cells: &[Cell]) -> Result<Items<bool>, AllocError>
    ensures { IfOk result (λ marks. marks ≡ all_cells cells.now) }
{
    let mut marks = Items::new(alloc);
    for cell in cells {
        let _marked = cell;
        marks.push(true)?;
    }
    Ok(marks)
}

/// The names that `idle` sees: `(s x)`, and `(c x)` of every cell.
fn idle_names(alloc: Global, dev: &Device) -> Result<Items<Named>, AllocError>
    ensures { IfOk result (λ names. names ≡ idle_names dev.now.circuit dev.now.spec) }
{
    let mut names = Items::new(alloc);
    declare_fields(alloc, Space::Spec, dev.spec.fields(), &mut names)?;
    let marks = all_cells(alloc, dev.circuit.cells())?;
    declare_marked(alloc, dev.circuit.cells(), marks.as_slice(), &mut names)?;
    Ok(names)
}

/// The names that a cut sees: those that `idle` sees, and `(e x)`.
fn cut_names(alloc: Global, dev: &Device) -> Result<Items<Named>, AllocError>
    ensures { IfOk result (λ names. names ≡ cut_names dev.now.circuit dev.now.spec dev.now.emulator) }
{
    let mut names = idle_names(alloc, dev)?;
    declare_fields(alloc, Space::Emu, dev.emulator.fields(), &mut names)?;
    Ok(names)
}

/// The names that the conditions of a script see.
pub(crate) fn names_for(alloc: Global, dev: &Device) -> Result<Names, AllocError>
    ensures { IfOk result (λ names. names ≡ names_for dev.now.circuit dev.now.spec dev.now.driver dev.now.emulator) }
{
    let refine = refine_names(alloc, dev)?;
    let idle = idle_names(alloc, dev)?;
    let cut = cut_names(alloc, dev)?;
    Ok(Names { refine, idle, cut })
}
