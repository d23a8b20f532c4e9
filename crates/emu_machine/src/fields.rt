//! Cells of a circuit as fields.
ghost use Rattle.std.specs.Prelude.{◌≡◌, map, IfOk};
ghost use Rattle.emu_machine.specs.Fields.{cell_field, same_index, same_field, name_cells};

use knox_circuit::Cell;
use knox_lang::Field;
use sqlite_items::Items;
use std::alloc::{AllocError, Global};

/// The fields that some cells are, in order.
pub fn fields_of(alloc: Global, cells: &[Cell]) -> Result<Items<Field>, AllocError>
    ensures { IfOk result (λ fields. fields ≡ map cell_field cells.now) }
{
    let mut fields = Items::new(alloc);
    for cell in cells {
        fields.push(Field {
            name: Items::from_slice(alloc, cell.name.as_slice())?,
            width: cell.width,
            index: cell.index,
            first: cell.first,
        })?;
    }
    Ok(fields)
}

fn same_index(a: Option<u8>, b: Option<u8>) -> bool
    ensures { result ≡ same_index a b }
{
    match (a, b) {
        (None, None) => true,
        (Some(i), Some(j)) => i == j,
        _ => false,
    }
}

/// Whether a field is a cell whose words begin at this place.
pub fn is_cell(field: &Field, cell: &Cell, first: u32) -> bool
    ensures { result ≡ same_field field.now (cell_field (record cell.now { first = first })) }
{
    field.name.as_slice() == cell.name.as_slice()
        && field.width == cell.width
        && same_index(field.index, cell.index)
        && field.first == first
}

/// Whether some fields are these cells, one for one.
pub fn name_cells(fields: &[Field], cells: &[Cell]) -> bool
    ensures { result ≡ name_cells fields.now cells.now }
{
    let mut left = fields;
    let mut right = cells;
    while let Some((field, more)) = left.split_first() {
        match right.split_first() {
            Some((cell, others)) if is_cell(field, cell, cell.first) => {
                left = more;
                right = others;
            }
            _ => return false,
        }
    }
    right.is_empty()
}
