//! Conditions over the words of a run.
ghost use Rattle.std.specs.Prelude.{◌≡◌, IfOk};
ghost use Rattle.script_core.specs.Hints.{seen, holds};

use knox_lang::{Expr, Fun, Spaces};
use knox_words::Words;
use std::alloc::{AllocError, Global};
use std::mem;

/// Whether a condition is 1 of the specification's fields, device words and the emulator's words,
/// which are as they were afterwards, also after want of memory.
pub(crate) fn holds(
    alloc: Global,
    funs: &[Fun],
    condition: &Expr,
    fields: &mut Words,
    cells: &mut Words,
    emu: &mut Words,
    bound: &mut Words,
) -> Result<bool, AllocError>
    ensures value { IfOk result (λ b. b ≡ holds funs.now condition.now (seen fields.old cells.old emu.old)) }
    ensures fields { fields.new ≡ fields.old }
    ensures cells { cells.new ≡ cells.old }
    ensures emu { emu.new ≡ emu.old }
{
    let mut spaces = Spaces::new(alloc);
    mem::swap(&mut spaces.spec, fields);
    mem::swap(&mut spaces.device, cells);
    mem::swap(&mut spaces.emu, emu);
    bound.clear();
    let value = knox_lang::eval_in(alloc, condition, funs, &spaces, bound);
    mem::swap(&mut spaces.spec, fields);
    mem::swap(&mut spaces.device, cells);
    mem::swap(&mut spaces.emu, emu);
    Ok(value?.value() == 1)
}
