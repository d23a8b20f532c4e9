//! The heads of a specification's operations once more.
ghost use Rattle.std.specs.Prelude.{◌≡◌, IfOk};

use knox_lang::OpHead;
use sqlite_items::Items;
use std::alloc::{AllocError, Global};

fn copied_args(
    alloc: Global,
    args: &[(Items<u8>, u8)],
) -> Result<Items<(Items<u8>, u8)>, AllocError>
    ensures { IfOk result (λ copy. copy ≡ args.now) }
{
    let mut copy = Items::new(alloc);
    for arg in args {
        let name = Items::from_slice(alloc, arg.0.as_slice())?;
        copy.push((name, arg.1))?;
    }
    Ok(copy)
}

pub(crate) fn copied_ops(alloc: Global, ops: &[OpHead]) -> Result<Items<OpHead>, AllocError>
    ensures { IfOk result (λ copy. copy ≡ ops.now) }
{
    let mut copy = Items::new(alloc);
    for op in ops {
        let name = Items::from_slice(alloc, op.name.as_slice())?;
        let args = copied_args(alloc, op.args.as_slice())?;
        let result = op.result;
        copy.push(OpHead { name, args, result })?;
    }
    Ok(copy)
}
