//! One entry, many times.
ghost use Rattle.std.specs.Prelude.{◌≡◌, ◌++◌, replicate, OnOk};

use std::alloc::AllocError;

/// Adds an entry so many times.
pub(crate) fn push_many<T: Copy + Drop>(
    list: &mut Vec<T>,
    count: u32,
    entry: T,
) -> Result<(), AllocError>
    ensures { OnOk result (list.new.items ≡ list.old.items ++ replicate count entry) }
{
    for _k in 0..count {
        list.push(entry)?;
    }
    Ok(())
}
