//! Texts that are one edit away from others.
ghost use Rattle.std.specs.Prelude.{IfOk};
ghost use Rattle.example_texts.specs.Edits.{Edited};

use std::alloc::{AllocError, Global};

/// A text with the first piece of this form replaced, or nothing where no such piece is in it.
pub fn edited(alloc: Global, text: &[u8], old: &[u8], new: &[u8]) -> Result<Vec<u8>, AllocError>
    ensures { IfOk result (λ out. Edited text.now old.now new.now out.items) }
{
    for k in 0..text.len() {
        let (before, left) = text.split_at(k);
        if let Some(after) = left.strip_prefix(old) {
            let mut out = Vec::from_slice(alloc, before)?;
            out.extend_from_slice(new)?;
            out.extend_from_slice(after)?;
            return Ok(out);
        }
    }
    Ok(Vec::new(alloc))
}
