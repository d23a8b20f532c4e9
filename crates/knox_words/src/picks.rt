//! What stands at the places that a mask marks: taken out of a list, and put back.
ghost use Rattle.std.specs.Prelude.{◌≡◌, IfOk, OnOk};
ghost use Rattle.knox_words.specs.Lists.{pick, merge};

use crate::{Word, Words};
use std::alloc::{AllocError, Global};

/// The items at the places that a mask marks. `Err` is want of memory.
pub fn pick<T: Copy + Drop>(alloc: Global, mask: &[bool], items: &[T]) -> Result<Vec<T>, AllocError>
    ensures { IfOk result (λ v. v.items ≡ pick mask.now items.now) }
{
    let mut out = Vec::new(alloc);
    let mut marks = mask;
    let mut left = items;
    while let Some((mark, more)) = marks.split_first() {
        let Some((item, rest)) = left.split_first() else {
            return Ok(out);
        };
        if *mark {
            out.push(*item)?;
        }
        marks = more;
        left = rest;
    }
    Ok(out)
}

/// Replaces all words of `out` by the words at the places that a mask marks. `Err` is want of memory.
pub fn pick_words(mask: &[bool], words: &[Word], out: &mut Words) -> Result<(), AllocError>
    ensures { OnOk result (out.new ≡ pick mask.now words.now) }
{
    out.clear();
    let mut marks = mask;
    let mut left = words;
    while let Some((mark, more)) = marks.split_first() {
        let Some((word, rest)) = left.split_first() else {
            return Ok(());
        };
        if *mark {
            out.push(*word)?;
        }
        marks = more;
        left = rest;
    }
    Ok(())
}

/// Replaces all words of `out` by those of `base`, with `others` in order at the places that a mask
/// marks. Where none of them is left, those of `base` stay. `Err` is want of memory.
pub fn merge_words(
    mask: &[bool],
    base: &[Word],
    others: &[Word],
    out: &mut Words,
) -> Result<(), AllocError>
    ensures { OnOk result (out.new ≡ merge mask.now base.now others.now) }
{
    out.clear();
    let mut marks = mask;
    let mut left = base;
    let mut fresh = others;
    while let Some((mark, more)) = marks.split_first() {
        let Some((word, rest)) = left.split_first() else {
            return Ok(());
        };
        let next = if *mark { fresh.split_first() } else { None };
        match next {
            Some((other, behind)) => {
                out.push(*other)?;
                fresh = behind;
            }
            None => out.push(*word)?,
        }
        marks = more;
        left = rest;
    }
    out.extend(left)
}
