//! Tests of words and widths, one for one.
ghost use Rattle.std.specs.Prelude.{◌≡◌};
ghost use Rattle.knox_words.specs.Lists.{are_widths, fits, fit};

use crate::Word;

/// Whether a word has this width.
pub fn has_width(a: Word, width: u8) -> bool
    ensures { result ≡ fits width a }
{
    a.width == width
}

/// Whether some words have these widths, one for one.
pub fn fits(widths: &[u8], words: &[Word]) -> bool
    ensures { result ≡ fit widths.now words.now }
{
    let mut left = widths;
    let mut others = words;
    while let Some((width, widths)) = left.split_first() {
        let Some((word, words)) = others.split_first() else {
            return false;
        };
        if !has_width(*word, *width) {
            return false;
        }
        left = widths;
        others = words;
    }
    others.is_empty()
}

/// Whether some numbers are widths of words, from 1 to 128.
pub fn are_widths(widths: &[u8]) -> bool
    ensures { result ≡ are_widths widths.now }
{
    widths.iter().all(|width| 1 <= *width && *width <= 128)
}
