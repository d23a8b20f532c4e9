//! The order of words that are read with a sign.
ghost use Rattle.std.specs.Prelude.{◌≡◌, int_lt};
ghost use Rattle.knox_words.specs.Signs.{sg};

use crate::Word;
use crate::numbers::is_negative;

/// Whether `a` is below `b`, read with signs.
pub(crate) fn is_below(a: Word, b: Word) -> bool
    requires { a.width ≡ b.width }
    ensures { result ≡ int_lt (sg a.width a.value) (sg a.width b.value) }
{
    match (is_negative(a), is_negative(b)) {
        (false, true) => false,
        (true, false) => true,
        _ => a.value < b.value,
    }
}
