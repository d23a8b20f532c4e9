//! Words joined, cut out, extended and chosen.
ghost use Rattle.std.specs.Prelude.{◌≡◌, ◌+◌, ◌*◌, ◌<◌, ◌≤◌, ◌^◌};
ghost use Rattle.knox_words.specs.Bits.{bits, ite_value};
ghost use Rattle.knox_words.specs.Ops.{slice_value, uext_value, sext_value};

use crate::numbers::{is_negative, low, ones, word};
use crate::{Word, choose};

/// The bits of `a`, and then those of `b`.
#[tactic(auto, using(crate::proofs::Masks::joined_below, crate::proofs::Masks::joined_whole, crate::proofs::Masks::joined_fits))]
pub(crate) fn concat(a: Word, b: Word) -> Word
    requires { a.width + b.width ≤ 128 }
    ensures { result ≡ bits (a.width + b.width) (a.value * 2 ^ b.width + b.value) }
{
    word(a.width + b.width, (a.value << b.width) + b.value)
}

/// The bits from `high` down to `low_bit`, where bit 0 is the lowest.
pub fn slice(a: Word, high: u8, low_bit: u8) -> Word
    requires order { low_bit ≤ high }
    requires within { high < a.width }
    ensures { result ≡ slice_value a high low_bit }
{
    low(high - low_bit + 1, a.value >> low_bit)
}

/// The same number in `n` bits more.
#[tactic(auto, using(crate::proofs::Masks::wider))]
pub fn uext(a: Word, n: u8) -> Word
    requires { a.width + n ≤ 128 }
    ensures { result ≡ uext_value a n }
{
    word(a.width + n, a.value)
}

/// The same number, read with a sign, in `n` bits more.
#[tactic(auto, using(crate::proofs::Masks::wider, crate::proofs::Signed::sext_neg, crate::proofs::Signed::sext_pos))]
pub fn sext(a: Word, n: u8) -> Word
    requires { a.width + n ≤ 128 }
    ensures { result ≡ sext_value a n }
{
    let width = a.width + n;
    if is_negative(a) {
        low(width, ones(width) - (ones(a.width) - a.value))
    } else {
        low(width, a.value)
    }
}

/// `a` where the condition, of width 1, is 1, and else `b`, of the same width.
pub fn ite(c: Word, a: Word, b: Word) -> Word
    requires condition { c.width ≡ 1 }
    requires same { a.width ≡ b.width }
    ensures { result ≡ ite_value c a b }
{
    choose(c, a, b)
}
