//! Words made of machine numbers, and the signed reading of a word as machine numbers.
ghost use Rattle.std.specs.Prelude.{◌≡◌, ◌+◌, ◌-◌, ◌%◌, ◌<◌, ◌≤◌, ◌^◌, nat_le};
ghost use Rattle.knox_words.specs.Bits.{bits, truth};
ghost use Rattle.knox_words.specs.Signs.{magnitude};

use crate::Word;

/// 2 ^ width - 1
pub(crate) fn ones(width: u8) -> u128
    requires wide { 1 ≤ width }
    requires narrow { width ≤ 128 }
    ensures { result + 1 ≡ 2 ^ width }
{
    if width == 128 {
        u128::MAX
    } else {
        (1u128 << width) - 1
    }
}

/// A word of the lowest bits of a number.
#[tactic(auto, using(crate::proofs::Masks::masked))]
pub(crate) fn low(width: u8, value: u128) -> Word
    requires wide { 1 ≤ width }
    requires narrow { width ≤ 128 }
    ensures { result ≡ bits width (value % 2 ^ width) }
{
    Word {
        width,
        value: value & ones(width),
    }
}

/// A word of a number that fits.
pub(crate) fn word(width: u8, value: u128) -> Word
    requires wide { 1 ≤ width }
    requires narrow { width ≤ 128 }
    requires fits { value < 2 ^ width }
    ensures { result ≡ bits width value }
{
    Word { width, value }
}

/// A word of width 1.
pub(crate) fn bit(holds: bool) -> Word
    ensures { result ≡ truth holds }
{
    Word {
        width: 1,
        value: if holds { 1 } else { 0 },
    }
}

/// 2 ^ (width - 1)
fn half(width: u8) -> u128
    requires wide { 1 ≤ width }
    requires narrow { width ≤ 128 }
    ensures { result ≡ 2 ^ (width - 1) }
{
    1u128 << (width - 1)
}

/// Whether a word is below zero, read with a sign.
pub(crate) fn is_negative(a: Word) -> bool
    ensures { result ≡ nat_le (2 ^ (a.width - 1)) a.value }
{
    a.value >= half(a.width)
}

/// The distance from zero, read with a sign.
pub(crate) fn distance(a: Word) -> u128
    ensures { result ≡ magnitude a.width a.value }
{
    if is_negative(a) {
        ones(a.width) - a.value + 1
    } else {
        a.value
    }
}

/// A number below 2 ^ width, with the other sign.
#[tactic(auto, using(crate::proofs::Masks::low_all))]
pub(crate) fn negated(width: u8, value: u128) -> Word
    requires wide { 1 ≤ width }
    requires narrow { width ≤ 128 }
    requires fits { value < 2 ^ width }
    ensures { result ≡ bits width ((2 ^ width - value) % 2 ^ width) }
{
    low(width, (ones(width) - value).wrapping_add(1))
}
