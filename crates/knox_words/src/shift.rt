//! Shifts and rotations. A shift by the width or more moves every bit out.
ghost use Rattle.std.specs.Prelude.{◌≡◌, ◌-◌, ◌*◌, ◌/◌, ◌%◌, ◌<◌, ◌≤◌, ◌^◌, nat_lt, min, if◌then◌else◌};
ghost use Rattle.knox_words.specs.Bits.{bits};
ghost use Rattle.knox_words.specs.Ops.{rotation, sra_value};

use crate::Word;
use crate::numbers::{is_negative, low, ones, word};

/// A word moved left.
#[tactic(auto, using(crate::proofs::Masks::shifted_all, crate::proofs::Masks::left_below))]
pub(crate) fn sll(a: Word, b: Word) -> Word
    ensures { result ≡ bits a.width (if nat_lt b.value a.width then (a.value * 2 ^ b.value) % 2 ^ a.width else 0) }
{
    if b.value >= u128::from(a.width) {
        return word(a.width, 0);
    }
    let by = b.value as u8;
    word(a.width, (a.value & ones(a.width - by)) << by)
}

/// A number below 2 ^ width, moved right.
fn moved(width: u8, from: u128, by: u128) -> u128
    requires narrow { width ≤ 128 }
    requires fits { from < 2 ^ width }
    ensures { result ≡ from / 2 ^ min by width }
{
    if by < u128::from(width) {
        from >> (by as u8)
    } else {
        0
    }
}

/// A word moved right, filled with zeros.
#[tactic(auto, using(crate::proofs::Masks::moved_whole))]
pub(crate) fn srl(a: Word, b: Word) -> Word
    ensures { result ≡ bits a.width (if nat_lt b.value a.width then a.value / 2 ^ b.value else 0) }
{
    low(a.width, moved(a.width, a.value, b.value))
}

/// A word moved right, filled with its highest bit.
#[tactic(auto, using(crate::proofs::Signed::sra_neg))]
pub(crate) fn sra(a: Word, b: Word) -> Word
    ensures { result ≡ sra_value a b }
{
    let all = ones(a.width);
    if is_negative(a) {
        low(a.width, all - moved(a.width, all - a.value, b.value))
    } else {
        low(a.width, moved(a.width, a.value, b.value))
    }
}

/// A word rotated left by some places, fewer than its width.
#[tactic(auto, using(crate::proofs::Masks::shifted_all, crate::proofs::Masks::rotation_below, crate::proofs::Masks::rotation_fits, crate::proofs::Masks::rotation_none))]
fn rotate(a: Word, by: u8) -> Word
    requires { by < a.width }
    ensures { result ≡ rotation a by }
{
    if by == 0 {
        return a;
    }
    let stay = a.width - by;
    let up = (a.value & ones(stay)) << by;
    word(a.width, up + (a.value >> stay))
}

/// A word rotated left.
pub(crate) fn rol(a: Word, b: Word) -> Word
    ensures { result ≡ rotation a (b.value % a.width) }
{
    rotate(a, (b.value % u128::from(a.width)) as u8)
}

/// A word rotated right.
pub(crate) fn ror(a: Word, b: Word) -> Word
    ensures { result ≡ rotation a ((a.width - b.value % a.width) % a.width) }
{
    let right = (b.value % u128::from(a.width)) as u8;
    rotate(a, (a.width - right) % a.width)
}
