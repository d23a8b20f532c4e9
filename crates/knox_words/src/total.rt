//! The operators for callers that know no widths: where a condition fails the answer is the zero
//! word of width 1, and words of a list past its end are that word too.
ghost use Rattle.std.specs.Prelude.{◌≡◌, ◌+◌};
ghost use Rattle.knox_words.specs.Bits.{bits, word_or, word_at, ite_value};
ghost use Rattle.knox_words.specs.Ops.{op2_or, slice_or, sext_or, uext_or};

use crate::numbers::{ones, word};
use crate::op::Op2;
use crate::{Word, fits2, op2, sext, slice, uext};

/// The zero word of width 1.
pub fn zero() -> Word
    ensures { result ≡ bits 1 0 }
{
    word(1, 0)
}

/// `op2` where the operator takes words of these widths, and else the zero word of width 1.
pub fn op2_or(o: Op2, a: Word, b: Word) -> Word
    ensures { result ≡ op2_or o a b }
{
    if fits2(o, a.width, b.width) {
        op2(o, a, b)
    } else {
        zero()
    }
}

/// `slice` where the places are in order and within the word, and else the zero word of width 1.
pub fn slice_or(a: Word, high: u8, low_bit: u8) -> Word
    ensures { result ≡ slice_or a high low_bit }
{
    if low_bit <= high && high < a.width {
        slice(a, high, low_bit)
    } else {
        zero()
    }
}

/// `sext` where the width stays at most 128, and else the zero word of width 1.
pub fn sext_or(a: Word, n: u8) -> Word
    ensures { result ≡ sext_or a n }
{
    if u16::from(a.width) + u16::from(n) <= 128 {
        sext(a, n)
    } else {
        zero()
    }
}

/// `uext` where the width stays at most 128, and else the zero word of width 1.
pub fn uext_or(a: Word, n: u8) -> Word
    ensures { result ≡ uext_or a n }
{
    if u16::from(a.width) + u16::from(n) <= 128 {
        uext(a, n)
    } else {
        zero()
    }
}

/// `a` where the value of `c` is 1, and else `b`, whatever the widths. This is `ite` without its
/// conditions.
pub fn choose(c: Word, a: Word, b: Word) -> Word
    ensures { result ≡ ite_value c a b }
{
    if c.value == 1 { a } else { b }
}

/// The word of a width and a number, and the zero word of width 1 where there is none.
pub fn word_or(width: u8, value: u128) -> Word
    ensures { result ≡ word_or width value }
{
    if 1 <= width && width <= 128 && (width == 128 || value <= ones(width)) {
        word(width, value)
    } else {
        zero()
    }
}

/// A word of a list, and the zero word of width 1 past its end.
pub fn word_at(words: &[Word], at: usize) -> Word
    ensures { result ≡ word_at words.now at }
{
    if at < words.len() { words[at] } else { zero() }
}

/// A word of a list some places on, and the zero word of width 1 past its end.
#[tactic(auto, using(std::proofs::lemmas::List::get_or_past))]
pub fn word_far(words: &[Word], first: u32, more: u128) -> Word
    ensures { result ≡ word_at words.now (first + more) }
{
    if more < words.len() as u128 {
        word_at(words, first as usize + more as usize)
    } else {
        zero()
    }
}
