//! The width of an operator's value, and which widths an operator takes.
ghost use Rattle.std.specs.Prelude.{◌≡◌, IsTrue};
ghost use Rattle.knox_words.specs.Ops.{op1_width, op2_width, fits2_of};
ghost use Rattle.knox_words.specs.Typing.{op2_typed, slice_typed, extended, ite_typed};

use crate::op::{Op1, Op2};

/// The width of an operator's value on a word of width `w`.
pub fn op1_width(o: Op1, w: u8) -> u8
    ensures { result ≡ op1_width o w }
{
    match o {
        Op1::Redand | Op1::Redor | Op1::Redxor => 1,
        _ => w,
    }
}

/// Whether an operator takes words of these widths.
///
/// `iff` and `implies` take two words of width 1, `concat` two words of at most 128 bits together,
/// and the others two words of one width.
pub fn fits2(o: Op2, a: u8, b: u8) -> bool
    ensures { result ≡ fits2_of o a b }
{
    match o {
        Op2::Iff | Op2::Implies => a == 1 && b == 1,
        Op2::Concat => u16::from(a) + u16::from(b) <= 128,
        _ => a == b,
    }
}

/// The width of an operator's value on words of widths that it takes, which `fits2` tests.
pub fn op2_width(o: Op2, v: u8, w: u8) -> u8
    requires { IsTrue (fits2_of o v w) }
    ensures { result ≡ op2_width o v w }
{
    match o {
        Op2::Iff | Op2::Implies | Op2::Eq | Op2::Neq => 1,
        Op2::Ugt | Op2::Ugte | Op2::Ult | Op2::Ulte => 1,
        Op2::Sgt | Op2::Sgte | Op2::Slt | Op2::Slte => 1,
        Op2::Concat => v + w,
        _ => v,
    }
}

/// The width of an operator's value on words of these widths. `None` exactly where it takes no such
/// words.
pub fn op2_typed(o: Op2, v: u8, w: u8) -> Option<u8>
    ensures { result ≡ op2_typed o v w }
{
    if fits2(o, v, w) {
        Some(op2_width(o, v, w))
    } else {
        None
    }
}

/// The width of the bits from `high` down to `low` of a word of width `w`. `None` exactly where the
/// places are not in order, or not within the word.
pub fn slice_typed(w: u8, high: u32, low: u32) -> Option<u8>
    ensures { result ≡ slice_typed w high low }
{
    if low <= high && high < u32::from(w) {
        Some((high - low + 1) as u8)
    } else {
        None
    }
}

/// The width of a word of width `w` in `n` bits more. `None` exactly above 128.
pub fn extended(w: u8, n: u32) -> Option<u8>
    ensures { result ≡ extended w n }
{
    let width = u64::from(w) + u64::from(n);
    if width <= 128 {
        Some(width as u8)
    } else {
        None
    }
}

/// The width of a choice, by a word of width `c`, between words of widths `a` and `b`. `None` exactly
/// where `c` is not 1, or the other two differ.
pub fn ite_typed(c: u8, a: u8, b: u8) -> Option<u8>
    ensures { result ≡ ite_typed c a b }
{
    if c == 1 && a == b { Some(a) } else { None }
}
