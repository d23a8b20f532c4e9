//! Quotients and remainders, without and with signs. None of them refuses a zero divisor.
ghost use Rattle.std.specs.Prelude.{◌≡◌, ◌-◌, ◌/◌, ◌%◌, ◌^◌, ◌==◌, if◌then◌else◌};
ghost use Rattle.knox_words.specs.Bits.{bits};
ghost use Rattle.knox_words.specs.Ops.{sdiv_value, srem_value, smod_value};

use crate::Word;
use crate::numbers::{distance, is_negative, low, negated, ones};

/// The quotient, all ones where the divisor is zero.
pub(crate) fn udiv(a: Word, b: Word) -> Word
    ensures { result ≡ bits a.width (if b.value == 0 then 2 ^ a.width - 1 else a.value / b.value) }
{
    Word {
        width: a.width,
        value: if b.value == 0 {
            ones(a.width)
        } else {
            a.value / b.value
        },
    }
}

/// The remainder, the dividend where the divisor is zero.
pub(crate) fn urem(a: Word, b: Word) -> Word
    ensures { result ≡ bits a.width (if b.value == 0 then a.value else a.value % b.value) }
{
    Word {
        width: a.width,
        value: if b.value == 0 {
            a.value
        } else {
            a.value % b.value
        },
    }
}

/// The quotient of words that are read with signs, rounded towards zero.
#[tactic(auto, using(crate::proofs::Signed::signed_quotients))]
pub(crate) fn sdiv(a: Word, b: Word) -> Word
    requires { a.width ≡ b.width }
    ensures { result ≡ sdiv_value a b }
{
    if b.value == 0 {
        return Word {
            width: a.width,
            value: if is_negative(a) { 1 } else { ones(a.width) },
        };
    }
    let quotient = distance(a) / distance(b);
    match (is_negative(a), is_negative(b)) {
        (false, false) | (true, true) => low(a.width, quotient),
        _ => negated(a.width, quotient),
    }
}

/// The remainder of words that are read with signs. Its sign is that of the dividend.
#[tactic(auto, using(crate::proofs::Signed::srem_pos, crate::proofs::Signed::srem_neg))]
pub(crate) fn srem(a: Word, b: Word) -> Word
    requires { a.width ≡ b.width }
    ensures { result ≡ srem_value a b }
{
    if b.value == 0 {
        return a;
    }
    let left = distance(a) % distance(b);
    if is_negative(a) {
        negated(a.width, left)
    } else {
        low(a.width, left)
    }
}

/// The remainder of words that are read with signs. Its sign is that of the divisor.
#[tactic(auto, using(crate::proofs::Signed::signed_rests))]
pub(crate) fn smod(a: Word, b: Word) -> Word
    requires { a.width ≡ b.width }
    ensures { result ≡ smod_value a b }
{
    if b.value == 0 {
        return a;
    }
    let divisor = distance(b);
    let left = distance(a) % divisor;
    let up = (divisor - left) % divisor;
    match (is_negative(a), is_negative(b)) {
        (false, false) => low(a.width, left),
        (true, true) => negated(a.width, left),
        (true, false) => low(a.width, up),
        (false, true) => negated(a.width, up),
    }
}
