//! The operators with one operand and with two.
ghost use Rattle.std.specs.Prelude.{◌≡◌, ◌+◌, ◌-◌, ◌*◌, ◌%◌, ◌^◌, IsTrue, bit_or, bit_xor};
ghost use Rattle.knox_words.specs.Bits.{bits, and_value};
ghost use Rattle.knox_words.specs.Ops.{op1_value, op2_value, fits2_of};

use crate::Word;
use crate::compare::is_below;
use crate::divide::{sdiv, smod, srem, udiv, urem};
use crate::numbers::{bit, low, negated, ones, word};
use crate::op::{Op1, Op2};
use crate::resize::concat;
use crate::shift::{rol, ror, sll, sra, srl};

/// The value of an operator on a word.
#[tactic(auto, using(crate::proofs::Masks::low_all))]
pub fn op1(o: Op1, a: Word) -> Word
    ensures { result ≡ op1_value o a }
{
    match o {
        Op1::Not => complement(a),
        Op1::Inc => low(a.width, a.value.wrapping_add(1)),
        Op1::Dec => low(a.width, a.value.wrapping_add(ones(a.width))),
        Op1::Neg => negated(a.width, a.value),
        Op1::Redand => bit(a.value == ones(a.width)),
        Op1::Redor => bit(a.value != 0),
        Op1::Redxor => low(1, u128::from(a.value.count_ones())),
    }
}

/// The value of an operator on two words of widths that it takes, which `fits2` tests.
#[tactic(auto, using(crate::proofs::Masks::low_all))]
pub fn op2(o: Op2, a: Word, b: Word) -> Word
    requires { IsTrue (fits2_of o a.width b.width) }
    ensures { result ≡ op2_value o a b }
{
    match o {
        Op2::Iff | Op2::Eq => bit(a.value == b.value),
        Op2::Implies => bit(a.value == 0 || b.value == 1),
        Op2::Neq => bit(a.value != b.value),
        Op2::Ugt => bit(a.value > b.value),
        Op2::Ugte => bit(a.value >= b.value),
        Op2::Ult => bit(a.value < b.value),
        Op2::Ulte => bit(a.value <= b.value),
        Op2::Sgt => bit(is_below(b, a)),
        Op2::Sgte => bit(!is_below(a, b)),
        Op2::Slt => bit(is_below(a, b)),
        Op2::Slte => bit(!is_below(b, a)),
        Op2::And => and(a, b),
        Op2::Nand => complement(and(a, b)),
        Op2::Nor => complement(or(a, b)),
        Op2::Or => or(a, b),
        Op2::Xnor => complement(xor(a, b)),
        Op2::Xor => xor(a, b),
        Op2::Sll => sll(a, b),
        Op2::Srl => srl(a, b),
        Op2::Sra => sra(a, b),
        Op2::Rol => rol(a, b),
        Op2::Ror => ror(a, b),
        Op2::Add => low(a.width, a.value.wrapping_add(b.value)),
        Op2::Sub => sub(a, b),
        Op2::Mul => low(a.width, a.value.wrapping_mul(b.value)),
        Op2::Udiv => udiv(a, b),
        Op2::Sdiv => sdiv(a, b),
        Op2::Urem => urem(a, b),
        Op2::Srem => srem(a, b),
        Op2::Smod => smod(a, b),
        Op2::Concat => concat(a, b),
    }
}

/// Bit by bit and, in the width of `a`.
pub fn and(a: Word, b: Word) -> Word
    ensures { result ≡ and_value a b }
{
    Word {
        width: a.width,
        value: a.value & b.value,
    }
}

#[tactic(auto, using(std::proofs::lemmas::Nat::or_lt))]
fn or(a: Word, b: Word) -> Word
    requires { a.width ≡ b.width }
    ensures { result ≡ bits a.width (bit_or a.value b.value) }
{
    word(a.width, a.value | b.value)
}

#[tactic(auto, using(std::proofs::lemmas::Nat::xor_lt))]
fn xor(a: Word, b: Word) -> Word
    requires { a.width ≡ b.width }
    ensures { result ≡ bits a.width (bit_xor a.value b.value) }
{
    word(a.width, a.value ^ b.value)
}

/// Every bit turned.
fn complement(a: Word) -> Word
    ensures { result ≡ bits a.width (2 ^ a.width - 1 - a.value) }
{
    word(a.width, ones(a.width) - a.value)
}

#[tactic(auto, using(crate::proofs::Masks::less_low))]
fn sub(a: Word, b: Word) -> Word
    requires { a.width ≡ b.width }
    ensures { result ≡ bits a.width ((a.value + (2 ^ a.width - b.value)) % 2 ^ a.width) }
{
    low(
        a.width,
        a.value.wrapping_add(negated(b.width, b.value).value),
    )
}
