//! The words of constant lines.
ghost use Rattle.std.specs.Prelude.{◌≡◌, ◌≤◌, ◌+◌, ◌*◌, ◌^◌, ◌-◌, Some, None};
ghost use Rattle.std.specs.Str.Parse.{digits_value};
ghost use Rattle.knox_words.specs.Bits.{word_or};
ghost use Rattle.circuit_table.specs.Literals.{decimal, limited, limited_more};

use crate::constants;
use knox_words::{Op1, Word};

/// A number with one digit more; `None` from 2 ^ 128 on.
#[tactic(auto, using(crate::proofs::LiteralsLemmas::number_steps))]
fn with_digit(value: u128, base: u8, digit: u8) -> Option<u128>
    ensures { result ≡ limited (value * base + digit) }
{
    let Some(more) = value.checked_mul(u128::from(base)) else {
        return None;
    };
    more.checked_add(u128::from(digit))
}

/// The same of a number that may be none already.
fn then_digit(value: Option<u128>, base: u8, digit: u8) -> Option<u128>
    ensures { result ≡ limited_more value base digit }
{
    match value {
        None => None,
        Some(value) => with_digit(value, base, digit),
    }
}

/// The number that digits write; `None` from 2 ^ 128 on.
#[tactic(auto, using(crate::proofs::LiteralsLemmas::limit_steps, std::proofs::lemmas::Int::Digits::digits_value_more))]
fn number(base: u8, digits: &[u8]) -> Option<u128>
    requires { 1 ≤ base }
    ensures { result ≡ limited (digits_value base digits.now) }
{
    let mut value = Some(0u128);
    for d in digits {
        value = then_digit(value, base, constants::digit(*d));
    }
    value
}

/// The word of a width and the number that digits write, or the zero word where there is none.
#[tactic(auto, using(crate::proofs::LiteralsLemmas::word_steps))]
pub fn word_written(width: u8, base: u8, digits: &[u8]) -> Word
    requires { 1 ≤ base }
    ensures { result ≡ word_or width (digits_value base digits.now) }
{
    match number(base, digits) {
        None => knox_words::zero(),
        Some(value) => knox_words::word_or(width, value),
    }
}

/// The word of a decimal constant, in two's complement where it has a sign.
pub fn decimal(width: u8, digits: &[u8]) -> Word
    ensures { result ≡ decimal width digits.now }
{
    match digits.split_first() {
        None => knox_words::word_or(width, 0),
        Some((first, rest)) => {
            if *first == 45 {
                knox_words::op1(Op1::Neg, word_written(width, 10, rest))
            } else {
                word_written(width, 10, digits)
            }
        }
    }
}

/// The word of a width whose bits are all 1, or the zero word where there is none.
pub fn ones(width: u8) -> Word
    ensures { result ≡ word_or width (2 ^ width - 1) }
{
    if width <= 128 {
        knox_words::word_or(width, constants::greatest(width))
    } else {
        knox_words::zero()
    }
}
