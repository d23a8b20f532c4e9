//! The numbers that tokens spell.
ghost use Rattle.std.specs.Prelude.{◌≡◌};
ghost use Rattle.knox_text.specs.Numbers.{natural as natural_of};
ghost use Rattle.proof_text.specs.Numbers.{with_sign, number_of, unsigned as unsigned_of};

use knox_text::natural;

/// A number with its sign, which may stand before 0 too. A magnitude from 2 ^ 64 on counts as 2 ^ 64.
#[derive(Clone, Copy)]
pub struct Number {
    pub negative: bool,
    pub magnitude: u128,
}

fn signed(negative: bool, digits: &[u8]) -> Option<Number>
    ensures { result ≡ with_sign negative (natural_of digits.now) }
{
    match natural(digits) {
        None => None,
        Some(magnitude) => Some(Number {
            negative,
            magnitude,
        }),
    }
}

/// The number that a token spells.
pub fn read_number(token: &[u8]) -> Option<Number>
    ensures { result ≡ number_of token.now }
{
    match token {
        [] => None,
        [first, digits @ ..] => {
            if *first == b'-' {
                signed(true, digits)
            } else {
                signed(false, token)
            }
        }
    }
}

/// A number without a minus.
pub fn unsigned(token: &[u8]) -> Option<u128>
    ensures { result ≡ unsigned_of (number_of token.now) }
{
    match read_number(token) {
        None => None,
        Some(number) => {
            if number.negative {
                None
            } else {
                Some(number.magnitude)
            }
        }
    }
}
