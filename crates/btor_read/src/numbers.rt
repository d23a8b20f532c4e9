//! The numbers that tokens write in the places of a line.
ghost use Rattle.std.specs.Prelude.{◌≡◌};
ghost use Rattle.btor_read.specs.Numbers.{positive, number_or, node, signed, node_number as node_number_of};

use knox_text::{natural, natural_at_most};

/// The greatest number of a line, a sort or a size.
pub const GREATEST: u32 = 4_294_967_295;

/// The magnitude of the least number of 64 bits.
const LEAST: u128 = 1 << 63;

/// The number of a line, or how many nodes a list has, which is from 1 on.
pub fn positive(token: &[u8]) -> Option<u32>
    ensures { result ≡ positive token.now }
{
    let number = natural_at_most(GREATEST, token)?;
    if number == 0 { None } else { Some(number) }
}

/// A number of 32 bits, or another where it is greater.
pub fn number_or(beyond: u32, token: &[u8]) -> Option<u32>
    ensures { result ≡ number_or beyond token.now }
{
    let number = natural(token)?;
    if number > u128::from(GREATEST) {
        return Some(beyond);
    }
    Some(number as u32)
}

/// A node's number, which is below 0 behind a minus, or the greatest number where it doesn't fit.
fn node(negative: bool, magnitude: u128) -> i64
    ensures { result ≡ node negative magnitude }
{
    if negative {
        if magnitude > LEAST {
            return i64::MAX;
        }
        return (-(magnitude as i128)) as i64;
    }
    magnitude.min(LEAST - 1) as i64
}

fn signed(negative: bool, digits: &[u8]) -> Option<i64>
    ensures { result ≡ signed negative digits.now }
{
    let magnitude = natural(digits)?;
    Some(node(negative, magnitude))
}

/// The number of an operand's node.
pub fn node_number(token: &[u8]) -> Option<i64>
    ensures { result ≡ node_number_of token.now }
{
    match token {
        [] => None,
        [first, digits @ ..] => {
            if *first == b'-' {
                signed(true, digits)
            } else {
                signed(false, token)
            }
        }
    }
}
