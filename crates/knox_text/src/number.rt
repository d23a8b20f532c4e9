//! Digits, and the numbers that tokens write.
ghost use Rattle.std.specs.Prelude.{◌≡◌, ◌≤◌, ◌^◌, min, IfSome, IfNone, Some, None};
ghost use Rattle.std.specs.Char.{digit_value};
ghost use Rattle.std.specs.List.{list_all};
ghost use Rattle.std.specs.Str.Parse.{digits_value};
ghost use Rattle.knox_text.specs.Numbers.{is_digit, natural as natural_of, at_most as at_most_of};

const TOO_LARGE: u128 = 1 << 64;

/// What a byte is worth as a digit, or 36 where it is none. Letters of either case are digits from
/// 10 on.
pub fn digit(byte: u8) -> u8
    ensures { result ≡ digit_value byte }
{
    match byte {
        b'0'..=b'9' => byte - 48,
        b'A'..=b'Z' => byte - 55,
        b'a'..=b'z' => byte - 87,
        _ => 36,
    }
}

fn all_digits(token: &[u8]) -> bool
    ensures { result ≡ list_all (is_digit 10) token.now }
{
    token.iter().all(|d| digit(*d) < 10)
}

/// The number that decimal digits write, or 2 ^ 64 where it is above that.
#[tactic(auto, using(std::proofs::lemmas::Int::Digits::digits_value_more))]
fn capped(digits: &[u8]) -> u128
    ensures { result ≡ min (digits_value 10 digits.now) (2 ^ 64) }
{
    let mut value = 0u128;
    for d in digits {
        value = (value * 10 + u128::from(digit(*d))).min(TOO_LARGE);
    }
    value
}

/// The number that a token writes in decimal digits, zeros in front allowed. One from 2 ^ 64 on
/// counts as 2 ^ 64. `None` where the token has another byte, or none.
#[tactic(auto, using(crate::proofs::Decimals::natural_steps))]
pub fn natural(token: &[u8]) -> Option<u128>
    ensures { result ≡ natural_of token.now }
{
    if token.is_empty() {
        return None;
    }
    if !all_digits(token) {
        return None;
    }
    Some(capped(token))
}

/// The number that a token writes in decimal digits, if it is not above a limit.
#[tactic(auto, using(crate::proofs::Decimals::limit_steps))]
pub fn natural_at_most(limit: u32, token: &[u8]) -> Option<u32>
    ensures { result ≡ at_most_of limit (natural_of token.now) }
{
    let number = natural(token)?;
    if number > u128::from(limit) {
        return None;
    }
    Some(number as u32)
}
