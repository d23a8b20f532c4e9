//! The digits of constants, and whether their value fits a width.
ghost use Rattle.std.specs.Prelude.{◌≡◌, ◌<◌, ◌≤◌, ◌+◌, ◌-◌, ◌*◌, ◌^◌, nat_le, OnSome, IfSome, IfNone};
ghost use Rattle.std.specs.Char.{digit_value};
ghost use Rattle.std.specs.Str.Parse.{digits_value};
ghost use Rattle.circuit_table.specs.Constants.{all_digits, writes_up_to, is_unsigned, is_decimal};

/// What a byte is worth as a digit, or 36 where it is none.
pub fn digit(byte: u8) -> u8
    ensures { result ≡ digit_value byte }
{
    match byte {
        b'0'..=b'9' => byte - 48,
        b'A'..=b'Z' => byte - 55,
        b'a'..=b'z' => byte - 87,
        _ => 36,
    }
}

fn all_digits(base: u8, digits: &[u8]) -> bool
    ensures { result ≡ all_digits base digits.now }
{
    digits.iter().all(|d| digit(*d) < base)
}

/// A number with one digit more, if it isn't above another.
#[tactic(auto, using(crate::proofs::ConstantsLemmas::push_steps))]
fn push_digit(value: u128, base: u128, digit: u128, most: u128) -> Option<u128>
    requires { 0 < base }
    ensures found { OnSome result (value * base + digit ≤ most) }
    ensures value { IfSome result (λ more. more ≡ value * base + digit) }
    ensures none { IfNone result (most < value * base + digit) }
{
    if digit > most {
        return None;
    }
    if value > (most - digit) / base {
        return None;
    }
    Some(value * base + digit)
}

/// Whether the value of digits is at most some number.
#[tactic(auto, using(crate::proofs::ConstantsLemmas::value_steps))]
fn is_at_most(base: u8, most: u128, digits: &[u8]) -> bool
    requires { 0 < base }
    ensures { result ≡ nat_le (digits_value base digits.now) most }
{
    let mut value = 0u128;
    for d in digits {
        match push_digit(value, u128::from(base), u128::from(digit(*d)), most) {
            None => return false,
            Some(more) => value = more,
        }
    }
    true
}

/// Whether bytes are one digit or more, whose value is at most some number.
fn writes_up_to(base: u8, most: u128, digits: &[u8]) -> bool
    requires { 0 < base }
    ensures { result ≡ writes_up_to base most digits.now }
{
    if digits.is_empty() {
        return false;
    }
    if !all_digits(base, digits) {
        return false;
    }
    is_at_most(base, most, digits)
}

/// The greatest word of a width.
pub fn greatest(width: u8) -> u128
    requires { width ≤ 128 }
    ensures { result ≡ 2 ^ width - 1 }
{
    if width == 128 {
        u128::MAX
    } else {
        (1u128 << width) - 1
    }
}

/// 2 to the power of a width less 1.
fn half(width: u8) -> u128
    requires { width ≤ 128 }
    ensures { result ≡ 2 ^ (width - 1) }
{
    if width == 0 { 1 } else { 1u128 << (width - 1) }
}

/// Whether bytes are a word of a width, without a sign.
pub fn is_unsigned(base: u8, width: u8, digits: &[u8]) -> bool
    requires base { 0 < base }
    requires width { width ≤ 128 }
    ensures { result ≡ is_unsigned base width digits.now }
{
    writes_up_to(base, greatest(width), digits)
}

/// Whether bytes are a decimal word of a width: without a sign, or behind a `-` in two's
/// complement.
pub fn is_decimal(width: u8, digits: &[u8]) -> bool
    requires { width ≤ 128 }
    ensures { result ≡ is_decimal width digits.now }
{
    match digits.split_first() {
        None => false,
        Some((first, rest)) => {
            if *first == b'-' {
                writes_up_to(10, half(width), rest)
            } else {
                is_unsigned(10, width, digits)
            }
        }
    }
}
