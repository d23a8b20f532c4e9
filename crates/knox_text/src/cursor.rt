//! A cursor over the bytes of a text, and the numbers that it reads.
ghost use Rattle.std.specs.Prelude.{◌≡◌, ◌≤◌, ◌<◌, ◌+◌, ◌*◌, ◌^◌, ◌⊎◌, SomeIff, OnOk, length, slice_get};
ghost use Rattle.knox_text.specs.Places.{start_of, end_of, moved, past};
ghost use Rattle.knox_text.specs.Numbers.{digits_at, number_at, past_number};

use crate::number::digit;
use crate::place::Place;
use std::marker::Model;

/// No number stands here. The place is the byte where a digit had to stand, or the first digit
/// that takes the value to 2 ^ 128 or more.
#[derive(Clone, Copy, Debug, PartialEq, Eq)]
pub struct BadNumber(pub Place);

/// Goes over the bytes of a text from left to right. Contracts see the bytes that are left, and the
/// place of the first of them, or of the end.
#[derive(Drop)]
pub struct Cursor<'a> {
    rest: &'a [u8],
    at: Place,
}

impl<'a> Model for Cursor<'a> {
    ghost use Rattle.knox_text.specs.Spot.{Spot};

    ghost Value = { Spot };

    ghost use Rattle.knox_text.specs.Inside.{spot_of, HasRoom};

    ghost view = { spot_of };

    ghost invariant = { HasRoom };
}

impl<'a> Cursor<'a> {
    /// Stands at the first byte, which is byte 1 of line 1. A text has at most 64 MiB.
    pub fn new(bytes: &'a [u8]) -> Cursor<'a>
        requires { length bytes.now ≤ 67108864 }
        ensures { result ≡ start_of bytes.now }
    {
        Cursor {
            rest: bytes,
            at: Place { line: 1, column: 1 },
        }
    }

    /// The byte that the cursor stands at, or `None` at the end.
    pub fn peek(&self) -> Option<u8>
        ensures { result ≡ slice_get self.now.rest 0 }
    {
        self.rest.first().copied()
    }

    /// The place of that byte, or of the end.
    pub fn place(&self) -> Place
        ensures value { result ≡ self.now.at }
        ensures short { length self.now.rest ≤ 67108864 }
    {
        self.at
    }

    /// Goes over one byte. Behind a line feed a line begins.
    pub fn bump(&mut self)
        requires { 0 < length self.old.rest }
        ensures { self.new ≡ moved self.old }
    {
        let rest = self.rest;
        if rest[0] == b'\n' {
            self.at = Place {
                line: self.at.line + 1,
                column: 1,
            };
        } else {
            self.at = Place {
                line: self.at.line,
                column: self.at.column + 1,
            };
        }
        self.rest = &rest[1..];
    }

    /// The value of the longest run of digits, which the cursor goes over. Letters of either case
    /// are digits from 10 on. After a refusal the cursor stands at the refused byte.
    pub fn number(&mut self, radix: u32) -> Result<u128, BadNumber>
        requires { (radix ≡ 2) ⊎ (radix ≡ 10) ⊎ (radix ≡ 16) }
        ensures value { result ≡ number_at radix self.old }
        ensures after { self.new ≡ past_number radix self.old }
        ensures ok { OnOk result (self.new ≡ past (digits_at radix self.old.rest) self.old) }
    {
        let mut value = 0;
        let mut any = false;
        while let Some(byte) = self.peek() {
            let digit = digit(byte);
            if u32::from(digit) >= radix {
                break;
            }
            match with_digit(value, radix, digit) {
                None => return Err(BadNumber(self.place())),
                Some(more) => value = more,
            }
            self.bump();
            any = true;
        }
        if any {
            Ok(value)
        } else {
            Err(BadNumber(self.place()))
        }
    }
}

/// The value with one more digit, if it is below 2 ^ 128.
fn with_digit(value: u128, radix: u32, digit: u8) -> Option<u128>
    ensures { SomeIff result (value * radix + digit < 2 ^ 128) (value * radix + digit) }
{
    match value.checked_mul(u128::from(radix)) {
        None => None,
        Some(value) => value.checked_add(u128::from(digit)),
    }
}

/// The place of the end of a text.
pub fn end_place(text: &[u8]) -> Place
    requires { length text.now ≤ 67108864 }
    ensures { result ≡ end_of (start_of text.now) }
{
    let mut cursor = Cursor::new(text);
    while cursor.peek().is_some() {
        cursor.bump();
    }
    cursor.place()
}
