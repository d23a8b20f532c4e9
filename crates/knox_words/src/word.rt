//! A word: a width and a number below 2 to the power of the width.
ghost use Rattle.std.specs.Prelude.{◌≡◌, ◌↔◌, IsSome, IfSome};
ghost use Rattle.knox_words.specs.Bits.{IsWord, bits};

use std::marker::Model;

/// A word: a width of 1 to 128 bits, and a number below 2 to the power of the width.
///
/// It is a bit-vector of BTOR2 and of SMT-LIB, read without a sign.
#[derive(Clone, Copy, Debug, PartialEq, Eq, Hash)]
pub struct Word {
    pub(crate) width: u8,
    pub(crate) value: u128,
}

impl Model for Word {
    ghost use Rattle.knox_words.specs.Bits.{Bits, IsWord};

    ghost Value = { Bits };

    ghost view = { λ w. record { width = w.width; value = w.value } };

    ghost invariant = { λ w. IsWord (record { width = w.width; value = w.value }) };

    ghost inverse = { λ b. record { width = b.width; value = b.value } };
}

impl Word {
    /// The word of a width and a number. `None` exactly where the width is 0 or above 128, or the
    /// number has more bits than the width.
    pub fn new(width: u8, value: u128) -> Option<Word>
        ensures some { IfSome result (λ w. w ≡ bits width value) }
        ensures word { IsSome result ↔ IsWord (bits width value) }
    {
        if width == 0 || width > 128 {
            return None;
        }
        if width < 128 && value >> width != 0 {
            return None;
        }
        Some(Word { width, value })
    }

    /// The number of bits, from 1 to 128.
    pub fn width(&self) -> u8
        ensures width { result ≡ self.now.width }
        ensures word { IsWord self.now }
    {
        self.width
    }

    /// The number, below 2 to the power of the width.
    pub fn value(&self) -> u128
        ensures value { result ≡ self.now.value }
        ensures word { IsWord self.now }
    {
        self.value
    }
}
