//! Literals.
ghost use Rattle.std.specs.Prelude.{◌≡◌, ◌↔◌, ℤ, pos, IsNone, IfSome, ◌⊎◌, ◌-ℤ◌, ◌<◌, ◌^◌};
ghost use Rattle.knox_cnf.specs.Literals.{IsLiteral, literal, complement, spelled_by, number_of};

use std::marker::Model;

/// A variable or its negation. Variables are numbered from 1 to 2 ^ 63 - 1.
#[derive(Clone, Copy, Debug, PartialEq, Eq)]
pub struct Lit {
    number: i64,
}

impl Model for Lit {
    ghost use Rattle.knox_cnf.specs.Literals.{Literal, IsLiteral, spelled_by, number_of, number_of-spelled_by};
    ghost use Rattle.std.proofs.Common.{ap};

    ghost Value = { Literal };

    ghost view = { λ l. spelled_by l.number };

    ghost invariant = { λ l. IsLiteral (spelled_by l.number) };

    ghost inverse = { λ l. record { number = number_of l } };

    ghost inverse_ok = { λ l _. ap (λ z. record { number = z }) (number_of-spelled_by l.number) };
}

impl Lit {
    /// The literal that a number stands for. `None` exactly at 0, and at -2 ^ 63, which has no
    /// complement.
    pub fn new(value: i64) -> Option<Lit>
        ensures some { IfSome result (λ l. l ≡ spelled_by value) }
        ensures literal { IfSome result (λ l. IsLiteral l) }
        ensures none { IsNone result ↔ ((value ≡ pos 0) ⊎ (value ≡ i64.MIN)) }
    {
        if value == 0 || value == i64::MIN {
            None
        } else {
            Some(Lit { number: value })
        }
    }

    /// The number that stands for the literal.
    pub fn value(&self) -> i64
        ensures value { result ≡ number_of self.now }
        ensures spelled { spelled_by result ≡ self.now }
        ensures literal { IsLiteral self.now }
    {
        self.number
    }

    /// The variable.
    pub fn var(&self) -> u64
        ensures var { result ≡ self.now.var }
        ensures literal { IsLiteral self.now }
    {
        self.number.unsigned_abs()
    }

    /// Whether it is the variable, and not the negation.
    pub fn is_positive(&self) -> bool
        ensures { result ≡ self.now.positive }
    {
        self.number >= 0
    }

    /// The negation of a variable, and the variable of a negation.
    pub fn complement(self) -> Lit
        ensures { result ≡ complement self }
    {
        Lit {
            number: -self.number,
        }
    }
}

/// The first variable: what an empty place of a clause holds.
impl Default for Lit {
    fn default() -> Lit {
        Lit { number: 1 }
    }
}
