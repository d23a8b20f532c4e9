//! Terms, and the nodes of a graph.
ghost use Rattle.std.specs.Prelude.{◌≡◌};

use knox_words::{Op1, Op2, Word};
use std::marker::Model;

/// A term, which is a place in a graph. Contracts see it as the number.
#[derive(Clone, Copy, Debug, PartialEq, Eq, Hash)]
pub struct Term {
    place: usize,
}

impl Model for Term {
    ghost use Rattle.std.specs.Prelude.{ℕ};

    ghost Value = { ℕ };

    ghost view = { λ t. t.place };

    ghost inverse = { λ n. record { place = n } };
}

impl Term {
    /// The term at a place.
    pub fn at(place: usize) -> Term
        ensures { result ≡ place }
    {
        Term { place }
    }

    /// The place of a term.
    pub fn place(self) -> usize
        ensures { result ≡ self }
    {
        self.place
    }
}

/// What a term is made of. The terms in a node are its children, and stand before it.
#[derive(Clone, Copy, Debug, PartialEq, Eq, Hash)]
pub enum Node {
    /// A variable: its width, and its number in order of making, from 0.
    Var(u8, usize),
    /// A word.
    Word(Word),
    /// An operator on a term.
    Un(Op1, Term),
    /// An operator on two terms.
    Bin(Op2, Term, Term),
    /// The same number, read with a sign, in some bits more.
    Sext(Term, u8),
    /// The same number in some bits more.
    Uext(Term, u8),
    /// The bits from the first place down to the second, where bit 0 is the lowest.
    Slice(Term, u8, u8),
    /// The second where the first is 1, and else the third.
    Ite(Term, Term, Term),
}
