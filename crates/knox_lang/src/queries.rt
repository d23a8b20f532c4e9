//! Whoever answers the queries of statements.
ghost use Rattle.std.specs.Prelude.{◌≡◌, ℕ, List, IfOk, OnOk, OnErr};
ghost use Rattle.knox_words.specs.Bits.{Bits, bits};

use knox_words::Word;
use std::alloc::{AllocError, Global};
use std::marker::Model;

/// One who is asked operations by their numbers, with arguments.
pub trait Queries {
    /// The word that is replied.
    ghost reply: { Self → ℕ → List Bits → Bits };

    /// What the one who was asked is afterwards.
    ghost after: { Self → ℕ → List Bits → Self };

    /// Asks an operation. Want of memory changes nothing.
    fn query(&mut self, alloc: Global, op: u32, args: &[Word]) -> Result<Word, AllocError>
        ensures reply { IfOk result (λ w. w ≡ reply self.old op args.now) }
        ensures after { OnOk result (self.new ≡ after self.old op args.now) }
        ensures err { OnErr result (self.new ≡ self.old) };
}

/// No one: each reply is the zero word.
#[derive(Drop)]
pub struct NoQueries {
    nothing: (),
}

impl Model for NoQueries {
    ghost Value = { Unit {0} };

    ghost view = { λ q. q.nothing };
}

impl NoQueries {
    /// No one, of which there is one value.
    pub fn new() -> NoQueries
        ensures { result ≡ tt }
    {
        NoQueries { nothing: () }
    }
}

impl Queries for NoQueries {
    ghost reply = { λ q op args. bits 1 0 };

    ghost after = { λ q op args. q };

    fn query(&mut self, alloc: Global, op: u32, args: &[Word]) -> Result<Word, AllocError> {
        let _ = alloc;
        let _ = op;
        let _ = args;
        Ok(knox_words::zero())
    }
}
