//! A specification that answers the queries of a tick.
ghost use Rattle.std.specs.Prelude.{◌≡◌};

use knox_lang::{Queries, SpecProgram, SpecState};
use knox_words::{Word, Words};
use std::alloc::{AllocError, Global};
use std::marker::Model;

/// A specification with its present fields. Each query runs its operation on them.
#[derive(Drop)]
pub(crate) struct Answers<'a> {
    pub(crate) program: &'a SpecProgram,
    pub(crate) state: SpecState,
}

impl<'a> Answers<'a> {
    /// The fields that the last query left.
    pub(crate) fn into_fields(self) -> Words
        ensures { result ≡ self.entry.fields }
    {
        let Answers { program: _, state } = self;
        let SpecState { words } = state;
        words
    }
}

impl<'a> Model for Answers<'a> {
    ghost use Rattle.emu_machine.specs.Emulator.{Answerer};
    ghost use Rattle.knox_lang.specs.contracts.expr.Expr as e;
    ghost use Rattle.knox_lang.specs.contracts.expr.Stmt as s;
    ghost use Rattle.std.specs.Coded.{codes};

    ghost Value = { Answerer };

    ghost coded = { Prim.hlevel (codes, e.the_row.coded, s.the_row.coded) };

    ghost view = { λ a. record { spec = a.program.now; fields = a.state.words } };
}

impl<'a> Queries for Answers<'a> {
    ghost use Rattle.emu_machine.specs.Emulator.{answering};

    ghost reply = { answering.reply };

    ghost after = { answering.after };

    fn query(&mut self, alloc: Global, op: u32, args: &[Word]) -> Result<Word, AllocError> {
        let value = knox_lang::op(alloc, self.program, &mut self.state, op, args);
        value
    }
}
