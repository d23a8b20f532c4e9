//! What an operation of a specification does, and one who answers queries by it.
ghost use Rattle.std.specs.Prelude.{◌≡◌, ◌+◌, [], ◌∷◌, map, length, IfOk, OnOk, OnErr};
ghost use Rattle.knox_words.specs.Bits.{Bits, bits, word_or};
ghost use Rattle.knox_lang.specs.Scope.{scope};
ghost use Rattle.knox_lang.specs.Eval.{eval, called};
ghost use Rattle.knox_lang.specs.Exec.{does_all};
ghost use Rattle.knox_lang.specs.Operation.{no_queries, start_of, body_spaces, body_after, result_in, after_in, reply_in, op_after, op_result};
ghost use Rattle.std.specs.Option.{option_copied};

use crate::evaluate::eval_in;
use crate::execute::exec_in;
use crate::expr::{Expr, Space, Stmt};
use crate::parts::{Body, Fun};
use crate::program::{SpecProgram, SpecState};
use crate::queries::{NoQueries, Queries};
use crate::scope::{Scope, Spaces};
use knox_words::{Word, Words};
use sqlite_items::Items;
use std::alloc::{AllocError, Global};

/// Does statements in a scope, without queries: the reply to each is the zero word. Want of
/// memory changes nothing.
pub fn exec(alloc: Global, stmts: &[Stmt], funs: &[Fun], sc: &mut Scope) -> Result<(), AllocError>
    ensures spaces { OnOk result (sc.new.spaces ≡ (does_all (Unit {0}) (called funs.now) no_queries stmts.now (sc.old.spaces, tt) sc.old.bound).0) }
    ensures bound { sc.new.bound ≡ sc.old.bound }
    ensures err { OnErr result (sc.new ≡ sc.old) }
{
    let mut spaces = sc.spaces.copy(alloc)?;
    let mut asked = NoQueries::new();
    let done = exec_in(alloc, stmts, funs, &mut spaces, &mut sc.bound, &mut asked);
    done?;
    sc.spaces = spaces;
    Ok(())
}

/// The zero words of the widths of locals.
fn start(alloc: Global, locals: &[(Items<u8>, u8)]) -> Result<Words, AllocError>
    ensures { IfOk result (λ ws. ws ≡ start_of locals.now) }
{
    let mut out = Words::new(alloc);
    for local in locals {
        out.push(knox_words::word_or(local.1, 0))?;
    }
    Ok(out)
}

/// The words after the statements of a body.
fn run_body(
    alloc: Global,
    funs: &[Fun],
    body: &Body,
    fields: &[Word],
    args: &[Word],
) -> Result<Spaces, AllocError>
    ensures { IfOk result (λ sp. sp ≡ body_after funs.now body.now fields.now args.now) }
{
    let mut spaces = Spaces::new(alloc);
    spaces.give(Space::Own, Words::from_vec(Vec::from_slice(alloc, fields)?));
    spaces.give(Space::Arg, Words::from_vec(Vec::from_slice(alloc, args)?));
    spaces.give(Space::Local, start(alloc, body.locals.as_slice())?);
    let mut bound = Words::new(alloc);
    let mut asked = NoQueries::new();
    exec_in(
        alloc,
        body.stmts.as_slice(),
        funs,
        &mut spaces,
        &mut bound,
        &mut asked,
    )?;
    Ok(spaces)
}

/// The value of a result, or the zero word where there is none.
fn result_value(
    alloc: Global,
    funs: &[Fun],
    result_expr: &Option<Expr>,
    spaces: &Spaces,
) -> Result<Word, AllocError>
    ensures { IfOk result (λ w. w ≡ result_in (called funs.now) result_expr.now spaces.now) }
{
    match result_expr {
        Some(e) => {
            let mut bound = Words::new(alloc);
            eval_in(alloc, e, funs, spaces, &mut bound)
        }
        None => Ok(knox_words::zero()),
    }
}

/// Does an operation: the statements of its body over the fields, the arguments and locals that
/// start at zero, and then its result. Want of memory changes nothing.
pub fn op(
    alloc: Global,
    p: &SpecProgram,
    s: &mut SpecState,
    op: u32,
    args: &[Word],
) -> Result<Word, AllocError>
    ensures fields { OnOk result (s.new.words ≡ op_after p.now op s.old.words args.now) }
    ensures result { IfOk result (λ w. w ≡ op_result p.now op s.old.words args.now) }
    ensures err { OnErr result (s.new ≡ s.old) }
{
    let parts = p.parts();
    let body = sqlite_items::at(parts.bodies.as_slice(), op as usize);
    let value = do_body(alloc, parts.funs.as_slice(), body, s, args);
    value
}

/// Does a body over the fields and the arguments, or nothing where there is none.
fn do_body(
    alloc: Global,
    funs: &[Fun],
    body: Option<&Body>,
    s: &mut SpecState,
    args: &[Word],
) -> Result<Word, AllocError>
    ensures fields { OnOk result (s.new.words ≡ after_in funs.now (option_copied body.entry) s.old.words args.now) }
    ensures result { IfOk result (λ w. w ≡ reply_in funs.now (option_copied body.entry) s.old.words args.now) }
    ensures err { OnErr result (s.new ≡ s.old) }
{
    match body {
        Some(body) => {
            let spaces = run_body(alloc, funs, body, s.words.as_slice(), args)?;
            let value = result_value(alloc, funs, &body.result, &spaces)?;
            s.words = spaces.own;
            Ok(value)
        }
        None => Ok(knox_words::zero()),
    }
}

/// One who answers queries by the operations of a specification, from a state on.
#[derive(Drop)]
pub struct SpecAnswers<'a> {
    pub program: &'a SpecProgram,
    pub state: SpecState,
}

impl<'a> Queries for SpecAnswers<'a> {
    ghost reply = { λ q k args. op_result q.program.now k q.state.words args };

    ghost after = { λ q k args. record q { state = record { words = op_after q.program.now k q.state.words args } } };

    fn query(&mut self, alloc: Global, op: u32, args: &[Word]) -> Result<Word, AllocError> {
        let value = crate::operate::op(alloc, self.program, &mut self.state, op, args);
        value
    }
}
