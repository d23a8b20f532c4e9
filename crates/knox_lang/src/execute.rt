//! What statements do, also where they ask.
ghost use Rattle.std.specs.Prelude.{◌≡◌, ◌≤◌, ◌<◌, ◌+◌, ◌++◌, [], ◌∷◌, length, map, IfOk, OnOk, OnErr};
ghost use Rattle.knox_words.specs.Bits.{Bits, bits, word_or, word_at};
ghost use Rattle.knox_lang.specs.Scope.{scope};
ghost use Rattle.knox_lang.specs.Eval.{eval, called};
ghost use Rattle.knox_lang.specs.Exec.{does, does_all, turns};
ghost use Rattle.knox_lang.specs.Operation.{no_queries};

use crate::evaluate::{eval_all, eval_in};
use crate::expr::Stmt;
use crate::parts::Fun;
use crate::queries::Queries;
use crate::scope::Spaces;
use knox_words::Words;
use std::alloc::{AllocError, Global};

/// Does a statement.
#[cycle(exec)]
fn exec_one<Q: Queries>(
    alloc: Global,
    s: &Stmt,
    funs: &[Fun],
    spaces: &mut Spaces,
    bound: &mut Words,
    asked: &mut Q,
) -> Result<(), AllocError>
    ensures done { OnOk result ((spaces.new, asked.new) ≡ does Q (called funs.now) (record { reply = Q.reply; after = Q.after }) s.now (spaces.old, asked.old) bound.old) }
    ensures bound { bound.new ≡ bound.old }
{
    match s {
        Stmt::Assign(slot, e) => {
            let w = eval_in(alloc, e, funs, spaces, bound)?;
            spaces.put(slot.space, slot.number, 0, w);
            Ok(())
        }
        Stmt::Store(slot, i, e) => {
            let i = eval_in(alloc, i, funs, spaces, bound)?;
            let w = eval_in(alloc, e, funs, spaces, bound)?;
            spaces.put(slot.space, slot.number, i.value(), w);
            Ok(())
        }
        Stmt::If(c, yes, no) => {
            let c = eval_in(alloc, c, funs, spaces, bound)?;
            if c.value() == 1 {
                let done = exec_in(alloc, yes.as_slice(), funs, spaces, bound, asked);
                done
            } else {
                let done = exec_in(alloc, no.as_slice(), funs, spaces, bound, asked);
                done
            }
        }
        Stmt::For(w, n, body) => {
            let done = exec_turns(alloc, *w, *n, body.as_slice(), funs, spaces, bound, asked);
            done
        }
        Stmt::Query(slot, op, args) => {
            let args = eval_all(alloc, args.as_slice(), funs, funs.len(), spaces, bound)?;
            let w = asked.query(alloc, *op, args.as_slice())?;
            spaces.put(slot.space, slot.number, 0, w);
            Ok(())
        }
        _ => Ok(()),
    }
}

/// Does statements in order, over the words of the spaces and the bound variables, and asks
/// `asked`. After want of memory `bound` is as it was, and spaces and `asked` may have changed.
#[cycle(exec)]
pub fn exec_in<Q: Queries>(
    alloc: Global,
    ss: &[Stmt],
    funs: &[Fun],
    spaces: &mut Spaces,
    bound: &mut Words,
    asked: &mut Q,
) -> Result<(), AllocError>
    ensures done { OnOk result ((spaces.new, asked.new) ≡ does_all Q (called funs.now) (record { reply = Q.reply; after = Q.after }) ss.now (spaces.old, asked.old) bound.old) }
    ensures bound { bound.new ≡ bound.old }
{
    for s in ss {
        exec_one(alloc, s, funs, spaces, bound, asked)?;
    }
    Ok(())
}

/// Does statements with each number below `n` bound.
#[cycle(exec)]
fn exec_turns<Q: Queries>(
    alloc: Global,
    width: u8,
    n: u32,
    ss: &[Stmt],
    funs: &[Fun],
    spaces: &mut Spaces,
    bound: &mut Words,
    asked: &mut Q,
) -> Result<(), AllocError>
    ensures done { OnOk result ((spaces.new, asked.new) ≡ turns Q (does_all Q (called funs.now) (record { reply = Q.reply; after = Q.after }) ss.now) width n (spaces.old, asked.old) bound.old) }
    ensures bound { bound.new ≡ bound.old }
{
    for k in 0..n {
        bound.push(knox_words::word_or(width, u128::from(k)))?;
        let done = exec_in(alloc, ss, funs, spaces, bound, asked);
        bound.pop();
        done?;
    }
    Ok(())
}
