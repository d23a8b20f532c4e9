//! The test that the next part of a body meets.
ghost use Rattle.std.specs.Prelude.{◌≡◌, ◌==◌, ◌-◌, [], ◌∷◌, slice_get, Some, Bool, IfOk, OnOk, OnErr, List};
ghost use Rattle.std.specs.Option.{option_copied};
ghost use Rattle.knox_lang.specs.declared.expr.Stmt.{Stmt, out-Stmt};
ghost use Rattle.driver_machine.specs.Sight.{setting, holds};
ghost use Rattle.driver_machine.specs.Left.{test_of, next_tests};
ghost use Rattle.driver_machine.specs.Begins.{listed, stmt_tests, tests_at, run_in};
ghost use Rattle.driver_machine.specs.Place.{items_left, top};

use crate::position::{Position, current};
use crate::scene::Scene;
use crate::settle::{Stand, settle};
use knox_circuit::Circuit;
use knox_lang::{Expr, Fun, Stmt};
use knox_words::Words;
use std::alloc::{AllocError, Global};

/// The outcome of a test.
fn outcome(
    alloc: Global,
    c: &Circuit,
    e: &Expr,
    funs: &[Fun],
    scene: &mut Scene,
    bound: &mut Words,
) -> Result<bool, AllocError>
    ensures outcome { IfOk result (λ t. t ≡ holds (setting c.now.lines funs.now scene.old.args) (run_in scene.old) bound.old e.now) }
    ensures same { scene.new ≡ scene.old }
{
    let word = scene.value(alloc, c, e, funs, bound)?;
    Ok(word.value() == 1)
}

/// The outcome of the test with which a statement begins, where it begins with one.
fn test_in(
    alloc: Global,
    c: &Circuit,
    s: &Stmt,
    funs: &[Fun],
    scene: &mut Scene,
    bound: &mut Words,
) -> Result<Option<bool>, AllocError>
    ensures tests { IfOk result (λ t. listed t ≡ test_of (setting c.now.lines funs.now scene.old.args) (out-Stmt s.now) bound.old (run_in scene.old)) }
    ensures same { scene.new ≡ scene.old }
{
    match s {
        Stmt::If(e, _, _) => {
            let met = outcome(alloc, c, e, funs, scene, bound)?;
            Ok(Some(met))
        }
        Stmt::While(e, _, _) => {
            let met = outcome(alloc, c, e, funs, scene, bound)?;
            Ok(Some(met))
        }
        _ => Ok(None),
    }
}

/// The same of a statement of the list that is being done.
fn test_at(
    alloc: Global,
    c: &Circuit,
    body: &[Stmt],
    funs: &[Fun],
    pos: &Position,
    place: usize,
    scene: &mut Scene,
) -> Result<Option<bool>, AllocError>
    ensures tests { IfOk result (λ t. listed t ≡ tests_at (setting c.now.lines funs.now scene.old.args) body.now pos.now place (run_in scene.old)) }
    ensures same { scene.new ≡ scene.old }
{
    let mut bound = Words::new(alloc);
    let list = current(body, pos.frames.as_slice(), &mut bound)?;
    match sqlite_items::at(list, place) {
        Some(s) => {
            let met = test_in(alloc, c, s, funs, scene, &mut bound)?;
            Ok(met)
        }
        None => Ok(None),
    }
}

/// The outcome of the test that the next part of a body meets, where it meets one.
#[tactic(auto, using(crate::proofs::Meeting::meeting))]
pub fn next_test(
    alloc: Global,
    c: &Circuit,
    body: &[Stmt],
    funs: &[Fun],
    pos: &mut Position,
    scene: &mut Scene,
) -> Result<Option<bool>, AllocError>
    ensures tests { IfOk result (λ t. listed t ≡ next_tests (setting c.now.lines funs.now scene.old.args) (items_left body.now pos.old) (run_in scene.old)) }
    ensures same { scene.new ≡ scene.old }
{
    match settle(alloc, pos, body)? {
        Stand::AtEnd => Ok(None),
        Stand::Statement => {
            let place = pos.place;
            let met = test_at(alloc, c, body, funs, pos, place, scene)?;
            Ok(met)
        }
        Stand::Test(_) => {
            let place = pos.place.saturating_sub(1);
            let met = test_at(alloc, c, body, funs, pos, place, scene)?;
            Ok(met)
        }
    }
}
