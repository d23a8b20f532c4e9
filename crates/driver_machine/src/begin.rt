//! The next part of a body.
ghost use Rattle.std.specs.Prelude.{◌≡◌, ◌≤◌, ◌<◌, ◌+◌, ◌-◌, ◌++◌, ◌^◌, [], ◌∷◌, length, slice_get, Some, IfOk, OnOk, OnErr, List};
ghost use Rattle.knox_lang.specs.declared.expr.Stmt.{Stmt, out-Stmt};
ghost use Rattle.knox_circuit.specs.Cells.{cells_of, words_in};
ghost use Rattle.driver_machine.specs.Sight.{setting};
ghost use Rattle.driver_machine.specs.Begins.{Begins, Moves, Tests, Retests, doing, run_in};
ghost use Rattle.driver_machine.specs.Place.{bumped, entered, IsAtStatement, IsAtWhile};

use crate::part::Part;
use crate::position::{Position, Way, current};
use crate::scene::Scene;
use crate::settle::{Stand, settle};
use knox_circuit::Circuit;
use knox_lang::{Fun, Stmt};
use knox_words::Words;
use std::alloc::{AllocError, Global};

/// Begins a statement. After want of memory the words are as they were.
fn begin(
    alloc: Global,
    c: &Circuit,
    s: &Stmt,
    funs: &[Fun],
    pos: &mut Position,
    scene: &mut Scene,
    bound: &mut Words,
) -> Result<Part, AllocError>
    requires state { length scene.old.state.words ≡ words_in (cells_of c.now.lines) }
    requires place { pos.old.place < 2 ^ 63 }
    ensures done { IfOk result (λ r. Begins (setting c.now.lines funs.now scene.old.args) bound.old (out-Stmt s.now) (doing pos.old (run_in scene.old) pos.new (run_in scene.new)) r) }
    ensures args { scene.new.args ≡ scene.old.args }
    ensures count { length scene.new.state.words ≡ words_in (cells_of c.now.lines) }
    ensures err { OnErr result (scene.new ≡ scene.old) }
{
    match s {
        Stmt::Assign(slot, e) => {
            let w = scene.value(alloc, c, e, funs, bound)?;
            scene.assign(*slot, 0, w);
            pos.bump();
            Ok(Part::Ran)
        }
        Stmt::Store(slot, i, e) => {
            scene.store(alloc, c, *slot, i, e, funs, bound)?;
            pos.bump();
            Ok(Part::Ran)
        }
        Stmt::SetInput(k, e) => {
            let w = scene.value(alloc, c, e, funs, bound)?;
            scene.inputs.words.put(*k as usize, w);
            pos.bump();
            Ok(Part::Ran)
        }
        Stmt::If(e, _, _) => {
            let w = scene.value(alloc, c, e, funs, bound)?;
            pos.bump();
            pos.enter(if w.value() == 1 { Way::Then } else { Way::Else })?;
            Ok(Part::Ran)
        }
        Stmt::For(_, n, _) => {
            pos.bump();
            if *n > 0 {
                pos.enter(Way::Turn(0))?;
            }
            Ok(Part::Ran)
        }
        Stmt::While(e, n, _) => {
            let holds = scene.value(alloc, c, e, funs, bound)?;
            if holds.value() != 1 {
                pos.bump();
                return Ok(Part::Ran);
            }
            if *n == 0 {
                return Ok(Part::NoTurns);
            }
            pos.bump();
            pos.enter(Way::While(*n - 1))?;
            Ok(Part::Ran)
        }
        Stmt::Tick => {
            scene.tick(c)?;
            pos.bump();
            Ok(Part::Ticked)
        }
        _ => {
            pos.bump();
            Ok(Part::Ran)
        }
    }
}

/// Does the statement that comes next.
fn do_statement(
    alloc: Global,
    c: &Circuit,
    body: &[Stmt],
    funs: &[Fun],
    pos: &mut Position,
    scene: &mut Scene,
) -> Result<Part, AllocError>
    requires state { length scene.old.state.words ≡ words_in (cells_of c.now.lines) }
    requires place { IsAtStatement body.now pos.old }
    ensures done { IfOk result (λ r. Moves (setting c.now.lines funs.now scene.old.args) body.now (doing pos.old (run_in scene.old) pos.new (run_in scene.new)) r) }
    ensures args { scene.new.args ≡ scene.old.args }
    ensures count { length scene.new.state.words ≡ words_in (cells_of c.now.lines) }
    ensures err { OnErr result (scene.new ≡ scene.old) }
{
    let mut bound = Words::new(alloc);
    let list = current(body, pos.frames.as_slice(), &mut bound)?;
    match sqlite_items::at(list, pos.place) {
        None => Ok(Part::AtResult),
        Some(s) => {
            let part = begin(alloc, c, s, funs, pos, scene, &mut bound)?;
            Ok(part)
        }
    }
}

/// Tests a loop again, where `j` more turns may follow.
fn test(
    alloc: Global,
    c: &Circuit,
    s: &Stmt,
    j: u32,
    funs: &[Fun],
    pos: &mut Position,
    scene: &mut Scene,
    bound: &mut Words,
) -> Result<Part, AllocError>
    ensures done { IfOk result (λ r. Retests (setting c.now.lines funs.now scene.old.args) bound.old j (out-Stmt s.now) (doing pos.old (run_in scene.old) pos.new (run_in scene.new)) r) }
    ensures same { scene.new ≡ scene.old }
{
    match s {
        Stmt::While(e, _, _) => {
            let w = scene.value(alloc, c, e, funs, bound)?;
            if w.value() != 1 {
                return Ok(Part::Ran);
            }
            if j == 0 {
                return Ok(Part::NoTurns);
            }
            pos.enter(Way::While(j - 1))?;
            Ok(Part::Ran)
        }
        _ => Ok(Part::Ran),
    }
}

/// Does the test of the loop whose turn has ended.
fn do_test(
    alloc: Global,
    c: &Circuit,
    body: &[Stmt],
    j: u32,
    funs: &[Fun],
    pos: &mut Position,
    scene: &mut Scene,
) -> Result<Part, AllocError>
    requires { IsAtWhile body.now pos.old }
    ensures done { IfOk result (λ r. Tests (setting c.now.lines funs.now scene.old.args) body.now j (doing pos.old (run_in scene.old) pos.new (run_in scene.new)) r) }
    ensures same { scene.new ≡ scene.old }
{
    let mut bound = Words::new(alloc);
    let list = current(body, pos.frames.as_slice(), &mut bound)?;
    match sqlite_items::at(list, pos.place.saturating_sub(1)) {
        None => Ok(Part::AtResult),
        Some(s) => {
            let part = test(alloc, c, s, j, funs, pos, scene, &mut bound)?;
            Ok(part)
        }
    }
}

/// Does the next part of a body. After want of memory the words are as they were.
pub fn do_part(
    alloc: Global,
    c: &Circuit,
    body: &[Stmt],
    funs: &[Fun],
    pos: &mut Position,
    scene: &mut Scene,
) -> Result<Part, AllocError>
    requires state { length scene.old.state.words ≡ words_in (cells_of c.now.lines) }
    ensures done { IfOk result (λ r. Moves (setting c.now.lines funs.now scene.old.args) body.now (doing pos.old (run_in scene.old) pos.new (run_in scene.new)) r) }
    ensures args { scene.new.args ≡ scene.old.args }
    ensures count { length scene.new.state.words ≡ words_in (cells_of c.now.lines) }
    ensures err { OnErr result (scene.new ≡ scene.old) }
{
    match settle(alloc, pos, body)? {
        Stand::AtEnd => Ok(Part::AtResult),
        Stand::Statement => {
            let part = do_statement(alloc, c, body, funs, pos, scene)?;
            Ok(part)
        }
        Stand::Test(j) => {
            let part = do_test(alloc, c, body, j, funs, pos, scene)?;
            Ok(part)
        }
    }
}
