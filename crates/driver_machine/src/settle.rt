//! From one part to the next.
ghost use Rattle.std.specs.Prelude.{◌≡◌, ◌≤◌, ◌<◌, ◌+◌, ◌-◌, ◌++◌, [], ◌∷◌, length, slice_get, Some, IfOk};
ghost use Rattle.knox_lang.specs.declared.expr.Stmt.{Stmt, out-Stmt};
ghost use Rattle.driver_machine.specs.Stand.{Resumes, Settles};
ghost use Rattle.driver_machine.specs.Follows.{follow_of};

use crate::position::{Position, Way, current};
use knox_lang::Stmt;
use knox_words::Words;
use std::alloc::{AllocError, Global};

/// Where a driver stands.
#[derive(Clone, Copy, Debug, PartialEq, Eq)]
pub enum Stand {
    /// Nothing but the result is left.
    AtEnd,
    Statement,
    /// Before a loop's test, after which so many turns may follow.
    Test(u32),
}

/// What follows a list in its statement.
enum Follow {
    Nothing,
    Turn(u32),
    Test(u32),
}

/// What follows a list in its statement.
fn follow_up(way: Way, s: &Stmt) -> Follow
    ensures { result ≡ follow_of way (out-Stmt s.now) }
{
    match (way, s) {
        (Way::Turn(k), Stmt::For(_, n, turn)) => {
            if k < *n && *n - k > 1 && turn.len() > 0 {
                Follow::Turn(k + 1)
            } else {
                Follow::Nothing
            }
        }
        (Way::While(j), Stmt::While(_, _, _)) => Follow::Test(j),
        _ => Follow::Nothing,
    }
}

/// Goes on in the statement that was begun last, where a list in it has ended.
#[tactic(auto, using(crate::proofs::Settling::resuming))]
fn resume(alloc: Global, pos: &mut Position, way: Way, body: &[Stmt]) -> Result<Stand, AllocError>
    ensures { IfOk result (λ r. Resumes body.now pos.old way pos.new r) }
{
    let mut bound = Words::new(alloc);
    let list = current(body, pos.frames.as_slice(), &mut bound)?;
    match sqlite_items::at(list, pos.place.saturating_sub(1)) {
        None => Ok(Stand::AtEnd),
        Some(s) => match follow_up(way, s) {
            Follow::Nothing => Ok(Stand::AtEnd),
            Follow::Turn(k) => {
                pos.enter(Way::Turn(k))?;
                Ok(Stand::Statement)
            }
            Follow::Test(j) => Ok(Stand::Test(j)),
        },
    }
}

/// Leaves the lists that have ended.
#[tactic(auto, using(crate::proofs::Settling::settling))]
pub fn settle(alloc: Global, pos: &mut Position, body: &[Stmt]) -> Result<Stand, AllocError>
    ensures { IfOk result (λ r. Settles body.now pos.old pos.new r) }
{
    loop {
        let mut bound = Words::new(alloc);
        let n = current(body, pos.frames.as_slice(), &mut bound)?.len();
        if pos.place < n {
            return Ok(Stand::Statement);
        }
        match pos.frames.pop() {
            None => return Ok(Stand::AtEnd),
            Some(f) => {
                pos.place = f.place;
                match resume(alloc, pos, f.way, body)? {
                    Stand::AtEnd => {}
                    stand => return Ok(stand),
                }
            }
        }
    }
}
