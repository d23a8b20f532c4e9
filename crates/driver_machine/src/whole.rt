//! What a driver's body does as a whole.
ghost use Rattle.std.specs.Prelude.{◌≡◌, ◌-◌, ◌<◌, ◌++◌, length, IfOk, OnOk, OnErr};
ghost use Rattle.knox_circuit.specs.Cells.{cells_of, words_in};
ghost use Rattle.driver_machine.specs.Begins.{listed};
ghost use Rattle.driver_machine.specs.Drive.{drive};
ghost use Rattle.driver_machine.specs.Configs.{config_of, moved_of, said, run_at};
ghost use Rattle.driver_machine.specs.Means.{means};
ghost use Rattle.driver_machine.specs.Outcomes.{tests_left, tests_met};

use crate::config::DriverConfig;
use crate::reply::{Moved, Reply};
use knox_circuit::{Circuit, State};
use knox_lang::DriverProgram;
use knox_words::{Word, Words};
use sqlite_items::Items;
use std::alloc::{AllocError, Global};

/// Does an operation's body on a state: the reply, and the state after it. A body whose `while`
/// runs past its bound is stuck there. Where the driver has no such operation, it is stuck at once.
/// Want of memory changes nothing.
pub fn drive(
    alloc: Global,
    c: &Circuit,
    d: &DriverProgram,
    s: &mut State,
    op: u32,
    args: &[Word],
) -> Result<Reply, AllocError>
    requires { length s.old.words ≡ words_in (cells_of c.now.lines) }
    ensures reply { IfOk result (λ r. r ≡ said (drive c.now.lines d.now op args.now s.old.words).0) }
    ensures state { OnOk result (s.new.words ≡ (drive c.now.lines d.now op args.now s.old.words).1) }
    ensures count { length s.new.words ≡ words_in (cells_of c.now.lines) }
    ensures err { OnErr result (s.new ≡ s.old) }
{
    let words = s.words.copy(alloc)?;
    let mut config = DriverConfig::start(alloc, c, d, State { words }, op, args)?;
    let reply = run(alloc, c, d, &mut config)?;
    *s = config.into_state();
    Ok(reply)
}

/// Does what is left of a body.
#[tactic(auto, using(crate::proofs::Ending::driving))]
fn run(
    alloc: Global,
    c: &Circuit,
    d: &DriverProgram,
    config: &mut DriverConfig,
) -> Result<Reply, AllocError>
    requires { length (run_at config.old).cells ≡ words_in (cells_of c.now.lines) }
    ensures reply { IfOk result (λ r. r ≡ said (means c.now.lines d.now (config_of d.now config.old)).0) }
    ensures cells { OnOk result ((run_at config.new).cells ≡ (means c.now.lines d.now (config_of d.now config.old)).1) }
    ensures count { length (run_at config.new).cells ≡ words_in (cells_of c.now.lines) }
{
    loop {
        match config.step(alloc, c, d)? {
            Moved::Ran => {}
            Moved::Ticked => {}
            Moved::Done(reply) => return Ok(reply),
        }
    }
}

/// The outcomes of all tests that an operation's body meets on a state, in order, also of a test
/// that ends it. Where the driver has no such operation, there are none.
pub fn tests_met(
    alloc: Global,
    c: &Circuit,
    d: &DriverProgram,
    s: &State,
    op: u32,
    args: &[Word],
) -> Result<Items<bool>, AllocError>
    requires { length s.now.words ≡ words_in (cells_of c.now.lines) }
    ensures { IfOk result (λ ts. ts ≡ tests_met c.now.lines d.now op args.now s.now.words) }
{
    let words = s.words.copy(alloc)?;
    let mut config = DriverConfig::start(alloc, c, d, State { words }, op, args)?;
    let tests = meet_all(alloc, c, d, &mut config)?;
    Ok(tests)
}

/// Puts the outcome of a test behind others, where there is one.
fn put_behind(tests: &mut Items<bool>, met: Option<bool>) -> Result<(), AllocError>
    ensures { OnOk result (tests.new ≡ tests.old ++ listed met) }
{
    if let Some(holds) = met {
        tests.push(holds)?;
    }
    Ok(())
}

/// The outcomes of the tests of what is left of a body.
fn meet_all(
    alloc: Global,
    c: &Circuit,
    d: &DriverProgram,
    config: &mut DriverConfig,
) -> Result<Items<bool>, AllocError>
    requires { length (run_at config.old).cells ≡ words_in (cells_of c.now.lines) }
    ensures { IfOk result (λ ts. ts ≡ tests_left c.now.lines d.now (config_of d.now config.old)) }
{
    let mut tests = Items::new(alloc);
    loop {
        let met = config.next_test(alloc, c, d)?;
        put_behind(&mut tests, met)?;
        match config.step(alloc, c, d)? {
            Moved::Ran => {}
            Moved::Ticked => {}
            Moved::Done(_) => return Ok(tests),
        }
    }
}
