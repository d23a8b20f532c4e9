//! Laws of the moves of drivers, as functions that change nothing.
ghost use Rattle.std.specs.Prelude.{◌≡◌};
ghost use Rattle.knox_theory.specs.Design.{Config, Design, finish_tests};
ghost use Rattle.driver_machine.specs.Left.{Left};
ghost use Rattle.driver_machine.specs.Moves.{IsMove};
ghost use Rattle.driver_machine.specs.Outcomes.{tests_left};
ghost use Rattle.driver_machine.specs.Lawful.{HasDriver};

use knox_circuit::Circuit;
use knox_lang::DriverProgram;

/// A move goes directly behind the next tick, or to the body's end where that comes first, and its
/// tests are those of the parts on the way.
pub fn moves_are_steps(c: &Circuit, d: &DriverProgram)
    ensures { (x : Config Left) → IsMove c.now.lines d.now x }
{
    let _lines = c.lines();
    let _parts = d.parts();
}

/// In a design that has the driver, the tests of all moves to the body's end are those of all parts
/// that are left.
pub fn moves_meet_the_tests(c: &Circuit, d: &DriverProgram)
    ensures { (g : Design Left) → HasDriver c.now.lines d.now g → (x : Config Left) → finish_tests g x ≡ tests_left c.now.lines d.now x }
{
    let _lines = c.lines();
    let _parts = d.parts();
}
