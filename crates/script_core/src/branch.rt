//! The outcomes of the driver's tests in a run.
ghost use Rattle.std.specs.Prelude.{◌≡◌, length, IfOk};
ghost use Rattle.knox_theory.specs.Traces.{branch_word};
ghost use Rattle.script_core.specs.declared.parts.Kind.TheVariants.{Call};
ghost use Rattle.script_core.specs.Branches.{op_of_kind, op_of_root};
ghost use Rattle.script_core.specs.Hints.{ops_of, root_at};
ghost use Rattle.script_core.specs.Reached.{kind_course};
ghost use Rattle.script_core.specs.Rooms.{room_for, made_for};
ghost use Rattle.script_core.specs.Runs.{course_at, segments_of};

use crate::host::arg_widths_into;
use crate::parts::{Choices, Kind, Root, SegmentNo};
use crate::room::Room;
use crate::run::Left;
use crate::script::Script;
use emu_machine::Device;
use knox_words::Word;
use sqlite_items::Items;
use std::alloc::{AllocError, Global};

/// The operation whose call a kind is of.
fn op_of_kind(kind: Kind) -> Option<u32>
    ensures { result ≡ op_of_kind kind }
{
    match kind {
        Kind::Call(op) => Some(op),
        Kind::Factory | Kind::BootHost | Kind::Rest | Kind::Wait | Kind::Wire => None,
    }
}

/// The operation whose call the segment with this root is of.
fn op_of_root(root: Option<Root>) -> Option<u32>
    ensures { result ≡ op_of_root root }
{
    match root {
        None => None,
        Some(Root::OfCut) => None,
        Some(Root::OfKind(kind)) => op_of_kind(kind),
    }
}

impl Room {
    /// The outcomes of the driver's tests in the run of `call` of an operation.
    fn tests_of_call(
        &mut self,
        alloc: Global,
        dev: &Device,
        sc: &Script,
        op: u32,
        words: &[Word],
    ) -> Result<Items<bool>, AllocError>
        requires { made_for self.old ≡ room_for dev.now }
        ensures { IfOk result (λ bs. bs ≡ branch_word (kind_course dev.now sc.now (Call op)) words.now) }
    {
        circuit_laws::circuits_have_widths(&dev.circuit);
        device_design::devices_have_drivers(dev);
        driver_machine::moves_meet_the_tests(&dev.circuit, &dev.driver);
        arg_widths_into(dev.spec.ops(), op, &mut self.arg_widths)?;
        match self.begin_idle(alloc, dev, sc, words)? {
            Left::Ended(_) => Ok(Items::new(alloc)),
            Left::On(_) => {
                let tests = driver_machine::tests_met(
                    alloc,
                    &dev.circuit,
                    &dev.driver,
                    &self.device,
                    op,
                    self.args.as_slice(),
                )?;
                Ok(tests)
            }
        }
    }
}

/// The outcomes of the `if` and `while` tests that the driver meets in the run of a segment over
/// some choices, in order, up to the body's end or to the test at which it is out of turns. There
/// are none where the words run out or `idle` is 0 before the body begins, in a segment that isn't
/// of a call, and where there is no such segment.
pub fn branch_word(
    alloc: Global,
    dev: &Device,
    sc: &Script,
    g: SegmentNo,
    ch: &Choices,
) -> Result<Items<bool>, AllocError>
    requires of { length dev.now.spec.ops ≡ ops_of sc.now }
    ensures { IfOk result (λ bs. bs ≡ branch_word (course_at (segments_of dev.now.circuit dev.now.spec dev.now.driver dev.now.emulator sc.now) g.0) ch.now.words) }
{
    let _parts = sc.parts();
    let Some(op) = op_of_root(sc.root_of(g)) else {
        return Ok(Items::new(alloc));
    };
    let mut room = Room::new(alloc, dev)?;
    let tests = room.tests_of_call(alloc, dev, sc, op, ch.words.as_slice())?;
    Ok(tests)
}
