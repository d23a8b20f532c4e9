//! The program's runs on a device that is made of the parts of the store.
ghost use Rattle.std.specs.Prelude.{◌≡◌, ℕ, List, length, IfOk};
ghost use Rattle.knox_theory.specs.Course.{Failed, Held};
ghost use Rattle.knox_circuit.specs.Line.{Line};
ghost use Rattle.script_core.specs.Hints.{ops_of};
ghost use Rattle.script_core.specs.Runs.{end_said};
ghost use Rattle.pin_store.specs.Store.{leaked, shown};
ghost use Rattle.pin_store.specs.Hinted.{called, check_run, chosen, cut_run, parts, script, IsStore};

use emu_machine::Device;
use script_core::{Choices, Script, ScriptEnd, SegmentNo, run_choices};
use std::alloc::{AllocError, Global};

/// A run of the segment of the cut by the program: over any choices it ends as the definitions say, for the store and for its leaking variant, and over
/// those that falsify the step it fails there.
pub fn cuts_are_run(
    alloc: Global,
    dev: &Device,
    sc: &Script,
    ch: &Choices,
) -> Result<ScriptEnd, AllocError>
    requires of { length dev.now.spec.ops ≡ ops_of sc.now }
    ensures run { IfOk result (λ end. (w : ℕ) (output : List Line) → IsStore dev.now w output → sc.now ≡ script → end_said end ≡ cut_run (parts w output) ch.now.words) }
    ensures leak { IfOk result (λ end. IsStore dev.now 4 leaked → sc.now ≡ script → ch.now.words ≡ chosen 0 0 0 0 0 0 → end_said end ≡ Failed 3) }
{
    let end = run_choices(alloc, dev, sc, SegmentNo(1), ch)?;
    Ok(end)
}

/// The same of the call of `check`: the store answers a right guess as the specification does, and the leaking variant fails where its secret is even.
pub fn calls_are_run(
    alloc: Global,
    dev: &Device,
    sc: &Script,
    ch: &Choices,
) -> Result<ScriptEnd, AllocError>
    requires of { length dev.now.spec.ops ≡ ops_of sc.now }
    ensures run { IfOk result (λ end. (w : ℕ) (output : List Line) → IsStore dev.now w output → sc.now ≡ script → end_said end ≡ check_run (parts w output) ch.now.words) }
    ensures right { IfOk result (λ end. IsStore dev.now 4 shown → sc.now ≡ script → ch.now.words ≡ called 9 9 0 9 → end_said end ≡ Held) }
    ensures leak { IfOk result (λ end. IsStore dev.now 4 leaked → sc.now ≡ script → ch.now.words ≡ called 8 8 0 3 → end_said end ≡ Failed 10) }
{
    let end = run_choices(alloc, dev, sc, SegmentNo(7), ch)?;
    Ok(end)
}
