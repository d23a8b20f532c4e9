//! Laws of scripts, as functions that change nothing.
ghost use Rattle.std.specs.Prelude.{◌≡◌, length, true};
ghost use Rattle.knox_theory.specs.Closed.{all_hints, all_differ};
ghost use Rattle.knox_theory.specs.Script.{IsScript};
ghost use Rattle.knox_circuit.specs.Circuit.{Circuit};
ghost use Rattle.knox_lang.specs.declared.parts.SpecParts.{SpecParts};
ghost use Rattle.knox_lang.specs.declared.parts.DriverParts.{DriverParts};
ghost use Rattle.knox_lang.specs.declared.parts.EmuParts.{EmuParts};
ghost use Rattle.device_design.specs.Meaning.{design_of};
ghost use Rattle.script_core.specs.Hints.{script_of, ops_of};
ghost use Rattle.script_core.specs.Runs.{segments_of};

use crate::script::Script;

/// A script is one of the theory of scripts, on every device with so many operations: a tick stands
/// between its cut and its subsume. No hint is there twice.
pub fn scripts_are_formed(sc: &Script)
    ensures script { (c : Circuit) (s : SpecParts) (d : DriverParts) (e : EmuParts) → length s.ops ≡ ops_of sc.now → IsScript (design_of c s d e) (script_of c s d sc.now) }
    ensures differ { (c : Circuit) (s : SpecParts) (d : DriverParts) (e : EmuParts) → length s.ops ≡ ops_of sc.now → all_differ (all_hints (segments_of c s d e sc.now)) ≡ true }
{
    let _parts = sc.parts();
}
