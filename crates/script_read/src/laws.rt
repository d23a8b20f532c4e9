//! Laws of texts of hints, as functions that do nothing.
ghost use Rattle.std.specs.Prelude.{◌≡◌, ◌↔◌, List, length, Ok, Err, true};
ghost use Rattle.knox_text.specs.declared.place.Place.{Place};
ghost use Rattle.knox_sexpr.specs.declared.tree.Tree.{Tree};
ghost use Rattle.knox_circuit.specs.Circuit.{Circuit};
ghost use Rattle.knox_lang.specs.declared.parts.SpecParts.{SpecParts};
ghost use Rattle.knox_lang.specs.declared.parts.DriverParts.{DriverParts};
ghost use Rattle.knox_lang.specs.declared.parts.EmuParts.{EmuParts};
ghost use Rattle.script_core.specs.declared.parts.ScriptParts.{ScriptParts};
ghost use Rattle.script_core.specs.Hints.{script_fits};
ghost use Rattle.script_read.specs.declared.fault.ScriptFault.{ScriptFault};
ghost use Rattle.script_read.specs.declared.fault.ScriptWhy.TheVariants.{Missing};
ghost use Rattle.script_read.specs.Scripts.{names_for, script_text, LacksForm};
ghost use Rattle.script_read.specs.Grammar.{IsText};

/// A text means a script exactly where it is of the grammar, and the script is of the form. Its
/// fault is that something is missing exactly where every tree is read and a form is missing: at
/// the text's end.
pub fn texts_mean_scripts()
    ensures grammar { (c : Circuit) (s : SpecParts) (d : DriverParts) (e : EmuParts) (end : Place) (ts : List Tree) (p : ScriptParts) → (script_text c s d e end ts ≡ Ok p) ↔ IsText (names_for c s d e) s.ops ts p }
    ensures fits { (c : Circuit) (s : SpecParts) (d : DriverParts) (e : EmuParts) (end : Place) (ts : List Tree) (p : ScriptParts) → script_text c s d e end ts ≡ Ok p → script_fits (length s.ops) p ≡ true }
    ensures missing { (c : Circuit) (s : SpecParts) (d : DriverParts) (e : EmuParts) (end : Place) (ts : List Tree) (f : ScriptFault) → ((script_text c s d e end ts ≡ Err f) × (f.why ≡ Missing)) ↔ (LacksForm (names_for c s d e) s.ops ts × (f ≡ record { place = end; why = Missing })) }
{}
