//! What holds of the readings of texts.
ghost use Rattle.std.specs.Prelude.{◌≡◌, ◌↔◌, List};
ghost use Rattle.knox_text.specs.declared.place.Place.{Place};
ghost use Rattle.knox_sexpr.specs.declared.tree.Tree.{Tree};
ghost use Rattle.knox_circuit.specs.Circuit.{Circuit};
ghost use Rattle.knox_lang.specs.declared.parts.SpecParts.{SpecParts};
ghost use Rattle.expr_read.specs.declared.faults.LangWhy.TheVariants.{Missing};
ghost use Rattle.expr_read.specs.Views.{fails};
ghost use Rattle.lang_read.specs.Drivers.{driver_text, LacksCall};

/// A driver is refused as missing exactly where some operation of the specification has no call, and
/// all else of the text is read. The fault stands at the driver's first parenthesis.
pub fn missing_is_a_call()
    ensures { (c : Circuit) (s : SpecParts) (end at : Place) (ts : List Tree) → (driver_text c s end ts ≡ fails at Missing) ↔ LacksCall c s ts at }
{}
