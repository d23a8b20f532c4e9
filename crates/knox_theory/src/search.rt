//! Two ways of trying all choices, by number and word by word, and that each covers every list of choices, of any widths and length.
ghost use Rattle.std.specs.Prelude.{◌≡◌, ℕ, Some, None, List, [], ◌∷◌, ◌++◌, ◌<◌, ◌^◌, true};
ghost use Rattle.knox_words.specs.Bits.{bits};
ghost use Rattle.knox_words.specs.Lists.{Words};
ghost use Rattle.knox_theory.specs.Design.{Design};
ghost use Rattle.knox_theory.specs.Script.{Script};
ghost use Rattle.knox_theory.specs.Course.{Course, Failed, Safe, run};
ghost use Rattle.knox_theory.specs.Segments.{Segment, segments};
ghost use Rattle.knox_theory.specs.Closed.{Closed, ClosedBelow, IsAmong};
ghost use Rattle.knox_theory.specs.Numbered.{Covered, Within, all_tried};
ghost use Rattle.knox_theory.specs.Searched.{SafeFrom, wants};

/// A script is closed exactly where no choices falsify a hint of any of its segments.
pub fn safe_segments_close<P>()
    ensures close { (d : Design P) (s : Script P) → ((g : Segment) → IsAmong g (segments d s) → Safe g.course) → Closed d s }
    ensures alone { (d : Design P) (s : Script P) → Closed d s → (g : Segment) → IsAmong g (segments d s) → Safe g.course }
{}

/// Where no choices falsify a hint of the segments that stand before one of them, none do of any segment whose number is below its own.
pub fn safe_front_closes_below<P>()
    ensures { (d : Design P) (s : Script P) (g : Segment) (before after : List Segment) → segments d s ≡ before ++ g ∷ after → ((x : Segment) → IsAmong x before → Safe x.course) → ClosedBelow d s g.hint }
{}

/// No path of a segment takes more bits than its number of choice bits.
pub fn choice_bits_bound<P>()
    ensures { (d : Design P) (s : Script P) (g : Segment) → IsAmong g (segments d s) → Within g.course g.choice_bits }
{}

/// A script is closed exactly where its segments are tried at every number with no choices that falsify a hint.
pub fn trying_all_closes<P>()
    ensures close { (d : Design P) (s : Script P) → all_tried (segments d s) ≡ true → Closed d s }
    ensures alone { (d : Design P) (s : Script P) → Closed d s → all_tried (segments d s) ≡ true }
{}

/// Some choices falsify a hint only if those with a number of b bits do, where no path takes more than b bits.
pub fn numbers_cover_choices()
    ensures { (t : Course) (b : ℕ) → Within t b → (h : ℕ) (cs : Words) → run t cs ≡ Failed h → Covered t b h }
{}

/// Word by word, at a leaf: no word is wanted behind these choices, and the run over them doesn't fail. So no choices that begin so falsify a hint.
pub fn leaf_is_safe()
    ensures { (t : Course) (front : Words) → wants t front ≡ None → ((h : ℕ) → run t front ≡ Failed h → ⊥) → SafeFrom t front }
{}

/// At a branch: a word is wanted behind these choices, and each number of its width was tried there.
pub fn branch_is_safe()
    ensures { (t : Course) (front : Words) (w : ℕ) → wants t front ≡ Some w → ((v : ℕ) → v < 2 ^ w → SafeFrom t (front ++ bits w v ∷ [])) → SafeFrom t front }
{}

/// At the root: no choices were made, so no choices at all falsify a hint.
pub fn root_is_safe()
    ensures { (t : Course) → SafeFrom t [] → Safe t }
{}
