//! The definitions, computed on small things.
ghost use Rattle.std.specs.Prelude.{◌≡◌, ℕ, [], ◌∷◌, Some, None, Ok, codes, true};
ghost use Rattle.knox_text.specs.Examples.{place};
ghost use Rattle.knox_words.specs.Bits.{bits};
ghost use Rattle.knox_sexpr.specs.declared.tree.Tree.TheVariants as trees;
ghost use Rattle.knox_lang.specs.declared.expr.Expr.TheVariants.{Lit};
ghost use Rattle.knox_lang.specs.declared.expr.Space.TheVariants as spaces;
ghost use Rattle.expr_read.specs.declared.names.Group.TheVariants as groups;
ghost use Rattle.expr_read.specs.Names.{found, cell_names, word_names, marked_names};
ghost use Rattle.expr_read.specs.declared.faults.LangWhy.TheVariants.{Form, Twice, Width, Bound, Missing};
ghost use Rattle.expr_read.specs.Views.{fails};
ghost use Rattle.lang_read.specs.Entries.{filled};
ghost use Rattle.lang_read.specs.Statements.{while_of};
ghost use Rattle.lang_read.specs.Bodies.{silent, replying, within};
ghost use Rattle.lang_read.specs.Calls.{numbered_body};
ghost use Rattle.lang_read.specs.Drivers.{idle_word, driver_text};
ghost use Rattle.lang_read.specs.Examples.{no_lines, two_ops, bare, no_list, only_set, bit_of_cost, steps_of_cost, input, array_cell, word_cell, byte_at};

/// A driver that lacks a call is refused at its first parenthesis, but where it has another fault.
pub fn lacking_calls_as_expected()
    ensures none { driver_text no_lines two_ops (place 1 9) (bare ∷ []) ≡ fails (place 1 1) Missing }
    ensures one { driver_text no_lines two_ops (place 1 33) (only_set ∷ []) ≡ fails (place 1 1) Missing }
    ensures other { driver_text no_lines two_ops (place 1 13) (no_list ∷ []) ≡ fails (place 1 9) Form }
    ensures behind { driver_text no_lines two_ops (place 1 12) (bare ∷ trees.List (place 1 10) [] (place 1 11) ∷ []) ≡ fails (place 1 10) Form }
    ensures empty { driver_text no_lines two_ops (place 1 1) [] ≡ fails (place 1 1) Form }
{}

/// The test of a loop counts once more than its turns, and bodies have limits.
pub fn costs_as_expected()
    ensures turns { (while_of (bit_of_cost 3) 4 (steps_of_cost 10)).cost ≡ 56 }
    ensures no_turn { (while_of (bit_of_cost 3) 0 (steps_of_cost 10)).cost ≡ 4 }
    ensures saturated { (while_of (bit_of_cost 3) 1000000 (steps_of_cost 18446744073709551615)).cost ≡ 18446744073709551615 }
    ensures dear { within 10000000 (place 1 9) (replying [] (steps_of_cost 9999999) (bit_of_cost 1)) ≡ Ok (record { locals = []; stmts = []; result = Some (Lit (bits 1 1)) }) }
    ensures too_dear { within 10000000 (place 1 9) (replying [] (steps_of_cost 10000000) (bit_of_cost 1)) ≡ fails (place 1 9) Bound }
    ensures silent { silent (place 1 9) [] (steps_of_cost 1000000) ≡ Ok (record { locals = []; stmts = []; result = None }) }
    ensures too_dear_silent { silent (place 1 9) [] (steps_of_cost 1000001) ≡ fails (place 1 9) Bound }
{}

/// A second call of an operation is told at its name, before every fault inside it; too dear a body
/// stands at the list, and comes first.
pub fn second_calls_as_expected()
    ensures whole { numbered_body (place 1 9) (fails (place 1 15) Twice) (Ok (replying [] (steps_of_cost 9999999) (bit_of_cost 1))) ≡ fails (place 1 15) Twice }
    ensures inside { numbered_body (place 1 9) (fails (place 1 15) Twice) (fails (place 1 20) Form) ≡ fails (place 1 15) Twice }
    ensures too_dear { numbered_body (place 1 9) (fails (place 1 15) Twice) (Ok (replying [] (steps_of_cost 10000000) (bit_of_cost 1))) ≡ fails (place 1 9) Bound }
    ensures first { numbered_body (place 1 9) (Ok 1) (fails (place 1 20) Form) ≡ fails (place 1 20) Form }
{}

/// Entries give words to what they name, and the first of two decides.
pub fn entries_as_expected()
    ensures idle { idle_word (input 5) (place 1 9) 3 ≡ Ok (5, bits 2 3) }
    ensures too_large { idle_word (input 5) (place 1 9) 4 ≡ fails (place 1 9) Width }
    ensures filled { filled {A = ℕ} ((1, 7) ∷ (0, 8) ∷ (1, 9) ∷ (5, 6) ∷ []) (1 ∷ 2 ∷ 3 ∷ []) ≡ 8 ∷ 7 ∷ 3 ∷ [] }
{}

/// An array has no name. A word behind it stands second among the cells, and behind the array's
/// words in a state and among noise words.
pub fn arrays_have_no_names_as_expected()
    ensures array { cell_names 0 (array_cell ∷ word_cell ∷ []) ≡ cell_names 1 (word_cell ∷ []) }
    ensures array_noise { word_names spaces.Noise (array_cell ∷ word_cell ∷ []) ≡ word_names spaces.Noise (word_cell ∷ []) }
    ensures array_marked { marked_names (array_cell ∷ word_cell ∷ []) (true ∷ true ∷ []) ≡ marked_names (word_cell ∷ []) (true ∷ []) }
    ensures word { found groups.Device (codes "y") None (cell_names 0 (array_cell ∷ word_cell ∷ [])) ≡ Some (byte_at spaces.Device 1) }
    ensures word_noise { found groups.Noise (codes "y") None (word_names spaces.Noise (array_cell ∷ word_cell ∷ [])) ≡ Some (byte_at spaces.Noise 4) }
    ensures word_marked { found groups.Device (codes "y") None (marked_names (array_cell ∷ word_cell ∷ []) (true ∷ true ∷ [])) ≡ Some (byte_at spaces.Device 4) }
{}
