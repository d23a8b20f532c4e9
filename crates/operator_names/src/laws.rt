//! What follows of the tables of names, as functions that do nothing: their contracts are the laws.
ghost use Rattle.std.specs.Prelude.{◌≡◌, ℕ, List, Some};
ghost use Rattle.knox_words.specs.declared.op.Op1.{Op1};
ghost use Rattle.knox_words.specs.declared.op.Op2.{Op2};
ghost use Rattle.operator_names.specs.Names.{op1_names, op2_names, op1_named, op2_named, IsNameOf};

/// Each operator has one name, and no word names an operator with one operand and one with two.
pub fn operators_have_one_name()
    ensures one { (o : Op1) → (word : List ℕ) × IsNameOf Op1 op1_names o word }
    ensures two { (o : Op2) → (word : List ℕ) × IsNameOf Op2 op2_names o word }
    ensures apart { (word : List ℕ) (o : Op1) (p : Op2) → op1_named word ≡ Some o → op2_named word ≡ Some p → ⊥ }
{}
