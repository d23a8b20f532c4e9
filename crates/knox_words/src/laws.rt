//! What follows of the definitions of operators and of lists of words, as functions that do nothing:
//! their contracts are the laws.
ghost use Rattle.std.specs.Prelude.{◌≡◌, ℕ, ◌+◌, ◌^◌, ◌<◌, ◌++◌, List, length, Bool, true, Some};
ghost use Rattle.knox_words.specs.Bits.{Bits, ite_value};
ghost use Rattle.knox_words.specs.declared.op.Op1.{Op1};
ghost use Rattle.knox_words.specs.declared.op.Op2.{Op2};
ghost use Rattle.knox_words.specs.Ops.{op1_value, op2_value, op1_width, slice_value, uext_value, sext_value};
ghost use Rattle.knox_words.specs.Lists.{Words, are_widths, fits, fit, same_words, zeros, total, decoded, number, pick, merge};
ghost use Rattle.knox_words.specs.Typing.{op2_typed, slice_typed, extended, ite_typed};

/// Words that fit some widths are numbered: `number` is below 2 to the sum of the widths, and
/// `decoded` takes each such number to the words that have it. So what holds of the words of every
/// number holds of all words that fit.
pub fn words_are_numbered()
    ensures below { (ws : List ℕ) (as' : Words) → fit ws as' ≡ true → number ws as' < 2 ^ total ws }
    ensures covered { (ws : List ℕ) (as' : Words) → fit ws as' ≡ true → decoded ws (number ws as') ≡ as' }
    ensures fitting { (ws : List ℕ) (n : ℕ) → are_widths ws ≡ true → n < 2 ^ total ws → fit ws (decoded ws n) ≡ true }
    ensures apart { (ws : List ℕ) (n : ℕ) → n < 2 ^ total ws → number ws (decoded ws n) ≡ n }
    ensures first { (ws : List ℕ) → decoded ws 0 ≡ zeros ws }
{}

/// Words fit widths part by part, as many words as widths, and `same_words` is equality.
pub fn words_fit_in_parts()
    ensures parts { (ws vs : List ℕ) (as' bs : Words) → fit ws as' ≡ true → fit (ws ++ vs) (as' ++ bs) ≡ fit vs bs }
    ensures length { (ws : List ℕ) (as' : Words) → fit ws as' ≡ true → length as' ≡ length ws }
    ensures zeros { (ws : List ℕ) → are_widths ws ≡ true → fit ws (zeros ws) ≡ true }
    ensures equal { (as' bs : Words) → same_words as' bs ≡ true → as' ≡ bs }
    ensures same { (as' : Words) → same_words as' as' ≡ true }
{}

/// The value of an operator on words of some widths is a word of the width that its typing says.
pub fn values_are_words()
    ensures one { (o : Op1) (w : ℕ) (a : Bits) → fits w a ≡ true → fits (op1_width o w) (op1_value o a) ≡ true }
    ensures two { (o : Op2) (w v u : ℕ) (a b : Bits) → op2_typed o w v ≡ Some u → fits w a ≡ true → fits v b ≡ true → fits u (op2_value o a b) ≡ true }
    ensures slices { (w high low u : ℕ) (a : Bits) → slice_typed w high low ≡ Some u → fits w a ≡ true → fits u (slice_value a high low) ≡ true }
    ensures unsigned { (w n u : ℕ) (a : Bits) → extended w n ≡ Some u → fits w a ≡ true → fits u (uext_value a n) ≡ true }
    ensures signed { (w n u : ℕ) (a : Bits) → extended w n ≡ Some u → fits w a ≡ true → fits u (sext_value a n) ≡ true }
    ensures choices { (x v w u : ℕ) (c a b : Bits) → ite_typed x v w ≡ Some u → fits v a ≡ true → fits w b ≡ true → fits u (ite_value c a b) ≡ true }
{}

/// What is put at the places that a mask marks is found there again, all else stays, and words that
/// fit stay words that fit.
pub fn masks_tell_places_apart()
    ensures found { (mask : List Bool) (base others : Words) → length (pick mask base) ≡ length others → pick mask (merge mask base others) ≡ others }
    ensures length { (mask : List Bool) (base others : Words) → length (merge mask base others) ≡ length base }
    ensures picked { (mask : List Bool) (ws : List ℕ) (as' : Words) → fit ws as' ≡ true → fit (pick mask ws) (pick mask as') ≡ true }
    ensures merged { (mask : List Bool) (ws : List ℕ) (base others : Words) → fit ws base ≡ true → fit (pick mask ws) others ≡ true → fit ws (merge mask base others) ≡ true }
{}
