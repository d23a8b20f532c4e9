//! The definitions of tokens and faults, computed on small texts.
ghost use Rattle.std.specs.Prelude.{◌≡◌, [], ◌∷◌, codes, replicate, Some, None};
ghost use Rattle.knox_text.specs.Examples.{place};
ghost use Rattle.knox_sexpr.specs.declared.fault.SexprFault.TheVariants.{Unclosed, Unopened, BadAtom, TooDeep};
ghost use Rattle.knox_sexpr.specs.declared.token.Token.TheVariants.{Open, Close, Atom, Number};
ghost use Rattle.knox_sexpr.specs.Tokens.{tokens_of};
ghost use Rattle.knox_sexpr.specs.Faults.{first_fault};

/// The first fault of a text.
pub fn faults_as_expected()
    ensures empty { first_fault [] ≡ None }
    ensures too_deep { first_fault (replicate 257 40) ≡ Some (TooDeep (place 1 257)) }
    ensures deep { first_fault (replicate 256 40) ≡ Some (Unclosed (place 1 257)) }
    ensures unclosed { first_fault (codes "(spec") ≡ Some (Unclosed (place 1 6)) }
    ensures unclosed_below { first_fault (codes "((a)\r\n\t; )\n") ≡ Some (Unclosed (place 3 1)) }
    ensures unopened { first_fault (codes ")") ≡ Some (Unopened (place 1 1)) }
    ensures unopened_second { first_fault (codes "()\n )(") ≡ Some (Unopened (place 2 2)) }
    ensures unopened_first { first_fault (codes ") 1a") ≡ Some (Unopened (place 1 1)) }
    ensures largest { first_fault (codes "(spec (field a 8 340282366920938463463374607431768211455))") ≡ None }
    ensures too_large { first_fault (codes "(spec (field a 8 340282366920938463463374607431768211456))") ≡ Some (BadAtom (place 1 18)) }
    ensures letter_in_number { first_fault (codes "(a 12b") ≡ Some (BadAtom (place 1 4)) }
    ensures no_digits { first_fault (codes "#x") ≡ Some (BadAtom (place 1 1)) }
    ensures no_base { first_fault (codes "a #d1") ≡ Some (BadAtom (place 1 3)) }
    ensures no_binary_digit { first_fault (codes "#b102") ≡ Some (BadAtom (place 1 1)) }
    ensures too_many_digits { first_fault (codes "#x000000000000000000000000000000000") ≡ Some (BadAtom (place 1 1)) }
    ensures strange_byte { first_fault (97 ∷ 128 ∷ []) ≡ Some (BadAtom (place 1 2)) }
    ensures delete_byte { first_fault (127 ∷ []) ≡ Some (BadAtom (place 1 1)) }
    ensures zero_byte { first_fault (10 ∷ 0 ∷ []) ≡ Some (BadAtom (place 2 1)) }
    ensures strange_in_comment { first_fault (59 ∷ 128 ∷ 10 ∷ []) ≡ None }
{}

/// The tokens of a text, each with its place.
pub fn tokens_as_expected()
    ensures list { tokens_of (codes "(a #xF;7)\r\n\t08)") ≡ Open (place 1 1) ∷ Atom (place 1 2) (codes "a") ∷ Number (place 1 4) 4 15 ∷ Number (place 2 2) 0 8 ∷ Close (place 2 4) ∷ [] }
    ensures symbols { tokens_of (codes "@12 a#b\r-1") ≡ Atom (place 1 1) (codes "@12") ∷ Atom (place 1 5) (codes "a#b") ∷ Atom (place 1 9) (codes "-1") ∷ [] }
    ensures cases { tokens_of (codes "#xaB #b001") ≡ Number (place 1 1) 8 171 ∷ Number (place 1 6) 3 1 ∷ [] }
    ensures comment_to_line_feed { tokens_of (codes "; a b\rc\nd") ≡ Atom (place 2 1) (codes "d") ∷ [] }
{}
