//! The definitions of formulas and proofs, computed on small texts.
ghost use Rattle.std.specs.Prelude.{◌≡◌, [], ◌∷◌, codes, true, false, pos, negsuc, Ok, Err};
ghost use Rattle.knox_text.specs.Examples.{place};
ghost use Rattle.knox_cnf.specs.Literals.{literal};
ghost use Rattle.proof_text.specs.declared.fault.ProofFault.TheVariants.{Header, Count, Variable, Shape};
ghost use Rattle.proof_text.specs.declared.proof_line.ProofLine.TheVariants.{Add, Delete};
ghost use Rattle.proof_text.specs.Dimacs.{cnf, cnf_of};
ghost use Rattle.proof_text.specs.Lrat.{lrat_of};

/// The formula that a text means, or its first fault.
pub fn formulas_as_expected()
    ensures meaning { cnf_of (codes "c\np cnf 2\r\n2 1 -2\n0 0") ≡ Ok (cnf 2 ((literal 1 true ∷ literal 2 false ∷ []) ∷ [] ∷ [])) }
    ensures no_header { cnf_of (codes "") ≡ Err (Header (place 1 1)) }
    ensures other_format { cnf_of (codes "p dnf 1 1") ≡ Err (Header (place 1 3)) }
    ensures second_header { cnf_of (codes "p cnf 1 1\n1 p") ≡ Err (Header (place 2 3)) }
    ensures too_many { cnf_of (codes "p cnf 2 1\n1 0\n2 0\n") ≡ Err (Count (place 3 1)) }
    ensures too_few { cnf_of (codes "p cnf 1 1\n1\n") ≡ Err (Count (place 3 1)) }
    ensures past { cnf_of (codes "p cnf 1 1\n2 0\n") ≡ Err (Variable (place 2 1)) }
    ensures minus_zero { cnf_of (codes "p cnf 1 1\n-0") ≡ Err (Shape (place 2 1)) }
    ensures late_comment { cnf_of (codes "p cnf 1 1\n1\nc\n0") ≡ Err (Shape (place 3 1)) }
{}

/// The proof that a text means, or its first fault.
pub fn proofs_as_expected()
    ensures meaning { lrat_of (codes "5 2 0 1 -2 0\nc\n\n5 d 1 0") ≡ Ok (Add 1 5 (literal 2 true ∷ []) (pos 1 ∷ negsuc 1 ∷ []) ∷ Delete 4 (1 ∷ []) ∷ []) }
    ensures missing { lrat_of (codes "5 2 0 1 2") ≡ Err (Shape (place 1 10)) }
    ensures missing_before_return { lrat_of (codes "5 2 0 1 2\r\n") ≡ Err (Shape (place 1 10)) }
    ensures too_much { lrat_of (codes "5 0 0 7\n") ≡ Err (Shape (place 1 7)) }
    ensures minus { lrat_of (codes "-5 0 0\n") ≡ Err (Shape (place 1 1)) }
    ensures least_hint { lrat_of (codes "5 0 -9223372036854775808 0") ≡ Ok (Add 1 5 [] (negsuc 9223372036854775807 ∷ []) ∷ []) }
    ensures great_literal { lrat_of (codes "5 9223372036854775808 0 0") ≡ Err (Shape (place 1 3)) }
    ensures great_id { lrat_of (codes "18446744073709551616 d 1 0") ≡ Ok (Delete 1 (1 ∷ []) ∷ []) }
    ensures great_id_of_a_lemma { lrat_of (codes "18446744073709551616 0 0") ≡ Err (Shape (place 1 1)) }
{}
