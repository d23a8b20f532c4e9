//! Formulas that are solved, by runs over shelves and sinks in memory. The formulas and the answers are
//! worked by hand.
use crate::trial::{Ran, held, run_line};
use knox_edge::MemShelf;
use knox_run::Status;
use std::alloc::{AllocError, Global};
use std::test::Fail;

/// Runs a line over a formula named f and a proof named p.
fn run_over(alloc: Global, line: &str, formula: &[u8], proof: &[u8]) -> Result<Ran, AllocError> {
    let named = [(b"f".as_slice(), formula), (b"p".as_slice(), proof)];
    let shelf = MemShelf::new(alloc, held(alloc, &named)?, Vec::new(alloc));
    run_line(alloc, line, shelf, Vec::new(alloc), Vec::new(alloc))
}

/// Five pigeons, four holes: variable 4(i-1)+j says that pigeon i sits in hole j.
const PIGEONS: &[u8] = b"\
p cnf 20 45\n\
1 2 3 4 0\n5 6 7 8 0\n9 10 11 12 0\n13 14 15 16 0\n17 18 19 20 0\n\
-1 -5 0\n-1 -9 0\n-1 -13 0\n-1 -17 0\n-5 -9 0\n\
-5 -13 0\n-5 -17 0\n-9 -13 0\n-9 -17 0\n-13 -17 0\n\
-2 -6 0\n-2 -10 0\n-2 -14 0\n-2 -18 0\n-6 -10 0\n\
-6 -14 0\n-6 -18 0\n-10 -14 0\n-10 -18 0\n-14 -18 0\n\
-3 -7 0\n-3 -11 0\n-3 -15 0\n-3 -19 0\n-7 -11 0\n\
-7 -15 0\n-7 -19 0\n-11 -15 0\n-11 -19 0\n-15 -19 0\n\
-4 -8 0\n-4 -12 0\n-4 -16 0\n-4 -20 0\n-8 -12 0\n\
-8 -16 0\n-8 -20 0\n-12 -16 0\n-12 -20 0\n-16 -20 0\n\
";

#[test]
fn pigeons_are_refuted_and_the_proof_is_verified(rt: HostRuntime) -> Result<(), Fail> {
    let alloc = rt.alloc();
    let solved = run_over(alloc, "sat f", PIGEONS, b"")?;
    assert_eq!(rt; solved.status, Status::Done);
    assert!(rt; solved.out.as_slice().starts_with(b"c unsat\n"));
    let checked = run_over(alloc, "check f p", PIGEONS, solved.out.as_slice())?;
    assert!(rt; checked.says(Status::Done, b"verified\n"));
    Ok(())
}

#[test]
fn a_budget_of_one_lemma_is_spent(rt: HostRuntime) -> Result<(), Fail> {
    let ran = run_over(rt.alloc(), "sat f budget 1", PIGEONS, b"")?;
    assert!(rt; ran.says(Status::Spent, b"spent 1\n"));
    Ok(())
}

/// Formulas without lemmas, and what is written of them.
const PLAIN: [(&[u8], &[u8]); 3] = [
    (b"p cnf 0 0\n", b"sat\nv 0\n"),
    (b"p cnf 0 1\n0\n", b"c unsat\n"),
    (b"p cnf 3 3\n1 0\n-1 -2 0\n2 3 0\n", b"sat\nv 1 -2 3 0\n"),
];

#[test]
fn formulas_without_a_choice(rt: HostRuntime) -> Result<(), Fail> {
    for (number, (formula, lines)) in PLAIN.iter().enumerate() {
        let ran = run_over(rt.alloc(), "sat f", formula, b"")?;
        assert!(rt; ran.says(Status::Done, lines), "{number}");
    }
    Ok(())
}

#[test]
fn a_formula_with_a_fault(rt: HostRuntime) -> Result<(), Fail> {
    let ran = run_over(rt.alloc(), "sat f", b"p cnf 1 1\n2 0\n", b"")?;
    assert!(rt; ran.says(Status::Text, b"text F 2:1 Variable\n"));
    Ok(())
}
