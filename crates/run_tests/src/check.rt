//! Proofs that are checked, by runs over shelves and sinks in memory. The formulas and the answers
//! are worked by hand.
use crate::trial::{held, run_line};
use knox_edge::MemShelf;
use knox_run::Status;
use std::alloc::{AllocError, Global};
use std::test::Fail;

/// The four clauses over two variables.
const FOUR: &[u8] = b"p cnf 2 4\n1 2 0\n-1 2 0\n1 -2 0\n-1 -2 0\n";

/// A proof that refutes them.
const REFUTED: &[u8] = b"5 2 0 1 2 0\n6 0 5 3 4 0\n";

/// Three pigeons, two holes: variable 2(i-1)+j says that pigeon i sits in hole j.
const PIGEONS: &[u8] = b"\
p cnf 6 9\n\
1 2 0\n3 4 0\n5 6 0\n\
-1 -3 0\n-1 -5 0\n-3 -5 0\n\
-2 -4 0\n-2 -6 0\n-4 -6 0\n\
";

/// A refutation of them: where pigeon 1 sits in hole 1, the others can't both sit in hole 2.
const NO_PIGEONS: &[u8] = b"\
10 -1 0 4 5 2 3 9 0\n\
11 2 0 10 1 0\n\
12 -4 0 11 7 0\n\
13 3 0 12 2 0\n\
14 0 11 8 3 13 6 0\n\
";

/// What is written of a proof that refutes its formula, and of one that ends before it does.
const VERIFIED: &[u8] = b"verified\n";

const OPEN: &[u8] = b"rejected no empty clause\n";

/// How a run ends that writes a line.
fn status_of(line: &[u8]) -> Status {
    if line == VERIFIED {
        Status::Done
    } else if line.starts_with(b"rejected") {
        Status::No
    } else {
        Status::Text
    }
}

/// Does a check of a proof of a formula write this line?
fn writes(alloc: Global, formula: &[u8], proof: &[u8], line: &[u8]) -> Result<bool, AllocError> {
    let named = [(b"f".as_slice(), formula), (b"p".as_slice(), proof)];
    let shelf = MemShelf::new(alloc, held(alloc, &named)?, Vec::new(alloc));
    let ran = run_line(alloc, "check f p", shelf, Vec::new(alloc), Vec::new(alloc))?;
    Ok(ran.says(status_of(line), line))
}

/// Formulas and proofs of them that are verified.
const REFUTING: [(&[u8], &[u8]); 7] = [
    (FOUR, REFUTED),
    (FOUR, b"5 2 0 1 2 0\n5 d 1 0\n6 0 5 3 4 0\n"),
    (b"p cnf 0 1\n0\n", b""),
    // Lines after the empty clause, and its deletion.
    (FOUR, b"5 2 0 1 2 0\n6 0 5 3 4 0\n7 1 0 6 0\n0 d 6 0\n"),
    (PIGEONS, NO_PIGEONS),
    // RAT lines: by two groups, and on a new variable.
    (FOUR, b"5 -1 0 -1 2 -3 4 0\n6 0 5 1 3 0\n"),
    (FOUR, b"5 3 1 0 0\n6 2 0 1 2 0\n7 0 6 3 4 0\n"),
];

#[test]
fn proofs_that_are_verified(rt: HostRuntime) -> Result<(), Fail> {
    for (number, (formula, proof)) in REFUTING.iter().enumerate() {
        assert!(rt; writes(rt.alloc(), formula, proof, VERIFIED)?, "{number}");
    }
    Ok(())
}

/// Formulas, proofs that are refused, and the line that is written.
const REJECTED: [(&[u8], &[u8], &[u8]); 14] = [
    (
        FOUR,
        b"5 2 0 1 7 0\n6 0 5 3 4 0\n",
        b"rejected line 1 NoSuchClause 7\n",
    ),
    (
        FOUR,
        b"5 2 0 1 0\n6 0 5 3 4 0\n",
        b"rejected line 1 NoConflict\n",
    ),
    (
        FOUR,
        b"5 1 0 2 0\n6 0 5 3 4 0\n",
        b"rejected line 1 NotUnit 2\n",
    ),
    (FOUR, b"5 2 0 1 2 0\n", b"rejected no empty clause\n"),
    (
        FOUR,
        b"4 2 0 1 2 0\n6 0 5 3 4 0\n",
        b"rejected line 1 IdNotNew 4\n",
    ),
    (
        FOUR,
        b"5 2 0 -1 2 0\n6 0 5 3 4 0\n",
        b"rejected line 1 NotPivot 1\n",
    ),
    (FOUR, b"5 -1 0 -1 2 0\n", b"rejected line 1 Uncovered 3\n"),
    (FOUR, b"5 0 -1 2 0\n", b"rejected line 1 NoPivot\n"),
    (
        FOUR,
        b"5 2 0 1 2 0\n5 d 9 0\n6 0 5 3 4 0\n",
        b"rejected line 2 NoSuchClause 9\n",
    ),
    (
        FOUR,
        b"5 2 0 1 9223372036854775807 0\n",
        b"rejected line 1 NoSuchClause 9223372036854775807\n",
    ),
    // The number is that of the text's line, and the first line that is refused is named.
    (
        FOUR,
        b"c\n\n5 2 0 1 2 0\n6 0 5 3 0\n7 0 9 0\n",
        b"rejected line 4 NoConflict\n",
    ),
    // A line after the empty clause is still to be accepted.
    (
        FOUR,
        b"5 2 0 1 2 0\n6 0 5 3 4 0\n6 1 0 6 0\n",
        b"rejected line 3 IdNotNew 6\n",
    ),
    (FOUR, b"", b"rejected no empty clause\n"),
    // The hints leave out that pigeons 2 and 3 don't share hole 2.
    (
        PIGEONS,
        b"10 -1 0 4 5 2 3 0\n",
        b"rejected line 1 NoConflict\n",
    ),
];

#[test]
fn proofs_that_are_rejected(rt: HostRuntime) -> Result<(), Fail> {
    for (number, (formula, proof, line)) in REJECTED.iter().enumerate() {
        assert!(rt; writes(rt.alloc(), formula, proof, line)?, "{number}");
    }
    Ok(())
}

/// Formulas and proofs of which one has a fault, and the line that is written.
const TOLD: [(&[u8], &[u8], &[u8]); 7] = [
    (b"p cnf 2 1\n1 0\n2 0\n", REFUTED, b"text F 3:1 Count\n"),
    (b"p cnf 1 1\n2 0\n", REFUTED, b"text F 2:1 Variable\n"),
    (FOUR, b"5 2 0 1 2", b"text P 1:10 Shape\n"),
    // The formula's fault comes before the proof's.
    (b"p dnf 1 1\n", b"5 2 0 1 2", b"text F 1:3 Header\n"),
    (b"", b"", b"text F 1:1 Header\n"),
    // A fault behind a line that would be refused.
    (FOUR, b"5 2 0 1 7 0\n6 0 5 x 4 0\n", b"text P 2:7 Shape\n"),
    // A fault behind the empty clause.
    (
        FOUR,
        b"5 2 0 1 2 0\n6 0 5 3 4 0\n7 1 0 -\n",
        b"text P 3:7 Shape\n",
    ),
];

#[test]
fn texts_with_a_fault(rt: HostRuntime) -> Result<(), Fail> {
    for (number, (formula, proof, line)) in TOLD.iter().enumerate() {
        assert!(rt; writes(rt.alloc(), formula, proof, line)?, "{number}");
    }
    Ok(())
}

/// What is written of the refutation's first bytes. A line that ends too soon has its fault behind its
/// last byte.
const OF_PROOF: [&[u8]; 25] = [
    OPEN,
    b"text P 1:2 Shape\n",
    b"text P 1:3 Shape\n",
    b"text P 1:4 Shape\n",
    b"text P 1:5 Shape\n",
    b"text P 1:6 Shape\n",
    b"text P 1:7 Shape\n",
    b"text P 1:8 Shape\n",
    b"text P 1:9 Shape\n",
    b"text P 1:10 Shape\n",
    b"text P 1:11 Shape\n",
    OPEN,
    OPEN,
    b"text P 2:2 Shape\n",
    b"text P 2:3 Shape\n",
    b"text P 2:4 Shape\n",
    b"text P 2:5 Shape\n",
    b"text P 2:6 Shape\n",
    b"text P 2:7 Shape\n",
    b"text P 2:8 Shape\n",
    b"text P 2:9 Shape\n",
    b"text P 2:10 Shape\n",
    b"text P 2:11 Shape\n",
    VERIFIED,
    VERIFIED,
];

#[test]
fn prefixes_of_a_proof(rt: HostRuntime) -> Result<(), Fail> {
    for (end, line) in OF_PROOF.iter().enumerate() {
        assert!(rt; end <= REFUTED.len());
        assert!(rt; writes(rt.alloc(), FOUR, &REFUTED[..end], line)?, "{end}");
    }
    Ok(())
}

/// Two clauses that can't both be true, and a proof of it.
const ONE: &[u8] = b"p cnf 1 2\n1 0\n-1 0\n";

const ONE_REFUTED: &[u8] = b"3 0 1 2 0\n";

/// What is written of the formula's first bytes. Behind a line feed stands the next line's first column.
const OF_FORMULA: [&[u8]; 20] = [
    b"text F 1:1 Header\n",
    b"text F 1:2 Header\n",
    b"text F 1:3 Header\n",
    b"text F 1:3 Header\n",
    b"text F 1:3 Header\n",
    b"text F 1:6 Header\n",
    b"text F 1:7 Header\n",
    b"text F 1:8 Header\n",
    b"text F 1:9 Header\n",
    b"text F 1:10 Count\n",
    b"text F 2:1 Count\n",
    b"text F 2:2 Count\n",
    b"text F 2:3 Count\n",
    b"text F 2:4 Count\n",
    b"text F 3:1 Count\n",
    b"text F 3:1 Shape\n",
    b"text F 3:3 Count\n",
    b"text F 3:4 Count\n",
    VERIFIED,
    VERIFIED,
];

#[test]
fn prefixes_of_a_formula(rt: HostRuntime) -> Result<(), Fail> {
    for (end, line) in OF_FORMULA.iter().enumerate() {
        assert!(rt; end <= ONE.len());
        assert!(rt;
            writes(rt.alloc(), &ONE[..end], ONE_REFUTED, line)?,
            "{end}"
        );
    }
    Ok(())
}
