//! Texts that mean a formula or a proof, faults with their places, and what is printed.
use knox_text::Place;
use proof_text::{ProofFault, print_cnf, print_lrat, read_cnf, read_lrat};
use std::test::Fail;

fn place(line: u32, column: u32) -> Place {
    Place { line, column }
}

#[test]
fn a_formula_is_read_and_printed(rt: HostRuntime) -> Result<(), Fail> {
    let text: &[u8] = b"c a comment\np cnf 2\r\n2 1 2\n0\ncomment\n -01 -2\t0";
    assert!(rt; text.len() < 1000);
    let cnf = read_cnf(rt.alloc(), text)
        .ok()
        .ok_or("the text means a formula")?;
    let printed = print_cnf(rt.alloc(), &cnf)?;
    let wanted: &[u8] = b"p cnf 2 2\n1 2 0\n-1 -2 0\n";
    assert!(rt; printed.as_slice() == wanted);
    Ok(())
}

#[test]
fn a_proof_is_read_and_printed(rt: HostRuntime) -> Result<(), Fail> {
    let text: &[u8] = b"5 2 0 1 2 0\nc\n5 d 1 0\n\n6 0 5 -3 4 0\n";
    assert!(rt; text.len() < 1000);
    let lines = read_lrat(rt.alloc(), text)
        .ok()
        .ok_or("the text means a proof")?;
    assert_eq!(rt; lines.len(), 3);
    let printed = print_lrat(rt.alloc(), lines.as_slice())?;
    let wanted: &[u8] = b"5 2 0 1 2 0\n0 d 1 0\n6 0 5 -3 4 0\n";
    assert!(rt; printed.as_slice() == wanted);
    Ok(())
}

#[test]
fn faults_of_formulas(rt: HostRuntime) -> Result<(), Fail> {
    let cases: [(&[u8], ProofFault); 8] = [
        (b"", ProofFault::Header(place(1, 1))),
        (b"p dnf 1 1\n", ProofFault::Header(place(1, 3))),
        (b"p cnf 2 1\n1 0\n2 0\n", ProofFault::Count(place(3, 1))),
        (b"p cnf 1 1\n2 0\n", ProofFault::Variable(place(2, 1))),
        (b"p cnf 1 1\n1\n", ProofFault::Count(place(3, 1))),
        (b"p cnf 1 1\n-0", ProofFault::Shape(place(2, 1))),
        (b"p cnf 1 1\n1 p", ProofFault::Header(place(2, 3))),
        (b"p cnf 10000001 1\n", ProofFault::Header(place(1, 7))),
    ];
    for (text, fault) in cases {
        assert!(rt; text.len() < 1000);
        assert_eq!(rt; read_cnf(rt.alloc(), text).err(), Some(fault));
    }
    Ok(())
}

#[test]
fn faults_of_proofs(rt: HostRuntime) -> Result<(), Fail> {
    let cases: [(&[u8], ProofFault); 6] = [
        (b"5 2 0 1 2", ProofFault::Shape(place(1, 10))),
        (b"5 2 0 1 2\r\n", ProofFault::Shape(place(1, 10))),
        (b"5 2 0 1 2 0 7\n", ProofFault::Shape(place(1, 13))),
        (b"-5 2 0 1 0\n", ProofFault::Shape(place(1, 1))),
        (
            b"5 9223372036854775808 0 0\n",
            ProofFault::Shape(place(1, 3)),
        ),
        (
            b"5 0 0\n5 d 18446744073709551616 0\n",
            ProofFault::Shape(place(2, 5)),
        ),
    ];
    for (text, fault) in cases {
        assert!(rt; text.len() < 1000);
        assert_eq!(rt; read_lrat(rt.alloc(), text).err(), Some(fault));
    }
    Ok(())
}
