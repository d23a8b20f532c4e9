//! What a run prints of circuits' texts with a fault, which are one edit away from the PIN store's.
use crate::trial::{Case, first_other, verify};
use example_texts::{CIRCUIT, SMALL, Texts, edited};
use knox_run::Status;
use std::alloc::{AllocError, Global};
use std::test::Fail;

/// What stands once in the circuit, what stands there instead, and what is printed.
type Edit = (&'static [u8], &'static [u8], &'static [u8]);

const FAULTY: [Edit; 8] = [
    // The text ends inside its 14th line.
    (
        b" 6\n15 ite 3 14 9 10\n16 next 3 10 15\n17 eq 1 8 7\n18 eq 1 9 10\n19 and 1 17 18\n20 next 1 12 19\n21 output 12 ok\n",
        b"",
        b"text C line 14 Operand\n",
    ),
    (
        b"6 constd 2 1\n",
        b"5 constd 2 1\n",
        b"text C line 6 Order\n",
    ),
    (CIRCUIT, b"1 sort bitvec 0\n", b"text C line 1 Sort\n"),
    (CIRCUIT, b"1 sort bitvec 129\n", b"text C line 1 Sort\n"),
    (
        CIRCUIT,
        b"4294967296 sort bitvec 1\n",
        b"text C line 1 Number\n",
    ),
    (CIRCUIT, b"1 frob", b"text C line 1 Keyword\n"),
    (CIRCUIT, b"; a\n\n1 uaddo", b"text C line 3 Unsupported\n"),
    // The answer's state has an `init` and no `next`.
    (b"20 next 1 12 19\n", b"", b"text C line 12 Next\n"),
];

/// What stands behind the last line of the circuit, the 21st, and what is printed.
const BEHIND: [(&[u8], &[u8]); 16] = [
    (b"22 constraint 14\n", b"text C line 22 Constraint\n"),
    (b"22 sort bitvec 129\n", b"text C line 22 Sort\n"),
    (b"22 const 1 2\n", b"text C line 22 Digits\n"),
    (b"22 constd 2 4\n", b"text C line 22 Digits\n"),
    (b"22 constd 2 -3\n", b"text C line 22 Digits\n"),
    (b"22 add 3 10 -8\n", b"text C line 22 Width\n"),
    (b"21 sort bitvec 3\n", b"text C line 22 Order\n"),
    (b"20 sort bitvec 3\n", b"text C line 22 Order\n"),
    (b"22 redor 1 23\n", b"text C line 22 Operand\n"),
    (b"22 eq 1 8 10\n", b"text C line 22 Width\n"),
    (b"22 zero 1 a b\n", b"text C line 22 Operand\n"),
    (b"\n22 init 3 10 5\n", b"text C line 23 Init\n"),
    (b"22 next 3 10 10\n", b"text C line 22 Next\n"),
    (b"22 state 1 x\n23 init 1 22 4\n", b"text C line 22 Next\n"),
    (b"22 state 1\n;\n23 bad 22\n", b"text C line 24 Next\n"),
    (b"\r\n22 frob\r\n", b"text C line 23 Keyword\n"),
];

/// Does a run of the store's texts with another circuit tell this?
fn tells(alloc: Global, circuit: &[u8], line: &[u8]) -> Result<bool, AllocError> {
    let texts = Texts {
        c: circuit,
        ..SMALL
    };
    Ok(verify(alloc, texts, Vec::new(alloc))?.says(Status::Text, line))
}

#[test]
fn a_faulty_circuit_is_told(rt: HostRuntime) -> Result<(), Fail> {
    let alloc = rt.alloc();
    for (number, (old, new, line)) in FAULTY.iter().enumerate() {
        let text = edited(alloc, SMALL.c, old, new)?;
        assert!(rt; tells(alloc, text.as_slice(), line)?, "{number}");
    }
    Ok(())
}

#[test]
fn a_faulty_line_behind_the_last_is_told(rt: HostRuntime) -> Result<(), Fail> {
    let alloc = rt.alloc();
    for (number, (more, line)) in BEHIND.iter().enumerate() {
        let mut text = Vec::from_slice(alloc, SMALL.c)?;
        text.extend_from_slice(more)?;
        assert!(rt; tells(alloc, text.as_slice(), line)?, "{number}");
    }
    Ok(())
}

/// The circuit's fault.
const FROB: &[u8] = b"text C line 1 Keyword\n";

/// Texts of which the circuit's isn't the only one with a fault.
const SEVERAL: [Case; 4] = [
    (
        Texts {
            c: b"1 frob",
            s: b"(spec",
            ..SMALL
        },
        Status::Text,
        FROB,
    ),
    (
        Texts {
            c: b"1 frob",
            d: b"(driver)",
            ..SMALL
        },
        Status::Text,
        FROB,
    ),
    (
        Texts {
            c: b"1 frob",
            e: b"",
            h: b"",
            ..SMALL
        },
        Status::Text,
        FROB,
    ),
    (
        Texts {
            c: b"1 frob",
            s: b"",
            d: b"",
            e: b"",
            h: b"",
        },
        Status::Text,
        FROB,
    ),
];

#[test]
fn the_circuit_comes_first(rt: HostRuntime) -> Result<(), Fail> {
    assert_eq!(rt; first_other(rt.alloc(), &SEVERAL)?, None);
    Ok(())
}
