//! Verdicts on small devices, and texts that are outside the form.
use crate::trial::{Case, first_other, verify};
use example_texts::{
    ANSWERING_EMULATOR, LEAKING, SMALL, TORN, TORN_DRIVER, TORN_EMULATOR, TORN_HINTS, TORN_SPEC,
    TWO_OUTPUTS, TWO_STATES, Texts, WEAK_HINTS, WIDE_CIRCUIT, WIDE_DRIVER, WIDE_EMULATOR,
    WIDE_SPEC,
};
use knox_run::Status;
use std::test::Fail;

/// Texts of the form.
const CASES: [Case; 8] = [
    (SMALL, Status::Yes, b"yes\n"),
    // In ascending order the first choices at which circuit and emulator show different
    // outputs have all words 0 but the emulator's ok.
    (
        Texts {
            h: WEAK_HINTS,
            ..SMALL
        },
        Status::Undecided,
        b"undecided 3\nchoices 0 0 0 1 0 0\n",
    ),
    // At power-on the circuit's ok is 0, and the emulator's 1, which the cut refuses.
    (
        Texts {
            e: ANSWERING_EMULATOR,
            ..SMALL
        },
        Status::Undecided,
        b"undecided 2\nchoices 0 0\n",
    ),
    // With a secret of 0 the circuit shows 0, also where ok is 1.
    (
        Texts {
            c: LEAKING,
            ..SMALL
        },
        Status::Undecided,
        b"undecided 3\nchoices 0 0 1 1 0 0\n",
    ),
    // 5 bits of the field, 5 and 1 of the cells, 1 of the emulator, 4 and 5 of the inputs.
    (
        Texts {
            c: WIDE_CIRCUIT,
            s: WIDE_SPEC,
            d: WIDE_DRIVER,
            e: WIDE_EMULATOR,
            ..SMALL
        },
        Status::TooWide,
        b"too-wide 2 21\n",
    ),
    // The emulator shows 1 and 0, and the circuit 0 and 1.
    (
        Texts {
            c: TWO_OUTPUTS,
            s: b"(spec)",
            d: b"(driver)",
            e: b"(emulator (outputs (o #b1)))",
            h: b"(refine #b1) (idle #b1) (wire (cut A #b1) (step 1) (subsume A)) (factory) (boot-host) (rest) (wait)",
        },
        Status::Undecided,
        b"undecided 3\nchoices\n",
    ),
    // The first state keeps its word over a power-cycle, and the emulator starts at 0.
    (
        Texts {
            c: TWO_STATES,
            s: b"(spec)",
            d: b"(driver (persistent m))",
            e: b"(emulator (field r 1 0) (outputs (q r)) (tick (assign r (in d))))",
            h: b"(refine #b1) (idle #b1) (wire (cut A (eq (c @4) (e r))) (step 1) (subsume A)) (factory) (boot-host) (rest) (wait)",
        },
        Status::Undecided,
        b"undecided 2\nchoices 1\n",
    ),
    // A tick that sets another high bit leaves the secret torn, and the next one makes it whole.
    (
        Texts {
            c: TORN,
            s: TORN_SPEC,
            d: TORN_DRIVER,
            e: TORN_EMULATOR,
            h: TORN_HINTS,
        },
        Status::Undecided,
        b"undecided 3\nchoices 0 0 0 0 0 0 1 1 0\n",
    ),
];

/// Hints outside the form.
const OUTSIDE: [Case; 1] = [(
    Texts {
        h: b"(refine #b1) (refine #b1)",
        ..SMALL
    },
    Status::NotYet,
    b"not yet\n",
)];

#[test]
fn verdicts_and_their_lines(rt: HostRuntime) -> Result<(), Fail> {
    assert_eq!(rt; first_other(rt.alloc(), &CASES)?, None);
    Ok(())
}

#[test]
fn a_text_outside_the_form(rt: HostRuntime) -> Result<(), Fail> {
    assert_eq!(rt; first_other(rt.alloc(), &OUTSIDE)?, None);
    Ok(())
}

#[test]
fn an_out_that_fails(rt: HostRuntime) -> Result<(), Fail> {
    let alloc = rt.alloc();
    let ran = verify(alloc, SMALL, vec![in alloc; 1]?)?;
    assert!(rt; ran.says(Status::WriteFault, b"ye"));
    Ok(())
}
