//! Verdicts on devices with a host, on drivers and hints that fail there, and texts that lack a call or
//! a form.
use crate::trial::{Case, first_other, verify};
use example_texts::{
    DRIVER, EMULATOR, HINTS, IMPATIENT_DRIVER, NOISY_CIRCUIT, NOISY_EMULATOR, PADDED_CIRCUIT, SLOW,
    SMALL, Texts, edited,
};
use knox_run::Status;
use std::alloc::{AllocError, Global};
use std::test::Fail;

/// The store whose answer is noise at power-on.
const NOISY: Texts<'static> = Texts {
    c: NOISY_CIRCUIT,
    e: NOISY_EMULATOR,
    ..SMALL
};

/// The driver that may wait, and one that gets stuck behind its first tick: field, secret, ok, busy and
/// argument are 0.
const SLOW_CASES: [Case; 2] = [
    (SLOW, Status::Yes, b"yes\n"),
    (
        Texts {
            d: IMPATIENT_DRIVER,
            ..SLOW
        },
        Status::Undecided,
        b"undecided 9\nchoices 0 0 0 0 0\n",
    ),
];

const CASES: [Case; 3] = [
    (NOISY, Status::Yes, b"yes\n"),
    // 4 bits of the field, 4, 1 and 8 of the cells, 1 of the emulator, 2 and 4 of the inputs.
    (
        Texts {
            c: PADDED_CIRCUIT,
            ..SMALL
        },
        Status::TooWide,
        b"too-wide 2 24\n",
    ),
    // With noise of 1 the circuit shows 1 at power-on, and this emulator 0.
    (
        Texts {
            e: EMULATOR,
            ..NOISY
        },
        Status::Undecided,
        b"undecided 2\nchoices 0 0 1\n",
    ),
];

#[test]
fn a_device_that_is_busy(rt: HostRuntime) -> Result<(), Fail> {
    assert_eq!(rt; first_other(rt.alloc(), &SLOW_CASES)?, None);
    Ok(())
}

#[test]
fn devices_with_noise(rt: HostRuntime) -> Result<(), Fail> {
    assert_eq!(rt; first_other(rt.alloc(), &CASES)?, None);
    Ok(())
}

/// The form `idle` of the hints.
const IDLE: &[u8] = b"(idle (eq (s secret) (c secret)))";

/// One of the store's texts, a piece of it, what stands there instead, and what is written then.
type Edit = (Which, &'static [u8], &'static [u8], &'static [u8]);

/// The specification, the driver or the hints.
#[derive(Clone, Copy)]
enum Which {
    S,
    D,
    H,
}

const FAILING: [Edit; 10] = [
    // The field starts at 1, and the secret at 0.
    (
        Which::S,
        b"secret 4 0)",
        b"secret 4 1)",
        b"undecided 5\nchoices\n",
    ),
    // At power-on the answer is 0.
    (
        Which::H,
        IDLE,
        b"(idle (and (eq (s secret) (c secret)) (c ok)))",
        b"undecided 6\nchoices 0 0\n",
    ),
    // An idle state whose secret isn't the field.
    (
        Which::H,
        IDLE,
        b"(idle (not (c ok)))",
        b"undecided 7\nchoices 0 1 0\n",
    ),
    // The answer of an idle state is 0 behind a tick. The section is the first of the text.
    (
        Which::H,
        HINTS,
        b"(wait) (refine (eq (s secret) (c secret))) (idle (and (eq (s secret) (c secret)) (c ok))) (wire (cut A (and (eq (s secret) (c secret)) (eq (c ok) (e ok)))) (step 1) (subsume A)) (factory) (boot-host) (rest) (call set) (call check)",
        b"undecided 1\nchoices 0 0 1\n",
    ),
    // A tick at idle inputs sets the secret to 0, which the hints of `wait` find at a secret of 1.
    (
        Which::D,
        b"(persistent secret)",
        b"(persistent secret) (idle (cmd 1))",
        b"undecided 8\nchoices 1 1 0\n",
    ),
    // A driver that sets another secret, one that replies 0 to a right guess, one that asks nothing.
    (
        Which::D,
        b"(in data v)",
        b"",
        b"undecided 9\nchoices 0 0 0 1\n",
    ),
    (
        Which::D,
        b"(result (out ok))",
        b"(result #b0)",
        b"undecided 10\nchoices 0 0 0 0\n",
    ),
    (
        Which::D,
        b"(in cmd (bv 2 2))",
        b"",
        b"undecided 10\nchoices 0 0 0 0\n",
    ),
    // A driver that leaves an answer shown, which `idle` forbids.
    (
        Which::H,
        IDLE,
        b"(idle (and (eq (s secret) (c secret)) (not (c ok))))",
        b"undecided 10\nchoices 0 0 0 0\n",
    ),
    // A specification that sets nothing differs from the circuit behind a command on the wires.
    (
        Which::S,
        b"(assign secret v)",
        b"",
        b"undecided 3\nchoices 0 0 0 0 1 1\n",
    ),
];

/// Does a run of the store's texts end so and write that, with one of them edited?
fn ends(alloc: Global, edit: &Edit, status: Status) -> Result<bool, AllocError> {
    let (which, old, new, line) = edit;
    let text = match which {
        Which::S => SMALL.s,
        Which::D => DRIVER,
        Which::H => SMALL.h,
    };
    let text = edited(alloc, text, old, new)?;
    let text = text.as_slice();
    let texts = match which {
        Which::S => Texts { s: text, ..SMALL },
        Which::D => Texts { d: text, ..SMALL },
        Which::H => Texts { h: text, ..SMALL },
    };
    Ok(verify(alloc, texts, Vec::new(alloc))?.says(status, line))
}

#[test]
fn hints_that_fail(rt: HostRuntime) -> Result<(), Fail> {
    for (number, edit) in FAILING.iter().enumerate() {
        assert!(rt; ends(rt.alloc(), edit, Status::Undecided)?, "{number}");
    }
    Ok(())
}

/// A driver without a call stands at its first parenthesis, hints without a form end.
const LACKING: [Edit; 8] = [
    (
        Which::D,
        DRIVER,
        b"(driver (persistent secret))",
        b"text D 1:1 Missing\n",
    ),
    (
        Which::D,
        DRIVER,
        b"; wires\n (driver (call check (result #b1)))",
        b"text D 2:2 Missing\n",
    ),
    (
        Which::H,
        b"(refine (eq (s secret) (c secret)))",
        b"",
        b"text H 9:1 Missing\n",
    ),
    (Which::H, IDLE, b"", b"text H 9:1 Missing\n"),
    (Which::H, b"(factory)", b"", b"text H 9:1 Missing\n"),
    (Which::H, b"(wait)\n", b"", b"text H 8:1 Missing\n"),
    (Which::H, b"(call check)\n", b"", b"text H 8:12 Missing\n"),
    (Which::H, HINTS, b"(refine #b1)", b"text H 1:13 Missing\n"),
];

#[test]
fn texts_that_lack_a_form(rt: HostRuntime) -> Result<(), Fail> {
    for (number, edit) in LACKING.iter().enumerate() {
        assert!(rt; ends(rt.alloc(), edit, Status::Text)?, "{number}");
    }
    Ok(())
}

/// A driver or hints that lack a form and have another fault are in no form that is told.
const FAULTY: [Edit; 5] = [
    (Which::D, DRIVER, b"(driver (persistent zz))", b"not yet\n"),
    (
        Which::D,
        DRIVER,
        b"(driver (call set (result zz)))",
        b"not yet\n",
    ),
    (Which::D, DRIVER, b"(driver) (driver)", b"not yet\n"),
    (Which::D, DRIVER, b"", b"not yet\n"),
    (Which::H, HINTS, b"(refine #b1) (call zz)", b"not yet\n"),
];

#[test]
fn texts_that_lack_more(rt: HostRuntime) -> Result<(), Fail> {
    for (number, edit) in FAULTY.iter().enumerate() {
        assert!(rt; ends(rt.alloc(), edit, Status::NotYet)?, "{number}");
    }
    Ok(())
}
