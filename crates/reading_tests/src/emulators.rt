//! Emulator texts of a PIN store whose answer is noise at power-on, by the reader of emulators: what it
//! reads, and the first fault of each other text, with its place.
use crate::readers::{END, Read, Row, circuit_of, driver_of, spec_of, trees_of};
use example_texts::{CIRCUIT, DRIVER, edited};
use lang_read::{LangWhy, read_emulator};
use std::alloc::Global;
use std::test::Fail;

/// The answer has no first value, so that its word is noise; the secret has none either, but is kept.
const ROWS: [Row; 17] = [
    (
        b"(emulator (field ok 1 0) (field pin 4 0) (power (assign ok (noise ok))) (outputs (ok ok)))",
        Read::Fine,
    ),
    (
        b"(emulator (field ok 1 0) (field pin 4 0) (power (local x 1) (if (noise @12) ((assign x #b1)) ()) (assign ok x)))",
        Read::Fine,
    ),
    (
        b"(emulator (field ok 1 0) (field pin 4 0) (power))",
        Read::Fine,
    ),
    (
        b"(emulator (field ok 1 0) (field pin 4 0) (power (assign pin (noise secret))))",
        Read::Wrong(LangWhy::UnknownName, 1, 68),
    ),
    (
        b"(emulator (field ok 1 0) (field pin 4 0) (power (assign ok (noise zz))))",
        Read::Wrong(LangWhy::UnknownName, 1, 67),
    ),
    (
        b"(emulator (field ok 1 0) (field pin 4 0) (power (assign ok (in cmd))))",
        Read::Wrong(LangWhy::UnknownName, 1, 64),
    ),
    (
        b"(emulator (field ok 1 0) (field pin 4 0) (power (assign ok (k ok))))",
        Read::Wrong(LangWhy::UnknownName, 1, 63),
    ),
    (
        b"(emulator (field ok 1 0) (field pin 4 0) (power (assign ok (noise))))",
        Read::Wrong(LangWhy::Form, 1, 60),
    ),
    (
        b"(emulator (field ok 1 0) (field pin 4 0) (power (assign pin (noise ok))))",
        Read::Wrong(LangWhy::Width, 1, 61),
    ),
    (
        b"(emulator (field ok 1 0) (field pin 4 0) (power (query ok check pin)))",
        Read::Wrong(LangWhy::Form, 1, 49),
    ),
    (
        b"(emulator (field ok 1 0) (field pin 4 0) (power (tick)))",
        Read::Wrong(LangWhy::Form, 1, 49),
    ),
    (
        b"(emulator (field ok 1 0) (field pin 4 0) (power) (power))",
        Read::Wrong(LangWhy::Form, 1, 50),
    ),
    (
        b"(emulator (field ok 1 0) (field pin 4 0) (outputs) (power))",
        Read::Wrong(LangWhy::Form, 1, 52),
    ),
    (
        b"(emulator (field ok 1 0) (field pin 4 0) (outputs (ok (noise ok))))",
        Read::Wrong(LangWhy::UnknownName, 1, 62),
    ),
    (
        b"(emulator (field ok 1 0) (field pin 4 0) (outputs (ok ok) (@21 ok)))",
        Read::Wrong(LangWhy::Twice, 1, 60),
    ),
    (
        b"(emulator (field ok 1 0) (field pin 4 0) (tick (assign ok (noise ok))))",
        Read::Wrong(LangWhy::UnknownName, 1, 66),
    ),
    (
        b"(emulator (field ok 1 0) (field pin 4 0) (tick (assign ok (out ok))))",
        Read::Wrong(LangWhy::UnknownName, 1, 64),
    ),
];

/// Reads the text of an emulator.
fn read_text(alloc: Global, text: &[u8]) -> Result<(), Read> {
    let noisy = edited(alloc, CIRCUIT, b"13 init 1 12 4\n", b"")?;
    let noisy = edited(alloc, noisy.as_slice(), b"11 init 3 10 5\n", b"")?;
    let circuit = circuit_of(alloc, noisy.as_slice())?;
    let spec = spec_of(alloc)?;
    let driver = driver_of(alloc, DRIVER, &circuit, &spec)?;
    let trees = trees_of(alloc, text)?;
    let _emulator = read_emulator(alloc, trees.as_slice(), END, &circuit, &spec, &driver)?;
    Ok(())
}

/// What is wrong with the text of an emulator.
fn wrong_with(alloc: Global, text: &[u8]) -> Read {
    match read_text(alloc, text) {
        Ok(()) => Read::Fine,
        Err(read) => read,
    }
}

#[test]
fn emulators_with_noise(rt: HostRuntime) -> Result<(), Fail> {
    let other = ROWS
        .iter()
        .position(|row| wrong_with(rt.alloc(), row.0) != row.1);
    assert_eq!(rt; other, None);
    Ok(())
}
