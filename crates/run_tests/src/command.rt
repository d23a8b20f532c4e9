//! Runs over shelves and sinks in memory.
use crate::trial::{held, run_line};
use knox_edge::MemShelf;
use knox_run::Status;
use std::alloc::{AllocError, Global};
use std::test::Fail;

const USAGE: &str =
    "usage: knox verify C S D E H [budget N] [paths N] | replay C S D E T | prove F [budget N] | sat F [budget N] | check F P | selftest N\n";

/// A shelf of texts with the names c, s, d, e and h.
fn five_texts(alloc: Global, fail: Vec<u64>) -> Result<MemShelf, AllocError> {
    let none = b"".as_slice();
    let named = [
        (b"c".as_slice(), none),
        (b"s".as_slice(), none),
        (b"d".as_slice(), none),
        (b"e".as_slice(), none),
        (b"h".as_slice(), none),
    ];
    Ok(MemShelf::new(alloc, held(alloc, &named)?, fail))
}

#[test]
fn words_that_are_no_command(rt: HostRuntime) -> Result<(), Fail> {
    let alloc = rt.alloc();
    let lines = [
        "",
        "verify small.btor2",
        "verify c s d e h budget 0",
        "verify c s d e h budget 4294967297",
        "verify c s d e h budget +1",
        "verify c s d e h paths 65537",
        "verify c s d e h paths 2 budget 2",
        "verify c s d e h budget 2 paths",
        "selftest 0",
        "selftest 65",
        "prove f budget 18446744073709551617",
        "sat f budget 0",
        "sat f g",
    ];
    for line in lines {
        let shelf = five_texts(alloc, Vec::new(alloc))?;
        let ran = run_line(alloc, line, shelf, Vec::new(alloc), Vec::new(alloc))?;
        assert!(rt; ran.says(Status::Usage, USAGE.as_bytes()), "{line}");
    }
    Ok(())
}

#[test]
fn commands_that_are_not_built(rt: HostRuntime) -> Result<(), Fail> {
    let alloc = rt.alloc();
    let lines = ["replay c s d e t", "prove f budget 007", "selftest 064"];
    for line in lines {
        let shelf = MemShelf::new(alloc, Vec::new(alloc), Vec::new(alloc));
        let ran = run_line(alloc, line, shelf, Vec::new(alloc), Vec::new(alloc))?;
        assert!(rt; ran.says(Status::NotYet, b"not yet\n"), "{line}");
    }
    Ok(())
}

#[test]
fn a_third_read_that_fails(rt: HostRuntime) -> Result<(), Fail> {
    let alloc = rt.alloc();
    let shelf = five_texts(alloc, vec![in alloc; 3]?)?;
    let line = "verify c s d e h budget 4294967296 paths 065536";
    let ran = run_line(alloc, line, shelf, Vec::new(alloc), Vec::new(alloc))?;
    assert!(rt; ran.says(Status::ReadFault, b"cannot read d\n"));
    Ok(())
}

/// A text of 67,108,865 bytes.
fn long_text(alloc: Global) -> Result<Vec<u8>, AllocError> {
    let chunk = [0u8; 8192];
    let mut text = Vec::new(alloc);
    for _ in 0..8192 {
        text.extend_from_slice(&chunk)?;
    }
    text.push(0)?;
    Ok(text)
}

#[test]
fn a_text_of_one_byte_too_many(rt: HostRuntime) -> Result<(), Fail> {
    let alloc = rt.alloc();
    let mut held = Vec::new(alloc);
    held.push((
        Vec::from_slice(alloc, b"c")?,
        Vec::from_slice(alloc, b"1 frob")?,
    ))?;
    held.push((Vec::from_slice(alloc, b"s")?, long_text(alloc)?))?;
    let shelf = MemShelf::new(alloc, held, Vec::new(alloc));
    let ran = run_line(
        alloc,
        "verify c s d e h paths 1",
        shelf,
        Vec::new(alloc),
        Vec::new(alloc),
    )?;
    assert!(rt; ran.says(Status::Text, b"text S TooLong\n"));
    Ok(())
}

#[test]
fn an_err_that_fails(rt: HostRuntime) -> Result<(), Fail> {
    let alloc = rt.alloc();
    let shelf = five_texts(alloc, Vec::new(alloc))?;
    let ran = run_line(
        alloc,
        "verify c",
        shelf,
        Vec::new(alloc),
        vec![in alloc; 1]?,
    )?;
    assert_eq!(rt; ran.status, Status::WriteFault);
    assert!(rt; ran.err.as_slice() == b"usa".as_slice());
    Ok(())
}
