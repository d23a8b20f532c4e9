//! Driver texts of the PIN store by the reader of drivers: what it reads, and the first fault of each
//! text that is one edit away, with its place.
use crate::readers::{Read, Row, circuit_of, driver_of, spec_of};
use example_texts::{CIRCUIT, DRIVER};
use knox_lang::DriverProgram;
use lang_read::LangWhy;
use sqlite_items::Items;
use std::alloc::Global;
use std::test::Fail;

/// The driver of a text for the store.
fn store_driver(alloc: Global, text: &[u8]) -> Result<DriverProgram, Read> {
    let circuit = circuit_of(alloc, CIRCUIT)?;
    let spec = spec_of(alloc)?;
    driver_of(alloc, text, &circuit, &spec)
}

/// What is wrong with a text of a driver.
fn wrong_with(alloc: Global, text: &[u8]) -> Read {
    match store_driver(alloc, text) {
        Ok(_) => Read::Fine,
        Err(read) => read,
    }
}

/// Texts without a call. That one is missing is told where nothing else is wrong.
const UNCALLED: [Row; 19] = [
    (b"(driver)", Read::Wrong(LangWhy::Missing, 1, 1)),
    (
        b"(driver (persistent secret @12) (idle (cmd 1) (@9 #xf)))",
        Read::Wrong(LangWhy::Missing, 1, 1),
    ),
    (
        b"(driver (idle (cmd #b01)))",
        Read::Wrong(LangWhy::Missing, 1, 1),
    ),
    (b"(driver persistent)", Read::Wrong(LangWhy::Form, 1, 9)),
    (
        b"(driver (persistent secret secret))",
        Read::Wrong(LangWhy::Twice, 1, 28),
    ),
    (
        b"(driver (persistent secret) (persistent ok))",
        Read::Wrong(LangWhy::Form, 1, 29),
    ),
    (
        b"(driver (persistent cmd))",
        Read::Wrong(LangWhy::UnknownName, 1, 21),
    ),
    (
        b"(driver (idle (cmd 4)))",
        Read::Wrong(LangWhy::Width, 1, 20),
    ),
    (
        b"(driver (idle (cmd 3) (@8 3)))",
        Read::Wrong(LangWhy::Twice, 1, 24),
    ),
    (
        b"(driver (idle (secret 3)))",
        Read::Wrong(LangWhy::UnknownName, 1, 16),
    ),
    (b"(driver (idle cmd))", Read::Wrong(LangWhy::Form, 1, 15)),
    (b"(driver (idle (cmd)))", Read::Wrong(LangWhy::Form, 1, 15)),
    (
        b"(driver (idle (cmd x)))",
        Read::Wrong(LangWhy::Form, 1, 20),
    ),
    (
        b"(driver (idle) (persistent secret))",
        Read::Wrong(LangWhy::Form, 1, 16),
    ),
    (b"(driver (idle) (idle))", Read::Wrong(LangWhy::Form, 1, 16)),
    (b"(driver) (driver)", Read::Wrong(LangWhy::Form, 1, 10)),
    (b"(emulator)", Read::Wrong(LangWhy::Form, 1, 1)),
    (b"driver (driver)", Read::Wrong(LangWhy::Form, 1, 1)),
    (b"", Read::Wrong(LangWhy::Form, 1, 1)),
];

/// One call for each operation, in any order.
const CALLS: [Row; 18] = [
    (
        b"(driver (call set (result #b1)) (call check (result #b1)))",
        Read::Fine,
    ),
    (
        b"(driver (persistent secret) (idle (cmd 1)) (call check (result #b1)) (call set (result #b1)))",
        Read::Fine,
    ),
    (
        b"(driver (call set (result zz)))",
        Read::Wrong(LangWhy::UnknownName, 1, 27),
    ),
    (
        b"(driver (persistent zz) (call check (result #b1))) 1",
        Read::Wrong(LangWhy::UnknownName, 1, 21),
    ),
    (
        b"(driver (call zz (result #b1)))",
        Read::Wrong(LangWhy::UnknownName, 1, 15),
    ),
    (
        b"(driver (result (call set)) (call check (result #b1)))",
        Read::Wrong(LangWhy::Form, 1, 9),
    ),
    (
        b"(driver (call set) (call check))",
        Read::Wrong(LangWhy::Form, 1, 9),
    ),
    (
        b"(driver (call set (result #b1) (tick)) (call check (result #b1)))",
        Read::Wrong(LangWhy::Form, 1, 9),
    ),
    (
        b"(driver (call) (call set (result #b1)) (call check (result #b1)))",
        Read::Wrong(LangWhy::Form, 1, 9),
    ),
    (
        b"(driver (call (result #b1)) (call set (result #b1)) (call check (result #b1)))",
        Read::Wrong(LangWhy::Form, 1, 9),
    ),
    (
        b"(driver (call set (result #b1)) (call check (result #b1)) (call set (result zz)))",
        Read::Wrong(LangWhy::Twice, 1, 65),
    ),
    (
        b"(driver (call set (result #b1)) (call set (result zz)) (call check))",
        Read::Wrong(LangWhy::Twice, 1, 39),
    ),
    (
        b"(driver (call set (result #b1)) (call set) (call check (result #b1)))",
        Read::Wrong(LangWhy::Form, 1, 33),
    ),
    (
        b"(driver (call zz (result zz)) (call set (result #b1)) (call check (result #b1)))",
        Read::Wrong(LangWhy::UnknownName, 1, 15),
    ),
    (
        b"(driver (call 1 (result #b1)) (call set (result #b1)) (call check (result #b1)))",
        Read::Wrong(LangWhy::Form, 1, 15),
    ),
    (
        b"(driver (call set (result #b1)) (call check (result #b1)) (persistent secret))",
        Read::Wrong(LangWhy::Form, 1, 59),
    ),
    (
        b"(driver (call set (result #b1)) set (call check (result #b1)))",
        Read::Wrong(LangWhy::Form, 1, 33),
    ),
    (
        b"(driver (call set (result #b1)) (call check (result #b1))) 1",
        Read::Wrong(LangWhy::Form, 1, 60),
    ),
];

/// Bodies: what they see, and what may stand in them.
const BODIES: [Row; 16] = [
    (
        b"(driver (call set (in data v) (tick) (if (out ok) ((tick)) ()) (result (out @21))) (call check (result #b1)))",
        Read::Fine,
    ),
    (
        b"(driver (call set (local v 1) (assign v #b1) (result v)) (call check (result #b1)))",
        Read::Fine,
    ),
    (
        b"(driver (call set (local r 1) (local r 1) (result r)) (call check (result #b1)))",
        Read::Wrong(LangWhy::Twice, 1, 38),
    ),
    (
        b"(driver (call set (tick) (local r 1) (result #b1)) (call check (result #b1)))",
        Read::Wrong(LangWhy::Form, 1, 26),
    ),
    (
        b"(driver (call set (in cmd v) (result #b1)) (call check (result #b1)))",
        Read::Wrong(LangWhy::Width, 1, 27),
    ),
    (
        b"(driver (call set (in ok v) (result #b1)) (call check (result #b1)))",
        Read::Wrong(LangWhy::UnknownName, 1, 23),
    ),
    (
        b"(driver (call set (in cmd) (result #b1)) (call check (result #b1)))",
        Read::Wrong(LangWhy::Form, 1, 19),
    ),
    (
        b"(driver (call set (tick 1) (result #b1)) (call check (result #b1)))",
        Read::Wrong(LangWhy::Form, 1, 19),
    ),
    (
        b"(driver (call set (assign v v) (result #b1)) (call check (result #b1)))",
        Read::Wrong(LangWhy::UnknownName, 1, 27),
    ),
    (
        b"(driver (call set (query v set v) (result #b1)) (call check (result #b1)))",
        Read::Wrong(LangWhy::Form, 1, 19),
    ),
    (
        b"(driver (call set tick (result #b1)) (call check (result #b1)))",
        Read::Wrong(LangWhy::Form, 1, 19),
    ),
    (
        b"(driver (call set (result v)) (call check (result #b1)))",
        Read::Wrong(LangWhy::Width, 1, 27),
    ),
    (
        b"(driver (call set (result g)) (call check (result #b1)))",
        Read::Wrong(LangWhy::UnknownName, 1, 27),
    ),
    (
        b"(driver (call set (result secret)) (call check (result #b1)))",
        Read::Wrong(LangWhy::UnknownName, 1, 27),
    ),
    (
        b"(driver (call set (result (in cmd))) (call check (result #b1)))",
        Read::Wrong(LangWhy::UnknownName, 1, 31),
    ),
    (
        b"(driver (call set (result)) (call check (result #b1)))",
        Read::Wrong(LangWhy::Form, 1, 19),
    ),
];

/// Loops, and what a body may cost.
const COSTS: [Row; 9] = [
    (
        b"(driver (call set (while (out ok) 0) (result #b1)) (call check (result #b1)))",
        Read::Fine,
    ),
    (
        b"(driver (call set (while #b1 1000000 (tick)) (result #b1)) (call check (result #b1)))",
        Read::Fine,
    ),
    (
        b"(driver (call set (while #b1 1000001 (tick)) (result #b1)) (call check (result #b1)))",
        Read::Wrong(LangWhy::Bound, 1, 30),
    ),
    (
        b"(driver (call set (while v 1 (tick)) (result #b1)) (call check (result #b1)))",
        Read::Wrong(LangWhy::Width, 1, 26),
    ),
    (
        b"(driver (call set (while #b1 x (tick)) (result #b1)) (call check (result #b1)))",
        Read::Wrong(LangWhy::Form, 1, 30),
    ),
    (
        b"(driver (call set (while #b1) (result #b1)) (call check (result #b1)))",
        Read::Wrong(LangWhy::Form, 1, 19),
    ),
    (
        b"(driver (call set (while #b1 1 1) (result #b1)) (call check (result #b1)))",
        Read::Wrong(LangWhy::Form, 1, 32),
    ),
    (
        b"(driver (call set (while #b1 1000000 (tick) (tick) (tick) (tick) (tick) (tick) (tick) (tick)) (while #b1 999995) (result #b1)) (call check (result #b1)))",
        Read::Fine,
    ),
    (
        b"(driver (call set (while #b1 1000000 (tick) (tick) (tick) (tick) (tick) (tick) (tick) (tick)) (while #b1 999996) (result #b1)) (call check (result #b1)))",
        Read::Wrong(LangWhy::Bound, 1, 9),
    ),
];

/// The first row of a table whose text isn't read so.
fn first_other(alloc: Global, rows: &[Row]) -> Option<usize> {
    rows.iter()
        .position(|row| wrong_with(alloc, row.0) != row.1)
}

#[test]
fn drivers_without_calls(rt: HostRuntime) -> Result<(), Fail> {
    assert_eq!(rt; first_other(rt.alloc(), &UNCALLED), None);
    Ok(())
}

#[test]
fn drivers_with_calls(rt: HostRuntime) -> Result<(), Fail> {
    assert_eq!(rt; first_other(rt.alloc(), &CALLS), None);
    Ok(())
}

#[test]
fn bodies_of_drivers(rt: HostRuntime) -> Result<(), Fail> {
    assert_eq!(rt; first_other(rt.alloc(), &BODIES), None);
    Ok(())
}

#[test]
fn costs_of_drivers(rt: HostRuntime) -> Result<(), Fail> {
    assert_eq!(rt; first_other(rt.alloc(), &COSTS), None);
    Ok(())
}

/// How many statements each body of a driver has.
fn sizes_of(alloc: Global, text: &[u8]) -> Result<Items<usize>, Read> {
    let driver = store_driver(alloc, text)?;
    let mut sizes = Items::new(alloc);
    for body in driver.parts().bodies.as_slice() {
        sizes.push(body.stmts.len())?;
    }
    Ok(sizes)
}

#[test]
fn bodies_come_in_the_order_of_the_operations(rt: HostRuntime) -> Result<(), Fail> {
    let text = b"(driver (call check (tick) (result #b1)) (call set (tick) (tick) (result #b1)))";
    for (text, first, second) in [(DRIVER, 3, 3), (text.as_slice(), 2, 1)] {
        match sizes_of(rt.alloc(), text) {
            Ok(sizes) => assert_eq!(rt; sizes.as_slice(), [first, second].as_slice()),
            Err(read) => assert_eq!(rt; read, Read::Fine),
        }
    }
    Ok(())
}
