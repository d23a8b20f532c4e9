//! The outcomes of the driver's tests in runs of the store's segments, worked by hand from the drivers' texts.
use crate::parts::{device, script, words_of};
use example_texts::{DRIVER, IMPATIENT_DRIVER, SLOW, SMALL, Texts, edited};
use script_core::{Choices, SegmentNo, branch_word};
use sqlite_items::Items;
use std::alloc::Global;
use std::test::Fail;

/// The store that is busy for a tick, whose driver has no turn to wait.
const IMPATIENT: Texts<'static> = Texts {
    d: IMPATIENT_DRIVER,
    ..SLOW
};

/// What the driver of the store does to ask.
const ASKS: &[u8] = b"(in cmd (bv 2 2)) (in data g) (tick)";

/// The same behind tests of what is shown and of the guess, one of them within another.
const LOOKS: &[u8] =
    b"(if (out ok) ((if (eq g (bv 4 6)) () ())) ()) (if (redor g) () ()) (in cmd (bv 2 2)) (in data g) (tick)";

/// It asks up to twice, until 1 is shown, and looks in each turn.
const REPEATS: &[u8] =
    b"(in cmd (bv 2 2)) (in data g) (while (not (out ok)) 2 (tick) (if (out ok) ((in cmd (bv 2 0))) ()))";

/// The segments of a call and another one, and a number behind all of them.
const WAIT: u32 = 5;

const SET: u32 = 6;

const CHECK: u32 = 7;

const NONE: u32 = 8;

/// Choices by their widths and values.
type Pairs = &'static [(u8, u128)];

/// The segment, the field, the device words and the argument, and the outcomes.
type Row = (u32, Pairs, &'static [bool]);

/// The cells are the secret, ok and busy. The loop is tested behind the first tick, when the store is
/// busy, and behind its one turn.
static WAITING: [Row; 9] = [
    (
        SET,
        &[(4, 9), (4, 9), (1, 0), (1, 0), (4, 3)],
        &[true, false],
    ),
    (
        CHECK,
        &[(4, 9), (4, 9), (1, 1), (1, 1), (4, 3)],
        &[true, false],
    ),
    // Words that are left over.
    (
        SET,
        &[(4, 9), (4, 9), (1, 0), (1, 0), (4, 3), (4, 3)],
        &[true, false],
    ),
    // The secret isn't the field: the state isn't idle.
    (SET, &[(4, 9), (4, 3), (1, 0), (1, 0), (4, 3)], &[]),
    // Choices that are too short, at the argument and before it, and a word of another width.
    (SET, &[(4, 9), (4, 9), (1, 0), (1, 0)], &[]),
    (SET, &[(4, 9)], &[]),
    (SET, &[(4, 9), (4, 9), (1, 0), (2, 0), (4, 3)], &[]),
    (WAIT, &[(4, 9), (4, 9), (1, 0), (1, 0)], &[]),
    (NONE, &[(4, 9), (4, 9), (1, 0), (1, 0), (4, 3)], &[]),
];

/// The test at which the driver is out of turns is the last.
static STUCK: [Row; 1] = [(SET, &[(4, 9), (4, 9), (1, 0), (1, 0), (4, 3)], &[true])];

/// Where 0 is shown, the inner test isn't met.
static LOOKING: [Row; 5] = [
    (
        CHECK,
        &[(4, 9), (4, 9), (1, 1), (4, 6)],
        &[true, true, true],
    ),
    (
        CHECK,
        &[(4, 9), (4, 9), (1, 1), (4, 0)],
        &[true, false, false],
    ),
    (CHECK, &[(4, 9), (4, 9), (1, 0), (4, 6)], &[false, true]),
    (CHECK, &[(4, 9), (4, 9), (1, 0), (4, 0)], &[false, false]),
    (SET, &[(4, 9), (4, 9), (1, 1), (4, 6)], &[]),
];

static REPEATING: [Row; 3] = [
    // The first turn shows 1, and the loop ends.
    (
        CHECK,
        &[(4, 9), (4, 9), (1, 0), (4, 9)],
        &[true, true, false],
    ),
    // Both turns show 0: the driver is out of turns at the third test of the loop.
    (
        CHECK,
        &[(4, 9), (4, 9), (1, 0), (4, 3)],
        &[true, false, true, false, true],
    ),
    // 1 is shown before the body.
    (CHECK, &[(4, 9), (4, 9), (1, 1), (4, 3)], &[false]),
];

/// The outcomes of a row.
fn outcomes(alloc: Global, texts: Texts, row: &Row) -> Result<Items<bool>, Fail> {
    let (segment, pairs, _) = row;
    let dev = device(alloc, texts)?;
    let script = script(alloc, &dev, texts.h)?;
    let words = words_of(alloc, pairs)?;
    let choices = Choices { words };
    Ok(branch_word(alloc, &dev, &script, SegmentNo(*segment), &choices)?)
}

/// The first row with other outcomes.
fn first_other(alloc: Global, texts: Texts, rows: &[Row]) -> Result<Option<usize>, Fail> {
    for (number, row) in rows.iter().enumerate() {
        let met = outcomes(alloc, texts, row)?;
        if met.as_slice() != row.2 {
            return Ok(Some(number));
        }
    }
    Ok(None)
}

/// The same of the store, whose driver does this to ask.
fn first_other_asking(alloc: Global, asks: &[u8], rows: &[Row]) -> Result<Option<usize>, Fail> {
    let driver = edited(alloc, DRIVER, ASKS, asks)?;
    let texts = Texts {
        d: driver.as_slice(),
        ..SMALL
    };
    first_other(alloc, texts, rows)
}

#[test]
fn loops_are_tested_before_each_turn(rt: HostRuntime) -> Result<(), Fail> {
    assert_eq!(rt; first_other(rt.alloc(), SLOW, &WAITING)?, None);
    assert_eq!(rt; first_other(rt.alloc(), IMPATIENT, &STUCK)?, None);
    Ok(())
}

#[test]
fn tests_come_in_order(rt: HostRuntime) -> Result<(), Fail> {
    assert_eq!(rt; first_other_asking(rt.alloc(), LOOKS, &LOOKING)?, None);
    assert_eq!(rt; first_other_asking(rt.alloc(), REPEATS, &REPEATING)?, None);
    Ok(())
}
