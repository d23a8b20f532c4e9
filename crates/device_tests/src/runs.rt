//! Runs of the PIN store's segments, each beside the end that the definitions give: the same rows are computed in `pin_store`.
use crate::parts::{device, script, words_of};
use example_texts::{LAST, SMALL, Texts, edited};
use script_core::{Choices, HintNo, ScriptEnd, SegmentNo, run_choices};
use std::alloc::Global;
use std::test::Fail;

/// The last line of a circuit that shows 1 also where the lowest bit of the secret is 0.
const LEAKING: &[u8] = b"\
21 constd 3 1\n\
22 and 3 10 21\n\
23 redor 1 22\n\
24 not 1 12\n\
25 and 1 24 23\n\
26 not 1 25\n\
27 output 26 ok\n\
";

/// Conditions of the cut: circuit and emulator show the same; the secret is the field alone; 1 is shown; and the first where 0 is shown.
const MIMICS: &[u8] = b"(and (eq (s secret) (c secret)) (eq (c ok) (e ok)))";

const REFINE: &[u8] = b"(eq (s secret) (c secret))";

const SHOWS: &[u8] = b"(eq (c ok) #b1)";

const SILENT: &[u8] = b"(and (and (eq (s secret) (c secret)) (eq (c ok) (e ok))) (eq (c ok) #b0))";

/// Choices by their widths and values.
type Pairs = &'static [(u8, u128)];

/// The last line of the circuit, the condition of the cut, choices, and the end of their run.
type Row = (&'static [u8], &'static [u8], Pairs, ScriptEnd);

/// Runs of the segment of `wire`, over the field and the secret.
static WIRE: [Row; 6] = [
    (LAST, MIMICS, &[(4, 9), (4, 9)], ScriptEnd::Held),
    (LAST, MIMICS, &[(4, 9), (4, 3)], ScriptEnd::Vacuous),
    (LAST, MIMICS, &[(4, 9)], ScriptEnd::Short),
    (LAST, MIMICS, &[(4, 9), (5, 9)], ScriptEnd::Short),
    (LEAKING, MIMICS, &[(4, 9), (4, 9)], ScriptEnd::Held),
    (LAST, SHOWS, &[(4, 9), (4, 9)], ScriptEnd::Failed(HintNo(2))),
];

/// Runs of the segment of the cut, over the field, the secret, what circuit and emulator show, the command and the data.
static CUT: [Row; 17] = [
    (
        LAST,
        MIMICS,
        &[(4, 9), (4, 9), (1, 0), (1, 0), (2, 2), (4, 9)],
        ScriptEnd::Held,
    ),
    (
        LAST,
        MIMICS,
        &[(4, 9), (4, 9), (1, 1), (1, 1), (2, 2), (4, 3)],
        ScriptEnd::Held,
    ),
    (
        LAST,
        MIMICS,
        &[(4, 9), (4, 9), (1, 1), (1, 1), (2, 1), (4, 3)],
        ScriptEnd::Held,
    ),
    (
        LAST,
        MIMICS,
        &[(4, 9), (4, 9), (1, 0), (1, 0), (2, 3), (4, 9)],
        ScriptEnd::Held,
    ),
    (
        LAST,
        MIMICS,
        &[(4, 9), (4, 3), (1, 0), (1, 0), (2, 2), (4, 9)],
        ScriptEnd::Vacuous,
    ),
    (
        LAST,
        MIMICS,
        &[(4, 9), (4, 9), (1, 1), (1, 0), (2, 2), (4, 9)],
        ScriptEnd::Vacuous,
    ),
    (
        LAST,
        MIMICS,
        &[(4, 9), (4, 9), (1, 0), (1, 0), (2, 2)],
        ScriptEnd::Short,
    ),
    (LAST, MIMICS, &[(4, 9), (4, 9), (2, 0)], ScriptEnd::Short),
    (
        LAST,
        REFINE,
        &[(4, 0), (4, 0), (1, 0), (1, 1), (2, 0), (4, 0)],
        ScriptEnd::Failed(HintNo(3)),
    ),
    (
        LAST,
        REFINE,
        &[(4, 0), (4, 0), (1, 1), (1, 1), (2, 0), (4, 0)],
        ScriptEnd::Held,
    ),
    (
        LAST,
        SILENT,
        &[(4, 9), (4, 9), (1, 0), (1, 0), (2, 2), (4, 9)],
        ScriptEnd::Failed(HintNo(4)),
    ),
    (
        LAST,
        SILENT,
        &[(4, 9), (4, 9), (1, 0), (1, 0), (2, 2), (4, 3)],
        ScriptEnd::Held,
    ),
    (
        LEAKING,
        MIMICS,
        &[(4, 0), (4, 0), (1, 0), (1, 0), (2, 0), (4, 0)],
        ScriptEnd::Failed(HintNo(3)),
    ),
    (
        LEAKING,
        MIMICS,
        &[(4, 8), (4, 8), (1, 0), (1, 0), (2, 2), (4, 8)],
        ScriptEnd::Failed(HintNo(3)),
    ),
    (
        LEAKING,
        MIMICS,
        &[(4, 9), (4, 9), (1, 0), (1, 0), (2, 2), (4, 8)],
        ScriptEnd::Held,
    ),
    (
        LEAKING,
        MIMICS,
        &[(4, 8), (4, 8), (1, 1), (1, 1), (2, 1), (4, 7)],
        ScriptEnd::Held,
    ),
    (
        LEAKING,
        MIMICS,
        &[(4, 8), (4, 9), (1, 0), (1, 0), (2, 0), (4, 0)],
        ScriptEnd::Vacuous,
    ),
];

/// The end of the run of a row, in the segment of `wire` or in that of the cut.
fn end_of(alloc: Global, row: &Row, segment: SegmentNo) -> Result<ScriptEnd, Fail> {
    let (last, cut, pairs, _) = row;
    let circuit = edited(alloc, SMALL.c, LAST, last)?;
    let texts = Texts {
        c: circuit.as_slice(),
        ..SMALL
    };
    let dev = device(alloc, texts)?;
    let hints = edited(alloc, SMALL.h, MIMICS, cut)?;
    let script = script(alloc, &dev, hints.as_slice())?;
    let words = words_of(alloc, pairs)?;
    Ok(run_choices(alloc, &dev, &script, segment, &Choices { words })?)
}

/// The first row whose run in a segment ends otherwise.
fn first_other(alloc: Global, rows: &[Row], segment: SegmentNo) -> Result<Option<usize>, Fail> {
    for (number, row) in rows.iter().enumerate() {
        if end_of(alloc, row, segment)? != row.3 {
            return Ok(Some(number));
        }
    }
    Ok(None)
}

#[test]
fn segments_run_as_they_are_defined(rt: HostRuntime) -> Result<(), Fail> {
    assert_eq!(rt; first_other(rt.alloc(), &WIRE, SegmentNo(0))?, None);
    assert_eq!(rt; first_other(rt.alloc(), &CUT, SegmentNo(1))?, None);
    Ok(())
}
