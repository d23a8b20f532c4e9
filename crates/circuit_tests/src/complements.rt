//! Complements of nodes wherever an operand may be one.
use crate::running::{factory, joined, outputs, read, tick};
use knox_circuit::Circuit;
use knox_words::word_at;
use std::alloc::Global;
use std::test::Fail;

/// Constants of 4 bits whose complements are 0100 and 1100, the index 01, and an array of noise.
const COMPLEMENTS: &[u8] = b"1 sort bitvec 1
2 sort bitvec 2
3 sort bitvec 4
4 sort bitvec 8
5 sort array 2 3
10 const 3 1011
11 const 3 0011
12 const 2 01
13 one 1
14 state 5
15 next 5 14 14
";

/// The width of one output, its values at the factory and after a tick, and the lines behind these that
/// give it. The array has the words 1, 2, 4 and 8. Each value is another one where a `-` is left out.
const TURNED: &str = "
4 11 11: 20 not 3 -10|30 output 20
4 5 5: 20 inc 3 -10|30 output 20
4 3 3: 20 udiv 3 -11 -10|30 output 20
8 67 67: 20 concat 4 -10 11|30 output 20
8 188 188: 20 concat 4 10 -11|30 output 20
2 1 1: 20 slice 2 -10 3 2|30 output 20
8 4 4: 20 uext 4 -10 4|30 output 20
8 4 4: 20 sext 4 -10 4|30 output 20
8 252 252: 20 sext 4 -11 4|30 output 20
4 3 3: 20 ite 3 -13 10 11|30 output 20
4 4 4: 20 ite 3 13 -10 11|30 output 20
4 12 12: 20 ite 3 -13 10 -11|30 output 20
4 4 4: 20 read 3 14 -12|30 output 20
4 12 12: 20 write 5 14 -12 11|21 read 3 20 -12|30 output -21
4 12 12: 20 write 5 14 12 -11|21 read 3 20 12|30 output 21
# The states that follow have an `init`, so they take no noise.
4 4 12: 20 state 3|21 init 3 20 -10|22 next 3 20 -11|30 output 20
4 4 11: 20 state 3|21 init 3 20 10|22 next 3 20 -20|30 output -20
4 4 2: 20 state 5|21 init 5 20 -10|22 next 5 20 14|23 read 3 20 12|30 output 23
1 0 0: 20 bad -13|21 fair -13|22 justice 2 -13 13|30 output -13";

/// The one output of a circuit: its width, and its values at the factory and after a tick.
fn turned(alloc: Global, circuit: &Circuit) -> Result<String, Fail> {
    let mut state = factory(alloc, circuit, 4, &[1, 2, 4, 8])?;
    let before = word_at(outputs(alloc, circuit, &state, &[])?.as_slice(), 0);
    tick(alloc, circuit, &mut state, &[])?;
    let after = word_at(outputs(alloc, circuit, &state, &[])?.as_slice(), 0);
    let (width, before, after) = (before.width(), before.value(), after.value());
    Ok(format!(in alloc; "{width} {before} {after}")?)
}

/// Whether a row holds.
fn is_turned(alloc: Global, row: &str) -> Result<bool, Fail> {
    let Some((expected, lines)) = row.split_once(": ") else {
        return Ok(row.is_empty() || row.starts_with('#'));
    };
    let lines = lines.replace(alloc, "|", "\n")?;
    let text = joined(alloc, &[COMPLEMENTS, lines.as_bytes()])?;
    let circuit = read(alloc, text.as_slice())?;
    Ok(turned(alloc, &circuit)?.as_str() == expected)
}

#[test]
fn complements_stand_wherever_words_do(rt: HostRuntime) -> Result<(), Fail> {
    for row in TURNED.split('\n') {
        assert!(rt; is_turned(rt.alloc(), row)?, "{row}");
    }
    Ok(())
}
