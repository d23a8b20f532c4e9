//! Texts of the form in unusual spellings, names of any bytes, and lines that a draft refuses.
use crate::running::{counts, is_told, line, read};
use circuit_table::{Line, Shape, Why};
use knox_circuit::{Circuit, Draft, Port};
use std::test::Fail;

/// Texts in unusual spellings, and how many lines each has. Rows are those of `running::is_told`.
const UNUSUAL: &str = "
0 lines: ; a comment alone
0 lines: ||  \t|
0 lines: ; a comment||  ; and blanks|
2 lines: 1 sort bitvec 1\r|2 zero 1\r|
1 lines: 0001 sort bitvec 08
1 lines:   1\tsort \t bitvec  3\t
1 lines: 1 sort bitvec 1 a;b
1 lines: 1 sort bitvec 1 ;a b c
1 lines: 1 sort bitvec 1 x ; y
2 lines: 7 sort bitvec 8|4294967295 constd 7 000255 @7
2 lines: 7 sort bitvec 128|8 constd 7 -170141183460469231731687303715884105728
4 lines: 1 sort bitvec 1|2 sort bitvec 1|3 zero 1|4 not 2 3
4 lines: 1 sort bitvec 1|2 zero 1|3 state 1|4 next 1 3 2
# Sorts are compared by what they are, a state may be bare, and its word the first value of others.
2 lines: 1 sort bitvec 2|2 state 1
5 lines: 1 sort bitvec 1|2 state 1|3 state 1|4 init 1 3 -2|5 next 1 3 3
6 lines: 1 sort bitvec 1|2 sort array 1 1|3 one 1|4 state 2|5 init 2 4 3|6 next 2 4 4
4 lines: 1 sort bitvec 1|2 state 1|3 fair 2|4 justice 2 2 -2
5 lines: 1 sort bitvec 1|2 sort bitvec 4|3 constd 2 -8|4 constd 1 -0|5 uext 1 4 0
# 65,536 words of arrays.
18 lines: 1 sort bitvec 12|2 sort array 1 1|3 state 2|4 state 2|5 state 2|6 state 2|7 state 2|8 state 2|9 state 2|10 state 2|11 state 2|12 state 2|13 state 2|14 state 2|15 state 2|16 state 2|17 state 2|18 state 2|";

/// A comment, an empty line, a tab and a carriage return among nine lines.
const DEVICE: &[u8] = b"1 sort bitvec 1
3 sort bitvec 4
5 zero 3
9 input 3 data ; what is stored
10 state 3 secret
11 init 3 10 5

16 next 3 10 9\r
17\teq 1 9 10
21 output 17 ok";

/// Symbols that no S-expression can write: parentheses, a `;` inside, and bytes above 127.
const NAMED: &[u8] = b"1 sort bitvec 1
2 input 1 a(b
3 input 1 ((;);
4 input 1 \xff\x80
5 state 1 s;\xc3\xa9 ; a comment
6 next 1 5 2
7 output 5 )";

fn is_named(port: Option<&Port>, name: &[u8]) -> bool {
    match port {
        Some(port) => port.name.as_slice() == name,
        None => false,
    }
}

fn is_refused(draft: &mut Draft, line: Line, why: Why) -> bool {
    draft.add(line) == Err(why)
}

#[test]
fn unusual_spellings_are_read(rt: HostRuntime) -> Result<(), Fail> {
    for row in UNUSUAL.split('\n') {
        assert!(rt; is_told(rt.alloc(), row)?, "{row}");
    }
    Ok(())
}

/// Whether a line is `justice` over these nodes, with this number, text line and symbol.
fn is_justice(line: &Line, number: u32, at: u32, nodes: &[i64], symbol: &[u8]) -> bool {
    match &line.shape {
        Shape::Justice(count, list) => {
            line.number == number
                && line.at == at
                && *count as usize == nodes.len()
                && list.as_slice() == nodes
                && line.symbol.as_slice() == symbol
        }
        _ => false,
    }
}

/// The last line has zeros before its numbers, tabs, a complement, and a `;` in its symbol.
const JUSTICE: &[u8] = b"1 sort bitvec 1
3 one 1
4 zero 1
 007\tjustice 02 -3 04 a;b\t;c d";

#[test]
fn lines_are_read(rt: HostRuntime) -> Result<(), Fail> {
    let circuit = read(rt.alloc(), JUSTICE)?;
    let Some(line) = circuit.lines().get(3) else {
        return Err("no line")?;
    };
    assert!(rt; is_justice(line, 7, 4, &[-3, 4], b"a;b"));
    Ok(())
}

#[test]
fn nothing_is_made_of_no_lines(rt: HostRuntime) -> Result<(), Fail> {
    let circuit = read(rt.alloc(), b"")?;
    assert_eq!(rt; counts(&circuit), [0; 5]);
    assert_eq!(rt; circuit.word_count(), 0);
    Ok(())
}

#[test]
fn ports_and_cells_are_counted(rt: HostRuntime) -> Result<(), Fail> {
    let circuit = read(rt.alloc(), DEVICE)?;
    assert_eq!(rt; counts(&circuit), [9, 1, 1, 1, 0]);
    Ok(())
}

/// Whether the inputs have the names of `NAMED`.
fn has_named_inputs(circuit: &Circuit) -> bool {
    let inputs = circuit.inputs();
    is_named(inputs.first(), b"a(b")
        && is_named(inputs.get(1), b"((;);")
        && is_named(inputs.get(2), b"\xff\x80")
}

/// Whether the cell has the name of `NAMED`.
fn has_named_cell(circuit: &Circuit) -> bool {
    match circuit.cells().first() {
        Some(cell) => cell.name.as_slice() == b"s;\xc3\xa9".as_slice(),
        None => false,
    }
}

#[test]
fn names_may_have_any_bytes(rt: HostRuntime) -> Result<(), Fail> {
    let circuit = read(rt.alloc(), NAMED)?;
    assert!(rt; has_named_inputs(&circuit));
    assert!(rt; is_named(circuit.outputs_list().first(), b")"));
    assert!(rt; has_named_cell(&circuit));
    Ok(())
}

/// The refused lines have numbers above those of the lines behind them, so a draft that kept
/// anything of them would refuse these as out of order.
#[test]
fn a_refused_line_leaves_a_draft_as_it_was(rt: HostRuntime) -> Result<(), Fail> {
    let alloc = rt.alloc();
    let mut draft = Draft::new(alloc);
    draft.add(line(alloc, 1, Shape::Bitvec(4)))?;
    assert!(rt; is_refused(&mut draft, line(alloc, 9, Shape::Zero(7)), Why::Sort));
    draft.add(line(alloc, 2, Shape::State(1)))?;
    assert!(rt;
        is_refused(
            &mut draft,
            line(alloc, 9, Shape::Next(1, 2, 5)),
            Why::Operand
        )
    );
    draft.add(line(alloc, 3, Shape::Next(1, 2, -2)))?;
    assert!(rt; is_refused(&mut draft, line(alloc, 9, Shape::Next(1, 2, 2)), Why::Next));
    assert!(rt; is_refused(&mut draft, line(alloc, 3, Shape::Ones(1)), Why::Order));
    let circuit = draft.finish()?;
    assert_eq!(rt; counts(&circuit), [3, 0, 0, 1, 0]);
    Ok(())
}
