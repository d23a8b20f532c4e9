//! The first faults of circuits' texts: for each rule texts that break it, and for each rule that a line
//! can break together with a later one a text whose line breaks both. Rows are those of `running::is_told`.
use crate::running::{is_told, told};
use std::alloc::{AllocError, Global};
use std::test::Fail;

/// Lines whose number or keyword is wrong.
const NUMBERS: &str = "
# The first token is no number from 1 to 4294967295; the last line of these also falls behind.
1 Number: x sort bitvec 1
1 Number: sort bitvec 1
1 Number: 0 sort bitvec 1
1 Number: 4294967296 sort bitvec 1
1 Number: 99999999999999999999999999999 sort bitvec 1
1 Number: -1 sort bitvec 1
3 Number: ; one||1x sort bitvec 1
2 Number: 5 sort bitvec 1|0 zero 5
# The number isn't above the last one; the last of these is also a `constraint`.
2 Order: 2 sort bitvec 1|1 zero 2
4 Order: |2 sort bitvec 1|; two|2 zero 2|
2 Order: 2 sort bitvec 1|2 constraint 2
# A `constraint`, whatever follows.
3 Constraint: 1 sort bitvec 1|2 one 1|3 constraint 2|
1 Constraint: 1 constraint 1
1 Constraint: 1 constraint
# The operators for overflow, whatever follows.
3 Unsupported: 1 sort bitvec 1|2 one 1|3 saddo 1 2 2
3 Unsupported: 1 sort bitvec 1|2 one 1|3 uaddo 1 2 2
1 Unsupported: 1 sdivo 1 1 1
1 Unsupported: 1 udivo 1 1 1
1 Unsupported: 1 smulo
1 Unsupported: 1 umulo x y z
1 Unsupported: 1 ssubo
1 Unsupported: 1 usubo
# No keyword, or an unknown one, whatever follows.
1 Keyword: 1
1 Keyword: 1 ; sort
1 Keyword: 1 frob
1 Keyword: 1 Sort bitvec 1
1 Keyword: 1 sorts bitvec 1
1 Keyword: 1 constraints 1
2 Keyword: 1 sort bitvec 1|2 frob x y z
# Unusual spellings.
1 Number: +1 zero 1
1 Number: -1 zero 1
1 Number: 1a zero 1
1 Number: 00 zero 1
1 Constraint: 1 constraint 1 x y
1 Unsupported: 1 smulo x
1 Keyword: 1 smulo\r
1 Keyword: 1 ;zero 1
1 Keyword: 1 zero\x0b1";

/// Lines whose operands are wrong.
const OPERANDS: &str = "
# A token is missing.
1 Operand: 1 sort
1 Operand: 1 sort bitvec
1 Operand: 1 sort array 1
2 Operand: 1 sort bitvec 1|2 zero
2 Operand: 1 sort bitvec 1|2 constd 1
3 Operand: 1 sort bitvec 1|2 zero 1|3 and 1 2
3 Operand: 1 sort bitvec 1|2 one 1|3 justice 2 2
# One too many.
1 Operand: 1 sort bitvec 1 a b
2 Operand: 1 sort bitvec 1|2 zero 1 a b
# No number.
1 Operand: 1 sort bitvec x
1 Operand: 1 sort bitvec 1;a b
1 Operand: 1 sort bitvec 1\r
1 Operand: 1 sort bitvec 1\r\r|
2 Operand: 1 sort bitvec 1|2 zero -1
# Neither `bitvec` nor `array`.
1 Operand: 1 sort bits 1
1 Operand: 1 sort bitvec\x0b1
# A `justice` of none.
3 Operand: 1 sort bitvec 1|2 one 1|3 justice 0
3 Operand: 1 sort bitvec 1|2 one 1|3 justice 0 2
# No node before this one, or a sort.
3 Operand: 1 sort bitvec 1|2 zero 1|3 not 1 -3
3 Operand: 1 sort bitvec 1|2 zero 1|3 not 1 4|4 zero 1
3 Operand: 1 sort bitvec 1|2 zero 1|3 not 1 1
3 Operand: 1 sort bitvec 1|2 zero 1|3 not 1 -0
3 Operand: 1 sort bitvec 1|2 zero 1|3 not 1 -
3 Operand: 1 sort bitvec 1|2 zero 1|3 not 1 99999999999999999999999999999999999999999999999999
# No state.
3 Operand: 1 sort bitvec 1|2 zero 1|3 next 1 2 2
4 Operand: 1 sort bitvec 1|2 zero 1|3 state 1|4 init 1 -3 2
# The complement of an array.
5 Operand: 1 sort bitvec 1|2 sort array 1 1|3 state 2|4 zero 1|5 read 1 -3 4
4 Operand: 1 sort bitvec 1|2 sort array 1 1|3 state 2|4 next 2 3 -3
# A sort is wrong too.
1 Operand: 1 sort bitvec 0 a b
2 Operand: 1 sort bitvec 1|2 not 9 7
# Unusual spellings.
1 Operand: 1 zero 1\r s t
1 Operand: 1 zero -1
1 Operand: 1 not 1 --2
1 Operand: 1 justice 4294967296 1
1 Operand: 1 constd 1 ;1";

/// Lines whose sorts or digits are wrong.
const SORTS: &str = "
# A width out of its limits.
1 Sort: 1 sort bitvec 0|
1 Sort: 1 sort bitvec 129|
1 Sort: 1 sort bitvec 99999999999999999999999999999999999999999999999999
2 Sort: 1 sort bitvec 13|2 sort array 1 1
# A number that names no sort.
1 Sort: 1 zero 1
2 Sort: 1 sort bitvec 1|2 zero 2
2 Sort: 1 sort bitvec 1|2 zero 3
2 Sort: 1 sort bitvec 1|2 sort array 1 2
3 Sort: 1 sort bitvec 1|2 zero 1|3 not 2 2
# The sort of arrays where one of words is wanted.
3 Sort: 1 sort bitvec 1|2 sort array 1 1|3 sort array 2 1
3 Sort: 1 sort bitvec 1|2 sort array 1 1|3 sort array 1 2
3 Sort: 1 sort bitvec 1|2 sort array 1 1|3 zero 2
3 Sort: 1 sort bitvec 1|2 sort array 1 1|3 input 2
4 Sort: 1 sort bitvec 1|2 sort array 1 1|3 state 2|4 output 3
# A state or its value of another sort.
5 Sort: 1 sort bitvec 1|2 sort bitvec 2|3 state 1|4 zero 2|5 next 1 3 4
5 Sort: 1 sort bitvec 1|2 sort bitvec 2|3 state 1|4 zero 2|5 init 2 3 4
# Digits, widths, arrays or an input are wrong too.
2 Sort: 1 sort bitvec 1|2 const 3 2
3 Sort: 1 sort bitvec 2|2 zero 1|3 redor 7 2
4 Sort: 1 sort bitvec 1|2 sort array 1 1|3 state 2|4 eq 9 3 3
5 Sort: 1 sort bitvec 1|2 sort bitvec 2|3 input 2|4 state 1|5 init 1 4 3
# Digits that aren't of the base, or a value that doesn't fit.
2 Digits: 1 sort bitvec 1|2 const 1 2
2 Digits: 1 sort bitvec 1|2 const 1 -1
2 Digits: 1 sort bitvec 1|2 const 1 10
2 Digits: 1 sort bitvec 1|2 consth 1 2
2 Digits: 1 sort bitvec 1|2 consth 1 g
2 Digits: 1 sort bitvec 1|2 constd 1 -2
2 Digits: 1 sort bitvec 1|2 constd 1 -
2 Digits: 1 sort bitvec 1|2 constd 1 1x
2 Digits: 1 sort bitvec 2|2 constd 1 4
# A state without `next` is shown before.
4 Digits: 1 sort bitvec 1|2 state 1|3 output 2|4 constd 1 2";

/// Lines whose nodes don't fit, and texts that break the rule of a whole circuit.
const NODES: &str = "
# An equality of arrays, also where the sort of its result is wrong.
4 Unsupported: 1 sort bitvec 1|2 sort array 1 1|3 state 2|4 eq 1 3 3
4 Unsupported: 1 sort bitvec 1|2 sort array 1 1|3 state 2|4 neq 1 3 3
7 Unsupported: 1 sort bitvec 1|2 sort array 1 1|3 state 2|4 sort bitvec 2|5 sort array 1 4|6 state 5|7 neq 1 3 6
5 Unsupported: 1 sort bitvec 1|2 sort array 1 1|3 state 2|4 sort bitvec 2|5 eq 4 3 3
# Widths that don't fit, or an array where a word is wanted.
3 Width: 1 sort bitvec 2|2 zero 1|3 redor 1 2
5 Width: 1 sort bitvec 1|2 sort bitvec 2|3 zero 1|4 zero 2|5 add 1 3 4
3 Width: 1 sort bitvec 2|2 zero 1|3 slice 1 2 0 1
3 Width: 1 sort bitvec 1|2 zero 1|3 uext 1 2 1
3 Width: 1 sort bitvec 1|2 zero 1|3 sext 1 2 99999999999999999999999999999999999999999999999999
4 Width: 1 sort bitvec 1|2 sort array 1 1|3 state 2|4 not 1 3
5 Width: 1 sort bitvec 1|2 sort array 1 1|3 state 2|4 zero 1|5 eq 1 3 4
5 Width: 1 sort bitvec 1|2 sort array 1 1|3 state 2|4 zero 1|5 read 1 4 4
3 Width: 1 sort bitvec 2|2 zero 1|3 fair 2
3 Width: 1 sort bitvec 2|2 zero 1|3 justice 1 2
# The node is a state without `next` too.
3 Width: 1 sort bitvec 2|2 state 1|3 bad 2
# A second `init`, and values that hang on an input, the state itself or a later one.
5 Init: 1 sort bitvec 1|2 zero 1|3 state 1|4 init 1 3 2|5 init 1 3 2
4 Init: 1 sort bitvec 1|2 input 1|3 state 1|4 init 1 3 2|5 next 1 3 2
5 Init: 1 sort bitvec 1|2 input 1|3 state 1|4 not 1 2|5 init 1 3 -4
3 Init: 1 sort bitvec 1|2 state 1|3 init 1 2 2
4 Init: 1 sort bitvec 1|2 state 1|3 state 1|4 init 1 2 3
# A second `next`, also of a state that another line shows while it had none.
6 Next: 1 sort bitvec 1|2 zero 1|3 state 1|4 init 1 3 2|5 next 1 3 2|6 next 1 3 2
4 Next: 1 sort bitvec 1|2 state 1|3 next 1 2 2|4 next 1 2 -2
# More than 65,536 words of arrays.
19 TooManyWords: 1 sort bitvec 12|2 sort array 1 1|3 state 2|4 state 2|5 state 2|6 state 2|7 state 2|8 state 2|9 state 2|10 state 2|11 state 2|12 state 2|13 state 2|14 state 2|15 state 2|16 state 2|17 state 2|18 state 2|19 state 2|
21 TooManyWords: 1 sort bitvec 1|2 sort bitvec 12|3 sort array 2 1|4 sort array 1 1|5 state 4|6 state 3|7 state 3|8 state 3|9 state 3|10 state 3|11 state 3|12 state 3|13 state 3|14 state 3|15 state 3|16 state 3|17 state 3|18 state 3|19 state 3|20 state 3|21 state 3|
# A state with `init` alone, and lines whose nodes hang on a state without `next`.
3 Next: 1 sort bitvec 1|2 zero 1|3 state 1|4 init 1 3 2
3 Next: 1 sort bitvec 1|2 zero 1|3 state 1|4 init 1 3 2|5 output 3
3 Next: 1 sort bitvec 1|2 state 1|3 output 2
3 Next: 1 sort bitvec 1|2 state 1|3 bad -2
4 Next: 1 sort bitvec 1|2 state 1|3 state 1|4 next 1 3 2
6 Next: |1 sort bitvec 1|2 state 1|3 not 1 2|;|4 output -3|5 bad 2";

/// Lines that break two rules, of which the first is told, and lines behind one that shows a state
/// without `next`.
const BOTH: &str = "
# The number isn't above the last one, and the rest of the line is wrong too.
2 Order: 2 sort bitvec 1|2 saddo 1 2 2
2 Order: 2 sort bitvec 1|2 frob
2 Order: 2 sort bitvec 1|1 zero
2 Order: 2 sort bitvec 1|1 sort bitvec 0
# A second `init` or `next` whose value is no node, or has another sort.
5 Operand: 1 sort bitvec 1|2 zero 1|3 state 1|4 init 1 3 2|5 init 1 3 9
7 Sort: 1 sort bitvec 1|2 sort bitvec 2|3 zero 1|4 zero 2|5 state 1|6 init 1 5 3|7 init 1 5 4
4 Operand: 1 sort bitvec 1|2 state 1|3 next 1 2 2|4 next 1 2 9
6 Sort: 1 sort bitvec 1|2 sort bitvec 2|3 zero 2|4 state 1|5 next 1 4 4|6 next 1 4 3
# The rule of a whole circuit comes after all lines.
4 Order: 1 sort bitvec 1|2 state 1|3 output 2|3 zero 1
4 Operand: 1 sort bitvec 1|2 state 1|3 output 2|4 zero
4 Sort: 1 sort bitvec 1|2 state 1|3 output 2|4 zero 9
6 Unsupported: 1 sort bitvec 1|2 state 1|3 output 2|4 sort array 1 1|5 state 4|6 eq 1 5 5";

#[test]
fn each_rule_has_its_place(rt: HostRuntime) -> Result<(), Fail> {
    for table in [NUMBERS, OPERANDS, SORTS, NODES, BOTH] {
        for row in table.split('\n') {
            assert!(rt; is_told(rt.alloc(), row)?, "{row}");
        }
    }
    Ok(())
}

/// A text whose first 1,000,000 lines are blank.
fn behind_blank_lines(alloc: Global, line: &[u8]) -> Result<Vec<u8>, AllocError> {
    let mut text = vec![in alloc; b'\n'; 1_000_000]?;
    text.extend_from_slice(line)?;
    Ok(text)
}

/// Lines past the 1,000,000th: one that is right, one whose number is wrong too, and one that is skipped.
#[test]
fn lines_have_a_limit(rt: HostRuntime) -> Result<(), Fail> {
    let rows: [(&[u8], &str); 3] = [
        (b"1 sort bitvec 1\n", "1000001 TooManyLines"),
        (b"0 frob", "1000001 TooManyLines"),
        (b"; the end\n\n", "0 lines"),
    ];
    for (line, expected) in rows {
        let text = behind_blank_lines(rt.alloc(), line)?;
        assert_eq!(rt; told(rt.alloc(), text.as_slice())?.as_str(), expected);
    }
    Ok(())
}
