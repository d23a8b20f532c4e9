//! Arrays: filled by their `init`, chosen by `ite`, read through writes, and swapped at a tick.
use crate::running::{are, factory, gives, read, tick};
use std::test::Fail;

/// Two arrays of four words: one is filled with 1011, the other with its complement.
const FILLED: &[u8] = b"1 sort bitvec 2
2 sort bitvec 4
3 sort array 1 2
4 const 2 1011
5 state 3 plain
6 init 3 5 4
7 next 3 5 5
8 state 3 turned
9 init 3 8 -4
10 next 3 8 8";

/// Two arrays of noise that swap at each tick. `chosen` reads the one that `which` tells, and `written`
/// reads it with 15 at the index 1.
const SWAPPED: &[u8] = b"1 sort bitvec 1
2 sort bitvec 2
3 sort bitvec 4
4 sort array 2 3
5 input 1 which
6 input 2 at
7 state 4 a
8 state 4 b
9 next 4 7 8
10 next 4 8 7
11 ite 4 5 7 8
12 read 3 11 6
13 output 12 chosen
14 one 2
15 ones 3
16 write 4 11 14 15
17 read 3 16 6
18 output 17 written";

/// The inputs `which` and `at`, and the outputs where the arrays have the words 1 to 4 and 5 to 8.
const CHOSEN: [(u128, u128, [u128; 2]); 8] = [
    (1, 0, [1, 1]),
    (1, 1, [2, 15]),
    (1, 2, [3, 3]),
    (1, 3, [4, 4]),
    (0, 0, [5, 5]),
    (0, 1, [6, 15]),
    (0, 2, [7, 7]),
    (0, 3, [8, 8]),
];

#[test]
fn an_init_by_one_word_fills_an_array(rt: HostRuntime) -> Result<(), Fail> {
    let alloc = rt.alloc();
    let circuit = read(alloc, FILLED)?;
    let state = factory(alloc, &circuit, 4, &[])?;
    assert!(rt; are(&state.words, 4, &[11, 11, 11, 11, 4, 4, 4, 4]));
    Ok(())
}

#[test]
fn arrays_are_chosen_and_read_through_writes(rt: HostRuntime) -> Result<(), Fail> {
    let alloc = rt.alloc();
    let circuit = read(alloc, SWAPPED)?;
    let state = factory(alloc, &circuit, 4, &[1, 2, 3, 4, 5, 6, 7, 8])?;
    for (which, at, expected) in &CHOSEN {
        assert!(rt;
            gives(
                alloc,
                &circuit,
                &state,
                &[(1, *which), (2, *at)],
                4,
                expected
            )?
        );
    }
    Ok(())
}

#[test]
fn arrays_swap_at_a_tick(rt: HostRuntime) -> Result<(), Fail> {
    let alloc = rt.alloc();
    let circuit = read(alloc, SWAPPED)?;
    let mut state = factory(alloc, &circuit, 4, &[1, 2, 3, 4, 5, 6, 7, 8])?;
    for expected in &[[5, 6, 7, 8, 1, 2, 3, 4], [1, 2, 3, 4, 5, 6, 7, 8]] {
        tick(alloc, &circuit, &mut state, &[(1, 1), (2, 0)])?;
        assert!(rt; are(&state.words, 4, expected));
    }
    Ok(())
}
