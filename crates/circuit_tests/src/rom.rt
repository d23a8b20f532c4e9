//! A ROM that is a chain of writes over a bare state, with a gap.
use crate::running::{are, factory, gives, power, read, rom_word, state_of, tick};
use knox_words::{Word, word_or};
use std::test::Fail;

/// A ROM of 16 words of 4 bits. Each index but 7 is written with itself; word 7 is that of `base`.
const ROM: &[u8] = b"1 sort bitvec 4\n2 sort array 1 1\n3 input 1 a\n4 state 2 base\n5 constd 1 0
6 write 2 4 5 5\n7 constd 1 1\n8 write 2 6 7 7\n9 constd 1 2\n10 write 2 8 9 9
11 constd 1 3\n12 write 2 10 11 11\n13 constd 1 4\n14 write 2 12 13 13
15 constd 1 5\n16 write 2 14 15 15\n17 constd 1 6\n18 write 2 16 17 17
21 constd 1 8\n22 write 2 18 21 21\n23 constd 1 9\n24 write 2 22 23 23
25 constd 1 10\n26 write 2 24 25 25\n27 constd 1 11\n28 write 2 26 27 27
29 constd 1 12\n30 write 2 28 29 29\n31 constd 1 13\n32 write 2 30 31 31
33 constd 1 14\n34 write 2 32 33 33\n35 constd 1 15\n36 write 2 34 35 35
37 state 2 rom\n38 init 2 37 36\n39 next 2 37 37\n40 read 1 37 3\n41 output 40 q";

/// Another word at each index for `base`, of which index 7 alone is seen.
const FIRST: [u128; 16] = [15, 14, 13, 12, 11, 10, 9, 8, 7, 6, 5, 4, 3, 2, 1, 0];

const SECOND: [u128; 16] = [3, 4, 5, 6, 7, 8, 9, 10, 11, 12, 13, 14, 15, 0, 1, 2];

/// The words of the ROM under each of these.
const WITH_FIRST: [u128; 16] = [0, 1, 2, 3, 4, 5, 6, 8, 8, 9, 10, 11, 12, 13, 14, 15];

const WITH_SECOND: [u128; 16] = [0, 1, 2, 3, 4, 5, 6, 10, 8, 9, 10, 11, 12, 13, 14, 15];

/// What is expected of it.
fn written(at: u32) -> Option<Word> {
    if at == 7 {
        None
    } else {
        Some(word_or(4, at as u128))
    }
}

#[test]
fn written_words_are_rom_words(rt: HostRuntime) -> Result<(), Fail> {
    let circuit = read(rt.alloc(), ROM)?;
    assert_eq!(rt; circuit.word_count(), 16);
    assert_eq!(rt; circuit.roms().len(), 16);
    for at in 0..16u32 {
        assert_eq!(rt; rom_word(&circuit, at), written(at));
    }
    Ok(())
}

#[test]
fn noise_fills_the_gap(rt: HostRuntime) -> Result<(), Fail> {
    let alloc = rt.alloc();
    let circuit = read(alloc, ROM)?;
    let mut state = factory(alloc, &circuit, 4, &FIRST)?;
    assert!(rt; are(&state.words, 4, &WITH_FIRST));
    tick(alloc, &circuit, &mut state, &[(4, 7)])?;
    assert!(rt; are(&state.words, 4, &WITH_FIRST));
    // The bare state takes noise also where the ROM is kept, and is then not seen.
    let kept = power(alloc, &circuit, &[true], &state, 4, &SECOND)?;
    assert!(rt; are(&kept.words, 4, &WITH_FIRST));
    let fresh = power(alloc, &circuit, &[false], &state, 4, &SECOND)?;
    assert!(rt; are(&fresh.words, 4, &WITH_SECOND));
    Ok(())
}

#[test]
fn each_index_reads_its_word(rt: HostRuntime) -> Result<(), Fail> {
    let alloc = rt.alloc();
    let circuit = read(alloc, ROM)?;
    let state = factory(alloc, &circuit, 4, &FIRST)?;
    for (at, word) in WITH_FIRST.iter().enumerate() {
        assert!(rt; gives(alloc, &circuit, &state, &[(4, at as u128)], 4, &[*word])?);
    }
    Ok(())
}

/// A ROM of four words: 10 is written at index 0, 15 at 3, and then 15 at 0.
const TWICE: &[u8] = b"1 sort bitvec 2
2 sort bitvec 4
3 sort array 1 2
4 state 3
5 zero 1
6 ones 1
7 const 2 1010
8 ones 2
9 write 3 4 5 7
10 write 3 9 6 8
11 write 3 10 5 8
12 state 3 rom
13 init 3 12 11
14 next 3 12 12";

#[test]
fn the_word_written_last_is_known(rt: HostRuntime) -> Result<(), Fail> {
    let alloc = rt.alloc();
    let circuit = read(alloc, TWICE)?;
    let most = Some(word_or(4, 15));
    for (at, word) in [most, None, None, most].iter().enumerate() {
        assert_eq!(rt; rom_word(&circuit, at as u32), *word);
    }
    assert!(rt; circuit.fits_state(&state_of(alloc, 4, &[15, 10, 10, 15])?));
    assert!(rt; !circuit.fits_state(&state_of(alloc, 4, &[10, 10, 10, 15])?));
    Ok(())
}

/// Array cells of four words that begin with different nodes of one chain and with branches of
/// it. The chain is 14 to 17; 18 and 19 branch off at 15, and 20 at 14; 22 writes a word that is
/// no constant line, so 23 and 24 over it are no chains.
const BRANCHES: &[u8] =
    b"1 sort bitvec 2\n2 sort bitvec 4\n3 sort array 1 2\n4 state 3\n5 zero 1\n6 one 1
7 constd 1 2\n8 ones 1\n9 constd 2 1\n10 constd 2 2\n11 constd 2 3
12 constd 2 4\n13 constd 2 5\n14 write 3 4 5 9\n15 write 3 14 6 10
16 write 3 15 5 11\n17 write 3 16 8 12\n18 write 3 15 7 13\n19 write 3 18 6 9
20 write 3 14 8 13\n21 not 2 9\n22 write 3 16 6 21\n23 write 3 22 7 9
24 write 3 22 5 9\n31 state 3 a\n32 init 3 31 17\n33 next 3 31 31\n34 state 3 b
35 init 3 34 15\n36 next 3 34 34\n37 state 3 c\n38 init 3 37 19\n39 next 3 37 37
40 state 3 d\n41 init 3 40 20\n42 next 3 40 40\n43 state 3 e\n44 init 3 43 17
45 next 3 43 43\n46 state 3 f\n47 init 3 46 18\n48 next 3 46 46\n49 state 3 g
50 init 3 49 23\n51 next 3 49 49\n52 state 3 h\n53 init 3 52 24\n54 next 3 52 52
55 state 3 i\n56 init 3 55 14\n57 next 3 55 55\n58 state 3 j\n59 init 3 58 4
60 next 3 58 58";

/// The ROM words of each cell, and 0 where there is none.
const BRANCHED: [u128; 40] = [
    3, 2, 0, 4, 1, 2, 0, 0, 1, 1, 5, 0, 1, 0, 0, 5, 3, 2, 0, 4, 1, 2, 5, 0, 0, 0, 0, 0, 0, 0, 0, 0,
    1, 0, 0, 0, 0, 0, 0, 0,
];

/// A word that is expected, where it isn't 0.
fn branched(value: u128) -> Option<Word> {
    if value == 0 {
        None
    } else {
        Some(word_or(4, value))
    }
}

#[test]
fn cells_share_a_chain(rt: HostRuntime) -> Result<(), Fail> {
    let circuit = read(rt.alloc(), BRANCHES)?;
    assert_eq!(rt; circuit.roms().len(), 40);
    for (at, value) in BRANCHED.iter().enumerate() {
        assert_eq!(rt; rom_word(&circuit, at as u32), branched(*value));
    }
    Ok(())
}
