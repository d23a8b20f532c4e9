//! What each keyword computes in circuits that are read, and which states take noise.
use crate::running::{factory, gives, joined, mixed, power, read, stand, words};
use knox_circuit::Noise;
use std::alloc::{AllocError, Global};
use std::test::Fail;

/// Words of 4 bits by each form of constants: 11 and 3, which are -5 and 3 with signs.
const CONSTANTS: &[u8] = b"1 sort bitvec 1
2 sort bitvec 3
3 sort bitvec 4
4 sort bitvec 8
10 const 3 1011
11 constd 3 -5
12 consth 3 b
13 constd 3 3
14 zero 3
15 one 1
16 ones 3
17 bad 15
18 fair -15
19 justice 2 15 -15
";

/// What a line of the number 20 says behind the constants, and its word: width and value. The values
/// are worked by hand on 1011 and 0011.
static OPERATORS: [(&[u8], u8, u128); 52] = [
    (b"not 3 10", 4, 4),
    (b"inc 3 10", 4, 12),
    (b"dec 3 10", 4, 10),
    (b"neg 3 10", 4, 5),
    (b"redand 1 10", 1, 0),
    (b"redor 1 10", 1, 1),
    (b"redxor 1 10", 1, 1),
    (b"iff 1 15 -15", 1, 0),
    (b"implies 1 15 -15", 1, 0),
    (b"eq 1 10 13", 1, 0),
    (b"neq 1 10 13", 1, 1),
    (b"ugt 1 10 13", 1, 1),
    (b"ugte 1 10 13", 1, 1),
    (b"ult 1 10 13", 1, 0),
    (b"ulte 1 10 13", 1, 0),
    (b"sgt 1 10 13", 1, 0),
    (b"sgte 1 10 13", 1, 0),
    (b"slt 1 10 13", 1, 1),
    (b"slte 1 10 13", 1, 1),
    (b"and 3 10 13", 4, 3),
    (b"nand 3 10 13", 4, 12),
    (b"nor 3 10 13", 4, 4),
    (b"or 3 10 13", 4, 11),
    (b"xnor 3 10 13", 4, 7),
    (b"xor 3 10 13", 4, 8),
    (b"sll 3 10 13", 4, 8),
    (b"srl 3 10 13", 4, 1),
    (b"sra 3 10 13", 4, 15),
    (b"rol 3 10 13", 4, 13),
    (b"ror 3 10 13", 4, 7),
    (b"add 3 10 13", 4, 14),
    (b"sub 3 10 13", 4, 8),
    (b"mul 3 10 13", 4, 1),
    (b"udiv 3 10 13", 4, 3),
    (b"sdiv 3 10 13", 4, 15),
    (b"urem 3 10 13", 4, 2),
    (b"srem 3 10 13", 4, 14),
    (b"smod 3 10 13", 4, 1),
    (b"concat 4 10 13", 8, 179),
    (b"slice 2 10 3 1", 3, 5),
    (b"uext 4 10 4", 8, 11),
    (b"sext 4 10 4", 8, 251),
    (b"ite 3 15 10 13", 4, 11),
    (b"ite 3 -15 10 13", 4, 3),
    // The forms of constants.
    (b"eq 1 10 11", 1, 1),
    (b"eq 1 10 12", 1, 1),
    (b"add 3 14 13", 4, 3),
    (b"sub 3 16 13", 4, 12),
    // Complements, and numbers with zeros before them.
    (b"add 3 -10 13", 4, 7),
    (b"and 3 10 -13", 4, 8),
    (b"neq 1 -14 16", 1, 0),
    (b"slice 0002 -0010 03 01", 3, 2),
];

/// Whether a line behind the constants has its word.
fn has_word(alloc: Global, row: &(&[u8], u8, u128)) -> Result<bool, Fail> {
    let (line, width, value) = row;
    let text = joined(alloc, &[CONSTANTS, b"20 ", line, b"\n21 output 20\n"])?;
    let circuit = read(alloc, text.as_slice())?;
    let state = factory(alloc, &circuit, 1, &[])?;
    gives(alloc, &circuit, &state, &[], *width, &[*value])
}

#[test]
fn operators_and_constants_have_their_values(rt: HostRuntime) -> Result<(), Fail> {
    for (number, row) in OPERATORS.iter().enumerate() {
        assert!(rt; has_word(rt.alloc(), row)?, "{number}");
    }
    Ok(())
}

/// A word of 4 bits without `init`, one of 1 bit with it, and one of 4 bits without it.
const NOISY: &[u8] = b"1 sort bitvec 1
2 sort bitvec 4
3 state 2 a
4 next 2 3 3
5 state 1 b
6 zero 1
7 init 1 5 6
8 next 1 5 5
9 state 2
10 next 2 9 9";

fn noise_of(alloc: Global, values: &[u128]) -> Result<Noise, AllocError> {
    Ok(Noise {
        words: words(alloc, 4, values)?,
    })
}

#[test]
fn states_without_init_get_noise(rt: HostRuntime) -> Result<(), Fail> {
    let alloc = rt.alloc();
    let circuit = read(alloc, NOISY)?;
    assert!(rt; stand(circuit.noise_cells(&[])?.as_slice(), &[(3, 0), (9, 1)]));
    assert!(rt; !circuit.fits_factory(&noise_of(alloc, &[3])?));
    let state = factory(alloc, &circuit, 4, &[3, 9])?;
    assert!(rt; state.words == mixed(alloc, &[(4, 3), (1, 0), (4, 9)])?);
    Ok(())
}

#[test]
fn a_state_that_is_kept_gets_none(rt: HostRuntime) -> Result<(), Fail> {
    let alloc = rt.alloc();
    let circuit = read(alloc, NOISY)?;
    let state = factory(alloc, &circuit, 4, &[3, 9])?;
    let keep = [true, false, false];
    assert!(rt; stand(circuit.noise_cells(&keep)?.as_slice(), &[(9, 0)]));
    assert!(rt; !circuit.fits_noise(&keep, &noise_of(alloc, &[3, 9])?));
    let after = power(alloc, &circuit, &keep, &state, 4, &[2])?;
    assert!(rt; after.words == mixed(alloc, &[(4, 3), (1, 0), (4, 2)])?);
    Ok(())
}
