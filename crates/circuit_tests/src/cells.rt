//! Small circuits with arrays: ports and cells, which states take noise, how states are built at the
//! factory and at a power-cycle, and what is evaluated.
use crate::running::{are, factory, gives, power, read, stand, state_of, tick};
use knox_circuit::{Circuit, Inputs, Noise, Port, State};
use knox_words::Words;
use std::alloc::{AllocError, Global};
use std::test::Fail;

/// An array, a bare state, a cell with an `init` and a cell without, in this order, and symbols that
/// come twice.
const STORE: &[u8] = b"1 sort bitvec 2
2 sort bitvec 4
3 sort array 1 2
4 zero 2
5 input 2 a
6 input 1 a
7 state 3 a
8 state 2 @b
9 state 2 c
10 state 1 c
11 init 2 9 4
12 next 3 7 7
13 next 2 9 5
14 next 1 10 6
15 output -9 a";

/// The width of each port, and how long its name is.
fn ports_of(alloc: Global, ports: &[Port]) -> Result<Vec<(u8, usize)>, AllocError> {
    ports
        .iter()
        .map(|port| (port.width, port.name.len()))
        .collect(alloc)
}

#[test]
fn ports_and_cells_stand_in_line_order(rt: HostRuntime) -> Result<(), Fail> {
    let alloc = rt.alloc();
    let circuit = read(alloc, STORE)?;
    let inputs = ports_of(alloc, circuit.inputs())?;
    assert_eq!(rt; inputs.as_slice(), [(4, 1), (2, 0)].as_slice());
    let outputs = ports_of(alloc, circuit.outputs_list())?;
    assert_eq!(rt; outputs.as_slice(), [(4, 1)].as_slice());
    assert!(rt; stand(circuit.cells(), &[(7, 0), (9, 4), (10, 5)]));
    assert!(rt; stand(circuit.bares(), &[(8, 0)]));
    assert_eq!(rt; circuit.word_count(), 6);
    Ok(())
}

/// Words that are zero, of these widths.
fn zeros(alloc: Global, widths: &[u8]) -> Result<Words, AllocError> {
    Words::zeros_or(alloc, widths)
}

fn noise(alloc: Global, widths: &[u8]) -> Result<Noise, AllocError> {
    let words = zeros(alloc, widths)?;
    Ok(Noise { words })
}

#[test]
fn widths_are_those_of_the_lines(rt: HostRuntime) -> Result<(), Fail> {
    let alloc = rt.alloc();
    let circuit = read(alloc, STORE)?;
    let all = [4, 4, 4, 4, 4, 2];
    assert_eq!(rt; circuit.state_widths(), all.as_slice());
    assert_eq!(rt; circuit.input_widths(), [4, 2].as_slice());
    assert_eq!(rt; circuit.output_widths(), [4].as_slice());
    let words = zeros(alloc, &[4, 2])?;
    assert!(rt; circuit.fits_inputs(&Inputs { words }));
    let words = zeros(alloc, &all)?;
    assert!(rt; circuit.has_widths(&State { words }));
    Ok(())
}

#[test]
fn noise_fills_what_has_no_init_and_is_not_kept(rt: HostRuntime) -> Result<(), Fail> {
    let alloc = rt.alloc();
    let circuit = read(alloc, STORE)?;
    let keep = [true, true, false];
    let all = noise(alloc, &[4, 4, 4, 4, 4, 2])?;
    let few = noise(alloc, &[4, 2])?;
    assert!(rt; circuit.fits_factory(&all));
    assert!(rt; circuit.fits_noise(&keep, &few) && !circuit.fits_noise(&keep, &all));
    assert!(rt; !circuit.fits_noise(&[true, true], &few));
    Ok(())
}

#[test]
fn noise_has_the_cells_without_init(rt: HostRuntime) -> Result<(), Fail> {
    let circuit = read(rt.alloc(), STORE)?;
    let keep = [true, true, false];
    assert!(rt; stand(circuit.noise_cells(&keep)?.as_slice(), &[(8, 0), (10, 1)]));
    assert_eq!(rt; circuit.noise_widths(&keep)?.as_slice(), [4, 2].as_slice());
    Ok(())
}

#[test]
fn words_of_kept_cells_are_marked(rt: HostRuntime) -> Result<(), Fail> {
    let circuit = read(rt.alloc(), STORE)?;
    let keep = [true, false, true];
    let marks = [true, true, true, true, false, true];
    assert_eq!(rt; circuit.keep_mask(&keep)?.as_slice(), marks.as_slice());
    let widths = circuit.persistent_widths(&keep)?;
    assert_eq!(rt; widths.as_slice(), [4, 4, 4, 4, 2].as_slice());
    Ok(())
}

/// States that get their words in each way. Cell 6 and bare state 7 take noise, array 8 has the word of
/// cell 6 at each index, cell 9 one more, and array 10 is array 8 with that word at index 0.
const BUILT: &[u8] = b"1 sort bitvec 4
2 sort bitvec 1
3 sort array 2 1
4 one 1
5 zero 2
6 state 1
7 state 1
8 state 3
9 state 1
10 state 3
11 add 1 6 4
12 write 3 8 5 11
13 init 3 8 6
14 init 1 9 11
15 init 3 10 12
16 next 1 6 6
17 next 3 8 8
18 next 1 9 9
19 next 3 10 10";

/// Whether a power-cycle of the words 1 to 6 that keeps some cells gives these words under this noise.
fn builds(
    alloc: Global,
    circuit: &Circuit,
    keep: &[bool],
    noise: &[u128],
    expected: &[u128],
) -> Result<bool, Fail> {
    let old = state_of(alloc, 4, &[1, 2, 3, 4, 5, 6])?;
    let after = power(alloc, circuit, keep, &old, 4, noise)?;
    Ok(are(&after.words, 4, expected))
}

#[test]
fn states_are_built_over_those_before(rt: HostRuntime) -> Result<(), Fail> {
    let alloc = rt.alloc();
    let circuit = read(alloc, BUILT)?;
    let first = factory(alloc, &circuit, 4, &[5, 9])?;
    assert!(rt; are(&first.words, 4, &[5, 5, 5, 6, 6, 5]));
    let keep = [true, false, true, false];
    assert!(rt; builds(alloc, &circuit, &keep, &[9], &[1, 1, 1, 4, 2, 1])?);
    let keep = [false, true, false, false];
    assert!(rt; builds(alloc, &circuit, &keep, &[7, 9], &[7, 2, 3, 8, 8, 3])?);
    Ok(())
}

/// A word and an array of two words. The word takes its sum with a complement, and the array a
/// constant at the index that an input names, where that index is 1.
pub(crate) const SMALL: &[u8] = b"1 sort bitvec 1
2 sort bitvec 4
3 sort array 1 2
4 input 2
5 input 1
6 state 2
7 state 3
8 state 2
9 constd 2 -3
10 write 3 7 5 9
11 ite 3 5 10 7
12 next 3 7 11
13 add 2 6 -4
14 next 2 6 13
15 read 2 7 5
16 output 15
17 output -9";

#[test]
fn circuits_are_evaluated(rt: HostRuntime) -> Result<(), Fail> {
    let alloc = rt.alloc();
    let circuit = read(alloc, SMALL)?;
    let mut state = state_of(alloc, 4, &[9, 5, 6])?;
    let inputs = [(4, 10), (1, 1)];
    assert!(rt; gives(alloc, &circuit, &state, &inputs, 4, &[6, 2])?);
    tick(alloc, &circuit, &mut state, &inputs)?;
    assert!(rt; are(&state.words, 4, &[14, 5, 13]));
    Ok(())
}
