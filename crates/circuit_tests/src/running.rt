//! Circuits are read from texts and run with words that are given as values.
use btor_read::read_circuit;
use circuit_table::{Line, Shape};
use knox_circuit::{Cell, Circuit, Inputs, Noise, State};
use knox_words::{Word, Words, word_at, word_or};
use sqlite_items::Items;
use std::alloc::{AllocError, Global};
use std::test::Fail;

/// The circuit of a text.
pub(crate) fn read(alloc: Global, text: &[u8]) -> Result<Circuit, Fail> {
    if text.len() > 67108864 {
        return Err("the text is too long")?;
    }
    match read_circuit(alloc, text) {
        Ok(circuit) => Ok(circuit),
        Err(_) => Err("the text is refused")?,
    }
}

/// The first fault of a text with its text line, or how many lines it has.
pub(crate) fn told(alloc: Global, text: &[u8]) -> Result<String, Fail> {
    if text.len() > 67108864 {
        return Err("the text is too long")?;
    }
    match read_circuit(alloc, text) {
        Ok(circuit) => Ok(format!(in alloc; "{} lines", circuit.lines().len())?),
        Err(fault) => Ok(format!(in alloc; "{} {:?}", fault.line, fault.why)?),
    }
}

/// Whether a row of a table holds: what is told, `: `, and the text of which it is told, where `|` ends
/// a line. A row that is empty or begins with `#` says nothing.
pub(crate) fn is_told(alloc: Global, row: &str) -> Result<bool, Fail> {
    let Some((expected, text)) = row.split_once(": ") else {
        return Ok(row.is_empty() || row.starts_with('#'));
    };
    let text = text.replace(alloc, "|", "\n")?;
    Ok(told(alloc, text.as_bytes())?.as_str() == expected)
}

/// A line without a symbol, on the text line of its number.
pub(crate) fn line(alloc: Global, number: u32, shape: Shape) -> Line {
    Line {
        number,
        at: number,
        shape,
        symbol: Items::new(alloc),
    }
}

/// The parts of a text, one behind another.
pub(crate) fn joined(alloc: Global, parts: &[&[u8]]) -> Result<Vec<u8>, AllocError> {
    let mut text = Vec::new(alloc);
    for part in parts {
        text.extend_from_slice(part)?;
    }
    Ok(text)
}

/// Words of one width.
pub(crate) fn words(alloc: Global, width: u8, values: &[u128]) -> Result<Words, AllocError> {
    let items = values
        .iter()
        .map(|value| word_or(width, *value))
        .collect(alloc)?;
    Ok(Words::from_vec(items))
}

/// Words of widths of their own: width and value of each.
pub(crate) fn mixed(alloc: Global, pairs: &[(u8, u128)]) -> Result<Words, AllocError> {
    let items = pairs
        .iter()
        .map(|pair| word_or(pair.0, pair.1))
        .collect(alloc)?;
    Ok(Words::from_vec(items))
}

/// Whether a list has these words of one width.
pub(crate) fn are(found: &Words, width: u8, values: &[u128]) -> bool {
    for (at, value) in values.iter().enumerate() {
        if word_at(found.as_slice(), at) != word_or(width, *value) {
            return false;
        }
    }
    found.len() == values.len()
}

/// How many lines, inputs, outputs, cells and bare states a circuit has.
pub(crate) fn counts(circuit: &Circuit) -> [usize; 5] {
    [
        circuit.lines().len(),
        circuit.inputs().len(),
        circuit.outputs_list().len(),
        circuit.cells().len(),
        circuit.bares().len(),
    ]
}

/// Whether these are states with these numbers whose first words stand at these places.
pub(crate) fn stand(cells: &[Cell], places: &[(u32, u32)]) -> bool {
    let mut left = cells;
    for place in places {
        match left.split_first() {
            Some((cell, others)) if cell.number == place.0 && cell.first == place.1 => {
                left = others;
            }
            _ => return false,
        }
    }
    left.is_empty()
}

/// Device words of one width.
pub(crate) fn state_of(alloc: Global, width: u8, values: &[u128]) -> Result<State, AllocError> {
    Ok(State {
        words: words(alloc, width, values)?,
    })
}

/// The factory state under noise words of one width, which fit.
pub(crate) fn factory(
    alloc: Global,
    circuit: &Circuit,
    width: u8,
    values: &[u128],
) -> Result<State, Fail> {
    let noise = Noise {
        words: words(alloc, width, values)?,
    };
    if !circuit.fits_factory(&noise) {
        return Err("the noise doesn't fit the factory")?;
    }
    Ok(circuit.factory(&noise)?)
}

/// The state after a power-cycle under noise words of one width, which fit.
pub(crate) fn power(
    alloc: Global,
    circuit: &Circuit,
    keep: &[bool],
    state: &State,
    width: u8,
    values: &[u128],
) -> Result<State, Fail> {
    let noise = Noise {
        words: words(alloc, width, values)?,
    };
    if !circuit.fits_noise(keep, &noise) {
        return Err("the noise doesn't fit the power-cycle")?;
    }
    if keep.len() != circuit.cells().len() || state.words.len() != circuit.word_count() {
        return Err("the state doesn't fit")?;
    }
    Ok(circuit.power(keep, state, &noise)?)
}

/// The inputs of these widths and values, which fit.
fn inputs(alloc: Global, circuit: &Circuit, pairs: &[(u8, u128)]) -> Result<Inputs, Fail> {
    let inputs = Inputs {
        words: mixed(alloc, pairs)?,
    };
    if !circuit.fits_inputs(&inputs) {
        return Err("the inputs don't fit")?;
    }
    Ok(inputs)
}

/// One tick at inputs of these widths and values.
pub(crate) fn tick(
    alloc: Global,
    circuit: &Circuit,
    state: &mut State,
    pairs: &[(u8, u128)],
) -> Result<(), Fail> {
    if state.words.len() != circuit.word_count() {
        return Err("the state doesn't fit")?;
    }
    let inputs = inputs(alloc, circuit, pairs)?;
    let mut room = circuit.scratch()?;
    circuit.tick(state, &inputs, &mut room);
    Ok(())
}

/// The outputs at inputs of these widths and values.
pub(crate) fn outputs(
    alloc: Global,
    circuit: &Circuit,
    state: &State,
    pairs: &[(u8, u128)],
) -> Result<Words, Fail> {
    let inputs = inputs(alloc, circuit, pairs)?;
    let mut room = circuit.scratch()?;
    let mut out = vec![in alloc; word_or(1, 0); circuit.outputs_list().len()]?;
    circuit.outputs(state, &inputs, &mut room, out.as_mut_slice());
    Ok(Words::from_vec(out))
}

/// Whether the outputs at inputs of these widths and values are these words of one width.
pub(crate) fn gives(
    alloc: Global,
    circuit: &Circuit,
    state: &State,
    pairs: &[(u8, u128)],
    width: u8,
    values: &[u128],
) -> Result<bool, Fail> {
    Ok(are(&outputs(alloc, circuit, state, pairs)?, width, values))
}

/// The ROM word at an index, where the index names a device word.
pub(crate) fn rom_word(circuit: &Circuit, at: u32) -> Option<Word> {
    if (at as usize) < circuit.word_count() {
        circuit.rom(at)
    } else {
        None
    }
}
