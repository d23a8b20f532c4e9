//! The PIN store by the evaluators of its parts, which are proved to be their definitions: values
//! worked by hand. Its cells are the secret and ok, its inputs are the command and the data.
use crate::parts::{device, words_of};
use emu_machine::{Device, EmuState, emu_power, emu_read, emu_tick};
use example_texts::SMALL;
use knox_circuit::{Inputs, Noise, State};
use knox_lang::{SpecState, initial, op};
use knox_words::{Word, Words, word_at, word_or};
use std::alloc::{AllocError, Global};
use std::test::Fail;

/// A command, its data, the output before the tick, and the secret and ok after it.
type Tick = (u128, u128, u128, u128, u128);

/// Ticks of the circuit from power-on.
const TICKS: [Tick; 5] = [
    (1, 9, 0, 9, 0),
    (2, 9, 0, 9, 1),
    (0, 9, 1, 9, 0),
    (2, 3, 0, 9, 0),
    (3, 9, 0, 9, 0),
];

/// Ticks of the emulator from power-on, with the specification's secret.
const EMULATED: [Tick; 4] = [
    (1, 9, 0, 9, 0),
    (2, 9, 0, 9, 1),
    (2, 3, 1, 9, 0),
    (0, 9, 0, 9, 0),
];

/// An operation (0 sets, 1 checks), its argument, the result, and the secret after it.
type Call = (u32, u128, u128, u128);

/// Operations one after another.
const CALLS: [Call; 4] = [(0, 9, 1, 9), (1, 9, 1, 9), (1, 3, 0, 9), (0, 3, 1, 3)];

/// No noise.
fn silence(alloc: Global) -> Noise {
    Noise {
        words: Words::new(alloc),
    }
}

/// A command with data.
fn asked(alloc: Global, tick: &Tick) -> Result<Inputs, AllocError> {
    Ok(Inputs {
        words: words_of(alloc, &[(2, tick.0), (4, tick.1)])?,
    })
}

/// The device words after a tick, and the output before it.
fn ticked(
    alloc: Global,
    dev: &Device,
    state: &mut State,
    inputs: &Inputs,
) -> Result<Word, AllocError> {
    let mut room = dev.circuit.scratch()?;
    let mut out = vec![in alloc; word_or(1, 0); dev.circuit.outputs_list().len()]?;
    dev.circuit
        .outputs(state, inputs, &mut room, out.as_mut_slice());
    if state.words.len() == dev.circuit.word_count() {
        dev.circuit.tick(state, inputs, &mut room);
    }
    Ok(word_at(out.as_slice(), 0))
}

/// Does the circuit tick so?
fn ticks(alloc: Global, dev: &Device, state: &mut State, tick: &Tick) -> Result<bool, AllocError> {
    let inputs = asked(alloc, tick)?;
    let out = ticked(alloc, dev, state, &inputs)?;
    let words = words_of(alloc, &[(4, tick.3), (1, tick.4)])?;
    Ok(out == word_or(1, tick.2) && state.words == words)
}

#[test]
fn the_circuit_stores_and_compares(rt: HostRuntime) -> Result<(), Fail> {
    let alloc = rt.alloc();
    let dev = device(alloc, SMALL)?;
    let mut state = dev.circuit.factory(&silence(alloc))?;
    assert!(rt; state.words == words_of(alloc, &[(4, 0), (1, 0)])?);
    for (number, tick) in TICKS.iter().enumerate() {
        assert!(rt; ticks(alloc, &dev, &mut state, tick)?, "{number}");
    }
    Ok(())
}

/// Does an operation give this result and leave this secret?
fn calls(
    alloc: Global,
    dev: &Device,
    fields: &mut SpecState,
    call: &Call,
) -> Result<bool, AllocError> {
    let args = words_of(alloc, &[(4, call.1)])?;
    let word = op(alloc, &dev.spec, fields, call.0, args.as_slice())?;
    let words = words_of(alloc, &[(4, call.3)])?;
    Ok(word == word_or(1, call.2) && fields.words == words)
}

#[test]
fn operations_of_the_specification(rt: HostRuntime) -> Result<(), Fail> {
    let alloc = rt.alloc();
    let dev = device(alloc, SMALL)?;
    let mut fields = initial(alloc, &dev.spec)?;
    assert!(rt; fields.words == words_of(alloc, &[(4, 0)])?);
    for (number, call) in CALLS.iter().enumerate() {
        assert!(rt; calls(alloc, &dev, &mut fields, call)?, "{number}");
    }
    Ok(())
}

/// Does the emulator show this before a tick, and leave these words?
fn emulates(
    alloc: Global,
    dev: &Device,
    emu: &mut EmuState,
    fields: &mut SpecState,
    tick: &Tick,
) -> Result<bool, AllocError> {
    let inputs = asked(alloc, tick)?;
    let out = emu_read(alloc, dev, emu, &inputs)?;
    emu_tick(alloc, dev, emu, &inputs, fields)?;
    Ok(
        out == words_of(alloc, &[(1, tick.2)])?
            && emu.words == words_of(alloc, &[(1, tick.4)])?
            && fields.words == words_of(alloc, &[(4, tick.3)])?,
    )
}

#[test]
fn the_emulator_asks_and_shows(rt: HostRuntime) -> Result<(), Fail> {
    let alloc = rt.alloc();
    let dev = device(alloc, SMALL)?;
    let mut fields = initial(alloc, &dev.spec)?;
    let mut emu = emu_power(alloc, &dev, &silence(alloc))?;
    for (number, tick) in EMULATED.iter().enumerate() {
        assert!(rt;
            emulates(alloc, &dev, &mut emu, &mut fields, tick)?,
            "{number}"
        );
    }
    Ok(())
}
