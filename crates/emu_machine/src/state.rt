//! The emulator of a device, by its public calls.
ghost use Rattle.std.specs.Prelude.{◌≡◌, None, IfOk, OnOk, OnErr};
ghost use Rattle.emu_machine.specs.Emulator.{emulator_outputs, emulator_after_power, emulator_after_tick, fields_after_tick};

use crate::device::Device;
use crate::emulator::EmuRoom;
use knox_circuit::{Inputs, Noise, State};
use knox_lang::SpecState;
use knox_words::Words;
use std::alloc::{AllocError, Global};

/// The words of an emulator's fields, and its copy of the circuit, which no emulator has yet.
#[derive(Drop)]
pub struct EmuState {
    pub words: Words,
    pub copy: Option<State>,
}

/// A fresh emulator after a power-cycle with this noise: its fields have their initial words, and
/// then its body `power` runs.
pub fn emu_power(alloc: Global, dev: &Device, n: &Noise) -> Result<EmuState, AllocError>
    ensures { IfOk result (λ e. (e.words ≡ emulator_after_power dev.now.emulator n.now.words) × (e.copy ≡ None)) }
{
    let mut room = EmuRoom::new(alloc);
    let mut words = Words::new(alloc);
    room.power(alloc, &dev.emulator, n.words.as_slice(), &mut words)?;
    Ok(EmuState { words, copy: None })
}

/// The outputs that the emulator shows under these inputs, in line order.
pub fn emu_read(alloc: Global, dev: &Device, e: &EmuState, i: &Inputs) -> Result<Words, AllocError>
    ensures { IfOk result (λ out. out ≡ emulator_outputs dev.now.emulator e.now.words i.now.words) }
{
    let mut room = EmuRoom::new(alloc);
    let mut out = Words::new(alloc);
    room.outputs(
        alloc,
        &dev.emulator,
        e.words.as_slice(),
        i.words.as_slice(),
        &mut out,
    )?;
    Ok(out)
}

/// A tick of the emulator, whose queries run operations of the specification on these fields. Want
/// of memory leaves both as they were.
pub fn emu_tick(
    alloc: Global,
    dev: &Device,
    e: &mut EmuState,
    i: &Inputs,
    s: &mut SpecState,
) -> Result<(), AllocError>
    ensures emu { OnOk result (e.new.words ≡ emulator_after_tick dev.now.spec dev.now.emulator s.old.words e.old.words i.now.words) }
    ensures fields { OnOk result (s.new.words ≡ fields_after_tick dev.now.spec dev.now.emulator s.old.words e.old.words i.now.words) }
    ensures err { OnErr result ((e.new ≡ e.old) × (s.new ≡ s.old)) }
{
    let mut room = EmuRoom::new(alloc);
    room.tick(
        alloc,
        &dev.spec,
        &dev.emulator,
        &mut s.words,
        &mut e.words,
        i.words.as_slice(),
    )
}
