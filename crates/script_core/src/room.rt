//! The present state of a run, and the buffers that are kept from one run to the next.
ghost use Rattle.std.specs.Prelude.{◌≡◌, ℕ, suc, List, [], true, IfOk, OnOk};
ghost use Rattle.knox_words.specs.Lists.{fit};
ghost use Rattle.knox_theory.specs.WireSegments.{same_outs, ticked, is_refined};
ghost use Rattle.knox_circuit.specs.Cells.{cells_of, state_widths, noise_widths, keep_mask};
ghost use Rattle.knox_circuit.specs.Ports.{input_widths};
ghost use Rattle.knox_circuit.specs.Circuit.{state_after_power};
ghost use Rattle.knox_words.specs.Lists.{merge, zeros_or};
ghost use Rattle.script_core.specs.declared.parts.Item.{Item};
ghost use Rattle.script_core.specs.declared.parts.ScriptParts.{ScriptParts};
ghost use Rattle.script_core.specs.Hints.{refines, wire_items, holds, seen};
ghost use Rattle.script_core.specs.Reached.{design, script, passes, here, course_from, ticks_from, wire_run, cut_run, Leads, Powers};
ghost use Rattle.script_core.specs.Rooms.{room_for, made_for, state_in};

use crate::evaluate;
use crate::parts::HintNo;
use crate::run::{Left, Progress, take_three, take_words};
use crate::script::Script;
use crate::widths::Widths;
use emu_machine::{Device, EmuRoom};
use knox_circuit::{Inputs, Noise, Scratch, State};
use knox_lang::Expr;
use knox_words::{Word, Words};
use std::alloc::{AllocError, Global};
use std::mem;

/// Room for the runs of scripts on a device. It holds the present state of a run: the
/// specification's fields, the device words and the emulator's words.
pub(crate) struct Room {
    pub(crate) widths: Widths,
    pub(crate) fields: Words,
    pub(crate) device: State,
    pub(crate) emulator: Words,
    pub(crate) inputs: Inputs,
    pub(crate) noise: Noise,
    pub(crate) args: Words,
    pub(crate) arg_widths: Vec<u8>,
    pub(crate) scratch: Scratch,
    pub(crate) outputs: Vec<Word>,
    pub(crate) shown: Words,
    pub(crate) emulation: EmuRoom,
    pub(crate) kept: Words,
    pub(crate) spread: Words,
    pub(crate) none: Words,
    pub(crate) bound: Words,
}

// Written out, so that letting a room go is proved once.
impl Drop for Room {
    fn drop(self) {
        let Room {
            widths: _widths,
            fields: _fields,
            device: _device,
            emulator: _emulator,
            inputs: _inputs,
            noise: _noise,
            args: _args,
            arg_widths: _arg_widths,
            scratch: _scratch,
            outputs: _outputs,
            shown: _shown,
            emulation: _emulation,
            kept: _kept,
            spread: _spread,
            none: _none,
            bound: _bound,
        } = self;
    }
}

impl Room {
    /// Room for the runs on this device.
    pub(crate) fn new(alloc: Global, dev: &Device) -> Result<Room, AllocError>
        ensures { IfOk result (λ r. made_for r ≡ room_for dev.now) }
    {
        let widths = Widths::of(alloc, dev)?;
        let scratch = dev.circuit.scratch()?;
        let outputs = vec![in alloc; knox_words::zero(); dev.circuit.outputs_list().len()]?;
        Ok(Room {
            widths,
            fields: Words::new(alloc),
            device: State {
                words: Words::new(alloc),
            },
            emulator: Words::new(alloc),
            inputs: Inputs {
                words: Words::new(alloc),
            },
            noise: Noise {
                words: Words::new(alloc),
            },
            args: Words::new(alloc),
            arg_widths: Vec::new(alloc),
            scratch,
            outputs,
            shown: Words::new(alloc),
            emulation: EmuRoom::new(alloc),
            kept: Words::new(alloc),
            spread: Words::new(alloc),
            none: Words::new(alloc),
            bound: Words::new(alloc),
        })
    }

    /// Whether a condition is 1 of the present state.
    pub(crate) fn holds(
        &mut self,
        alloc: Global,
        dev: &Device,
        condition: &Expr,
    ) -> Result<bool, AllocError>
        ensures value { IfOk result (λ b. b ≡ holds dev.now.spec.funs condition.now (seen self.old.fields self.old.device.words self.old.emulator)) }
        ensures state { state_in self.new ≡ state_in self.old }
        ensures made { made_for self.new ≡ made_for self.old }
    {
        evaluate::holds(
            alloc,
            dev.spec.parts().funs.as_slice(),
            condition,
            &mut self.fields,
            &mut self.device.words,
            &mut self.emulator,
            &mut self.bound,
        )
    }

    /// Puts the persistent words in `kept` into `spread`, with zero words in the other cells.
    fn spread_kept(&mut self, dev: &Device) -> Result<(), AllocError>
        requires { made_for self.old ≡ room_for dev.now }
        ensures spread { OnOk result (self.new.spread ≡ merge (keep_mask (cells_of dev.now.circuit.lines) dev.now.driver.keep) (zeros_or (state_widths (cells_of dev.now.circuit.lines))) self.old.kept) }
        ensures kept { self.new.kept ≡ self.old.kept }
        ensures noise { self.new.noise.words ≡ self.old.noise.words }
        ensures state { state_in self.new ≡ state_in self.old }
        ensures made { made_for self.new ≡ made_for self.old }
    {
        let _dev = dev;
        knox_words::merge_words(
            self.widths.mask.as_slice(),
            self.widths.zeros.as_slice(),
            self.kept.as_slice(),
            &mut self.spread,
        )?;
        Ok(())
    }

    /// Whether `refine` is 1 of the present fields and the persistent words in `kept`, which are
    /// then spread over the device words of `spread`.
    fn is_refined(&mut self, alloc: Global, dev: &Device, sc: &Script) -> Result<bool, AllocError>
        requires { made_for self.old ≡ room_for dev.now }
        ensures value { IfOk result (λ b. b ≡ refines dev.now.spec.funs (cells_of dev.now.circuit.lines) dev.now.driver.keep sc.now.refine self.old.fields self.old.kept) }
        ensures spread { OnOk result (self.new.spread ≡ merge (keep_mask (cells_of dev.now.circuit.lines) dev.now.driver.keep) (zeros_or (state_widths (cells_of dev.now.circuit.lines))) self.old.kept) }
        ensures kept { self.new.kept ≡ self.old.kept }
        ensures noise { self.new.noise.words ≡ self.old.noise.words }
        ensures state { state_in self.new ≡ state_in self.old }
        ensures made { made_for self.new ≡ made_for self.old }
    {
        self.spread_kept(dev)?;
        self.none.clear();
        evaluate::holds(
            alloc,
            dev.spec.parts().funs.as_slice(),
            &sc.parts().refine,
            &mut self.fields,
            &mut self.spread,
            &mut self.none,
            &mut self.bound,
        )
    }

    /// The root of `wire` and of `boot-host`: takes fields, persistent and noise words but for ROM
    /// words, goes on where `refine` is 1 of the first two, and cycles the power of the device.
    pub(crate) fn power_up<'a>(
        &mut self,
        alloc: Global,
        dev: &Device,
        sc: &Script,
        words: &'a [Word],
    ) -> Result<Left<'a>, AllocError>
        requires { made_for self.old ≡ room_for dev.now }
        ensures run { IfOk result (λ l. Powers dev.now sc.now words.now self.new.fields self.new.kept self.new.noise.words self.new.device.words l) }
        ensures made { made_for self.new ≡ made_for self.old }
    {
        device_design::rom_words_have_widths(&dev.circuit);
        circuit_laws::persistent_words_are_spread(&dev.circuit);
        let left = match take_three(
            self.widths.fields.as_slice(),
            self.widths.persistent_roms.as_slice(),
            self.widths.persistent.as_slice(),
            self.widths.noise.as_slice(),
            words,
            &mut self.fields,
            &mut self.kept,
            &mut self.noise.words,
        )? {
            Left::Ended(end) => return Ok(Left::Ended(end)),
            Left::On(left) => left,
        };
        if !self.is_refined(alloc, dev, sc)? {
            return Ok(Left::Ended(Progress::Vacuous));
        }
        self.cycle_power(dev)?;
        Ok(Left::On(left))
    }

    /// Cycles the power of the device whose words are in `spread`, with the noise words of this room.
    fn cycle_power(&mut self, dev: &Device) -> Result<(), AllocError>
        requires cells { fit (state_widths (cells_of dev.now.circuit.lines)) self.old.spread ≡ true }
        requires noise { fit (noise_widths dev.now.circuit.lines dev.now.driver.keep) self.old.noise.words ≡ true }
        ensures cells { OnOk result (self.new.device.words ≡ state_after_power dev.now.circuit.lines dev.now.driver.keep self.old.spread self.old.noise.words) }
        ensures fit { OnOk result (fit (state_widths (cells_of dev.now.circuit.lines)) self.new.device.words ≡ true) }
        ensures fields { self.new.fields ≡ self.old.fields }
        ensures kept { self.new.kept ≡ self.old.kept }
        ensures noise { self.new.noise.words ≡ self.old.noise.words }
        ensures made { made_for self.new ≡ made_for self.old }
    {
        circuit_laws::circuits_have_widths(&dev.circuit);
        circuit_laws::circuits_keep_widths(&dev.circuit);
        mem::swap(&mut self.device.words, &mut self.spread);
        self.device = dev
            .circuit
            .power(dev.driver.keep(), &self.device, &self.noise)?;
        Ok(())
    }

    /// The root of `wire`: a power-cycle, and a fresh emulator.
    pub(crate) fn attach<'a>(
        &mut self,
        alloc: Global,
        dev: &Device,
        sc: &Script,
        words: &'a [Word],
    ) -> Result<Left<'a>, AllocError>
        requires { made_for self.old ≡ room_for dev.now }
        ensures run { IfOk result (λ l. Leads dev.now (wire_run dev.now sc.now) words.now (state_in self.new) (λ st. course_from dev.now sc.now (wire_items sc.now) (here st)) l) }
        ensures made { made_for self.new ≡ made_for self.old }
    {
        let left = match self.power_up(alloc, dev, sc, words)? {
            Left::Ended(end) => return Ok(Left::Ended(end)),
            Left::On(left) => left,
        };
        self.emulation.power(
            alloc,
            &dev.emulator,
            self.noise.words.as_slice(),
            &mut self.emulator,
        )?;
        Ok(Left::On(left))
    }

    /// The root of a cut: takes fields, device words but for ROM words, and the emulator's words, and
    /// goes on where the cut's condition is 1 of them.
    pub(crate) fn enter<'a>(
        &mut self,
        alloc: Global,
        dev: &Device,
        condition: &Expr,
        words: &'a [Word],
    ) -> Result<Left<'a>, AllocError>
        requires { made_for self.old ≡ room_for dev.now }
        ensures run { IfOk result (λ l. (p : ScriptParts) (items : List Item) → Leads dev.now (cut_run dev.now p condition.now items) words.now (state_in self.new) (λ st. course_from dev.now p items (here st)) l) }
        ensures made { made_for self.new ≡ made_for self.old }
    {
        device_design::rom_words_have_widths(&dev.circuit);
        let left = match take_three(
            self.widths.fields.as_slice(),
            dev.circuit.roms(),
            dev.circuit.state_widths(),
            self.widths.emu.as_slice(),
            words,
            &mut self.fields,
            &mut self.device.words,
            &mut self.emulator,
        )? {
            Left::Ended(end) => return Ok(Left::Ended(end)),
            Left::On(left) => left,
        };
        if self.holds(alloc, dev, condition)? {
            Ok(Left::On(left))
        } else {
            Ok(Left::Ended(Progress::Vacuous))
        }
    }

    /// One tick of a step: takes a word for each input, compares the outputs of circuit and
    /// emulator under them, ticks both, and checks `refine`.
    pub(crate) fn tick<'a>(
        &mut self,
        alloc: Global,
        dev: &Device,
        sc: &Script,
        hint: HintNo,
        words: &'a [Word],
    ) -> Result<Left<'a>, AllocError>
        requires made { made_for self.old ≡ room_for dev.now }
        requires cells { fit (state_widths (cells_of dev.now.circuit.lines)) self.old.device.words ≡ true }
        ensures run { IfOk result (λ l. (n : ℕ) (items : List Item) → Leads dev.now (ticks_from dev.now sc.now hint.0 (suc n) items (state_in self.old)) words.now (state_in self.new) (ticks_from dev.now sc.now hint.0 n items) l) }
        ensures made { made_for self.new ≡ made_for self.old }
    {
        let left = match take_words(dev.circuit.input_widths(), words, &mut self.inputs.words)? {
            Left::Ended(end) => return Ok(Left::Ended(end)),
            Left::On(left) => left,
        };
        if !self.shows_the_same(alloc, dev)? {
            return Ok(Left::Ended(Progress::Failed(hint)));
        }
        self.tick_both(alloc, dev)?;
        if self.stays_refined(alloc, dev, sc)? {
            Ok(Left::On(left))
        } else {
            Ok(Left::Ended(Progress::Failed(hint)))
        }
    }

    /// Whether `refine` is 1 of the present state.
    pub(crate) fn stays_refined(
        &mut self,
        alloc: Global,
        dev: &Device,
        sc: &Script,
    ) -> Result<bool, AllocError>
        requires { made_for self.old ≡ room_for dev.now }
        ensures value { IfOk result (λ b. b ≡ is_refined (design dev.now) (script dev.now sc.now) (state_in self.old)) }
        ensures state { state_in self.new ≡ state_in self.old }
        ensures made { made_for self.new ≡ made_for self.old }
    {
        knox_words::pick_words(
            self.widths.mask.as_slice(),
            self.device.words.as_slice(),
            &mut self.kept,
        )?;
        self.is_refined(alloc, dev, sc)
    }

    /// Whether circuit and emulator show the same outputs under the present inputs.
    fn shows_the_same(&mut self, alloc: Global, dev: &Device) -> Result<bool, AllocError>
        requires { made_for self.old ≡ room_for dev.now }
        ensures value { IfOk result (λ b. b ≡ same_outs (design dev.now) (state_in self.old) self.old.inputs.words) }
        ensures inputs { self.new.inputs.words ≡ self.old.inputs.words }
        ensures state { state_in self.new ≡ state_in self.old }
        ensures made { made_for self.new ≡ made_for self.old }
    {
        dev.circuit.outputs(
            &self.device,
            &self.inputs,
            &mut self.scratch,
            self.outputs.as_mut_slice(),
        );
        self.emulation.outputs(
            alloc,
            &dev.emulator,
            self.emulator.as_slice(),
            self.inputs.words.as_slice(),
            &mut self.shown,
        )?;
        Ok(self.outputs.as_slice() == self.shown.as_slice())
    }

    /// Ticks circuit and emulator under the present inputs.
    fn tick_both(&mut self, alloc: Global, dev: &Device) -> Result<(), AllocError>
        requires made { made_for self.old ≡ room_for dev.now }
        requires cells { fit (state_widths (cells_of dev.now.circuit.lines)) self.old.device.words ≡ true }
        requires inputs { fit (input_widths dev.now.circuit.lines) self.old.inputs.words ≡ true }
        ensures state { OnOk result (state_in self.new ≡ ticked (design dev.now) (state_in self.old) self.old.inputs.words) }
        ensures cells { OnOk result (fit (state_widths (cells_of dev.now.circuit.lines)) self.new.device.words ≡ true) }
        ensures made { made_for self.new ≡ made_for self.old }
    {
        circuit_laws::circuits_have_widths(&dev.circuit);
        circuit_laws::circuits_keep_widths(&dev.circuit);
        device_design::dialogue_is_the_tick();
        dev.circuit
            .tick(&mut self.device, &self.inputs, &mut self.scratch);
        self.emulation.tick(
            alloc,
            &dev.spec,
            &dev.emulator,
            &mut self.fields,
            &mut self.emulator,
            self.inputs.words.as_slice(),
        )?;
        Ok(())
    }

    /// Whether the condition of the cut with this hint is 1 of the present state. Without such a
    /// cut it isn't.
    pub(crate) fn passes(
        &mut self,
        alloc: Global,
        dev: &Device,
        sc: &Script,
        target: HintNo,
    ) -> Result<bool, AllocError>
        ensures value { IfOk result (λ b. b ≡ passes dev.now sc.now target.0 (here (state_in self.old))) }
        ensures state { state_in self.new ≡ state_in self.old }
        ensures made { made_for self.new ≡ made_for self.old }
    {
        match sc.condition_of(target) {
            Some(condition) => self.holds(alloc, dev, condition),
            None => Ok(false),
        }
    }
}
