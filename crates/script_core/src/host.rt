//! The runs of the sections of the host: `factory`, `boot-host`, `rest`, `wait` and `call`.
ghost use Rattle.std.specs.Prelude.{◌≡◌, ◌<◌, [], length, map, slice_get, true, IfOk, OnOk};
ghost use Rattle.knox_words.specs.Lists.{fit};
ghost use Rattle.knox_theory.specs.HostSegments.{is_reply};
ghost use Rattle.knox_circuit.specs.Cells.{cells_of, state_widths};
ghost use Rattle.knox_lang.specs.Operation.{op_after, op_result};
ghost use Rattle.driver_machine.specs.Configs.{meant};
ghost use Rattle.device_design.specs.Meaning.{head_args};
ghost use Rattle.script_core.specs.declared.parts.Kind.TheVariants.{Factory, BootHost, Rest, Wait, Call};
ghost use Rattle.script_core.specs.Hints.{seen, holds};
ghost use Rattle.script_core.specs.Reached.{kind_course, concludes, Idles};
ghost use Rattle.script_core.specs.Rooms.{room_for, made_for, state_in};
ghost use Rattle.script_core.specs.Runs.{reach, reach_of};

use crate::evaluate;
use crate::parts::Kind;
use crate::room::Room;
use crate::run::{Left, Progress, checked, take_three, take_words};
use crate::script::Script;
use driver_machine::Reply;
use emu_machine::Device;
use knox_lang::{OpHead, SpecState};
use knox_words::{Word, Words};
use sqlite_items::Items;
use std::alloc::{AllocError, Global};
use std::mem;

/// The widths of arguments.
#[tactic(auto, using(crate::proofs::Widening::widening))]
fn widths_into(args: &[(Items<u8>, u8)], out: &mut Vec<u8>) -> Result<(), AllocError>
    ensures { OnOk result (out.new.items ≡ map (λ a. a.1) args.now) }
{
    out.clear();
    let mut left = args;
    while let Some((arg, more)) = left.split_first() {
        out.push(arg.1)?;
        left = more;
    }
    Ok(())
}

/// The widths of the arguments of an operation; none where there is no such operation.
pub(crate) fn arg_widths_into(
    heads: &[OpHead],
    op: u32,
    out: &mut Vec<u8>,
) -> Result<(), AllocError>
    ensures { OnOk result (out.new.items ≡ head_args (slice_get heads.now op)) }
{
    match heads.get(op as usize) {
        Some(head) => widths_into(head.args.as_slice(), out),
        None => {
            out.clear();
            Ok(())
        }
    }
}

/// Whether the reply of a driver is this word.
fn is_reply(reply: Reply, word: Word) -> bool
    ensures { result ≡ is_reply (meant reply) word }
{
    match reply {
        Reply::Value(value) => value == word,
        Reply::Stuck => false,
    }
}

impl Room {
    /// Whether `idle` is 1 of the present fields and device words.
    fn is_idle(&mut self, alloc: Global, dev: &Device, sc: &Script) -> Result<bool, AllocError>
        ensures value { IfOk result (λ b. b ≡ holds dev.now.spec.funs sc.now.idle (seen self.old.fields self.old.device.words [])) }
        ensures state { state_in self.new ≡ state_in self.old }
        ensures args { self.new.args ≡ self.old.args }
        ensures made { made_for self.new ≡ made_for self.old }
    {
        self.none.clear();
        evaluate::holds(
            alloc,
            dev.spec.parts().funs.as_slice(),
            &sc.parts().idle,
            &mut self.fields,
            &mut self.device.words,
            &mut self.none,
            &mut self.bound,
        )
    }

    /// The root of `rest`, `wait` and `call`: takes fields, device words but for ROM words, and words
    /// of the widths in `arg_widths`, and goes on where `idle` is 1 of the first two.
    pub(crate) fn begin_idle<'a>(
        &mut self,
        alloc: Global,
        dev: &Device,
        sc: &Script,
        words: &'a [Word],
    ) -> Result<Left<'a>, AllocError>
        requires { made_for self.old ≡ room_for dev.now }
        ensures run { IfOk result (λ l. Idles dev.now sc.now self.old.arg_widths.items words.now self.new.fields self.new.device.words self.new.args l) }
        ensures made { made_for self.new ≡ made_for self.old }
    {
        device_design::rom_words_have_widths(&dev.circuit);
        let left = match take_three(
            self.widths.fields.as_slice(),
            dev.circuit.roms(),
            dev.circuit.state_widths(),
            self.arg_widths.as_slice(),
            words,
            &mut self.fields,
            &mut self.device.words,
            &mut self.args,
        )? {
            Left::Ended(end) => return Ok(Left::Ended(end)),
            Left::On(left) => left,
        };
        if self.is_idle(alloc, dev, sc)? {
            Ok(Left::On(left))
        } else {
            Ok(Left::Ended(Progress::Vacuous))
        }
    }

    /// The run of `factory`: the factory state is refined.
    pub(crate) fn factory(
        &mut self,
        alloc: Global,
        dev: &Device,
        sc: &Script,
        words: &[Word],
    ) -> Result<Progress, AllocError>
        requires { made_for self.old ≡ room_for dev.now }
        ensures run { IfOk result (λ p. reach_of p ≡ reach (kind_course dev.now sc.now Factory) words.now) }
        ensures made { made_for self.new ≡ made_for self.old }
    {
        let _left = match take_words(
            self.widths.factory_noise.as_slice(),
            words,
            &mut self.noise.words,
        )? {
            Left::Ended(end) => return Ok(end),
            Left::On(left) => left,
        };
        self.device = dev.circuit.factory(&self.noise)?;
        self.fields.copy_from(dev.spec.parts().init.as_slice())?;
        let refined = self.stays_refined(alloc, dev, sc)?;
        Ok(checked(refined, sc.hint_of_kind(Kind::Factory)))
    }

    /// The run of `boot-host`: a power-cycle of a refined state is idle.
    pub(crate) fn boot_host(
        &mut self,
        alloc: Global,
        dev: &Device,
        sc: &Script,
        words: &[Word],
    ) -> Result<Progress, AllocError>
        requires { made_for self.old ≡ room_for dev.now }
        ensures run { IfOk result (λ p. reach_of p ≡ reach (kind_course dev.now sc.now BootHost) words.now) }
        ensures made { made_for self.new ≡ made_for self.old }
    {
        let _left = match self.power_up(alloc, dev, sc, words)? {
            Left::Ended(end) => return Ok(end),
            Left::On(left) => left,
        };
        let idle = self.is_idle(alloc, dev, sc)?;
        Ok(checked(idle, sc.hint_of_kind(Kind::BootHost)))
    }

    /// The run of `rest`: an idle state is refined.
    pub(crate) fn rest(
        &mut self,
        alloc: Global,
        dev: &Device,
        sc: &Script,
        words: &[Word],
    ) -> Result<Progress, AllocError>
        requires { made_for self.old ≡ room_for dev.now }
        ensures run { IfOk result (λ p. reach_of p ≡ reach (kind_course dev.now sc.now Rest) words.now) }
        ensures made { made_for self.new ≡ made_for self.old }
    {
        self.arg_widths.clear();
        let _left = match self.begin_idle(alloc, dev, sc, words)? {
            Left::Ended(end) => return Ok(end),
            Left::On(left) => left,
        };
        let refined = self.stays_refined(alloc, dev, sc)?;
        Ok(checked(refined, sc.hint_of_kind(Kind::Rest)))
    }

    /// The run of `wait`: a tick of an idle state, at idle inputs, is idle.
    pub(crate) fn wait(
        &mut self,
        alloc: Global,
        dev: &Device,
        sc: &Script,
        words: &[Word],
    ) -> Result<Progress, AllocError>
        requires { made_for self.old ≡ room_for dev.now }
        ensures run { IfOk result (λ p. reach_of p ≡ reach (kind_course dev.now sc.now Wait) words.now) }
        ensures made { made_for self.new ≡ made_for self.old }
    {
        circuit_laws::circuits_have_widths(&dev.circuit);
        self.arg_widths.clear();
        let _left = match self.begin_idle(alloc, dev, sc, words)? {
            Left::Ended(end) => return Ok(end),
            Left::On(left) => left,
        };
        self.inputs.words.copy_from(dev.driver.idle())?;
        dev.circuit
            .tick(&mut self.device, &self.inputs, &mut self.scratch);
        let idle = self.is_idle(alloc, dev, sc)?;
        Ok(checked(idle, sc.hint_of_kind(Kind::Wait)))
    }

    /// Does an operation of the specification on the present fields, with the arguments of this room.
    fn do_op(&mut self, alloc: Global, dev: &Device, op: u32) -> Result<Word, AllocError>
        ensures value { IfOk result (λ w. w ≡ op_result dev.now.spec op self.old.fields self.old.args) }
        ensures fields { OnOk result (self.new.fields ≡ op_after dev.now.spec op self.old.fields self.old.args) }
        ensures cells { self.new.device.words ≡ self.old.device.words }
        ensures made { made_for self.new ≡ made_for self.old }
    {
        let mut state = SpecState {
            words: Words::new(alloc),
        };
        mem::swap(&mut state.words, &mut self.fields);
        let done = knox_lang::op(alloc, &dev.spec, &mut state, op, self.args.as_slice());
        mem::swap(&mut state.words, &mut self.fields);
        let value = done?;
        Ok(value)
    }

    /// The end of a call from the present fields, device words and arguments: the driver does its body,
    /// the specification its operation. Whether the reply is the operation's result, and `idle` is 1
    /// after both.
    fn conclude(
        &mut self,
        alloc: Global,
        dev: &Device,
        sc: &Script,
        op: u32,
    ) -> Result<bool, AllocError>
        requires { fit (state_widths (cells_of dev.now.circuit.lines)) self.old.device.words ≡ true }
        ensures value { IfOk result (λ b. b ≡ concludes dev.now sc.now op self.old.fields self.old.device.words self.old.args) }
        ensures made { made_for self.new ≡ made_for self.old }
    {
        circuit_laws::circuits_have_widths(&dev.circuit);
        let reply = driver_machine::drive(
            alloc,
            &dev.circuit,
            &dev.driver,
            &mut self.device,
            op,
            self.args.as_slice(),
        )?;
        let given = self.do_op(alloc, dev, op)?;
        let idle = self.is_idle(alloc, dev, sc)?;
        Ok(is_reply(reply, given) && idle)
    }

    /// The run of `call` of an operation: from an idle state, the driver's reply is the operation's
    /// result, and the state after both is idle.
    pub(crate) fn call(
        &mut self,
        alloc: Global,
        dev: &Device,
        sc: &Script,
        op: u32,
        words: &[Word],
    ) -> Result<Progress, AllocError>
        requires made { made_for self.old ≡ room_for dev.now }
        requires op { op < length dev.now.spec.ops }
        ensures run { IfOk result (λ p. reach_of p ≡ reach (kind_course dev.now sc.now (Call op)) words.now) }
        ensures made { made_for self.new ≡ made_for self.old }
    {
        device_design::devices_are_designs(dev);
        device_design::rom_words_have_widths(&dev.circuit);
        arg_widths_into(dev.spec.ops(), op, &mut self.arg_widths)?;
        let _left = match self.begin_idle(alloc, dev, sc, words)? {
            Left::Ended(end) => return Ok(end),
            Left::On(left) => left,
        };
        let concluded = self.conclude(alloc, dev, sc, op)?;
        Ok(checked(concluded, sc.hint_of_kind(Kind::Call(op))))
    }
}
