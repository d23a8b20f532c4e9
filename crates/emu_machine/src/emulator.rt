//! The emulator's outputs, its power-on and its tick.
ghost use Rattle.std.specs.Prelude.{◌≡◌, [], ◌∷◌, ◌++◌, map, IfOk, OnOk, OnErr};
ghost use Rattle.knox_lang.specs.Operation.{start_of};
ghost use Rattle.knox_lang.specs.Scope.{scope};
ghost use Rattle.knox_lang.specs.Eval.{eval, values, called};
ghost use Rattle.emu_machine.specs.Emulator.{body_words, power_spaces, emulator_outputs, emulator_after_power, emulator_after_tick, fields_after_tick, Answerer, answering};
ghost use Rattle.knox_lang.specs.Exec.{does_all};

use crate::answer::Answers;
use knox_lang::{EmuProgram, Expr, Fun, NoQueries, Spaces, SpecProgram, SpecState};
use knox_words::{Word, Words};
use sqlite_items::Items;
use std::alloc::{AllocError, Global};
use std::mem;

/// Room for the emulator's outputs, power-cycles and ticks. It is kept from one to the next, so
/// that they take no memory of their own once it has grown.
#[derive(Drop)]
pub struct EmuRoom {
    own: Words,
    input: Words,
    local: Words,
    noise: Words,
    fields: Words,
    bound: Words,
}

/// The values of some expressions over the words of the spaces.
fn values_into(
    alloc: Global,
    es: &[Expr],
    funs: &[Fun],
    spaces: &Spaces,
    bound: &mut Words,
    out: &mut Words,
) -> Result<(), AllocError>
    ensures out { OnOk result (out.new ≡ values (map (eval (called funs.now)) es.now) (scope spaces.now bound.old)) }
    ensures bound { bound.new ≡ bound.old }
{
    out.clear();
    for e in es {
        let word = knox_lang::eval_in(alloc, e, funs, spaces, bound)?;
        out.push(word)?;
    }
    Ok(())
}

/// The zero words of the widths of locals.
fn start_into(locals: &[(Items<u8>, u8)], out: &mut Words) -> Result<(), AllocError>
    ensures { OnOk result (out.new ≡ start_of locals.now) }
{
    out.clear();
    for local in locals {
        out.push(knox_words::word_or(local.1, 0))?;
    }
    Ok(())
}

impl EmuRoom {
    /// Room that has to grow yet.
    pub fn new(alloc: Global) -> EmuRoom {
        EmuRoom {
            own: Words::new(alloc),
            input: Words::new(alloc),
            local: Words::new(alloc),
            noise: Words::new(alloc),
            fields: Words::new(alloc),
            bound: Words::new(alloc),
        }
    }

    /// The words that a body sees, in the buffers of this room.
    fn spaces(
        &mut self,
        alloc: Global,
        emu: &[Word],
        ins: &[Word],
        locals: &[(Items<u8>, u8)],
    ) -> Result<Spaces, AllocError>
        ensures seen { IfOk result (λ sp. sp ≡ body_words emu.now ins.now (start_of locals.now)) }
        ensures kept { self.new.fields ≡ self.old.fields }
    {
        self.own.copy_from(emu)?;
        self.input.copy_from(ins)?;
        start_into(locals, &mut self.local)?;
        let mut spaces = Spaces::new(alloc);
        mem::swap(&mut spaces.own, &mut self.own);
        mem::swap(&mut spaces.input, &mut self.input);
        mem::swap(&mut spaces.local, &mut self.local);
        Ok(spaces)
    }

    /// The words that the body `power` sees, in the buffers of this room.
    fn power_spaces(
        &mut self,
        alloc: Global,
        p: &EmuProgram,
        noise: &[Word],
    ) -> Result<Spaces, AllocError>
        ensures { IfOk result (λ sp. sp ≡ power_spaces p.now noise.now) }
    {
        let parts = p.parts();
        self.own.copy_from(parts.init.as_slice())?;
        self.noise.copy_from(noise)?;
        start_into(parts.power.locals.as_slice(), &mut self.local)?;
        let mut spaces = Spaces::new(alloc);
        mem::swap(&mut spaces.own, &mut self.own);
        mem::swap(&mut spaces.local, &mut self.local);
        mem::swap(&mut spaces.noise, &mut self.noise);
        Ok(spaces)
    }

    /// Takes the buffers back.
    fn keep(&mut self, spaces: Spaces) {
        let mut spaces = spaces;
        mem::swap(&mut spaces.own, &mut self.own);
        mem::swap(&mut spaces.input, &mut self.input);
        mem::swap(&mut spaces.local, &mut self.local);
        mem::swap(&mut spaces.noise, &mut self.noise);
    }

    /// Power-on with this noise: the emulator's words become what its body `power` makes of the
    /// initial ones. Want of memory leaves them as they were.
    pub fn power(
        &mut self,
        alloc: Global,
        p: &EmuProgram,
        noise: &[Word],
        emu: &mut Words,
    ) -> Result<(), AllocError>
        ensures emu { OnOk result (emu.new ≡ emulator_after_power p.now noise.now) }
        ensures err { OnErr result (emu.new ≡ emu.old) }
    {
        let mut seen = self.power_spaces(alloc, p, noise)?;
        let parts = p.parts();
        self.bound.clear();
        knox_lang::exec_in(
            alloc,
            parts.power.stmts.as_slice(),
            parts.funs.as_slice(),
            &mut seen,
            &mut self.bound,
            &mut NoQueries::new(),
        )?;
        mem::swap(emu, &mut seen.own);
        self.keep(seen);
        Ok(())
    }

    /// The outputs that an emulator shows, in line order, for its words and those of the inputs.
    pub fn outputs(
        &mut self,
        alloc: Global,
        p: &EmuProgram,
        emu: &[Word],
        ins: &[Word],
        out: &mut Words,
    ) -> Result<(), AllocError>
        ensures { OnOk result (out.new ≡ emulator_outputs p.now emu.now ins.now) }
    {
        let parts = p.parts();
        let spaces = self.spaces(alloc, emu, ins, &[])?;
        self.bound.clear();
        values_into(
            alloc,
            parts.outputs.as_slice(),
            parts.funs.as_slice(),
            &spaces,
            &mut self.bound,
            out,
        )?;
        self.keep(spaces);
        Ok(())
    }

    /// The body of a tick over these words. The specification answers it, with the fields in this
    /// room.
    fn answered(
        &mut self,
        alloc: Global,
        s: &SpecProgram,
        p: &EmuProgram,
        spaces: &mut Spaces,
    ) -> Result<(), AllocError>
        ensures spaces { OnOk result (spaces.new ≡ (does_all Answerer (called p.now.funs) answering p.now.tick.stmts (spaces.old, record { spec = s.now; fields = self.old.fields }) []).0) }
        ensures fields { OnOk result (self.new.fields ≡ (does_all Answerer (called p.now.funs) answering p.now.tick.stmts (spaces.old, record { spec = s.now; fields = self.old.fields }) []).1.fields) }
    {
        let parts = p.parts();
        let words = mem::replace(&mut self.fields, Words::new(alloc));
        let mut asked = Answers {
            program: s,
            state: SpecState { words },
        };
        self.bound.clear();
        knox_lang::exec_in(
            alloc,
            parts.tick.stmts.as_slice(),
            parts.funs.as_slice(),
            spaces,
            &mut self.bound,
            &mut asked,
        )?;
        self.fields = asked.into_fields();
        Ok(())
    }

    /// A tick: the emulator's words and the specification's fields after it. Want of memory leaves
    /// both as they were.
    pub fn tick(
        &mut self,
        alloc: Global,
        s: &SpecProgram,
        p: &EmuProgram,
        fields: &mut Words,
        emu: &mut Words,
        ins: &[Word],
    ) -> Result<(), AllocError>
        ensures emu { OnOk result (emu.new ≡ emulator_after_tick s.now p.now fields.old emu.old ins.now) }
        ensures fields { OnOk result (fields.new ≡ fields_after_tick s.now p.now fields.old emu.old ins.now) }
        ensures err { OnErr result ((emu.new ≡ emu.old) × (fields.new ≡ fields.old)) }
    {
        self.fields.copy_from(fields.as_slice())?;
        let mut spaces = self.spaces(alloc, emu.as_slice(), ins, p.parts().tick.locals.as_slice())?;
        self.answered(alloc, s, p, &mut spaces)?;
        mem::swap(emu, &mut spaces.own);
        mem::swap(fields, &mut self.fields);
        self.keep(spaces);
        Ok(())
    }
}
