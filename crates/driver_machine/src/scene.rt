//! The words that a driver's body works on.
ghost use Rattle.std.specs.Prelude.{◌≡◌, ◌==◌, ◌+◌, [], map, length, vec_len, IfSome, IfOk, OnOk, OnErr};
ghost use Rattle.knox_circuit.specs.Circuit.{output_words, state_after_tick};
ghost use Rattle.knox_circuit.specs.Cells.{cells_of, words_in};
ghost use Rattle.knox_circuit.specs.Ports.{outputs_of};
ghost use Rattle.driver_machine.specs.Sight.{setting, value, assigned, sight};
ghost use Rattle.driver_machine.specs.Begins.{run_in};

use knox_circuit::{Circuit, Inputs, State};
use knox_lang::{Expr, Fun, Slot, Space, Spaces};
use knox_words::{Word, Words};
use std::alloc::{AllocError, Global};
use std::mem;

/// The words that a body works on: arguments and locals, and the circuit's cells and inputs.
#[derive(Drop)]
pub struct Scene {
    pub args: Words,
    pub locals: Words,
    pub state: State,
    pub inputs: Inputs,
}

/// Some zero words.
fn zero_words(alloc: Global, count: usize) -> Result<Vec<Word>, AllocError>
    ensures { IfOk result (λ v. vec_len v ≡ count) }
{
    let mut words = Vec::new(alloc);
    for k in 0..count {
        let _done = k;
        words.push(knox_words::zero())?;
    }
    Ok(words)
}

/// The circuit's outputs in a state under inputs.
fn outputs(alloc: Global, c: &Circuit, s: &State, i: &Inputs) -> Result<Words, AllocError>
    ensures { IfOk result (λ w. w ≡ output_words c.now.lines s.now.words i.now.words) }
{
    let mut room = c.scratch()?;
    let mut out = zero_words(alloc, c.outputs_list().len())?;
    c.outputs(s, i, &mut room, out.as_mut_slice());
    Ok(Words::from_vec(out))
}

impl Scene {
    /// The value of a literal, an argument or a local, which needs no outputs.
    fn plain_word(&self, c: &Circuit, e: &Expr, funs: &[Fun], bound: &Words) -> Option<Word>
        ensures { IfSome result (λ w. w ≡ value (setting c.now.lines funs.now self.now.args) (run_in self.now) bound.now e.now) }
    {
        let _circuit = c;
        let _funs = funs;
        let _bound = bound;
        match e {
            Expr::Lit(w) => Some(*w),
            Expr::Name(s) => match s.space {
                Space::Arg => Some(knox_words::word_far(self.args.as_slice(), s.number, 0)),
                Space::Local => Some(knox_words::word_far(self.locals.as_slice(), s.number, 0)),
                _ => None,
            },
            _ => None,
        }
    }

    /// The value of an expression.
    pub fn value(
        &mut self,
        alloc: Global,
        c: &Circuit,
        e: &Expr,
        funs: &[Fun],
        bound: &mut Words,
    ) -> Result<Word, AllocError>
        ensures value { IfOk result (λ w. w ≡ value (setting c.now.lines funs.now self.old.args) (run_in self.old) bound.old e.now) }
        ensures bound { bound.new ≡ bound.old }
        ensures same { self.new ≡ self.old }
    {
        if let Some(word) = self.plain_word(c, e, funs, bound) {
            return Ok(word);
        }
        let out = outputs(alloc, c, &self.state, &self.inputs)?;
        let mut spaces = Spaces::new(alloc);
        spaces.give(Space::Output, out);
        mem::swap(&mut spaces.arg, &mut self.args);
        mem::swap(&mut spaces.local, &mut self.locals);
        let word = knox_lang::eval_in(alloc, e, funs, &spaces, bound);
        mem::swap(&mut spaces.arg, &mut self.args);
        mem::swap(&mut spaces.local, &mut self.locals);
        word
    }

    /// Puts a word where a slot says, some places on. A body changes locals alone.
    pub fn assign(&mut self, slot: Slot, more: u128, word: Word)
        ensures run { run_in self.new ≡ assigned slot more word (run_in self.old) }
        ensures args { self.new.args ≡ self.old.args }
        ensures state { self.new.state ≡ self.old.state }
    {
        match slot.space {
            Space::Local => self.locals.put_far(slot.number, more, word),
            _ => {}
        }
    }

    /// Puts the value of an expression where a slot says, as many places on as another's value.
    pub fn store(
        &mut self,
        alloc: Global,
        c: &Circuit,
        slot: Slot,
        i: &Expr,
        e: &Expr,
        funs: &[Fun],
        bound: &mut Words,
    ) -> Result<(), AllocError>
        ensures run { OnOk result (run_in self.new ≡ assigned slot (value (setting c.now.lines funs.now self.old.args) (run_in self.old) bound.old i.now).value (value (setting c.now.lines funs.now self.old.args) (run_in self.old) bound.old e.now) (run_in self.old)) }
        ensures args { self.new.args ≡ self.old.args }
        ensures state { self.new.state ≡ self.old.state }
        ensures err { OnErr result (self.new ≡ self.old) }
        ensures bound { bound.new ≡ bound.old }
    {
        let more = self.value(alloc, c, i, funs, bound)?;
        let word = self.value(alloc, c, e, funs, bound)?;
        self.assign(slot, more.value(), word);
        Ok(())
    }

    /// A tick of the circuit under the present inputs, where the state has as many words as its
    /// cells; else it changes nothing.
    pub fn tick(&mut self, c: &Circuit) -> Result<(), AllocError>
        requires { length self.old.state.words ≡ words_in (cells_of c.now.lines) }
        ensures ok { OnOk result (run_in self.new ≡ record (run_in self.old) { cells = state_after_tick c.now.lines self.old.state.words self.old.inputs.words }) }
        ensures count { length self.new.state.words ≡ words_in (cells_of c.now.lines) }
        ensures args { self.new.args ≡ self.old.args }
        ensures err { OnErr result (self.new ≡ self.old) }
    {
        let mut room = c.scratch()?;
        c.tick(&mut self.state, &self.inputs, &mut room);
        Ok(())
    }

    /// The circuit's cells alone.
    pub fn into_state(self) -> State
        ensures { result ≡ self.state }
    {
        let Scene {
            args: _args,
            locals: _locals,
            state,
            inputs: _inputs,
        } = self;
        state
    }
}
