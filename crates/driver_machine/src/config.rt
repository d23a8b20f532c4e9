//! A driver on its way through a body.
ghost use Rattle.std.specs.Prelude.{◌≡◌, ◌-◌, ◌≤◌, ◌++◌, [], ◌∷◌, map, length, ℕ, List, Option, Some, None, IfOk, OnOk, OnErr};
ghost use Rattle.std.specs.Option.{option_copied};
ghost use Rattle.knox_circuit.specs.Cells.{cells_of, words_in};
ghost use Rattle.knox_lang.specs.Operation.{start_of};
ghost use Rattle.driver_machine.specs.Drive.{locals_of, result_of, stmts_of};
ghost use Rattle.driver_machine.specs.Left.{start, step, step_tests, next_tests};
ghost use Rattle.driver_machine.specs.Sight.{setting, result_value};
ghost use Rattle.driver_machine.specs.Begins.{run_in, listed};
ghost use Rattle.driver_machine.specs.Configs.{config_of, moved_of, run_at, with_word, with_local, LowersParts, words_fit};
ghost use Rattle.driver_machine.specs.Moves.{parts_left};
ghost use Rattle.driver_machine.specs.Fits.{fits_config};
ghost use Rattle.knox_words.specs.Lists.{fit};

use crate::begin::do_part;
use crate::met::next_test;
use crate::part::Part;
use crate::position::Position;
use crate::reply::{Moved, Reply};
use crate::scene::Scene;
use knox_circuit::{Circuit, Inputs, State};
use knox_lang::{Body, DriverParts, DriverProgram, Expr, Fun, OpHead, Stmt};
use knox_words::{Word, Words};
use sqlite_items::Items;
use std::alloc::{AllocError, Global};

/// A driver at a place of an operation's body: the words that the body works on, and its reply
/// where it has ended.
#[derive(Drop)]
pub struct DriverConfig {
    op: u32,
    position: Position,
    scene: Scene,
    reply: Option<Reply>,
}

/// The zero words of the widths of locals.
fn zero_locals(alloc: Global, locals: &[(Items<u8>, u8)]) -> Result<Words, AllocError>
    ensures { IfOk result (λ ws. ws ≡ start_of locals.now) }
{
    let mut out = Words::new(alloc);
    for local in locals {
        out.push(knox_words::word_or(local.1, 0))?;
    }
    Ok(out)
}

/// The locals of a body at its start. Where there is no body, there are none.
fn first_locals(alloc: Global, body: Option<&Body>) -> Result<Words, AllocError>
    ensures { IfOk result (λ ws. ws ≡ locals_of (option_copied body.entry)) }
{
    match body {
        Some(body) => zero_locals(alloc, body.locals.as_slice()),
        None => Ok(Words::new(alloc)),
    }
}

/// The arguments, the locals and the idle inputs that a body starts with, and no cells yet.
fn first_scene(
    alloc: Global,
    parts: &DriverParts,
    body: Option<&Body>,
    args: &[Word],
) -> Result<Scene, AllocError>
    ensures { IfOk result (λ sc. sc ≡ record { args = args.now; locals = locals_of (option_copied body.entry); state = record { words = [] }; inputs = record { words = parts.now.idle } }) }
{
    let locals = first_locals(alloc, body)?;
    let idle = parts.idle.copy(alloc)?;
    let args = Words::from_vec(Vec::from_slice(alloc, args)?);
    Ok(Scene {
        args,
        locals,
        state: State {
            words: Words::new(alloc),
        },
        inputs: Inputs { words: idle },
    })
}

/// Whether words have the widths of the things named, one for one.
fn named_fit(wanted: &[(Items<u8>, u8)], words: &[Word]) -> bool
    ensures { result ≡ fit (map (λ (a : List ℕ × ℕ). a.1) wanted.now) words.now }
{
    let mut left = wanted;
    let mut right = words;
    while let Some((want, more)) = left.split_first() {
        match right.split_first() {
            Some((word, others)) if knox_words::has_width(*word, want.1) => {
                left = more;
                right = others;
            }
            _ => return false,
        }
    }
    right.is_empty()
}

/// The statements of a body; none where there is no body.
fn body_stmts<'a>(body: Option<&'a Body>) -> &'a [Stmt]
    ensures { result.now ≡ stmts_of (option_copied body.entry) }
{
    match body {
        Some(body) => body.stmts.as_slice(),
        None => &[],
    }
}

/// The value of a body's result, or the zero word where there is none.
fn result_word(
    alloc: Global,
    c: &Circuit,
    body: Option<&Body>,
    funs: &[Fun],
    scene: &mut Scene,
) -> Result<Word, AllocError>
    ensures value { IfOk result (λ w. w ≡ result_value (setting c.now.lines funs.now scene.old.args) (run_in scene.old) (result_of (option_copied body.entry))) }
    ensures same { scene.new ≡ scene.old }
{
    match body {
        Some(body) => match &body.result {
            Some(e) => {
                let mut bound = Words::new(alloc);
                let word = scene.value(alloc, c, e, funs, &mut bound)?;
                Ok(word)
            }
            None => Ok(knox_words::zero()),
        },
        None => Ok(knox_words::zero()),
    }
}

impl DriverConfig {
    /// The start of an operation's body on a state, with idle inputs and zero locals. Where the
    /// driver has no such operation, it is stuck there.
    pub fn start(
        alloc: Global,
        c: &Circuit,
        d: &DriverProgram,
        s: State,
        op: u32,
        args: &[Word],
    ) -> Result<DriverConfig, AllocError>
        ensures config { IfOk result (λ m. config_of d.now m ≡ start d.now op args.now s.words) }
        ensures op { IfOk result (λ m. m.op ≡ op) }
    {
        let _circuit = c;
        let parts = d.parts();
        let body = sqlite_items::at(parts.bodies.as_slice(), op as usize);
        let mut scene = first_scene(alloc, parts, body, args)?;
        scene.state = s;
        let reply = match body {
            Some(_) => None,
            None => Some(Reply::Stuck),
        };
        Ok(DriverConfig {
            op,
            position: Position::start(alloc),
            scene,
            reply,
        })
    }

    /// The circuit's cells.
    pub fn state(&self) -> &State
        ensures { result.now.words ≡ (run_at self.now).cells }
    {
        &self.scene.state
    }

    /// The circuit's inputs.
    pub fn inputs(&self) -> &Inputs
        ensures { result.now.words ≡ (run_at self.now).inputs }
    {
        &self.scene.inputs
    }

    /// The body's locals in order.
    pub fn locals(&self) -> &[Word]
        ensures { result.now ≡ (run_at self.now).locals }
    {
        self.scene.locals.as_slice()
    }

    /// The number of the operation.
    pub fn op(&self) -> u32
        ensures { result ≡ self.now.op }
    {
        self.op
    }

    /// The body's reply. `None` exactly where the body has not ended.
    pub fn reply(&self) -> Option<Reply>
        ensures { result ≡ self.now.reply }
    {
        self.reply
    }

    /// Replaces a device word, where there is one at this place, and leaves all else as it was.
    pub fn put_word(&mut self, word: u32, v: Word)
        ensures { self.new ≡ with_word self.old word v }
    {
        self.scene.state.words.put(word as usize, v);
    }

    /// Replaces a local, where there is one at this place, and leaves all else as it was.
    pub fn put_local(&mut self, local: u32, v: Word)
        ensures { self.new ≡ with_local self.old local v }
    {
        self.scene.locals.put(local as usize, v);
    }

    /// Whether this is a place of a body of the driver, with words of the right widths: what is left
    /// of the body obeys the rules of the language, and cells and inputs are those of the circuit,
    /// whose ROM words have their values.
    #[tactic(auto, using(crate::proofs::Placed::placing))]
    pub fn fits_config(&self, c: &Circuit, d: &DriverProgram) -> bool
        ensures { result ≡ fits_config c.now.lines d.now self.now.op (config_of d.now self.now) }
    {
        d.is_well_formed();
        let parts = d.parts();
        let head = sqlite_items::at(parts.ops.as_slice(), self.op as usize);
        let body = sqlite_items::at(parts.bodies.as_slice(), self.op as usize);
        match (head, body) {
            (Some(head), Some(body)) => self.fits_body(c, head, body),
            _ => false,
        }
    }

    /// Whether the words have the widths of an operation and of its body, which is one of a driver,
    /// and the cells are device words of the circuit.
    fn fits_body(&self, c: &Circuit, head: &OpHead, body: &Body) -> bool
        ensures { result ≡ words_fit c.now.lines head.now body.now self.now }
    {
        if !c.fits_state(&self.scene.state) {
            return false;
        }
        if !c.fits_inputs(&self.scene.inputs) {
            return false;
        }
        if !named_fit(body.locals.as_slice(), self.scene.locals.as_slice()) {
            return false;
        }
        match self.reply {
            Some(Reply::Value(word)) => word.width() == head.result,
            Some(Reply::Stuck) => true,
            None => named_fit(head.args.as_slice(), self.scene.args.as_slice()),
        }
    }

    /// Does the next part of the body, of which only the result may be left. At the end it changes
    /// nothing and answers the same again. Want of memory changes nothing.
    pub fn step(
        &mut self,
        alloc: Global,
        c: &Circuit,
        d: &DriverProgram,
    ) -> Result<Moved, AllocError>
        requires { length (run_at self.old).cells ≡ words_in (cells_of c.now.lines) }
        ensures config { OnOk result (config_of d.now self.new ≡ step c.now.lines d.now (config_of d.now self.old)) }
        ensures moved { IfOk result (λ r. r ≡ moved_of c.now.lines d.now (config_of d.now self.old)) }
        ensures fewer { IfOk result (λ r. LowersParts r (parts_left (config_of d.now self.old).left) (parts_left (config_of d.now self.new).left)) }
        ensures count { length (run_at self.new).cells ≡ words_in (cells_of c.now.lines) }
        ensures err { OnErr result (self.new ≡ self.old) }
    {
        if let Some(reply) = self.reply {
            return Ok(Moved::Done(reply));
        }
        let moved = self.advance(alloc, c, d)?;
        Ok(moved)
    }

    /// The outcome of the test that the next step meets, also of a test that ends the body. `None`
    /// exactly where it meets none. It leaves the configuration as it was.
    pub fn next_test(
        &mut self,
        alloc: Global,
        c: &Circuit,
        d: &DriverProgram,
    ) -> Result<Option<bool>, AllocError>
        ensures tests { IfOk result (λ t. listed t ≡ step_tests c.now.lines d.now (config_of d.now self.old)) }
        ensures same { self.new ≡ self.old }
    {
        if let Some(_) = self.reply {
            return Ok(None);
        }
        let met = self.meet(alloc, c, d)?;
        Ok(met)
    }

    /// The outcome of the test that the next part meets of a body that has not ended.
    fn meet(
        &mut self,
        alloc: Global,
        c: &Circuit,
        d: &DriverProgram,
    ) -> Result<Option<bool>, AllocError>
        requires { self.old.reply ≡ None }
        ensures tests { IfOk result (λ t. listed t ≡ step_tests c.now.lines d.now (config_of d.now self.old)) }
        ensures same { self.new ≡ self.old }
    {
        let parts = d.parts();
        let funs = parts.funs.as_slice();
        let body = sqlite_items::at(parts.bodies.as_slice(), self.op as usize);
        let mut position = self.position.copy(alloc)?;
        let met = next_test(
            alloc,
            c,
            body_stmts(body),
            funs,
            &mut position,
            &mut self.scene,
        )?;
        Ok(met)
    }

    /// Does the next part of a body that has not ended.
    fn advance(
        &mut self,
        alloc: Global,
        c: &Circuit,
        d: &DriverProgram,
    ) -> Result<Moved, AllocError>
        requires state { length (run_at self.old).cells ≡ words_in (cells_of c.now.lines) }
        requires open_ { self.old.reply ≡ None }
        ensures config { OnOk result (config_of d.now self.new ≡ step c.now.lines d.now (config_of d.now self.old)) }
        ensures moved { IfOk result (λ r. r ≡ moved_of c.now.lines d.now (config_of d.now self.old)) }
        ensures count { length (run_at self.new).cells ≡ words_in (cells_of c.now.lines) }
        ensures err { OnErr result (self.new ≡ self.old) }
    {
        let parts = d.parts();
        let funs = parts.funs.as_slice();
        let body = sqlite_items::at(parts.bodies.as_slice(), self.op as usize);
        let mut position = self.position.copy(alloc)?;
        let part = do_part(
            alloc,
            c,
            body_stmts(body),
            funs,
            &mut position,
            &mut self.scene,
        )?;
        match part {
            Part::Ran => {
                self.position = position;
                Ok(Moved::Ran)
            }
            Part::Ticked => {
                self.position = position;
                Ok(Moved::Ticked)
            }
            Part::NoTurns => {
                self.reply = Some(Reply::Stuck);
                Ok(Moved::Done(Reply::Stuck))
            }
            Part::AtResult => {
                let word = result_word(alloc, c, body, funs, &mut self.scene)?;
                self.reply = Some(Reply::Value(word));
                Ok(Moved::Done(Reply::Value(word)))
            }
        }
    }

    /// The circuit's cells, from a driver that has done its work.
    pub fn into_state(self) -> State
        ensures { result.words ≡ (run_at self).cells }
    {
        let DriverConfig {
            op: _op,
            position: _position,
            scene,
            reply: _reply,
        } = self;
        scene.into_state()
    }
}
