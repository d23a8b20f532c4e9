//! Circuits, their states and what they are given.
ghost use Rattle.std.specs.Prelude.{◌≡◌, ◌<◌, ◌≤◌, [], length, slice_get, Some, None, Ok, IfOk};
ghost use Rattle.knox_words.specs.Lists.{fit, pick};
ghost use Rattle.circuit_table.specs.Rows.{rows_after, AreRuled};
ghost use Rattle.circuit_table.specs.Whole.{unfed_among};
ghost use Rattle.knox_circuit.specs.Circuit.{Circuit, output_words, state_after_tick, state_after_power, factory_state, fits_noise, sizes_of, unfed};
ghost use Rattle.knox_circuit.specs.Ports.{inputs_of, outputs_of, input_widths, output_widths};
ghost use Rattle.knox_circuit.specs.Cells.{cells_of, bares_of, state_widths, words_in, noise_cells, noise_widths, keep_mask, all_words, noise_mask, chosen};
ghost use Rattle.knox_circuit.specs.Rom.{rom_words, free_mask, fits_state};

use crate::made::{self, Made};
use crate::port::{Cell, Port, Stored};
use crate::walk::NoiseCells;
use crate::{evaluation, rom, states};
use circuit_table::{Line, Table};
use knox_words::{Word, Words};
use sqlite_items::Items;
use std::alloc::{AllocError, Global};
use std::marker::Model;

/// The device words: the words of all cells in line order.
#[derive(Debug, Drop)]
pub struct State {
    pub words: Words,
}

/// The words of the inputs in line order.
#[derive(Debug, Drop)]
pub struct Inputs {
    pub words: Words,
}

/// The words of the states that have neither `init` nor kept words, in line order: those of the
/// factory or of a power-cycle.
#[derive(Debug, Drop)]
pub struct Noise {
    pub words: Words,
}

/// A circuit.
pub struct Circuit {
    alloc: Global,
    lines: Items<Line>,
    made: Made,
}

impl Drop for Circuit {
    fn drop(self) {
        let Circuit {
            alloc: _alloc,
            lines: _lines,
            made: _made,
        } = self;
    }
}

impl Model for Circuit {
    ghost use Rattle.knox_circuit.specs.Circuit.{Circuit};
    ghost use Rattle.knox_circuit.specs.Made.{IsCircuit};

    ghost Value = { Circuit };

    ghost view = { λ c. record { lines = c.lines } };

    ghost invariant = { λ c. IsCircuit c.lines c.made };
}

/// Room for one evaluation of a circuit.
pub struct Scratch {
    nodes: Vec<Word>,
    words: Vec<Word>,
    places: Vec<u32>,
}

impl Drop for Scratch {
    fn drop(self) {
        let Scratch {
            nodes: _nodes,
            words: _words,
            places: _places,
        } = self;
    }
}

impl Model for Scratch {
    ghost use Rattle.std.specs.Prelude.{vec_len};
    ghost use Rattle.knox_circuit.specs.Circuit.{Sizes};

    ghost Value = { Sizes };

    ghost view = { λ s. record { nodes = vec_len s.nodes; words = vec_len s.words; places = vec_len s.places } };
}

/// The states that take noise words where some cells are kept.
fn noise_cells(alloc: Global, states: &[Stored], keep: &[bool]) -> Result<Items<Cell>, AllocError>
    requires { all_words states.now ≤ 2000000 }
    ensures { IfOk result (λ cells. cells ≡ chosen (noise_mask states.now keep.now) states.now) }
{
    let mask = states::noise_mask(alloc, states, keep)?;
    states::chosen(alloc, mask.as_slice(), states)
}

/// The widths of their words.
#[tactic(auto, using(crate::proofs::StatesLemmas::few_steps))]
fn noise_widths(alloc: Global, states: &[Stored], keep: &[bool]) -> Result<Vec<u8>, AllocError>
    requires { all_words states.now ≤ 2000000 }
    ensures { IfOk result (λ widths. widths.items ≡ state_widths (chosen (noise_mask states.now keep.now) states.now)) }
{
    let cells = noise_cells(alloc, states, keep)?;
    states::state_widths(alloc, cells.as_slice())
}

impl Circuit {
    /// The circuit of lines with their rows. `Err` is want of memory.
    #[tactic(auto, using(crate::proofs::RowsLemmas::fed_steps))]
    pub(crate) fn of(
        alloc: Global,
        lines: Items<Line>,
        table: &Table,
    ) -> Result<Circuit, AllocError>
        requires rows { rows_after [] lines ≡ Ok table.now }
        requires fed { unfed_among table.now (length table.now) ≡ None }
        ensures { IfOk result (λ c. c.lines ≡ lines) }
    {
        let made = made::made_of(alloc, lines.as_slice(), table.as_slice())?;
        Ok(Circuit { alloc, lines, made })
    }

    /// The lines in the order of the text.
    pub fn lines(&self) -> &[Line]
        ensures { result.now ≡ self.now.lines }
    {
        self.lines.as_slice()
    }

    /// The inputs in line order.
    pub fn inputs(&self) -> &[Port]
        ensures { result.now ≡ inputs_of self.now.lines }
    {
        self.made.tables.inputs.as_slice()
    }

    /// The outputs in line order.
    pub fn outputs_list(&self) -> &[Port]
        ensures { result.now ≡ outputs_of self.now.lines }
    {
        self.made.tables.outputs.as_slice()
    }

    /// The cells in line order.
    pub fn cells(&self) -> &[Cell]
        ensures { result.now ≡ cells_of self.now.lines }
    {
        self.made.places.cells.as_slice()
    }

    /// The bare states in line order. `first` is the number of words of the bare states before.
    pub fn bares(&self) -> &[Cell]
        ensures { result.now ≡ bares_of self.now.lines }
    {
        self.made.places.bares.as_slice()
    }

    /// The widths of the device words.
    pub fn state_widths(&self) -> &[u8]
        ensures { result.now ≡ state_widths (cells_of self.now.lines) }
    {
        self.made.places.widths.as_slice()
    }

    /// The widths of the input words.
    pub fn input_widths(&self) -> &[u8]
        ensures { result.now ≡ input_widths self.now.lines }
    {
        self.made.tables.input_widths.as_slice()
    }

    /// The widths of the output words.
    pub fn output_widths(&self) -> &[u8]
        ensures { result.now ≡ output_widths self.now.lines }
    {
        self.made.tables.output_widths.as_slice()
    }

    /// The widths of the noise words of a power-cycle that keeps some cells; those of the factory
    /// where none is kept. `Err` is want of memory.
    pub fn noise_widths(&self, keep: &[bool]) -> Result<Vec<u8>, AllocError>
        ensures { IfOk result (λ widths. widths.items ≡ noise_widths self.now.lines keep.now) }
    {
        noise_widths(self.alloc, self.made.places.states.as_slice(), keep)
    }

    /// One truth value for each device word: whether its cell is kept. `keep` has one for each cell.
    /// `Err` is want of memory.
    pub fn keep_mask(&self, keep: &[bool]) -> Result<Vec<bool>, AllocError>
        ensures { IfOk result (λ mask. mask.items ≡ keep_mask (cells_of self.now.lines) keep.now) }
    {
        states::keep_mask(self.alloc, self.made.places.cells.as_slice(), keep)
    }

    /// The widths of the words of the cells that are kept. `Err` is want of memory.
    pub fn persistent_widths(&self, keep: &[bool]) -> Result<Vec<u8>, AllocError>
        ensures { IfOk result (λ widths. widths.items ≡ pick (keep_mask (cells_of self.now.lines) keep.now) (state_widths (cells_of self.now.lines))) }
    {
        let mask = self.keep_mask(keep)?;
        knox_words::pick(self.alloc, mask.as_slice(), self.state_widths())
    }

    /// Room for one evaluation of this circuit. `Err` is want of memory.
    pub fn scratch(&self) -> Result<Scratch, AllocError>
        ensures { IfOk result (λ room. room ≡ sizes_of self.now.lines) }
    {
        let nodes = vec![in self.alloc; knox_words::zero(); self.lines.len()]?;
        let words = vec![in self.alloc; knox_words::zero(); self.made.plan.cells as usize]?;
        let places = vec![in self.alloc; 0u32; self.lines.len()]?;
        Ok(Scratch {
            nodes,
            words,
            places,
        })
    }

    /// The output words in line order, in a state under inputs.
    pub fn outputs(&self, s: &State, i: &Inputs, room: &mut Scratch, out: &mut [Word])
        requires room { room.old ≡ sizes_of self.now.lines }
        requires out { length out.old ≡ length (outputs_of self.now.lines) }
        ensures out { out.new ≡ output_words self.now.lines s.now.words i.now.words }
        ensures room { room.new ≡ room.old }
    {
        evaluation::outputs(
            &self.made.plan.logic,
            s.words.as_slice(),
            i.words.as_slice(),
            room.nodes.as_mut_slice(),
            out,
        );
    }

    /// The number of device words: the words of all cells.
    pub fn word_count(&self) -> usize
        ensures { result ≡ words_in (cells_of self.now.lines) }
    {
        self.made.plan.cells as usize
    }

    /// One clock edge: every cell takes the value of its `next` at once.
    pub fn tick(&self, s: &mut State, i: &Inputs, room: &mut Scratch)
        requires room { room.old ≡ sizes_of self.now.lines }
        requires state { length s.old.words ≡ words_in (cells_of self.now.lines) }
        ensures state { s.new.words ≡ state_after_tick self.now.lines s.old.words i.now.words }
        ensures count { length s.new.words ≡ words_in (cells_of self.now.lines) }
        ensures room { room.new ≡ room.old }
    {
        let mut words = std::mem::replace(&mut s.words, Words::new(self.alloc)).into_vec();
        evaluation::tick(
            &self.made.plan.logic,
            words.as_mut_slice(),
            i.words.as_slice(),
            room.nodes.as_mut_slice(),
            room.words.as_mut_slice(),
            room.places.as_mut_slice(),
        );
        s.words = Words::from_vec(words);
    }

    /// Whether a list of words has the widths of the device words.
    pub fn has_widths(&self, s: &State) -> bool
        ensures { result ≡ fit (state_widths (cells_of self.now.lines)) s.now.words }
    {
        knox_words::fits(self.state_widths(), s.words.as_slice())
    }

    /// Whether a list of words is one of device words: it has their widths, and each ROM word has
    /// its value.
    pub fn fits_state(&self, s: &State) -> bool
        ensures { result ≡ fits_state self.now.lines s.now.words }
    {
        if !self.has_widths(s) {
            return false;
        }
        rom::agree(self.roms(), s.words.as_slice())
    }

    /// The value of each device word that is a ROM word, and `None` for the others.
    pub fn roms(&self) -> &[Option<Word>]
        ensures { result.now ≡ rom_words self.now.lines }
    {
        self.made.roms.words.as_slice()
    }

    /// One truth value for each device word: whether it is no ROM word.
    pub fn free_mask(&self) -> &[bool]
        ensures { result.now ≡ free_mask (rom_words self.now.lines) }
    {
        self.made.roms.free.as_slice()
    }

    /// The value of a device word that is a ROM word, and `None` exactly where it isn't one.
    pub fn rom(&self, word: u32) -> Option<Word>
        requires { word < words_in (cells_of self.now.lines) }
        ensures { slice_get (rom_words self.now.lines) word ≡ Some result }
    {
        self.made.roms.words.as_slice()[word as usize]
    }

    /// Whether a list of words has the widths of the inputs.
    pub fn fits_inputs(&self, i: &Inputs) -> bool
        ensures { result ≡ fit (input_widths self.now.lines) i.now.words }
    {
        knox_words::fits(self.input_widths(), i.words.as_slice())
    }

    /// Whether noise words fit a factory.
    pub fn fits_factory(&self, n: &Noise) -> bool
        ensures { result ≡ fit (noise_widths self.now.lines []) n.now.words }
    {
        states::fits_noise(self.made.places.states.as_slice(), &[], n.words.as_slice())
    }

    /// Whether noise words fit a power-cycle that keeps some cells, with one truth value per cell.
    pub fn fits_noise(&self, keep: &[bool], n: &Noise) -> bool
        ensures { result ≡ fits_noise self.now.lines keep.now n.now.words }
    {
        if keep.len() != self.made.places.cells.len() {
            return false;
        }
        states::fits_noise(self.made.places.states.as_slice(), keep, n.words.as_slice())
    }

    /// Goes over the states whose words are noise words in a power-cycle that keeps some cells, in
    /// line order: bare states, and cells without `init` that aren't kept. `first` is the place of
    /// a state's first word among the noise words. The factory's are those where none is kept.
    pub fn noise_walk<'a>(&'a self, keep: &'a [bool]) -> NoiseCells<'a>
        ensures { result ≡ noise_cells self.now.lines keep.now }
    {
        NoiseCells::new(keep, self.made.places.states.as_slice())
    }

    /// The same states, as cells of their own. `Err` is want of memory.
    pub fn noise_cells(&self, keep: &[bool]) -> Result<Items<Cell>, AllocError>
        ensures { IfOk result (λ found. found ≡ noise_cells self.now.lines keep.now) }
    {
        noise_cells(self.alloc, self.made.places.states.as_slice(), keep)
    }

    /// The factory state: each cell gets the value of its `init` over the states built before it,
    /// or its noise words where it has none.
    pub fn factory(&self, n: &Noise) -> Result<State, AllocError>
        ensures words { IfOk result (λ s. s.words ≡ factory_state self.now.lines n.now.words) }
        ensures count { IfOk result (λ s. length s.words ≡ words_in (cells_of self.now.lines)) }
    {
        let words = evaluation::power(self.alloc, &self.made.plan, &[], &[], n.words.as_slice())?;
        Ok(State { words })
    }

    /// The state after a power-cycle that keeps some cells. Each of the others gets the value of
    /// its `init` over the states built before it, or its noise words where it has none.
    pub fn power(&self, keep: &[bool], s: &State, n: &Noise) -> Result<State, AllocError>
        requires keep { length keep.now ≡ length (cells_of self.now.lines) }
        requires state { length s.now.words ≡ words_in (cells_of self.now.lines) }
        ensures words { IfOk result (λ after. after.words ≡ state_after_power self.now.lines keep.now s.now.words n.now.words) }
        ensures count { IfOk result (λ after. length after.words ≡ words_in (cells_of self.now.lines)) }
    {
        let words = evaluation::power(
            self.alloc,
            &self.made.plan,
            keep,
            s.words.as_slice(),
            n.words.as_slice(),
        )?;
        Ok(State { words })
    }
}

/// The lines of a circuit break no rule, each after those before it.
pub(crate) fn ruled(c: &Circuit)
    ensures { AreRuled c.now.lines }
{
    let _made = &c.made;
}

/// Together they obey the rule of a whole circuit.
pub(crate) fn fed(c: &Circuit)
    ensures { unfed c.now.lines ≡ None }
{
    let _made = &c.made;
}
