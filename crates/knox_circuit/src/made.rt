//! What a circuit keeps of its lines, made once.
ghost use Rattle.std.specs.Prelude.{◌≡◌, ◌≤◌, ◌+◌, length, IfOk};
ghost use Rattle.circuit_table.specs.Rows.{rows_of, array_words};
ghost use Rattle.circuit_nodes.specs.Logic.{IsLogic};
ghost use Rattle.knox_circuit.specs.Cells.{all_words, cell_mask, bare_mask, chosen};
ghost use Rattle.knox_circuit.specs.Parts.{cell_words, bare_words, outputs_of, nexts_of, parts_of};
ghost use Rattle.knox_circuit.specs.Rom.{roms_among, free_mask};
ghost use Rattle.knox_circuit.specs.Made.{IsTables, IsPlaces, IsPlan, IsMade};

use crate::port::{Cell, Port, Stored};
use crate::{parts, rom, states, tables};
use circuit_nodes::{Logic, Node, Row, State};
use circuit_table::Line;
use knox_words::Word;
use sqlite_items::Items;
use std::alloc::{AllocError, Global};

/// The inputs and outputs, and the widths of their words.
pub struct Tables {
    pub inputs: Items<Port>,
    pub outputs: Items<Port>,
    pub input_widths: Vec<u8>,
    pub output_widths: Vec<u8>,
}

impl Drop for Tables {
    fn drop(self) {
        let Tables {
            inputs: _inputs,
            outputs: _outputs,
            input_widths: _input_widths,
            output_widths: _output_widths,
        } = self;
    }
}

/// All states, the cells and the bare states, and the widths of the device words.
pub struct Places {
    pub states: Items<Stored>,
    pub cells: Items<Cell>,
    pub bares: Items<Cell>,
    pub widths: Vec<u8>,
}

impl Drop for Places {
    fn drop(self) {
        let Places {
            states: _states,
            cells: _cells,
            bares: _bares,
            widths: _widths,
        } = self;
    }
}

/// What is evaluated: the nodes and states, the nodes on which outputs and ticks hang, how many
/// device words there are, and the widths of the words of all states.
pub struct Plan {
    pub nodes: Items<Node>,
    pub states: Items<State>,
    pub logic: Logic,
    pub cells: u32,
    pub widths: Vec<u8>,
}

impl Drop for Plan {
    fn drop(self) {
        let Plan {
            nodes: _nodes,
            states: _states,
            logic: _logic,
            cells: _cells,
            widths: _widths,
        } = self;
    }
}

/// ROM words by place, and which words are none.
pub struct Roms {
    pub words: Vec<Option<Word>>,
    pub free: Vec<bool>,
}

impl Drop for Roms {
    fn drop(self) {
        let Roms {
            words: _words,
            free: _free,
        } = self;
    }
}

/// All that is kept of lines.
pub struct Made {
    pub tables: Tables,
    pub places: Places,
    pub plan: Plan,
    pub roms: Roms,
}

impl Drop for Made {
    fn drop(self) {
        let Made {
            tables: _tables,
            places: _places,
            plan: _plan,
            roms: _roms,
        } = self;
    }
}

/// The inputs and outputs of lines.
fn tables_of(alloc: Global, lines: &[Line], rows: &[Row]) -> Result<Tables, AllocError>
    requires { rows.now ≡ rows_of lines.now }
    ensures { IfOk result (λ made. IsTables lines.now made) }
{
    let inputs = tables::inputs(alloc, lines, rows)?;
    let outputs = tables::outputs(alloc, lines, rows)?;
    let input_widths = tables::port_widths(alloc, inputs.as_slice())?;
    let output_widths = tables::port_widths(alloc, outputs.as_slice())?;
    Ok(Tables {
        inputs,
        outputs,
        input_widths,
        output_widths,
    })
}

fn cells_of(alloc: Global, states: &[Stored]) -> Result<Items<Cell>, AllocError>
    requires { all_words states.now ≤ 2000000 }
    ensures { IfOk result (λ cells. cells ≡ chosen (cell_mask states.now) states.now) }
{
    let mask = states::cell_mask(alloc, states)?;
    states::chosen(alloc, mask.as_slice(), states)
}

fn bares_of(alloc: Global, states: &[Stored]) -> Result<Items<Cell>, AllocError>
    requires { all_words states.now ≤ 2000000 }
    ensures { IfOk result (λ cells. cells ≡ chosen (bare_mask states.now) states.now) }
{
    let mask = states::bare_mask(alloc, states)?;
    states::chosen(alloc, mask.as_slice(), states)
}

/// The states of lines.
#[tactic(auto, using(crate::proofs::StatesLemmas::few_steps))]
fn places_of(alloc: Global, lines: &[Line], rows: &[Row]) -> Result<Places, AllocError>
    requires { rows.now ≡ rows_of lines.now }
    ensures { IfOk result (λ made. IsPlaces lines.now made) }
{
    let states = tables::states(alloc, lines, rows)?;
    let cells = cells_of(alloc, states.as_slice())?;
    let bares = bares_of(alloc, states.as_slice())?;
    let widths = states::state_widths(alloc, cells.as_slice())?;
    Ok(Places {
        states,
        cells,
        bares,
        widths,
    })
}

/// The states of rows have few words.
#[tactic(auto, using(crate::proofs::PartsLemmas::size_steps))]
fn are_few(rows: &[Row])
    requires few { length rows.now ≤ 1000000 }
    requires words { array_words rows.now ≤ 65536 }
    ensures { cell_words rows.now + bare_words rows.now ≤ 2000000 }
{
    let _rows = rows;
}

/// The nodes of rows on which outputs and ticks hang.
fn logic_of(alloc: Global, nodes: &[Node], rows: &[Row]) -> Result<Logic, AllocError>
    ensures { IfOk result (λ made. IsLogic made nodes.now (outputs_of rows.now) (nexts_of rows.now)) }
{
    let outputs = parts::outputs_of(alloc, rows)?;
    let nexts = parts::nexts_of(alloc, rows)?;
    circuit_nodes::logic_of(alloc, nodes, outputs.as_slice(), nexts.as_slice())
}

/// What is evaluated of rows.
fn plan_of(alloc: Global, rows: &[Row]) -> Result<Plan, AllocError>
    requires few { length rows.now ≤ 1000000 }
    requires words { array_words rows.now ≤ 65536 }
    ensures { IfOk result (λ made. IsPlan (parts_of rows.now) made) }
{
    are_few(rows);
    let cells = parts::cell_words(rows);
    let nodes = parts::nodes_from(alloc, 0, cells, rows)?;
    let states = parts::states_from(alloc, 0, cells, rows)?;
    let logic = logic_of(alloc, nodes.as_slice(), rows)?;
    let widths = parts::all_widths(alloc, states.as_slice())?;
    Ok(Plan {
        nodes,
        states,
        logic,
        cells,
        widths,
    })
}

/// ROM words.
fn roms_of(alloc: Global, plan: &Plan) -> Result<Roms, AllocError>
    ensures words { IfOk result (λ made. made.words.items ≡ roms_among plan.now.cells plan.now.nodes plan.now.states) }
    ensures free { IfOk result (λ made. made.free.items ≡ free_mask (roms_among plan.now.cells plan.now.nodes plan.now.states)) }
{
    let words = rom::roms_among(
        alloc,
        plan.cells,
        plan.nodes.as_slice(),
        plan.states.as_slice(),
    )?;
    let free = rom::free_mask(alloc, words.as_slice())?;
    Ok(Roms { words, free })
}

/// All that is kept of lines, with their rows.
pub(crate) fn made_of(alloc: Global, lines: &[Line], rows: &[Row]) -> Result<Made, AllocError>
    requires rows { rows.now ≡ rows_of lines.now }
    requires few { length rows.now ≤ 1000000 }
    requires words { array_words rows.now ≤ 65536 }
    ensures { IfOk result (λ made. IsMade lines.now made) }
{
    let tables = tables_of(alloc, lines, rows)?;
    let places = places_of(alloc, lines, rows)?;
    let plan = plan_of(alloc, rows)?;
    let roms = roms_of(alloc, &plan)?;
    Ok(Made {
        tables,
        places,
        plan,
        roms,
    })
}
