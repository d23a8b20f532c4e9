//! A table of lines, each resolved when it was added.
ghost use Rattle.std.specs.Prelude.{true, List, ◌==◌, if◌then◌else◌, ℕ, ◌≡◌, ◌≢◌, ◌+◌, ◌<◌, ◌≤◌, ◌++◌, [], ◌∷◌, length, slice_get, Some, None, Ok, Err, OnOk, OnErr, IfOk, IfErr, IfSome};
ghost use Rattle.std.specs.BTreeMap.{get};
ghost use Rattle.std.specs.Ordering.{nat_cmp};
ghost use Rattle.circuit_nodes.specs.declared.node.Row.{Row};
ghost use Rattle.circuit_table.specs.declared.fault.Why.TheVariants.{Memory};
ghost use Rattle.circuit_table.specs.Sorts.{is_sort};
ghost use Rattle.circuit_table.specs.Typed.{AreTyped};
ghost use Rattle.circuit_table.specs.Rows.{place_of, operand, sort, words, target, state_size, fed, with_next, with_init, extended_by, last_number, inputs_in, array_words, row_words, accepted, added};

use crate::{Line, Why, resolve, row, sort};
use circuit_nodes::{Arg, Feed, Kind, Next, Node, Reach, Resolved, Row, SortOf};
use sqlite_items::Items;
use std::alloc::{AllocError, Global};
use std::collections::BTreeMap;
use std::marker::Model;

/// An operand: the sort of its node, the node by its place with the operand's sign, and what it hangs
/// on.
#[derive(Clone, Copy, Debug, PartialEq, Eq)]
pub struct Operand {
    pub sort: SortOf,
    pub arg: Arg,
    pub reach: Reach,
}

/// A state of which a line speaks: its place and its sort, how many words it has, and whether it has a
/// `next` and an `init` already.
#[derive(Clone, Copy, Debug, PartialEq, Eq)]
pub struct Target {
    pub place: u32,
    pub sort: SortOf,
    pub words: u32,
    pub next: bool,
    pub init: bool,
}

/// Rows in the order of the text, and their places by number.
pub struct Table {
    rows: Items<Row>,
    places: BTreeMap<u64, u32>,
    inputs: u32,
    words: u32,
}

impl Drop for Table {
    fn drop(self) {
        let Table {
            rows: _rows,
            places: _places,
            inputs: _inputs,
            words: _words,
        } = self;
    }
}

impl Model for Table {
    ghost use Rattle.std.specs.Prelude.{ℕ, ◌≡◌, ◌≤◌, List, length};
    ghost use Rattle.std.specs.BTreeMap.{get};
    ghost use Rattle.std.specs.Ordering.{nat_cmp};
    ghost use Rattle.circuit_nodes.specs.declared.node.Row.{Row};
    ghost use Rattle.circuit_table.specs.Rows.{place_of, inputs_in, array_words};
    ghost use Rattle.circuit_table.specs.Typed.{AreTyped};

    ghost Value = { List Row };

    ghost view = { λ t. t.rows };

    ghost invariant = { λ t. ((q : ℕ) → get nat_cmp t.places q ≡ place_of t.rows q) × (t.inputs ≡ length (inputs_in t.rows)) × (t.words ≡ array_words t.rows) × (t.words ≤ 65536) × (length t.rows ≤ 1000000) × AreTyped t.rows };
}

/// Keeps what a line says of a state with the row of the state.
fn feed_row(rows: &mut Items<Row>, feed: &Option<Feed>)
    ensures { rows.new ≡ fed feed.now rows.old }
{
    match feed {
        None => {}
        Some(Feed::Next(place, value)) => set_next(rows, *place, value),
        Some(Feed::Init(place, value)) => set_init(rows, *place, value),
    }
}

fn set_next(rows: &mut Items<Row>, place: u32, value: &Arg)
    ensures { rows.new ≡ with_next place value.now (slice_get rows.old place) rows.old }
{
    let at = place as usize;
    if at < rows.len() {
        let mut row = rows.as_slice()[at];
        row.next = Some(*value);
        rows.set(at, row);
    }
}

fn set_init(rows: &mut Items<Row>, place: u32, value: &Next)
    ensures { rows.new ≡ with_init place value.now (slice_get rows.old place) rows.old }
{
    let at = place as usize;
    if at < rows.len() {
        let mut row = rows.as_slice()[at];
        row.init = Some(*value);
        rows.set(at, row);
    }
}

/// Adds a row at the end.
fn push_row(rows: &mut Items<Row>, row: &Row) -> Result<(), AllocError>
    ensures ok { OnOk result (rows.new ≡ rows.old ++ row.now ∷ []) }
    ensures err { OnErr result (rows.new ≡ rows.old) }
{
    rows.push(Row {
        number: row.number,
        kind: row.kind,
        reach: row.reach,
        next: row.next,
        init: row.init,
    })?;
    Ok(())
}

/// Takes the last row off again.
fn pop_row(rows: &mut Items<Row>)
    ensures { (before : List Row) (row : Row) → rows.old ≡ before ++ row ∷ [] → rows.new ≡ before }
{
    rows.pop();
}

/// Notes the place of a number.
fn put_place(places: &mut BTreeMap<u64, u32>, number: u64, place: u32) -> Result<(), AllocError>
    ensures ok { OnOk result ((q : ℕ) → get nat_cmp places.new q ≡ (if number == q then Some place else get nat_cmp places.old q)) }
    ensures err { OnErr result ((q : ℕ) → get nat_cmp places.new q ≡ get nat_cmp places.old q) }
{
    if places.insert(number, place).is_err() {
        return Err(AllocError);
    }
    Ok(())
}

/// Adds a row with its place, and keeps what its line says of a state.
fn put_row(
    rows: &mut Items<Row>,
    places: &mut BTreeMap<u64, u32>,
    resolved: &Resolved,
) -> Result<(), AllocError>
    requires { length rows.old < 1000000 }
    ensures rows { OnOk result (rows.new ≡ extended_by rows.old resolved.now) }
    ensures places { OnOk result ((q : ℕ) → get nat_cmp places.new q ≡ (if resolved.now.row.number == q then Some (length rows.old) else get nat_cmp places.old q)) }
    ensures err { OnErr result (rows.new ≡ rows.old) }
    ensures kept { OnErr result ((q : ℕ) → get nat_cmp places.new q ≡ get nat_cmp places.old q) }
{
    let place = rows.len() as u32;
    push_row(rows, &resolved.row)?;
    if put_place(places, u64::from(resolved.row.number), place).is_err() {
        pop_row(rows);
        return Err(AllocError);
    }
    feed_row(rows, &resolved.feed);
    Ok(())
}

/// How many words a node has as a state; none where it is no state.
fn state_size(node: &Node) -> Option<u32>
    ensures { result ≡ state_size node.now }
{
    match node {
        Node::State(_, _) => Some(1),
        Node::Array { words, .. } => Some(*words),
        _ => None,
    }
}

impl Table {
    /// No lines.
    pub fn new(alloc: Global) -> Table
        ensures { result ≡ [] }
    {
        Table {
            rows: Items::new(alloc),
            places: BTreeMap::new(alloc),
            inputs: 0,
            words: 0,
        }
    }

    /// The rows in the order of the text.
    pub fn as_slice(&self) -> &[Row]
        ensures value { result.now ≡ self.now }
        ensures few { length self.now ≤ 1000000 }
        ensures words { array_words self.now ≤ 65536 }
        ensures typed { AreTyped self.now }
    {
        self.rows.as_slice()
    }

    /// How many lines there are.
    pub fn len(&self) -> usize
        ensures value { result ≡ length self.now }
        ensures few { result ≤ 1000000 }
    {
        self.rows.len()
    }

    /// How many inputs there are.
    pub(crate) fn inputs(&self) -> u32
        ensures { result ≡ length (inputs_in self.now) }
    {
        self.inputs
    }

    /// The number of the last line, or 0.
    pub(crate) fn last_number(&self) -> u32
        ensures { result ≡ last_number self.now }
    {
        let rows = self.rows.as_slice();
        if rows.is_empty() {
            return 0;
        }
        rows[rows.len() - 1].number
    }

    /// The place of the line with a number.
    #[tactic(auto, using(crate::proofs::RowsLemmas::place_steps))]
    pub fn place(&self, number: u64) -> Option<u32>
        ensures value { result ≡ place_of self.now number }
        ensures within { IfSome result (λ p. p < length self.now) }
    {
        self.places.get(&number).copied()
    }

    fn row(&self, place: u32) -> &Row
        requires { place < length self.now }
        ensures value { slice_get self.now place ≡ Some result.now }
        ensures typed { AreTyped self.now }
    {
        &self.rows.as_slice()[place as usize]
    }

    /// An operand by its number.
    pub(crate) fn operand(&self, a: i64) -> Result<Operand, Why>
        ensures { result ≡ operand self.now a }
    {
        let Some(place) = self.place(a.unsigned_abs()) else {
            return Err(Why::Operand);
        };
        let row = self.row(place);
        match &row.kind {
            Kind::Value(sort, _) => {
                let complement = a < 0;
                if complement && sort::is_arrays(*sort) {
                    return Err(Why::Operand);
                }
                Ok(Operand {
                    sort: *sort,
                    arg: Arg {
                        node: place,
                        complement,
                    },
                    reach: row.reach,
                })
            }
            _ => Err(Why::Operand),
        }
    }

    /// A sort by the number of its line.
    #[tactic(auto, using(crate::proofs::TypedLemmas::sort_steps))]
    pub(crate) fn sort(&self, number: u32) -> Result<SortOf, Why>
        ensures value { result ≡ sort self.now number }
        ensures limits { IfOk result (λ t. is_sort t ≡ true) }
    {
        let Some(place) = self.place(u64::from(number)) else {
            return Err(Why::Sort);
        };
        match &self.row(place).kind {
            Kind::Sort(sort) => Ok(*sort),
            _ => Err(Why::Sort),
        }
    }

    /// The width of a sort of words.
    #[tactic(auto, using(crate::proofs::SortsLemmas::limit_steps))]
    pub(crate) fn words(&self, number: u32) -> Result<u8, Why>
        ensures value { result ≡ words self.now number }
        ensures narrow { IfOk result (λ w. w ≤ 128) }
    {
        match self.sort(number)? {
            SortOf::Words(width) => Ok(width),
            SortOf::Arrays(_, _) => Err(Why::Sort),
        }
    }

    /// A state that a line names.
    pub(crate) fn target(&self, a: i64) -> Result<Target, Why>
        ensures { result ≡ target self.now a }
    {
        if a < 0 {
            return Err(Why::Operand);
        }
        let Some(place) = self.place(a.unsigned_abs()) else {
            return Err(Why::Operand);
        };
        let row = self.row(place);
        match &row.kind {
            Kind::Value(sort, node) => {
                let Some(words) = state_size(node) else {
                    return Err(Why::Operand);
                };
                Ok(Target {
                    place,
                    sort: *sort,
                    words,
                    next: row.next.is_some(),
                    init: row.init.is_some(),
                })
            }
            _ => Err(Why::Operand),
        }
    }

    /// Adds a row, and keeps what its line says of a state.
    fn put(&mut self, resolved: &Resolved) -> Result<(), AllocError>
        requires few { length self.old < 1000000 }
        requires words { array_words self.old + row_words resolved.now.row ≤ 65536 }
        requires typed { AreTyped (extended_by self.old resolved.now) }
        ensures ok { OnOk result (self.new ≡ extended_by self.old resolved.now) }
        ensures err { OnErr result (self.new ≡ self.old) }
    {
        let inputs = self.inputs + row::row_inputs(&resolved.row);
        let words = self.words + row::row_words(&resolved.row);
        put_row(&mut self.rows, &mut self.places, resolved)?;
        self.inputs = inputs;
        self.words = words;
        Ok(())
    }

    /// Adds what a line gave, unless it has too many words of arrays.
    fn accept(&mut self, resolved: &Resolved) -> Result<(), Why>
        requires few { length self.old < 1000000 }
        requires typed { AreTyped (extended_by self.old resolved.now) }
        ensures ok { OnOk result (accepted self.old resolved.now ≡ Ok self.new) }
        ensures err { OnErr result (self.new ≡ self.old) }
        ensures refused { IfErr result (λ why. why ≢ Memory → accepted self.old resolved.now ≡ Err why) }
    {
        let words = u64::from(self.words) + u64::from(row::row_words(&resolved.row));
        if words > 65536 {
            return Err(Why::TooManyWords);
        }
        self.put(resolved)?;
        Ok(())
    }

    /// Adds a line after the lines so far, or tells the first rule that it breaks. A refused line
    /// leaves the table as it was.
    pub fn add(&mut self, line: &Line) -> Result<(), Why>
        ensures ok { OnOk result (added self.old line.now ≡ Ok self.new) }
        ensures err { OnErr result (self.new ≡ self.old) }
        ensures refused { IfErr result (λ why. why ≢ Memory → added self.old line.now ≡ Err why) }
    {
        match resolve::resolved(self, line) {
            Err(why) => Err(why),
            Ok(resolved) => self.accept(&resolved),
        }
    }
}
