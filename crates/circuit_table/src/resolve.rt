//! What a line gives over the rows of the lines before it.
ghost use Rattle.std.specs.Prelude.{[], ◌≡◌, ◌<◌, length, true, OnOk, IfOk};
ghost use Rattle.std.specs.Str.Parse.{digits_value};
ghost use Rattle.knox_words.specs.Bits.{word_or};
ghost use Rattle.circuit_table.specs.declared.line.Shape.TheVariants as shape;
ghost use Rattle.circuit_table.specs.Constants.{is_unsigned, is_decimal};
ghost use Rattle.circuit_table.specs.Sorts.{is_sort};
ghost use Rattle.circuit_table.specs.Typed.{AreTyped};
ghost use Rattle.circuit_table.specs.Literals.{decimal};
ghost use Rattle.circuit_table.specs.Rows.{bind, operand, words, done, fed_by, typed, array_of, constant, itself, state, taken, fed_next, fed_init, is_equality, binary, choice, shown, bit, is_operand, is_bit, all_operands, justice, extended_by, shape_resolved, resolved};

use crate::table::{Operand, Table, Target};
use crate::{Line, Shape, Why, constants, literals, operators, row, sort};
use circuit_nodes::{Arg, Feed, Kind, Next, Node, Reach, Resolved, Row, SortOf};
use knox_words::{Op1, Op2, Word};

fn done(number: u32, kind: Kind, reach: Reach) -> Result<Resolved, Why>
    ensures { result ≡ done number kind reach }
{
    Ok(Resolved {
        row: Row {
            number,
            kind,
            reach,
            next: None,
            init: None,
        },
        feed: None,
    })
}

fn fed_by(number: u32, kind: Kind, feed: Feed) -> Result<Resolved, Why>
    ensures { result ≡ fed_by number kind feed }
{
    Ok(Resolved {
        row: Row {
            number,
            kind,
            reach: row::nothing(),
            next: None,
            init: None,
        },
        feed: Some(feed),
    })
}

/// A node whose sort has to be the one that its operands give.
fn typed(
    number: u32,
    sort: SortOf,
    given: Option<SortOf>,
    node: Node,
    reach: Reach,
) -> Result<Resolved, Why>
    ensures { result ≡ typed number sort given node reach }
{
    if !sort::are_one(Some(sort), given) {
        return Err(Why::Width);
    }
    done(number, Kind::Value(sort, node), reach)
}

fn array_of(index: SortOf, element: SortOf) -> Result<SortOf, Why>
    ensures { result ≡ array_of index element }
{
    match (index, element) {
        (SortOf::Words(i), SortOf::Words(e)) => {
            if sort::is_width_up_to(12, i) {
                Ok(SortOf::Arrays(i, e))
            } else {
                Err(Why::Sort)
            }
        }
        _ => Err(Why::Sort),
    }
}

/// A constant, where its digits obey their rule.
fn constant(number: u32, width: u8, fits: bool, word: Word) -> Result<Resolved, Why>
    ensures { result ≡ constant number width fits word }
{
    if !fits {
        return Err(Why::Digits);
    }
    let kind = Kind::Value(SortOf::Words(width), Node::Const(word));
    done(number, kind, row::nothing())
}

/// What an input or a state hangs on: itself.
fn itself(table: &Table, input: bool) -> Reach
    requires { length table.now < 1000000 }
    ensures { result ≡ itself table.now input }
{
    Reach {
        input,
        bound: table.len() as u32 + 1,
    }
}

#[tactic(auto, using(crate::proofs::SortsLemmas::limit_steps))]
fn state(table: &Table, number: u32, sort: SortOf) -> Result<Resolved, Why>
    requires few { length table.now < 1000000 }
    requires sort { is_sort sort ≡ true }
    ensures { result ≡ state table.now number sort }
{
    let reach = itself(table, false);
    match sort {
        SortOf::Words(width) => done(number, Kind::Value(sort, Node::State(0, width)), reach),
        SortOf::Arrays(index, width) => {
            let node = Node::Array {
                first: 0,
                words: 1u32 << index,
                width,
            };
            done(number, Kind::Value(sort, node), reach)
        }
    }
}

/// What a state of so many words gets from an operand.
fn taken(operand: Operand, words: u32) -> Next
    ensures { result ≡ taken operand words }
{
    if sort::is_arrays(operand.sort) {
        Next::Array {
            node: operand.arg.node,
            words,
        }
    } else {
        Next::Word(operand.arg)
    }
}

fn fed_next(number: u32, sort: SortOf, state: Target, value: Operand) -> Result<Resolved, Why>
    ensures { result ≡ fed_next number sort state value }
{
    let of_state = sort::are_one(Some(sort), Some(state.sort));
    let of_value = sort::are_one(Some(sort), Some(value.sort));
    if !(of_state && of_value) {
        return Err(Why::Sort);
    }
    if state.next {
        return Err(Why::Next);
    }
    fed_by(
        number,
        Kind::Fed(value.arg),
        Feed::Next(state.place, value.arg),
    )
}

fn fed_init(number: u32, sort: SortOf, state: Target, value: Operand) -> Result<Resolved, Why>
    ensures { result ≡ fed_init number sort state value }
{
    let of_state = sort::are_one(Some(sort), Some(state.sort));
    let of_value = sort::are_one(Some(sort), Some(value.sort));
    let of_words = sort::are_one(sort::element_of(sort), Some(value.sort));
    if !(of_state && (of_value || of_words)) {
        return Err(Why::Sort);
    }
    if state.init || value.reach.input || state.place < value.reach.bound {
        return Err(Why::Init);
    }
    fed_by(
        number,
        Kind::Other,
        Feed::Init(state.place, taken(value, state.words)),
    )
}

fn is_equality(operator: Op2) -> bool
    ensures { result ≡ is_equality operator }
{
    matches!(operator, Op2::Eq | Op2::Neq)
}

fn binary(number: u32, operator: Op2, sort: SortOf, a: Operand, b: Operand) -> Result<Resolved, Why>
    ensures { result ≡ binary number operator sort a b }
{
    if is_equality(operator) && sort::is_arrays(a.sort) && sort::is_arrays(b.sort) {
        return Err(Why::Unsupported);
    }
    let given = operators::bin_sort(operator, Some(a.sort), Some(b.sort));
    let node = Node::Bin(operator, a.arg, b.arg);
    typed(number, sort, given, node, row::joined(a.reach, b.reach))
}

/// A choice between two words, or two arrays.
fn choice(sort: SortOf, c: Arg, a: Arg, b: Arg) -> Node
    ensures { result ≡ choice sort c a b }
{
    if sort::is_arrays(sort) {
        Node::Pick(c, a.node, b.node)
    } else {
        Node::Ite(c, a, b)
    }
}

/// An output, which is a word.
fn shown(number: u32, arg: Arg, sort: SortOf) -> Result<Resolved, Why>
    ensures { result ≡ shown number arg sort }
{
    match sort {
        SortOf::Words(width) => done(number, Kind::Output(arg, width), row::nothing()),
        SortOf::Arrays(_, _) => Err(Why::Sort),
    }
}

/// A node that is a word of width 1.
fn bit(number: u32, kind: Kind, a: Operand) -> Result<Resolved, Why>
    ensures { result ≡ bit number kind a }
{
    if !sort::are_one(Some(a.sort), Some(SortOf::Words(1))) {
        return Err(Why::Width);
    }
    done(number, kind, row::nothing())
}

fn bitvec_row(number: u32, width: u32) -> Result<Resolved, Why>
    ensures { result ≡ shape_resolved [] number (shape.Bitvec width) }
{
    if width == 0 || width > 128 {
        return Err(Why::Sort);
    }
    done(
        number,
        Kind::Sort(SortOf::Words(width as u8)),
        row::nothing(),
    )
}

fn array_row(table: &Table, number: u32, index: u32, element: u32) -> Result<Resolved, Why>
    ensures { result ≡ shape_resolved table.now number (shape.Array index element) }
{
    let index = table.sort(index)?;
    let element = table.sort(element)?;
    let sort = array_of(index, element)?;
    done(number, Kind::Sort(sort), row::nothing())
}

fn const_row(table: &Table, number: u32, sort: u32, digits: &[u8]) -> Result<Resolved, Why>
    ensures { result ≡ bind (words table.now sort) (λ w. constant number w (is_unsigned 2 w digits.now) (word_or w (digits_value 2 digits.now))) }
{
    let width = table.words(sort)?;
    let fits = constants::is_unsigned(2, width, digits);
    constant(
        number,
        width,
        fits,
        literals::word_written(width, 2, digits),
    )
}

fn constd_row(table: &Table, number: u32, sort: u32, digits: &[u8]) -> Result<Resolved, Why>
    ensures { result ≡ bind (words table.now sort) (λ w. constant number w (is_decimal w digits.now) (decimal w digits.now)) }
{
    let width = table.words(sort)?;
    let fits = constants::is_decimal(width, digits);
    constant(number, width, fits, literals::decimal(width, digits))
}

fn consth_row(table: &Table, number: u32, sort: u32, digits: &[u8]) -> Result<Resolved, Why>
    ensures { result ≡ bind (words table.now sort) (λ w. constant number w (is_unsigned 16 w digits.now) (word_or w (digits_value 16 digits.now))) }
{
    let width = table.words(sort)?;
    let fits = constants::is_unsigned(16, width, digits);
    constant(
        number,
        width,
        fits,
        literals::word_written(width, 16, digits),
    )
}

/// A constant of a given value.
fn value_row(table: &Table, number: u32, sort: u32, value: u128) -> Result<Resolved, Why>
    ensures { result ≡ bind (words table.now sort) (λ w. constant number w true (word_or w value)) }
{
    let width = table.words(sort)?;
    constant(number, width, true, knox_words::word_or(width, value))
}

fn ones_row(table: &Table, number: u32, sort: u32) -> Result<Resolved, Why>
    ensures { result ≡ shape_resolved table.now number (shape.Ones sort) }
{
    let width = table.words(sort)?;
    constant(number, width, true, literals::ones(width))
}

fn input_row(table: &Table, number: u32, sort: u32) -> Result<Resolved, Why>
    requires { length table.now < 1000000 }
    ensures { result ≡ shape_resolved table.now number (shape.Input sort) }
{
    let width = table.words(sort)?;
    let kind = Kind::Value(SortOf::Words(width), Node::Input(table.inputs(), width));
    done(number, kind, itself(table, true))
}

fn state_row(table: &Table, number: u32, sort: u32) -> Result<Resolved, Why>
    requires { length table.now < 1000000 }
    ensures { result ≡ shape_resolved table.now number (shape.State sort) }
{
    let sort = table.sort(sort)?;
    state(table, number, sort)
}

fn init_row(
    table: &Table,
    number: u32,
    sort: u32,
    state: &i64,
    value: &i64,
) -> Result<Resolved, Why>
    ensures { result ≡ shape_resolved table.now number (shape.Init sort state.now value.now) }
{
    let state = table.target(*state)?;
    let value = table.operand(*value)?;
    let sort = table.sort(sort)?;
    fed_init(number, sort, state, value)
}

fn next_row(
    table: &Table,
    number: u32,
    sort: u32,
    state: &i64,
    value: &i64,
) -> Result<Resolved, Why>
    ensures { result ≡ shape_resolved table.now number (shape.Next sort state.now value.now) }
{
    let state = table.target(*state)?;
    let value = table.operand(*value)?;
    let sort = table.sort(sort)?;
    fed_next(number, sort, state, value)
}

fn un_row(table: &Table, number: u32, operator: Op1, sort: u32, a: &i64) -> Result<Resolved, Why>
    ensures { result ≡ shape_resolved table.now number (shape.Un operator sort a.now) }
{
    let a = table.operand(*a)?;
    let sort = table.sort(sort)?;
    let given = operators::un_sort(operator, Some(a.sort));
    typed(number, sort, given, Node::Un(operator, a.arg), a.reach)
}

fn bin_row(
    table: &Table,
    number: u32,
    operator: Op2,
    sort: u32,
    a: &i64,
    b: &i64,
) -> Result<Resolved, Why>
    ensures { result ≡ shape_resolved table.now number (shape.Bin operator sort a.now b.now) }
{
    let a = table.operand(*a)?;
    let b = table.operand(*b)?;
    let sort = table.sort(sort)?;
    binary(number, operator, sort, a, b)
}

fn slice_row(
    table: &Table,
    number: u32,
    sort: u32,
    a: &i64,
    high: u32,
    low_bit: u32,
) -> Result<Resolved, Why>
    ensures { result ≡ shape_resolved table.now number (shape.Slice sort a.now high low_bit) }
{
    let a = table.operand(*a)?;
    let sort = table.sort(sort)?;
    let given = operators::slice_sort(Some(a.sort), high, low_bit);
    typed(
        number,
        sort,
        given,
        Node::Slice(a.arg, high, low_bit),
        a.reach,
    )
}

fn uext_row(table: &Table, number: u32, sort: u32, a: &i64, more: u32) -> Result<Resolved, Why>
    ensures { result ≡ shape_resolved table.now number (shape.Uext sort a.now more) }
{
    let a = table.operand(*a)?;
    let sort = table.sort(sort)?;
    let given = operators::extended_sort(Some(a.sort), more);
    typed(number, sort, given, Node::Uext(a.arg, more), a.reach)
}

fn sext_row(table: &Table, number: u32, sort: u32, a: &i64, more: u32) -> Result<Resolved, Why>
    ensures { result ≡ shape_resolved table.now number (shape.Sext sort a.now more) }
{
    let a = table.operand(*a)?;
    let sort = table.sort(sort)?;
    let given = operators::extended_sort(Some(a.sort), more);
    typed(number, sort, given, Node::Sext(a.arg, more), a.reach)
}

fn ite_row(
    table: &Table,
    number: u32,
    sort: u32,
    c: &i64,
    a: &i64,
    b: &i64,
) -> Result<Resolved, Why>
    ensures { result ≡ shape_resolved table.now number (shape.Ite sort c.now a.now b.now) }
{
    let c = table.operand(*c)?;
    let a = table.operand(*a)?;
    let b = table.operand(*b)?;
    let sort = table.sort(sort)?;
    let given = operators::ite_sort(Some(c.sort), Some(a.sort), Some(b.sort));
    let reach = row::joined(row::joined(c.reach, a.reach), b.reach);
    typed(
        number,
        sort,
        given,
        choice(sort, c.arg, a.arg, b.arg),
        reach,
    )
}

fn read_row(table: &Table, number: u32, sort: u32, a: &i64, index: &i64) -> Result<Resolved, Why>
    ensures { result ≡ shape_resolved table.now number (shape.Read sort a.now index.now) }
{
    let a = table.operand(*a)?;
    let index = table.operand(*index)?;
    let sort = table.sort(sort)?;
    let given = operators::read_sort(Some(a.sort), Some(index.sort));
    let node = Node::Read(a.arg.node, index.arg);
    typed(number, sort, given, node, row::joined(a.reach, index.reach))
}

fn write_row(
    table: &Table,
    number: u32,
    sort: u32,
    a: &i64,
    index: &i64,
    word: &i64,
) -> Result<Resolved, Why>
    ensures { result ≡ shape_resolved table.now number (shape.Write sort a.now index.now word.now) }
{
    let a = table.operand(*a)?;
    let index = table.operand(*index)?;
    let word = table.operand(*word)?;
    let sort = table.sort(sort)?;
    let given = operators::write_sort(Some(a.sort), Some(index.sort), Some(word.sort));
    let node = Node::Write(a.arg.node, index.arg, word.arg);
    let reach = row::joined(row::joined(a.reach, index.reach), word.reach);
    typed(number, sort, given, node, reach)
}

fn output_row(table: &Table, number: u32, a: &i64) -> Result<Resolved, Why>
    ensures { result ≡ shape_resolved table.now number (shape.Output a.now) }
{
    let a = table.operand(*a)?;
    shown(number, a.arg, a.sort)
}

fn bad_row(table: &Table, number: u32, a: &i64) -> Result<Resolved, Why>
    ensures { result ≡ shape_resolved table.now number (shape.Bad a.now) }
{
    let a = table.operand(*a)?;
    bit(number, Kind::Bad(a.arg), a)
}

fn fair_row(table: &Table, number: u32, a: &i64) -> Result<Resolved, Why>
    ensures { result ≡ shape_resolved table.now number (shape.Fair a.now) }
{
    let a = table.operand(*a)?;
    bit(number, Kind::Other, a)
}

/// Whether an operand is a node.
fn is_node(table: &Table, a: &i64) -> bool
    ensures { result ≡ is_operand (operand table.now a.now) }
{
    table.operand(*a).is_ok()
}

/// Whether it is a node of width 1.
fn is_bit(table: &Table, a: &i64) -> bool
    ensures { result ≡ is_bit (operand table.now a.now) }
{
    match table.operand(*a) {
        Ok(a) => sort::are_one(Some(a.sort), Some(SortOf::Words(1))),
        Err(_) => false,
    }
}

fn are_nodes(table: &Table, operands: &[i64]) -> bool
    ensures { result ≡ all_operands is_operand table.now operands.now }
{
    let mut left = operands;
    while let Some((a, others)) = left.split_first() {
        if !is_node(table, a) {
            return false;
        }
        left = others;
    }
    true
}

fn are_bits(table: &Table, operands: &[i64]) -> bool
    ensures { result ≡ all_operands is_bit table.now operands.now }
{
    let mut left = operands;
    while let Some((a, others)) = left.split_first() {
        if !is_bit(table, a) {
            return false;
        }
        left = others;
    }
    true
}

/// Nodes of width 1, one or more and as many as the line says.
fn justice_row(table: &Table, number: u32, count: u32, operands: &[i64]) -> Result<Resolved, Why>
    ensures { result ≡ justice table.now number count operands.now }
{
    if count == 0 {
        return Err(Why::Operand);
    }
    if count as usize != operands.len() {
        return Err(Why::Operand);
    }
    if !are_nodes(table, operands) {
        return Err(Why::Operand);
    }
    if !are_bits(table, operands) {
        return Err(Why::Width);
    }
    done(number, Kind::Other, row::nothing())
}

/// What a line gives by what it says.
fn shape_resolved(table: &Table, number: u32, shape: &Shape) -> Result<Resolved, Why>
    requires { length table.now < 1000000 }
    ensures { result ≡ shape_resolved table.now number shape.now }
{
    match shape {
        Shape::Bitvec(width) => bitvec_row(number, *width),
        Shape::Array(index, element) => array_row(table, number, *index, *element),
        Shape::Const(sort, digits) => const_row(table, number, *sort, digits.as_slice()),
        Shape::Constd(sort, digits) => constd_row(table, number, *sort, digits.as_slice()),
        Shape::Consth(sort, digits) => consth_row(table, number, *sort, digits.as_slice()),
        Shape::Zero(sort) => value_row(table, number, *sort, 0),
        Shape::One(sort) => value_row(table, number, *sort, 1),
        Shape::Ones(sort) => ones_row(table, number, *sort),
        Shape::Input(sort) => input_row(table, number, *sort),
        Shape::State(sort) => state_row(table, number, *sort),
        Shape::Init(sort, state, value) => init_row(table, number, *sort, state, value),
        Shape::Next(sort, state, value) => next_row(table, number, *sort, state, value),
        Shape::Un(operator, sort, a) => un_row(table, number, *operator, *sort, a),
        Shape::Bin(operator, sort, a, b) => bin_row(table, number, *operator, *sort, a, b),
        Shape::Slice(sort, a, high, low_bit) => {
            slice_row(table, number, *sort, a, *high, *low_bit)
        }
        Shape::Uext(sort, a, more) => uext_row(table, number, *sort, a, *more),
        Shape::Sext(sort, a, more) => sext_row(table, number, *sort, a, *more),
        Shape::Ite(sort, c, a, b) => ite_row(table, number, *sort, c, a, b),
        Shape::Read(sort, a, index) => read_row(table, number, *sort, a, index),
        Shape::Write(sort, a, index, word) => write_row(table, number, *sort, a, index, word),
        Shape::Output(a) => output_row(table, number, a),
        Shape::Bad(a) => bad_row(table, number, a),
        Shape::Fair(a) => fair_row(table, number, a),
        Shape::Justice(count, operands) => justice_row(table, number, *count, operands.as_slice()),
    }
}

/// What a line gives after others, or the first rule that it breaks.
pub fn resolved(table: &Table, line: &Line) -> Result<Resolved, Why>
    ensures value { result ≡ resolved table.now line.now }
    ensures typed { IfOk result (λ d. AreTyped (extended_by table.now d)) }
    ensures few { OnOk result (length table.now < 1000000) }
{
    let _rows = table.as_slice();
    if line.at > 1000000 || table.len() >= 1000000 {
        return Err(Why::TooManyLines);
    }
    if line.number == 0 {
        return Err(Why::Number);
    }
    if line.number <= table.last_number() {
        return Err(Why::Order);
    }
    let made = shape_resolved(table, line.number, &line.shape)?;
    Ok(made)
}
