//! Nodes with their operands by place, and lines, resolved: one row for each.
use knox_words::{Op1, Op2, Word};

/// A node by its place, complemented bit by bit or not.
#[derive(Clone, Copy, Debug, PartialEq, Eq)]
pub struct Arg {
    pub node: u32,
    pub complement: bool,
}

/// What the node at a place gives, over the nodes before it: a constant, a word of the inputs or
/// of the state by its place there, an array whose words begin at a place of the state, so many (the
/// zero word stands at every index behind them), or an operator. Inputs and states have the width of
/// their words. `Pick` is `Ite` over two arrays; `Read` and `Write` take the place of an array.
#[derive(Clone, Copy, Debug, PartialEq, Eq)]
pub enum Node {
    Const(Word),
    Input(u32, u8),
    State(u32, u8),
    Array { first: u32, words: u32, width: u8 },
    Un(Op1, Arg),
    Bin(Op2, Arg, Arg),
    Slice(Arg, u32, u32),
    Uext(Arg, u32),
    Sext(Arg, u32),
    Ite(Arg, Arg, Arg),
    Pick(Arg, u32, u32),
    Read(u32, Arg),
    Write(u32, Arg, Arg),
}

/// What a state takes: the word of an operand at each of its places, or the first words of an array
/// node.
#[derive(Clone, Copy, Debug, PartialEq, Eq)]
pub enum Next {
    Word(Arg),
    Array { node: u32, words: u32 },
}

/// A state: the place of its node, where its words begin, how many it has and of which width, the
/// width of its indices where it is an array, and what its `next` and its `init` give. It is a cell
/// where it has a `next`.
#[derive(Clone, Copy, Debug, PartialEq, Eq)]
pub struct State {
    pub node: u32,
    pub first: u32,
    pub words: u32,
    pub width: u8,
    pub index: Option<u8>,
    pub next: Option<Arg>,
    pub init: Option<Next>,
}

/// What a sort is: words of a width, or arrays whose indices have one width and whose words have
/// another.
#[derive(Clone, Copy, Debug, PartialEq, Eq)]
pub enum SortOf {
    /// Words of this width.
    Words(u8),
    /// Arrays whose indices have the first width and whose words have the second.
    Arrays(u8, u8),
}

/// What a node hangs on: whether inputs are among it, and one above the greatest place of the states
/// and inputs.
#[derive(Clone, Copy, Debug, PartialEq, Eq)]
pub struct Reach {
    pub input: bool,
    pub bound: u32,
}

/// What a line is: a sort, a node of a sort, an output with its width, a `next` with its value, a
/// `bad` line, or a line of another kind.
#[derive(Clone, Copy, Debug, PartialEq, Eq)]
pub enum Kind {
    Sort(SortOf),
    Value(SortOf, Node),
    Output(Arg, u8),
    Fed(Arg),
    Bad(Arg),
    Other,
}

/// A line by its place: its number, what it is, what it hangs on, and what it takes as a state at a
/// tick and at a power-cycle.
#[derive(Clone, Copy, Debug, PartialEq, Eq)]
pub struct Row {
    pub number: u32,
    pub kind: Kind,
    pub reach: Reach,
    pub next: Option<Arg>,
    pub init: Option<Next>,
}

/// What a line says of the state at a place before it.
#[derive(Clone, Copy, Debug, PartialEq, Eq)]
pub enum Feed {
    Next(u32, Arg),
    Init(u32, Next),
}

/// What a line gives: a row, and what it says of a state before it.
#[derive(Clone, Copy, Debug, PartialEq, Eq)]
pub struct Resolved {
    pub row: Row,
    pub feed: Option<Feed>,
}
