//! Lines of BTOR2, as a text has them.

use knox_words::{Op1, Op2};
use sqlite_items::Items;

/// What a line says: its keyword with the numbers of its form, in the order of the text. A sort
/// is a line number; a node is one with the sign of the text, where `-` means the complement.
/// Digits are kept as bytes, with the leading `-` where the text has one.
#[derive(Debug, Drop)]
pub enum Shape {
    Bitvec(u32),
    Array(u32, u32),
    Const(u32, Items<u8>),
    Constd(u32, Items<u8>),
    Consth(u32, Items<u8>),
    Zero(u32),
    One(u32),
    Ones(u32),
    Input(u32),
    State(u32),
    Init(u32, i64, i64),
    Next(u32, i64, i64),
    Un(Op1, u32, i64),
    Bin(Op2, u32, i64, i64),
    Slice(u32, i64, u32, u32),
    Uext(u32, i64, u32),
    Sext(u32, i64, u32),
    Ite(u32, i64, i64, i64),
    Read(u32, i64, i64),
    Write(u32, i64, i64, i64),
    Output(i64),
    Bad(i64),
    Fair(i64),
    /// So many nodes, and the nodes.
    Justice(u32, Items<i64>),
}

/// A line: its number, the text line on which it stands, its shape, and its symbol, which is
/// empty where it has none.
#[derive(Debug, Drop)]
pub struct Line {
    pub number: u32,
    pub at: u32,
    pub shape: Shape,
    pub symbol: Items<u8>,
}
