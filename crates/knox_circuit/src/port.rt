//! The inputs, outputs and states of a circuit.
use sqlite_items::Items;

/// What lines with names are. Each kind has names of its own.
#[derive(Clone, Copy, Debug, PartialEq, Eq)]
pub enum Role {
    Input,
    Output,
    State,
}

/// An input or an output. Its name is its line's symbol; it is empty where the line has none or
/// the symbol begins with `@`. The first line of a kind with a symbol has it as its name.
#[derive(Debug, Drop)]
pub struct Port {
    pub name: Items<u8>,
    pub number: u32,
    pub width: u8,
}

/// A state: its name as a port's, the number of its line, the width of its words, the width of
/// its indices where it is an array, and the place of its first word.
#[derive(Debug, Drop)]
pub struct Cell {
    pub name: Items<u8>,
    pub number: u32,
    pub width: u8,
    pub index: Option<u8>,
    pub first: u32,
}

/// A state, where `first` is 0, and what is said of it: whether it is a cell, which has a `next`,
/// and whether it has an `init`.
#[derive(Debug, Drop)]
pub struct Stored {
    pub cell: Cell,
    pub is_cell: bool,
    pub has_init: bool,
}
