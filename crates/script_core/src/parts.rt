//! Scripts as data: sections and items, each with its hint number.
use knox_lang::Expr;
use knox_words::Words;
use sqlite_items::Items;

/// The number of a hint: its position, from 1, among the section forms and all items of a
/// script, in order of their opening parentheses.
#[derive(Clone, Copy, Debug, PartialEq, Eq)]
pub struct HintNo(pub u32);

/// The number of a segment, from 0, in order of the segments' hint numbers.
#[derive(Clone, Copy, Debug, PartialEq, Eq)]
pub struct SegmentNo(pub u32);

/// The words that a run of a segment takes, in order.
#[derive(Debug, Drop)]
pub struct Choices {
    pub words: Words,
}

/// What an item does.
#[derive(Drop)]
pub enum Act {
    /// So many ticks: each takes a word for each input, compares the outputs of circuit and
    /// emulator under them, ticks both, and checks `refine`.
    Step(u32),
    /// Checks its condition, and ends the segment. The items after it are the next segment's,
    /// whose root takes any words of which the condition holds.
    Cut(Expr),
    /// Checks the condition of the cut with this hint of the present state, and ends the segment.
    Subsume(HintNo),
}

/// An item with its hint number.
#[derive(Drop)]
pub struct Item {
    pub hint: HintNo,
    pub act: Act,
}

/// What a section is for.
#[derive(Clone, Copy, Debug, PartialEq, Eq)]
pub enum Kind {
    /// The device leaves the factory.
    Factory,
    /// A power-cycle, and the trusted host is attached.
    BootHost,
    /// Power may be cut between host calls.
    Rest,
    /// A tick between host calls, at idle inputs.
    Wait,
    /// A host call of the operation with this number.
    Call(u32),
    /// The adversary is attached: power-cycles, inputs that are set, outputs that are read, ticks.
    Wire,
}

/// What a segment begins with.
#[derive(Clone, Copy, Debug, PartialEq, Eq)]
pub(crate) enum Root {
    /// A section of this kind.
    OfKind(Kind),
    /// The cut of `wire`.
    OfCut,
}

/// A section of a script with its hint number.
#[derive(Drop)]
pub struct Section {
    pub hint: HintNo,
    pub kind: Kind,
    pub items: Items<Item>,
}

/// A script. `refine` relates the specification's fields and the persistent cells, and has to
/// hold whenever power may be cut. `idle` relates the fields and all cells, and has to hold between
/// host calls.
#[derive(Drop)]
pub struct ScriptParts {
    pub refine: Expr,
    pub idle: Expr,
    pub sections: Items<Section>,
}
