//! The parts of the PIN store by their readers, and what a reader answers.
use example_texts::SPEC;
use knox_circuit::{BtorFault, Circuit};
use knox_lang::{DriverProgram, SpecProgram};
use knox_sexpr::{SexprFault, Tree};
use knox_text::Place;
use lang_read::{LangFault, LangWhy, read_driver, read_spec};
use sqlite_items::Items;
use std::alloc::{AllocError, Global};

/// What a reader answered: nothing is wrong, this is wrong at a line and a column, or the text was
/// never read.
#[derive(Clone, Copy, Debug, PartialEq, Eq)]
pub(crate) enum Read {
    Fine,
    Wrong(LangWhy, u32, u32),
    Never,
}

impl From<AllocError> for Read {
    fn from(_e: AllocError) -> Read {
        Read::Never
    }
}

impl From<BtorFault> for Read {
    fn from(_fault: BtorFault) -> Read {
        Read::Never
    }
}

impl From<SexprFault> for Read {
    fn from(_fault: SexprFault) -> Read {
        Read::Never
    }
}

impl From<LangFault> for Read {
    fn from(fault: LangFault) -> Read {
        Read::Wrong(fault.why, fault.place.line, fault.place.column)
    }
}

/// A text, and what is wrong with it.
pub(crate) type Row = (&'static [u8], Read);

/// The place of a text's end, where the text has no tree.
pub(crate) const END: Place = Place { line: 1, column: 1 };

/// The trees of a short text.
pub(crate) fn trees_of(alloc: Global, text: &[u8]) -> Result<Items<Tree>, Read> {
    if text.len() > 1000 {
        return Err(Read::Never);
    }
    Ok(knox_sexpr::read(alloc, text)?)
}

/// The circuit of a short text.
pub(crate) fn circuit_of(alloc: Global, text: &[u8]) -> Result<Circuit, Read> {
    if text.len() > 1000 {
        return Err(Read::Never);
    }
    Ok(btor_read::read_circuit(alloc, text)?)
}

/// The specification of the store.
pub(crate) fn spec_of(alloc: Global) -> Result<SpecProgram, Read> {
    let trees = trees_of(alloc, SPEC)?;
    Ok(read_spec(alloc, trees.as_slice(), END)?)
}

/// The driver of a short text for a circuit and a specification.
pub(crate) fn driver_of(
    alloc: Global,
    text: &[u8],
    circuit: &Circuit,
    spec: &SpecProgram,
) -> Result<DriverProgram, Read> {
    let trees = trees_of(alloc, text)?;
    Ok(read_driver(alloc, trees.as_slice(), END, circuit, spec)?)
}
