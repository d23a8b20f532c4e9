//! The fields of a specification or an emulator.
ghost use Rattle.std.specs.Prelude.{◌≡◌, IfOk};
ghost use Rattle.knox_lang.specs.declared.expr.Space.TheVariants.{Own};
ghost use Rattle.expr_read.specs.Views.{Gives};
ghost use Rattle.expr_read.specs.Names.{field_names};
ghost use Rattle.expr_read.specs.Fields.{is_field, started, word_field, field_in, field, fields_of};

use crate::faults::{LangFault, LangWhy, fault};
use crate::names::{Named, declare_fields};
use crate::views::{number_of, parts_of, place_of, symbol_of, width_of};
use knox_lang::{Field, Space};
use knox_sexpr::Tree;
use knox_text::Place;
use knox_words::{Word, Words};
use sqlite_items::Items;
use std::alloc::{AllocError, Global};

/// The greatest number of words of all fields.
const MOST_WORDS: usize = 65_536;

/// Fields in order, and their initial words.
#[derive(Drop)]
pub struct Fields {
    pub fields: Items<Field>,
    pub init: Words,
}

fn is_field(name: &[u8], fields: &[Field]) -> bool
    ensures { result ≡ is_field name.now fields.now }
{
    for field in fields {
        if field.name.as_slice() == name {
            return true;
        }
    }
    false
}

/// A field of one word, whose place is behind those of the fields before, and its initial word,
/// whose number is at the place.
fn started(
    alloc: Global,
    at: Place,
    known: &[Field],
    name: &[u8],
    width: u8,
    value: u128,
) -> Result<(Field, Word), LangFault>
    ensures { Gives result (started at known.now name.now width value) }
{
    let word = match Word::new(width, value) {
        Some(word) => word,
        None => return Err(fault(at, LangWhy::Width)),
    };
    let name = Items::from_slice(alloc, name)?;
    let first = match u32::try_from(known.len()) {
        Ok(first) => first,
        Err(_) => return Err(LangFault::from(AllocError)),
    };
    let field = Field {
        name,
        width,
        index: None,
        first,
    };
    Ok((field, word))
}

/// The field of a name, a width and a number.
fn word_field(
    alloc: Global,
    x: &Tree,
    w: &Tree,
    n: &Tree,
    known: &[Field],
) -> Result<(Field, Word), LangFault>
    ensures { Gives result (word_field known.now x.now w.now n.now) }
{
    let name = symbol_of(x)?;
    if is_field(name, known) {
        return Err(fault(place_of(x), LangWhy::Twice));
    }
    let width = width_of(w)?;
    let value = number_of(n)?;
    started(alloc, place_of(n), known, name, width, value)
}

/// The parts of a field whose list is at the place.
fn field_in(
    alloc: Global,
    at: Place,
    known: &[Field],
    parts: &[Tree],
) -> Result<(Field, Word), LangFault>
    ensures { Gives result (field_in at known.now parts.now) }
{
    match parts {
        [_, x, w, n] => {
            if known.len() >= MOST_WORDS {
                return Err(fault(at, LangWhy::Bound));
            }
            word_field(alloc, x, w, n, known)
        }
        _ => Err(fault(at, LangWhy::Form)),
    }
}

/// `(field x w n)`.
fn field(alloc: Global, tree: &Tree, known: &[Field]) -> Result<(Field, Word), LangFault>
    ensures { Gives result (field known.now tree.now) }
{
    let parts = parts_of(tree)?;
    field_in(alloc, place_of(tree), known, parts)
}

/// The fields of trees, each of which begins with `field`.
pub fn fields_of(alloc: Global, trees: &[Tree]) -> Result<Fields, LangFault>
    ensures { Gives result (fields_of trees.now) }
{
    let mut fields = Items::new(alloc);
    let mut init = Words::new(alloc);
    for tree in trees {
        let (field, word) = field(alloc, tree, fields.as_slice())?;
        fields.push(field)?;
        init.push(word)?;
    }
    Ok(Fields { fields, init })
}

/// The names of fields.
pub fn field_names(alloc: Global, fields: &[Field]) -> Result<Items<Named>, AllocError>
    ensures { IfOk result (λ names. names ≡ field_names Own fields.now) }
{
    let mut names = Items::new(alloc);
    declare_fields(alloc, Space::Own, fields, &mut names)?;
    Ok(names)
}
