//! Bodies: locals, statements, and a result where one is wanted.
ghost use Rattle.std.specs.Prelude.{◌≡◌, OnOk};
ghost use Rattle.expr_read.specs.Views.{Gives};
ghost use Rattle.lang_read.specs.Bodies.{empty_body, silent, silent_body, result_in, result_of, replying, replying_body, within};

use crate::statement::{Home, Steps, block};
use expr_read::{
    LangFault, LangWhy, Named, Typed, declare, expr_of_width, fault, forget, headed_count, locals,
    parts_of, place_of,
};
use knox_lang::{Body, Space};
use knox_sexpr::Tree;
use knox_text::Place;
use sqlite_items::Items;
use std::alloc::Global;

/// The greatest cost of a body that is no driver's, and of an expression that stands in no body.
pub(crate) const MOST_COST: u64 = 1_000_000;

/// The greatest cost of a driver's body.
pub(crate) const MOST_DRIVER_COST: u64 = 10_000_000;

pub(crate) fn empty_body(alloc: Global) -> Body
    ensures { result ≡ empty_body }
{
    Body {
        locals: Items::new(alloc),
        stmts: Items::new(alloc),
        result: None,
    }
}

/// The body of a list at the place, with these locals, if it isn't too dear.
fn silent(at: Place, locals: Items<(Items<u8>, u8)>, steps: Steps) -> Result<Body, LangFault>
    ensures { Gives result (silent at locals steps) }
{
    if steps.cost > MOST_COST {
        return Err(fault(at, LangWhy::Bound));
    }
    Ok(Body {
        locals,
        stmts: steps.stmts,
        result: None,
    })
}

/// The body of a list at the place, which has no result and sees these names.
pub(crate) fn silent_body(
    alloc: Global,
    home: &Home,
    at: Place,
    trees: &[Tree],
    names: Items<Named>,
) -> Result<Body, LangFault>
    ensures { Gives result (silent_body home.now names at trees.now) }
{
    let mut names = names;
    let count = headed_count(trees, b"local");
    let locals = locals(alloc, &trees[..count])?;
    declare(alloc, Space::Local, locals.as_slice(), &mut names)?;
    let steps = block(alloc, home, &trees[count..], names.as_slice())?;
    silent(at, locals, steps)
}

/// The expression of the parts of a result, whose list is at the place.
fn result_in(
    alloc: Global,
    at: Place,
    width: u8,
    names: &[Named],
    parts: &[Tree],
) -> Result<Typed, LangFault>
    ensures { Gives result (result_in at width names.now parts.now) }
{
    match parts {
        [_, e] => expr_of_width(alloc, e, width, names),
        _ => Err(fault(at, LangWhy::Form)),
    }
}

/// The expression of `(result e)`, of the width that is wanted.
fn result_of(alloc: Global, tree: &Tree, width: u8, names: &[Named]) -> Result<Typed, LangFault>
    ensures { Gives result (result_of tree.now width names.now) }
{
    let parts = parts_of(tree)?;
    result_in(alloc, place_of(tree), width, names, parts)
}

/// A body, and what it costs.
#[derive(Drop)]
pub(crate) struct Priced {
    pub(crate) body: Body,
    pub(crate) cost: u64,
}

fn replying(locals: Items<(Items<u8>, u8)>, steps: Steps, value: Typed) -> Priced
    ensures { result ≡ replying locals steps value }
{
    let cost = steps.cost.saturating_add(value.cost);
    let body = Body {
        locals,
        stmts: steps.stmts,
        result: Some(value.expr),
    };
    Priced { body, cost }
}

/// The body of a list at the place, if it isn't dearer than its limit.
pub(crate) fn within(most: u64, at: Place, priced: Priced) -> Result<Body, LangFault>
    ensures { Gives result (within most at priced) }
{
    if priced.cost > most {
        return Err(fault(at, LangWhy::Bound));
    }
    Ok(priced.body)
}

/// The body of a list whose last tree is its result, whatever it costs. It sees these names, which
/// are the same afterwards.
pub(crate) fn replying_body(
    alloc: Global,
    home: &Home,
    names: &mut Items<Named>,
    width: u8,
    trees: &[Tree],
    last: &Tree,
) -> Result<Priced, LangFault>
    ensures read { Gives result (replying_body home.now names.old width trees.now last.now) }
    ensures names { OnOk result (names.new ≡ names.old) }
{
    let outer = names.len();
    let count = headed_count(trees, b"local");
    let locals = locals(alloc, &trees[..count])?;
    declare(alloc, Space::Local, locals.as_slice(), names)?;
    let steps = block(alloc, home, &trees[count..], names.as_slice())?;
    let value = result_of(alloc, last, width, names.as_slice())?;
    forget(names, outer);
    Ok(replying(locals, steps, value))
}
