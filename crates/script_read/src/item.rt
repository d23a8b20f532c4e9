//! Conditions and forms: `(refine e)` and `(idle e)`, and `(wire (cut A e) (step 1) (subsume A))`.
ghost use Rattle.expr_read.specs.Views.{Gives, Sees};
ghost use Rattle.script_read.specs.Scripts.{limited, condition, sole, operand, stated, cut_in, cut, one_tick, step, leads_to, subsume, wire_in, wire};

use expr_read::{
    LangFault, LangWhy, Named, Typed, behind_head, expr_of_width, fault, number_of, place_of,
    symbol_of,
};
use knox_lang::Expr;
use knox_sexpr::Tree;
use knox_text::Place;
use std::alloc::Global;

/// The greatest cost of an expression that stands in no body.
const MOST_COST: u64 = 1_000_000;

/// An expression at the place whose cost is within the limit.
fn limited(at: Place, value: Typed) -> Result<Expr, LangFault>
    ensures { Gives result (limited at value) }
{
    if value.cost <= MOST_COST {
        Ok(value.expr)
    } else {
        Err(fault(at, LangWhy::Bound))
    }
}

/// A condition: an expression of width 1 over some names.
fn condition(alloc: Global, tree: &Tree, names: &[Named]) -> Result<Expr, LangFault>
    ensures { Gives result (condition names.now tree.now) }
{
    let value = expr_of_width(alloc, tree, 1, names)?;
    limited(place_of(tree), value)
}

/// The only one of some trees, whose list is at the place.
fn sole(at: Place, parts: &[Tree]) -> Result<&Tree, LangFault>
    ensures { Sees (λ x. x.now) result (sole at parts.now) }
{
    match parts {
        [x] => Ok(x),
        _ => Err(fault(at, LangWhy::Form)),
    }
}

/// What stands alone behind the word that a list has to begin with.
pub(crate) fn operand<'a>(tree: &'a Tree, word: &[u8]) -> Result<&'a Tree, LangFault>
    ensures { Sees (λ x. x.now) result (operand word.now tree.now) }
{
    let parts = behind_head(tree, word)?;
    sole(place_of(tree), parts)
}

/// The condition of `(refine e)` or `(idle e)`, by the form's word, where it isn't known yet.
pub(crate) fn stated(
    alloc: Global,
    known: bool,
    tree: &Tree,
    word: &[u8],
    names: &[Named],
) -> Result<Expr, LangFault>
    ensures { Gives result (stated known word.now names.now tree.now) }
{
    if known {
        return Err(fault(place_of(tree), LangWhy::Form));
    }
    let e = operand(tree, word)?;
    condition(alloc, e, names)
}

/// The name and the condition of a cut, whose list is at the place.
fn cut_in<'a>(
    alloc: Global,
    at: Place,
    parts: &'a [Tree],
    names: &[Named],
) -> Result<(&'a [u8], Expr), LangFault>
    ensures { Sees (λ x. (x.0.now, x.1)) result (cut_in names.now at parts.now) }
{
    match parts {
        [name, e] => {
            let name = symbol_of(name)?;
            let condition = condition(alloc, e, names)?;
            Ok((name, condition))
        }
        _ => Err(fault(at, LangWhy::Form)),
    }
}

/// `(cut A e)`: the name and the condition.
fn cut<'a>(alloc: Global, tree: &'a Tree, names: &[Named]) -> Result<(&'a [u8], Expr), LangFault>
    ensures { Sees (λ x. (x.0.now, x.1)) result (cut names.now tree.now) }
{
    let parts = behind_head(tree, b"cut")?;
    cut_in(alloc, place_of(tree), parts, names)
}

/// The number of ticks of a step, which is 1.
fn one_tick(count: &Tree) -> Result<(), LangFault>
    ensures { Gives result (one_tick count.now) }
{
    if number_of(count)? == 1 {
        Ok(())
    } else {
        Err(fault(place_of(count), LangWhy::Bound))
    }
}

/// `(step 1)`.
fn step(tree: &Tree) -> Result<(), LangFault>
    ensures { Gives result (step tree.now) }
{
    let count = operand(tree, b"step")?;
    one_tick(count)
}

/// The name to which a subsume leads, which is the cut's.
fn leads_to(name: &Tree, cut: &[u8]) -> Result<(), LangFault>
    ensures { Gives result (leads_to cut.now name.now) }
{
    if symbol_of(name)? == cut {
        Ok(())
    } else {
        Err(fault(place_of(name), LangWhy::UnknownName))
    }
}

/// `(subsume A)` of the cut's name.
fn subsume(tree: &Tree, cut: &[u8]) -> Result<(), LangFault>
    ensures { Gives result (subsume cut.now tree.now) }
{
    let name = operand(tree, b"subsume")?;
    leads_to(name, cut)
}

/// The condition of the cut of a `wire` form, whose list is at the place.
fn wire_in(alloc: Global, at: Place, parts: &[Tree], names: &[Named]) -> Result<Expr, LangFault>
    ensures { Gives result (wire_in names.now at parts.now) }
{
    match parts {
        [first, second, third] => {
            let (name, condition) = cut(alloc, first, names)?;
            step(second)?;
            subsume(third, name)?;
            Ok(condition)
        }
        _ => Err(fault(at, LangWhy::Form)),
    }
}

/// `(wire (cut A e) (step 1) (subsume A))`: the condition of the cut.
pub(crate) fn wire(alloc: Global, tree: &Tree, names: &[Named]) -> Result<Expr, LangFault>
    ensures { Gives result (wire names.now tree.now) }
{
    let parts = behind_head(tree, b"wire")?;
    wire_in(alloc, place_of(tree), parts, names)
}
