//! Expressions: one small function for each shape of operands.
ghost use Rattle.std.specs.Prelude.{◌≡◌, map, Result, Ok};
ghost use Rattle.knox_lang.specs.declared.expr.Expr.TheVariants as exprs;
ghost use Rattle.expr_read.specs.declared.faults.LangFault.{LangFault};
ghost use Rattle.expr_read.specs.declared.expression.Typed.{Typed};
ghost use Rattle.expr_read.specs.Views.{Gives};
ghost use Rattle.expr_read.specs.Expressions.{Part, part, dearer, word, literal, named, un_of, bin_of, ite_of, slice_of, longer, longer_of, numbers, sliced, extended_by, one, second, two, third, three, bv_word, bv, named_symbol, named_by_form, form, keyword, head_of, applied, list, expr_of, expr_of_width};

use crate::faults::{LangFault, LangWhy, fault};
use crate::names::{Group, Named, find};
use crate::views::{MOST_WIDTH, is_width, number_of, place_of, symbol_of, width_of};
use knox_lang::Expr;
use knox_sexpr::Tree;
use knox_text::Place;
use knox_words::{Op1, Op2, Word, ite_typed, op1_width, op2_typed};
use operator_names::{op1_named, op2_named};
use sqlite_items::Boxed;
use std::alloc::Global;

/// An expression, its width, and its cost.
#[derive(Drop)]
pub struct Typed {
    pub expr: Expr,
    pub width: u8,
    pub cost: u64,
}

/// What the bits are that a word gets in front.
#[derive(Clone, Copy, Debug, PartialEq, Eq)]
enum Extension {
    Zeros,
    Signs,
}

/// What a list begins with.
#[derive(Clone, Copy, Debug, PartialEq, Eq)]
enum Head {
    Un(Op1),
    Bin(Op2),
    Ite,
    /// Some bits of a word.
    Slice,
    /// A word in more bits.
    Longer(Extension),
    Bv,
    /// A form that names a word of the circuit.
    Names(Group),
    /// A symbol that begins no expression.
    Unknown,
    /// No symbol.
    NoSymbol,
}

fn keyword(name: &[u8]) -> Head
    ensures { result ≡ keyword name.now }
{
    if let Some(op) = op1_named(name) {
        return Head::Un(op);
    }
    if let Some(op) = op2_named(name) {
        return Head::Bin(op);
    }
    form(name)
}

/// The form that is no operator on words.
fn form(name: &[u8]) -> Head
    ensures { result ≡ form name.now }
{
    if name == b"ite".as_slice() {
        Head::Ite
    } else if name == b"slice".as_slice() {
        Head::Slice
    } else if name == b"uext".as_slice() {
        Head::Longer(Extension::Zeros)
    } else if name == b"sext".as_slice() {
        Head::Longer(Extension::Signs)
    } else if name == b"bv".as_slice() {
        Head::Bv
    } else if name == b"in".as_slice() {
        Head::Names(Group::Input)
    } else if name == b"out".as_slice() {
        Head::Names(Group::Output)
    } else if name == b"noise".as_slice() {
        Head::Names(Group::Noise)
    } else if name == b"s".as_slice() {
        Head::Names(Group::Spec)
    } else if name == b"c".as_slice() {
        Head::Names(Group::Device)
    } else if name == b"e".as_slice() {
        Head::Names(Group::Emu)
    } else if name == b"k".as_slice() {
        Head::Names(Group::Copy)
    } else {
        Head::Unknown
    }
}

fn head_of(tree: &Tree) -> Head
    ensures { result ≡ head_of tree.now }
{
    match tree {
        Tree::Atom(_, name) => keyword(name.as_slice()),
        Tree::Number(_, _, _) => Head::NoSymbol,
        Tree::List(_, _, _) => Head::NoSymbol,
    }
}

fn word(at: Place, width: u8, value: u128) -> Result<Typed, LangFault>
    ensures { Gives result (word at width value) }
{
    match Word::new(width, value) {
        Some(word) => Ok(Typed {
            expr: Expr::Lit(word),
            width,
            cost: 1,
        }),
        None => Err(fault(at, LangWhy::Width)),
    }
}

/// A number that is written with its width.
fn literal(at: Place, width: u8, value: u128) -> Result<Typed, LangFault>
    ensures { Gives result (literal at width value) }
{
    if width == 0 {
        return Err(fault(at, LangWhy::Form));
    }
    if !is_width(u128::from(width)) {
        return Err(fault(at, LangWhy::Width));
    }
    word(at, width, value)
}

/// A word of a width.
fn bv_word(width: &Tree, number: &Tree) -> Result<Typed, LangFault>
    ensures { Gives result (bv_word width.now number.now) }
{
    let w = width_of(width)?;
    let n = number_of(number)?;
    word(place_of(number), w, n)
}

/// `(bv w n)`.
fn bv(at: Place, parts: &[Tree]) -> Result<Typed, LangFault>
    ensures { Gives result (bv at (map part parts.now)) }
{
    match parts {
        [width, number] => bv_word(width, number),
        _ => Err(fault(at, LangWhy::Form)),
    }
}

fn named(at: Place, group: Group, name: &[u8], names: &[Named]) -> Result<Typed, LangFault>
    ensures { Gives result (named at group name.now names.now) }
{
    match find(group, name, names) {
        Some(seen) => Ok(Typed {
            expr: Expr::Name(seen.slot),
            width: seen.width,
            cost: 1,
        }),
        None => Err(fault(at, LangWhy::UnknownName)),
    }
}

/// The word of a group that a tree names.
fn named_symbol(group: Group, tree: &Tree, names: &[Named]) -> Result<Typed, LangFault>
    ensures { Gives result (named_symbol group tree.now names.now) }
{
    let name = symbol_of(tree)?;
    named(place_of(tree), group, name, names)
}

/// `(in x)` and its like.
fn named_by_form(
    at: Place,
    group: Group,
    parts: &[Tree],
    names: &[Named],
) -> Result<Typed, LangFault>
    ensures { Gives result (named_by_form at group (map part parts.now) names.now) }
{
    match parts {
        [x] => named_symbol(group, x, names),
        _ => Err(fault(at, LangWhy::Form)),
    }
}

fn un_of(alloc: Global, op: Op1, x: Typed) -> Result<Typed, LangFault>
    ensures { Gives result (Ok (un_of op x)) }
{
    Ok(Typed {
        width: op1_width(op, x.width),
        cost: x.cost.saturating_add(1),
        expr: Expr::Un(op, Boxed::new(alloc, x.expr)?),
    })
}

/// An operator on two operands, where it takes words of their widths.
fn bin_of(alloc: Global, at: Place, op: Op2, x: Typed, y: Typed) -> Result<Typed, LangFault>
    ensures { Gives result (bin_of at op (x, y)) }
{
    let Some(width) = op2_typed(op, x.width, y.width) else {
        return Err(fault(at, LangWhy::Width));
    };
    let cost = x.cost.saturating_add(y.cost).saturating_add(1);
    let (x, y) = boxed(alloc, x.expr, y.expr)?;
    Ok(Typed {
        expr: Expr::Bin(op, x, y),
        width,
        cost,
    })
}

/// A choice by the first of three operands between the others, where their widths allow one.
fn ite_of(alloc: Global, at: Place, c: Typed, x: Typed, y: Typed) -> Result<Typed, LangFault>
    ensures { Gives result (ite_of at (c, x, y)) }
{
    let Some(width) = ite_typed(c.width, x.width, y.width) else {
        return Err(fault(at, LangWhy::Width));
    };
    let parts = x.cost.saturating_add(y.cost);
    let cost = parts.saturating_add(c.cost).saturating_add(1);
    let expr = ite(alloc, c.expr, x.expr, y.expr)?;
    Ok(Typed { expr, width, cost })
}

/// The bits of an operand from a number down to another, where it has them.
fn slice_of(alloc: Global, at: Place, high: u128, low: u128, x: Typed) -> Result<Typed, LangFault>
    ensures { Gives result (slice_of at high low x) }
{
    if low > high || high >= u128::from(x.width) {
        return Err(fault(at, LangWhy::Width));
    }
    Ok(Typed {
        width: (high - low + 1) as u8,
        cost: x.cost.saturating_add(1),
        expr: Expr::Slice(high as u8, low as u8, Boxed::new(alloc, x.expr)?),
    })
}

/// An operand in more bits, where they are not too many.
fn longer_of(
    alloc: Global,
    at: Place,
    bits: Extension,
    more: u128,
    x: Typed,
) -> Result<Typed, LangFault>
    ensures { Gives result (longer_of at bits more x) }
{
    if more > MOST_WIDTH || u128::from(x.width) + more > MOST_WIDTH {
        return Err(fault(at, LangWhy::Width));
    }
    let more = more as u8;
    Ok(Typed {
        width: x.width + more,
        cost: x.cost.saturating_add(1),
        expr: longer(bits, more, Boxed::new(alloc, x.expr)?),
    })
}

fn longer(bits: Extension, more: u8, x: Boxed<Expr>) -> Expr
    ensures { result ≡ longer bits more x }
{
    match bits {
        Extension::Zeros => Expr::Uext(more, x),
        Extension::Signs => Expr::Sext(more, x),
    }
}

fn ite(alloc: Global, c: Expr, x: Expr, y: Expr) -> Result<Expr, LangFault>
    ensures { Gives result (Ok (exprs.Ite c x y)) }
{
    let (x, y) = boxed(alloc, x, y)?;
    let c = Boxed::new(alloc, c)?;
    Ok(Expr::Ite(c, x, y))
}

/// Two numbers.
fn numbers(first: &Tree, second: &Tree) -> Result<(u128, u128), LangFault>
    ensures { Gives result (numbers first.now second.now) }
{
    let first = number_of(first)?;
    let second = number_of(second)?;
    Ok((first, second))
}

/// Two expressions, each in a box.
fn boxed(alloc: Global, x: Expr, y: Expr) -> Result<(Boxed<Expr>, Boxed<Expr>), LangFault>
    ensures { Gives result (Ok (x, y)) }
{
    let x = Boxed::new(alloc, x)?;
    let y = Boxed::new(alloc, y)?;
    Ok((x, y))
}

/// The expression that a tree means.
#[cycle(expressions)]
pub fn expr(alloc: Global, tree: &Tree, names: &[Named]) -> Result<Typed, LangFault>
    ensures { Gives result (expr_of tree.now names.now) }
{
    match tree {
        Tree::Atom(at, name) => named(*at, Group::Plain, name.as_slice(), names),
        Tree::Number(at, width, value) => literal(*at, *width, *value),
        Tree::List(at, parts, _) => list(alloc, *at, parts.as_slice(), names),
    }
}

#[cycle(expressions)]
fn list(alloc: Global, at: Place, parts: &[Tree], names: &[Named]) -> Result<Typed, LangFault>
    ensures { Gives result (list at (map part parts.now) names.now) }
{
    match parts {
        [] => Err(fault(at, LangWhy::Form)),
        [head, rest @ ..] => applied(alloc, at, place_of(head), head_of(head), rest, names),
    }
}

/// What a head gives of the parts behind it.
#[cycle(expressions)]
fn applied(
    alloc: Global,
    at: Place,
    head_at: Place,
    head: Head,
    parts: &[Tree],
    names: &[Named],
) -> Result<Typed, LangFault>
    ensures { Gives result (applied at head_at head (map part parts.now) names.now) }
{
    match head {
        Head::Un(op) => {
            let x = one(alloc, at, parts, names)?;
            un_of(alloc, op, x)
        }
        Head::Bin(op) => {
            let (x, y) = two(alloc, at, parts, names)?;
            bin_of(alloc, at, op, x, y)
        }
        Head::Ite => {
            let (c, x, y) = three(alloc, at, parts, names)?;
            ite_of(alloc, at, c, x, y)
        }
        Head::Slice => sliced(alloc, at, parts, names),
        Head::Longer(bits) => extended(alloc, at, bits, parts, names),
        Head::Bv => bv(at, parts),
        Head::Names(group) => named_by_form(at, group, parts, names),
        Head::Unknown => Err(fault(head_at, LangWhy::UnknownName)),
        Head::NoSymbol => Err(fault(head_at, LangWhy::Form)),
    }
}

#[cycle(expressions)]
fn one(alloc: Global, at: Place, parts: &[Tree], names: &[Named]) -> Result<Typed, LangFault>
    ensures { Gives result (one at (map part parts.now) names.now) }
{
    match parts {
        [x] => expr(alloc, x, names),
        _ => Err(fault(at, LangWhy::Arity)),
    }
}

/// `(slice high low e)`.
#[cycle(expressions)]
fn sliced(alloc: Global, at: Place, parts: &[Tree], names: &[Named]) -> Result<Typed, LangFault>
    ensures { Gives result (sliced at (map part parts.now) names.now) }
{
    match parts {
        [high, low, x] => {
            let (high, low) = numbers(high, low)?;
            let x = expr(alloc, x, names)?;
            slice_of(alloc, at, high, low, x)
        }
        _ => Err(fault(at, LangWhy::Arity)),
    }
}

/// `(uext n e)` and `(sext n e)`.
#[cycle(expressions)]
fn extended(
    alloc: Global,
    at: Place,
    bits: Extension,
    parts: &[Tree],
    names: &[Named],
) -> Result<Typed, LangFault>
    ensures { Gives result (extended_by at bits (map part parts.now) names.now) }
{
    match parts {
        [more, x] => {
            let more = number_of(more)?;
            let x = expr(alloc, x, names)?;
            longer_of(alloc, at, bits, more, x)
        }
        _ => Err(fault(at, LangWhy::Arity)),
    }
}

/// Two operands.
#[cycle(expressions)]
fn two(
    alloc: Global,
    at: Place,
    parts: &[Tree],
    names: &[Named],
) -> Result<(Typed, Typed), LangFault>
    ensures { Gives result (two at (map part parts.now) names.now) }
{
    match parts {
        [x, y] => {
            let x = expr(alloc, x, names)?;
            let y = expr(alloc, y, names);
            second(x, y)
        }
        _ => Err(fault(at, LangWhy::Arity)),
    }
}

/// Two operands, where the second was read.
fn second(x: Typed, y: Result<Typed, LangFault>) -> Result<(Typed, Typed), LangFault>
    ensures { (read : Result Typed LangFault) → Gives y read → Gives result (second x read) }
{
    let y = y?;
    Ok((x, y))
}

/// Three operands.
#[cycle(expressions)]
fn three(
    alloc: Global,
    at: Place,
    parts: &[Tree],
    names: &[Named],
) -> Result<(Typed, Typed, Typed), LangFault>
    ensures { Gives result (three at (map part parts.now) names.now) }
{
    match parts {
        [c, x, y] => {
            let c = expr(alloc, c, names)?;
            let x = expr(alloc, x, names)?;
            let y = expr(alloc, y, names);
            third(c, x, y)
        }
        _ => Err(fault(at, LangWhy::Arity)),
    }
}

/// Three operands, where the last was read.
fn third(
    c: Typed,
    x: Typed,
    y: Result<Typed, LangFault>,
) -> Result<(Typed, Typed, Typed), LangFault>
    ensures { (read : Result Typed LangFault) → Gives y read → Gives result (third c x read) }
{
    let y = y?;
    Ok((c, x, y))
}

/// An expression of a width that is wanted.
pub fn expr_of_width(
    alloc: Global,
    tree: &Tree,
    width: u8,
    names: &[Named],
) -> Result<Typed, LangFault>
    ensures { Gives result (expr_of_width tree.now width names.now) }
{
    let x = expr(alloc, tree, names)?;
    if x.width == width {
        Ok(x)
    } else {
        Err(fault(place_of(tree), LangWhy::Width))
    }
}
