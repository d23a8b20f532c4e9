//! The operands of each keyword's form.
ghost use Rattle.std.specs.Prelude.{◌≡◌, ◌≢◌, Ok, Err, Some, IfOk, IfErr};
ghost use Rattle.circuit_table.specs.declared.fault.Why.TheVariants.{Memory};
ghost use Rattle.btor_read.specs.Tokens.{next_as};
ghost use Rattle.btor_read.specs.Numbers.{positive, number_or};
ghost use Rattle.btor_read.specs.Grammar.{node_at, one_at, two_at, three_at, extension_at, constant_at, nodes_at, sort_form, symbol_of, form};

use crate::keyword::Keyword;
use crate::numbers::{self, GREATEST};
use crate::tokens::Tokens;
use circuit_table::{Shape, Why};
use sqlite_items::Items;
use std::alloc::Global;

/// The number of no sort.
const NO_SORT: u32 = 0;

/// The next number, or another where it is too great.
fn number_at(beyond: u32, tokens: &mut Tokens) -> Result<u32, Why>
    ensures ok { IfOk result (λ n. next_as (number_or beyond) tokens.old ≡ Ok (n, tokens.new)) }
    ensures err { IfErr result (λ why. next_as (number_or beyond) tokens.old ≡ Err why) }
{
    match tokens.next() {
        None => Err(Why::Operand),
        Some(token) => match numbers::number_or(beyond, token) {
            None => Err(Why::Operand),
            Some(number) => Ok(number),
        },
    }
}

/// How many nodes follow.
fn count_at(tokens: &mut Tokens) -> Result<u32, Why>
    ensures ok { IfOk result (λ n. next_as positive tokens.old ≡ Ok (n, tokens.new)) }
    ensures err { IfErr result (λ why. next_as positive tokens.old ≡ Err why) }
{
    match tokens.next() {
        None => Err(Why::Operand),
        Some(token) => match numbers::positive(token) {
            None => Err(Why::Operand),
            Some(number) => Ok(number),
        },
    }
}

/// A node, by its number.
fn node_at(tokens: &mut Tokens) -> Result<i64, Why>
    ensures ok { IfOk result (λ n. node_at tokens.old ≡ Ok (n, tokens.new)) }
    ensures err { IfErr result (λ why. node_at tokens.old ≡ Err why) }
{
    match tokens.next() {
        None => Err(Why::Operand),
        Some(token) => match numbers::node_number(token) {
            None => Err(Why::Operand),
            Some(number) => Ok(number),
        },
    }
}

/// A sort and a node.
fn one_at(tokens: &mut Tokens) -> Result<(u32, i64), Why>
    ensures ok { IfOk result (λ p. one_at tokens.old ≡ Ok ((p.0, p.1), tokens.new)) }
    ensures err { IfErr result (λ why. one_at tokens.old ≡ Err why) }
{
    let sort = number_at(NO_SORT, tokens)?;
    let node = node_at(tokens)?;
    Ok((sort, node))
}

/// A sort and two nodes.
fn two_at(tokens: &mut Tokens) -> Result<(u32, i64, i64), Why>
    ensures ok { IfOk result (λ p. two_at tokens.old ≡ Ok ((p.0, p.1, p.2), tokens.new)) }
    ensures err { IfErr result (λ why. two_at tokens.old ≡ Err why) }
{
    let (sort, first) = one_at(tokens)?;
    let second = node_at(tokens)?;
    Ok((sort, first, second))
}

/// A sort and three nodes.
fn three_at(tokens: &mut Tokens) -> Result<(u32, i64, i64, i64), Why>
    ensures ok { IfOk result (λ p. three_at tokens.old ≡ Ok ((p.0, p.1, p.2, p.3), tokens.new)) }
    ensures err { IfErr result (λ why. three_at tokens.old ≡ Err why) }
{
    let (sort, first, second) = two_at(tokens)?;
    let third = node_at(tokens)?;
    Ok((sort, first, second, third))
}

/// A sort, a node, and how many bits more it gets.
fn extension_at(tokens: &mut Tokens) -> Result<(u32, i64, u32), Why>
    ensures ok { IfOk result (λ p. extension_at tokens.old ≡ Ok ((p.0, p.1, p.2), tokens.new)) }
    ensures err { IfErr result (λ why. extension_at tokens.old ≡ Err why) }
{
    let (sort, node) = one_at(tokens)?;
    let more = number_at(GREATEST, tokens)?;
    Ok((sort, node, more))
}

/// A sort, and digits as they stand.
fn constant_at(alloc: Global, tokens: &mut Tokens) -> Result<(u32, Items<u8>), Why>
    ensures ok { IfOk result (λ p. constant_at tokens.old ≡ Ok ((p.0, p.1), tokens.new)) }
    ensures err { IfErr result (λ why. why ≢ Memory → constant_at tokens.old ≡ Err why) }
{
    let sort = number_at(NO_SORT, tokens)?;
    match tokens.next() {
        None => Err(Why::Operand),
        Some(token) => {
            let digits = Items::from_slice(alloc, token)?;
            Ok((sort, digits))
        }
    }
}

/// As many nodes. Each takes a token, so no memory is taken by the number alone.
#[tactic(auto, using(crate::proofs::NodesLemmas::node_steps))]
fn nodes_at(alloc: Global, count: u32, tokens: &mut Tokens) -> Result<Items<i64>, Why>
    ensures ok { IfOk result (λ nodes. nodes_at count tokens.old ≡ Ok (nodes, tokens.new)) }
    ensures err { IfErr result (λ why. why ≢ Memory → nodes_at count tokens.old ≡ Err why) }
{
    let mut nodes = Items::new(alloc);
    let mut left = count;
    while left > 0 {
        let node = node_at(tokens)?;
        nodes.push(node)?;
        left -= 1;
    }
    Ok(nodes)
}

fn justice_form(alloc: Global, tokens: &mut Tokens) -> Result<Shape, Why>
    ensures ok { IfOk result (λ s. form Keyword.Justice tokens.old ≡ Ok (s, tokens.new)) }
    ensures err { IfErr result (λ why. why ≢ Memory → form Keyword.Justice tokens.old ≡ Err why) }
{
    let count = count_at(tokens)?;
    let nodes = nodes_at(alloc, count, tokens)?;
    Ok(Shape::Justice(count, nodes))
}

fn sort_form(tokens: &mut Tokens) -> Result<Shape, Why>
    ensures ok { IfOk result (λ s. sort_form tokens.old ≡ Ok (s, tokens.new)) }
    ensures err { IfErr result (λ why. sort_form tokens.old ≡ Err why) }
{
    let Some(kind) = tokens.next() else {
        return Err(Why::Operand);
    };
    if kind == b"bitvec".as_slice() {
        let width = number_at(GREATEST, tokens)?;
        return Ok(Shape::Bitvec(width));
    }
    if kind == b"array".as_slice() {
        let index = number_at(NO_SORT, tokens)?;
        let element = number_at(NO_SORT, tokens)?;
        return Ok(Shape::Array(index, element));
    }
    Err(Why::Operand)
}

/// The shape of a line, from the operands of its keyword's form.
pub fn form(alloc: Global, keyword: Keyword, tokens: &mut Tokens) -> Result<Shape, Why>
    ensures ok { IfOk result (λ s. form keyword tokens.old ≡ Ok (s, tokens.new)) }
    ensures err { IfErr result (λ why. why ≢ Memory → form keyword tokens.old ≡ Err why) }
{
    match keyword {
        Keyword::Sort => sort_form(tokens),
        Keyword::Input => Ok(Shape::Input(number_at(NO_SORT, tokens)?)),
        Keyword::State => Ok(Shape::State(number_at(NO_SORT, tokens)?)),
        Keyword::Init => {
            let (sort, state, value) = two_at(tokens)?;
            Ok(Shape::Init(sort, state, value))
        }
        Keyword::Next => {
            let (sort, state, value) = two_at(tokens)?;
            Ok(Shape::Next(sort, state, value))
        }
        Keyword::Output => Ok(Shape::Output(node_at(tokens)?)),
        Keyword::Bad => Ok(Shape::Bad(node_at(tokens)?)),
        Keyword::Fair => Ok(Shape::Fair(node_at(tokens)?)),
        Keyword::Justice => justice_form(alloc, tokens),
        Keyword::Const => {
            let (sort, digits) = constant_at(alloc, tokens)?;
            Ok(Shape::Const(sort, digits))
        }
        Keyword::Constd => {
            let (sort, digits) = constant_at(alloc, tokens)?;
            Ok(Shape::Constd(sort, digits))
        }
        Keyword::Consth => {
            let (sort, digits) = constant_at(alloc, tokens)?;
            Ok(Shape::Consth(sort, digits))
        }
        Keyword::Zero => Ok(Shape::Zero(number_at(NO_SORT, tokens)?)),
        Keyword::One => Ok(Shape::One(number_at(NO_SORT, tokens)?)),
        Keyword::Ones => Ok(Shape::Ones(number_at(NO_SORT, tokens)?)),
        Keyword::Un(operator) => {
            let (sort, node) = one_at(tokens)?;
            Ok(Shape::Un(operator, sort, node))
        }
        Keyword::Bin(operator) => {
            let (sort, first, second) = two_at(tokens)?;
            Ok(Shape::Bin(operator, sort, first, second))
        }
        Keyword::Slice => {
            let (sort, node, high) = extension_at(tokens)?;
            let low = number_at(GREATEST, tokens)?;
            Ok(Shape::Slice(sort, node, high, low))
        }
        Keyword::Uext => {
            let (sort, node, more) = extension_at(tokens)?;
            Ok(Shape::Uext(sort, node, more))
        }
        Keyword::Sext => {
            let (sort, node, more) = extension_at(tokens)?;
            Ok(Shape::Sext(sort, node, more))
        }
        Keyword::Ite => {
            let (sort, condition, first, second) = three_at(tokens)?;
            Ok(Shape::Ite(sort, condition, first, second))
        }
        Keyword::Read => {
            let (sort, array, index) = two_at(tokens)?;
            Ok(Shape::Read(sort, array, index))
        }
        Keyword::Write => {
            let (sort, array, index, word) = three_at(tokens)?;
            Ok(Shape::Write(sort, array, index, word))
        }
    }
}

/// The symbol at the end of a line, which is empty where there is none.
#[tactic(auto, using(crate::proofs::GrammarLemmas::symbol_steps))]
pub fn symbol_at(alloc: Global, tokens: &mut Tokens) -> Result<Items<u8>, Why>
    ensures ok { IfOk result (λ s. symbol_of tokens.old ≡ Ok s) }
    ensures err { IfErr result (λ why. why ≢ Memory → symbol_of tokens.old ≡ Err why) }
{
    match tokens.next() {
        None => Ok(Items::new(alloc)),
        Some(token) => {
            if !tokens.is_empty() {
                return Err(Why::Operand);
            }
            let symbol = Items::from_slice(alloc, token)?;
            Ok(symbol)
        }
    }
}
