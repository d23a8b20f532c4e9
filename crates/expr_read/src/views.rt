//! What a tree is at its top.
ghost use Rattle.std.specs.Prelude.{◌≡◌, ◌≤◌, length};
ghost use Rattle.expr_read.specs.Views.{place_of, number_of, is_width, width_of, symbol_of, parts_of, is_symbol, begin, is_headed, behind, behind_head, headed_count, no_more, Gives, Sees};

use crate::faults::{LangFault, LangWhy, fault};
use knox_sexpr::Tree;
use knox_text::Place;

/// The greatest width of a word.
pub(crate) const MOST_WIDTH: u128 = 128;

/// The place of the first byte of a tree.
pub fn place_of(tree: &Tree) -> Place
    ensures { result ≡ place_of tree.now }
{
    match tree {
        Tree::Atom(at, _) => *at,
        Tree::Number(at, _, _) => *at,
        Tree::List(at, _, _) => *at,
    }
}

/// The value of a number, however it is written.
pub fn number_of(tree: &Tree) -> Result<u128, LangFault>
    ensures { Gives result (number_of tree.now) }
{
    match tree {
        Tree::Atom(at, _) => Err(fault(*at, LangWhy::Form)),
        Tree::Number(_, _, value) => Ok(*value),
        Tree::List(at, _, _) => Err(fault(*at, LangWhy::Form)),
    }
}

pub(crate) fn is_width(width: u128) -> bool
    ensures { result ≡ is_width width }
{
    1 <= width && width <= MOST_WIDTH
}

/// The width that a tree gives.
pub fn width_of(tree: &Tree) -> Result<u8, LangFault>
    ensures { Gives result (width_of tree.now) }
{
    let width = number_of(tree)?;
    if is_width(width) {
        Ok(width as u8)
    } else {
        Err(fault(place_of(tree), LangWhy::Width))
    }
}

/// The bytes of a symbol.
pub fn symbol_of(tree: &Tree) -> Result<&[u8], LangFault>
    ensures { Sees (λ x. x.now) result (symbol_of tree.now) }
{
    match tree {
        Tree::Atom(_, name) => Ok(name.as_slice()),
        Tree::Number(at, _, _) => Err(fault(*at, LangWhy::Form)),
        Tree::List(at, _, _) => Err(fault(*at, LangWhy::Form)),
    }
}

/// The parts of a list.
pub fn parts_of(tree: &Tree) -> Result<&[Tree], LangFault>
    ensures { Sees (λ x. x.now) result (parts_of tree.now) }
{
    match tree {
        Tree::Atom(at, _) => Err(fault(*at, LangWhy::Form)),
        Tree::Number(at, _, _) => Err(fault(*at, LangWhy::Form)),
        Tree::List(_, parts, _) => Ok(parts.as_slice()),
    }
}

/// Is the tree this symbol?
pub fn is_symbol(tree: &Tree, word: &[u8]) -> bool
    ensures { result ≡ is_symbol word.now tree.now }
{
    match tree {
        Tree::Atom(_, name) => name.as_slice() == word,
        Tree::Number(_, _, _) => false,
        Tree::List(_, _, _) => false,
    }
}

/// Do trees begin with this word?
fn begin(trees: &[Tree], word: &[u8]) -> bool
    ensures { result ≡ begin word.now trees.now }
{
    match trees.split_first() {
        Some((head, _)) => is_symbol(head, word),
        None => false,
    }
}

/// Is the tree a list that begins with this word?
pub fn is_headed(tree: &Tree, word: &[u8]) -> bool
    ensures { result ≡ is_headed word.now tree.now }
{
    match tree {
        Tree::Atom(_, _) => false,
        Tree::Number(_, _, _) => false,
        Tree::List(_, parts, _) => begin(parts.as_slice(), word),
    }
}

/// What follows the word that the list at the place has to begin with.
fn behind<'a>(at: Place, trees: &'a [Tree], word: &[u8]) -> Result<&'a [Tree], LangFault>
    ensures { Sees (λ x. x.now) result (behind at word.now trees.now) }
{
    match trees.split_first() {
        Some((head, rest)) if is_symbol(head, word) => Ok(rest),
        _ => Err(fault(at, LangWhy::Form)),
    }
}

/// What follows the word that a list has to begin with.
pub fn behind_head<'a>(tree: &'a Tree, word: &[u8]) -> Result<&'a [Tree], LangFault>
    ensures { Sees (λ x. x.now) result (behind_head word.now tree.now) }
{
    let parts = parts_of(tree)?;
    behind(place_of(tree), parts, word)
}

/// How many trees at the front are lists that begin with this word.
pub fn headed_count(trees: &[Tree], word: &[u8]) -> usize
    ensures count { result ≡ headed_count word.now trees.now }
    ensures within { result ≤ length trees.now }
{
    for (count, tree) in trees.iter().enumerate() {
        if !is_headed(tree, word) {
            return count;
        }
    }
    trees.len()
}

/// Refuses a tree where there must be none.
pub fn no_more(trees: &[Tree]) -> Result<(), LangFault>
    ensures { Gives result (no_more trees.now) }
{
    match trees.split_first() {
        Some((tree, _)) => Err(fault(place_of(tree), LangWhy::Form)),
        None => Ok(()),
    }
}
