//! From tokens to trees.
ghost use Rattle.std.specs.Prelude.{◌≡◌, ◌≤◌, ◌∷◌, ℕ, List, length, IfOk, IfErr, OnOk, MatchResult, None};
ghost use Rattle.knox_text.specs.Places.{end_of};
ghost use Rattle.knox_sexpr.specs.Tokens.{tokens_from};
ghost use Rattle.knox_sexpr.specs.declared.tree.Tree.{Tree};
ghost use Rattle.knox_sexpr.specs.declared.fault.SexprFault.TheVariants.{Memory};
ghost use Rattle.knox_sexpr.specs.Grammar.{Means};
ghost use Rattle.knox_sexpr.specs.Faults.{fault_of, fault_from, first_fault};
ghost use Rattle.knox_sexpr.specs.Steps.{IsFault, IsClose, ReadTree, ReadTrees};

use crate::fault::SexprFault;
use crate::scanning::next_token;
use crate::token::Token;
use crate::tree::Tree;
use knox_text::{Cursor, Place};
use sqlite_items::Items;
use std::alloc::Global;

/// Trees, and the closing parenthesis that ended them, or none at the end of the text.
#[derive(Drop)]
pub(crate) struct Ended {
    pub(crate) trees: Items<Tree>,
    pub(crate) close: Option<Place>,
}

/// Reads trees to the closing parenthesis of the list that they stand in, or to the end.
#[cycle(trees)]
pub(crate) fn trees(alloc: Global, cursor: &mut Cursor, depth: u32) -> Result<Ended, SexprFault>
    requires { depth ≤ 256 }
    ensures ok { IfOk result (λ e. ReadTrees depth cursor.old e.trees e.close cursor.new) }
    ensures err { IfErr result (IsFault (fault_from depth cursor.old)) }
{
    let mut trees = Items::new(alloc);
    while let Some(token) = next_token(alloc, cursor)? {
        if let Token::Close(at) = token {
            return Ok(Ended {
                trees,
                close: Some(at),
            });
        }
        let tree = tree(alloc, cursor, depth, token)?;
        trees.push(tree)?;
    }
    Ok(Ended { trees, close: None })
}

/// Reads the tree that a token begins.
#[cycle(trees)]
fn tree(alloc: Global, cursor: &mut Cursor, depth: u32, token: Token) -> Result<Tree, SexprFault>
    requires depth { depth ≤ 256 }
    requires begins { ¬ IsClose token }
    ensures ok { IfOk result (λ t. ReadTree depth token cursor.old t cursor.new) }
    ensures err { IfErr result (IsFault (fault_of (end_of cursor.old) depth (token ∷ tokens_from cursor.old))) }
{
    match token {
        Token::Atom(at, word) => Ok(Tree::Atom(at, word)),
        Token::Number(at, width, value) => Ok(Tree::Number(at, width, value)),
        Token::Bad(at) => Err(SexprFault::BadAtom(at)),
        Token::Close(_) => unreachable!(),
        Token::Open(at) => {
            if depth == 256 {
                return Err(SexprFault::TooDeep(at));
            }
            let inner = trees(alloc, cursor, depth + 1)?;
            match inner.close {
                Some(close) => Ok(Tree::List(at, inner.trees, close)),
                None => Err(SexprFault::Unclosed(cursor.place())),
            }
        }
    }
}

/// Reads a whole text.
fn all(alloc: Global, bytes: &[u8]) -> Result<Items<Tree>, SexprFault>
    requires { length bytes.now ≤ 67108864 }
    ensures found { IfOk result (λ ts. Means bytes.now ts) }
    ensures fault { IfErr result (IsFault (first_fault bytes.now)) }
{
    let mut cursor = Cursor::new(bytes);
    let ended = trees(alloc, &mut cursor, 0)?;
    match ended.close {
        None => Ok(ended.trees),
        Some(at) => Err(SexprFault::Unopened(at)),
    }
}

/// The trees that a text of at most 64 MiB means, or its first fault in reading order. Texts are
/// S-expressions: blanks are space, tab, carriage return and line feed, `;` begins a comment to the
/// end of its line, and at most 256 lists are open at once.
pub fn read(alloc: Global, bytes: &[u8]) -> Result<Items<Tree>, SexprFault>
    requires { length bytes.now ≤ 67108864 }
    // What is read is what the text means.
    ensures found { IfOk result (λ ts. Means bytes.now ts) }
    // What the text means is read, unless memory runs out.
    ensures only { (ts : List Tree) → Means bytes.now ts → MatchResult result (λ found. found ≡ ts) (λ f. f ≡ Memory) }
    // Which fault it is.
    ensures fault { IfErr result (IsFault (first_fault bytes.now)) }
    // What is read has no fault.
    ensures faultless { OnOk result (first_fault bytes.now ≡ None) }
{
    all(alloc, bytes)
}

/// A text means at most one list of trees, and then it has no fault.
pub fn one_meaning()
    ensures one { (text : List ℕ) (a b : List Tree) → Means text a → Means text b → a ≡ b }
    ensures no_fault { (text : List ℕ) (ts : List Tree) → Means text ts → first_fault text ≡ None }
{}
