//! From trees to bytes: one tree a line, parts with single spaces, decimals without zeros in front,
//! and numbers with a width in binary digits.
ghost use Rattle.std.specs.Prelude.{◌≡◌, ◌++◌, ◌/◌, ◌%◌, ◌^◌, ℕ, List, [], ◌∷◌, map, flat_map, IfOk, OnOk};
ghost use Rattle.std.specs.Fmt.{decimal};
ghost use Rattle.knox_sexpr.specs.declared.tree.Tree.{Tree};
ghost use Rattle.knox_sexpr.specs.Grammar.{Means};
ghost use Rattle.knox_sexpr.specs.Printing.{binary, number_bytes, after_space, spaced, show, printed, lines, unplaced};

use crate::tree::Tree;
use sqlite_items::Items;
use std::alloc::{AllocError, Global};

fn put_bytes(out: &mut Items<u8>, bytes: &[u8]) -> Result<(), AllocError>
    ensures { OnOk result (out.new ≡ out.old ++ bytes.now) }
{
    for byte in bytes {
        out.push(*byte)?;
    }
    Ok(())
}

/// A binary digit of the value.
fn bit(value: u128, i: u8) -> u8
    ensures { result ≡ value / 2 ^ i % 2 }
{
    if i < 128 { ((value >> i) % 2) as u8 } else { 0 }
}

fn put_binary(out: &mut Items<u8>, width: u8, value: u128) -> Result<(), AllocError>
    ensures { OnOk result (out.new ≡ out.old ++ binary width value) }
{
    for i in (0..width).rev() {
        out.push(b'0' + bit(value, i))?;
    }
    Ok(())
}

fn put_number(alloc: Global, out: &mut Items<u8>, width: u8, value: u128) -> Result<(), AllocError>
    ensures { OnOk result (out.new ≡ out.old ++ number_bytes width value) }
{
    if width == 0 {
        let digits = format!(in alloc; "{value}")?;
        return put_bytes(out, digits.as_bytes());
    }
    out.push(b'#')?;
    out.push(b'b')?;
    put_binary(out, width, value)
}

#[cycle(printing)]
fn put_tree(alloc: Global, out: &mut Items<u8>, tree: &Tree) -> Result<(), AllocError>
    ensures { OnOk result (out.new ≡ out.old ++ printed tree.now) }
{
    match tree {
        Tree::Atom(_, word) => put_bytes(out, word.as_slice()),
        Tree::Number(_, width, value) => put_number(alloc, out, *width, *value),
        Tree::List(_, parts, _) => {
            out.push(b'(')?;
            put_trees(alloc, out, parts.as_slice())?;
            out.push(b')')?;
            Ok(())
        }
    }
}

#[cycle(printing)]
fn put_trees(alloc: Global, out: &mut Items<u8>, trees: &[Tree]) -> Result<(), AllocError>
    ensures { OnOk result (out.new ≡ out.old ++ spaced (map show trees.now)) }
{
    match trees {
        [] => Ok(()),
        [first, rest @ ..] => {
            put_tree(alloc, out, first)?;
            for tree in rest {
                out.push(b' ')?;
                put_tree(alloc, out, tree)?;
            }
            Ok(())
        }
    }
}

/// The bytes of trees, one tree a line.
pub fn print(alloc: Global, trees: &[Tree]) -> Result<Items<u8>, AllocError>
    ensures { IfOk result (λ out. out ≡ lines trees.now) }
{
    let mut out = Items::new(alloc);
    for tree in trees {
        put_tree(alloc, &mut out, tree)?;
        out.push(b'\n')?;
    }
    Ok(out)
}

/// What is printed of trees that some text means is a text that means them, places aside.
pub fn printed_again()
    ensures { (text : List ℕ) (ts : List Tree) → Means text ts
        → (others : List Tree) × Means (lines ts) others × (map unplaced others ≡ map unplaced ts) }
{}
