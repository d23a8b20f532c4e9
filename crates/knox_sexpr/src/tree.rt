//! Trees.
use knox_text::Place;
use sqlite_items::Items;

/// A tree, with the place of its first byte.
#[derive(Drop)]
pub enum Tree {
    /// A symbol.
    Atom(Place, Items<u8>),
    /// A number. The second part is the width of one that is written with `#x` or `#b`, and 0 for a
    /// decimal.
    Number(Place, u8, u128),
    /// A list, with the place of its closing parenthesis at the end.
    List(Place, Items<Tree>, Place),
}
