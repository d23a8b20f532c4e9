//! Tokens.
use knox_text::Place;
use sqlite_items::Items;

/// What a text has between separators and comments.
#[derive(Drop)]
pub enum Token {
    /// An opening parenthesis.
    Open(Place),
    /// A closing parenthesis.
    Close(Place),
    /// A symbol.
    Atom(Place, Items<u8>),
    /// A number, with its width, or 0 for a decimal.
    Number(Place, u8, u128),
    /// An atom that breaks the rules, or a byte that stands in no text.
    Bad(Place),
}
