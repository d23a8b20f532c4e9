//! The tokens of a line up to a comment, which goes to the end of the line.
ghost use Rattle.std.specs.Prelude.{◌≡◌, ◌==◌, ◌∷◌, [], length, IfSome, IfNone};
ghost use Rattle.btor_read.specs.Tokens.{tokens_of};

use knox_text::begins_with;
use std::marker::Model;

/// The tokens of a line that are left. Contracts see them as a list.
#[derive(Drop)]
pub struct Tokens<'a> {
    rest: &'a [u8],
}

impl<'a> Model for Tokens<'a> {
    ghost use Rattle.btor_read.specs.Tokens.{Tokens, tokens_of};

    ghost Value = { Tokens };

    ghost view = { λ t. tokens_of t.rest.now };
}

impl<'a> Tokens<'a> {
    /// The tokens of a line.
    pub fn new(line: &'a [u8]) -> Tokens<'a>
        ensures { result ≡ tokens_of line.now }
    {
        Tokens { rest: line }
    }

    /// The next token, or `None` at the end of the line or at a comment.
    #[tactic(auto, using(crate::proofs::TokensLemmas::token_steps))]
    pub fn next(&mut self) -> Option<&'a [u8]>
        ensures some { IfSome result (λ t. self.old ≡ t.now ∷ self.new) }
        ensures none { IfNone result (self.old ≡ []) }
    {
        let cut = match knox_text::cut_token(self.rest) {
            None => return None,
            Some(cut) => cut,
        };
        if begins_with(b';', cut.token.bytes) {
            return None;
        }
        self.rest = cut.rest;
        Some(cut.token.bytes)
    }

    /// Whether no token is left.
    #[tactic(auto, using(crate::proofs::TokensLemmas::token_steps))]
    pub fn is_empty(&self) -> bool
        ensures { result ≡ (length self.now == 0) }
    {
        match knox_text::cut_token(self.rest) {
            None => true,
            Some(cut) => begins_with(b';', cut.token.bytes),
        }
    }
}
