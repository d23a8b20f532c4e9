//! Tokens, cut off the front of a line one after the other.
ghost use Rattle.std.specs.Prelude.{◌≡◌, ◌≤◌, ◌<◌, ◌+◌, ◌∷◌, [], length, IfSome, IfNone};
ghost use Rattle.knox_text.specs.Tokens.{token, tokens, is_blank};
ghost use Rattle.knox_text.specs.Pieces.{skipped, token_length};

/// A token of a line: its bytes, and how many bytes of the line stand from its first byte on, which
/// gives its place in the line.
#[derive(Clone, Copy)]
pub struct Token<'a> {
    pub bytes: &'a [u8],
    pub left: usize,
}

/// A token, and the line behind it.
#[derive(Clone, Copy)]
pub struct CutToken<'a> {
    pub token: Token<'a>,
    pub rest: &'a [u8],
}

/// The first token of a line, and the line behind it. `None` where no token is left.
#[tactic(auto, using(crate::proofs::TokenLemmas::cut_steps))]
pub fn cut_token(line: &[u8]) -> Option<CutToken<'_>>
    ensures token { IfSome result (λ c. tokens line.now ≡ token c.token.left c.token.bytes.now ∷ tokens c.rest.now) }
    ensures shorter { IfSome result (λ c. length c.rest.now < length line.now) }
    ensures none { IfNone result (tokens line.now ≡ []) }
{
    let start = skip_blanks(line);
    if start.is_empty() {
        return None;
    }
    let end = token_length(start);
    Some(CutToken {
        token: Token {
            bytes: &start[..end],
            left: start.len(),
        },
        rest: &start[end..],
    })
}

fn is_blank(byte: u8) -> bool
    ensures { result ≡ is_blank byte }
{
    byte == b' ' || byte == b'\t'
}

fn skip_blanks(line: &[u8]) -> &[u8]
    ensures { result.now ≡ skipped line.now }
{
    let mut rest = line;
    while let [byte, more @ ..] = rest {
        if !is_blank(*byte) {
            break;
        }
        rest = more;
    }
    rest
}

#[tactic(auto, using(crate::proofs::TokenLemmas::length_steps))]
fn token_length(text: &[u8]) -> usize
    ensures value { result ≡ token_length text.now }
    ensures within { result ≤ length text.now }
{
    let mut end = 0;
    while end < text.len() && !is_blank(text[end]) {
        end += 1;
    }
    end
}
