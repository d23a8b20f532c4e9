//! Lines, cut off the front of a text one after the other.
ghost use Rattle.std.specs.Prelude.{◌≡◌, ◌≤◌, ◌<◌, ◌+◌, ◌∷◌, [], length, drop, IfSome, IfNone};
ghost use Rattle.knox_text.specs.Lines.{lines, begins_with as begins_with_byte};
ghost use Rattle.knox_text.specs.Pieces.{ends_line, line_length, behind_end, behind_feed};

/// A piece of a text, and the bytes behind it.
#[derive(Clone, Copy)]
pub struct Cut<'a> {
    pub piece: &'a [u8],
    pub rest: &'a [u8],
}

/// The first line of a text without what ends it, and the text behind it. `None` where no byte is
/// left.
#[tactic(auto, using(crate::proofs::LineLemmas::cut_steps))]
pub fn cut_line(text: &[u8]) -> Option<Cut<'_>>
    ensures line { IfSome result (λ c. lines text.now ≡ c.piece.now ∷ lines c.rest.now) }
    ensures shorter { IfSome result (λ c. length c.rest.now < length text.now) }
    ensures none { IfNone result (text.now ≡ []) }
{
    if text.is_empty() {
        return None;
    }
    let end = line_length(text);
    Some(Cut {
        piece: &text[..end],
        rest: behind_end(&text[end..]),
    })
}

/// Whether a text, a line or a token begins with a byte.
pub fn begins_with(byte: u8, text: &[u8]) -> bool
    ensures { result ≡ begins_with_byte byte text.now }
{
    match text {
        [] => false,
        [first, ..] => *first == byte,
    }
}

fn ends_line(text: &[u8]) -> bool
    ensures { result ≡ ends_line text.now }
{
    match text {
        [] => false,
        [byte] => *byte == b'\n',
        [byte, next, ..] => *byte == b'\n' || (*byte == b'\r' && *next == b'\n'),
    }
}

#[tactic(auto, using(crate::proofs::LineLemmas::length_steps))]
fn line_length(text: &[u8]) -> usize
    ensures value { result ≡ line_length text.now }
    ensures within { result ≤ length text.now }
{
    let mut end = 0;
    while end < text.len() && !ends_line(&text[end..]) {
        end += 1;
    }
    end
}

fn behind_feed(text: &[u8]) -> &[u8]
    ensures { result.now ≡ behind_feed text.now }
{
    match text {
        [] => text,
        [byte, more @ ..] => { if *byte == b'\n' { more } else { text } }
    }
}

fn behind_end(text: &[u8]) -> &[u8]
    ensures { result.now ≡ behind_end text.now }
{
    match text {
        [] => text,
        [byte, more @ ..] => {
            if *byte == b'\n' {
                more
            } else {
                behind_feed(more)
            }
        }
    }
}
