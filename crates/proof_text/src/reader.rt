//! A proof's text, read line after line.
ghost use Rattle.std.specs.Prelude.{◌≡◌, ◌≤◌, ◌<◌, ◌⊎◌, length, IfOk, IfSome};
ghost use Rattle.proof_text.specs.Unread.{unread, lines_left, ReadsNext};

use crate::fault::ProofFault;
use crate::lrat::read_line;
use crate::proof_line::ProofLine;
use knox_text::cut_line;
use std::alloc::Global;
use std::marker::Model;

/// Goes over the lines of a proof's text, so that no more than one of them is held. Contracts see
/// what is left of the text.
#[derive(Drop)]
pub struct LratReader<'a> {
    number: u32,
    rest: &'a [u8],
}

impl<'a> Model for LratReader<'a> {
    ghost use Rattle.proof_text.specs.Unread.{Unread};
    ghost use Rattle.proof_text.specs.Inside.{unread_of, HasRoom};

    ghost Value = { Unread };

    ghost view = { unread_of };

    ghost invariant = { HasRoom };
}

impl<'a> LratReader<'a> {
    /// Stands at the first line of a text of at most 64 MiB.
    pub fn new(bytes: &'a [u8]) -> LratReader<'a>
        requires { length bytes.now ≤ 67108864 }
        ensures { result ≡ unread 1 bytes.now }
    {
        LratReader {
            number: 1,
            rest: bytes,
        }
    }

    /// The next line of the proof. `None` where none is left. A fault is the text's first one, as
    /// long as no line before had one.
    pub fn next_line(&mut self, alloc: Global) -> Result<Option<ProofLine>, ProofFault>
        ensures next { ReadsNext result (lines_left self.old) (lines_left self.new) }
        ensures shorter { IfOk result (λ next. IfSome next (λ _. length self.new.text < length self.old.text)) }
    {
        let mut number = self.number;
        let mut rest = self.rest;
        while let Some(cut) = cut_line(rest) {
            match read_line(alloc, number, cut.piece) {
                Err(fault) => return Err(fault),
                Ok(None) => {}
                Ok(Some(line)) => {
                    self.number = number + 1;
                    self.rest = cut.rest;
                    return Ok(Some(line));
                }
            }
            number += 1;
            rest = cut.rest;
        }
        Ok(None)
    }
}
