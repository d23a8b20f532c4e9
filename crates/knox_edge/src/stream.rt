//! A sink over a writer of std.
ghost use Rattle.std.specs.Prelude.{◌≡◌, ℕ, ◌<◌, length, take, None, MatchResult};
ghost use Rattle.std.specs.Io.KnownBytes.{Appends};

use crate::sink::{Sink, SinkEnd};
use std::io::Write;

/// Writes each piece to a writer, and counts the writes that fail.
#[derive(Drop)]
pub struct StreamSink<W: Write> {
    writer: W,
    faults: u64,
}

impl<W: Write> StreamSink<W> {
    /// A sink over this writer, with no fault counted.
    pub fn new(writer: W) -> StreamSink<W>
        ensures { ⟦<StreamSink<W> as Sink>⟧.told result ≡ record { written = W.contents writer; faults = 0; fails = None; keeps = None } }
    {
        StreamSink { writer, faults: 0 }
    }
}

/// Writes a piece to its end. A writer that fails, or takes nothing of bytes that are left, has taken
/// a prefix.
fn write_whole<W: Write>(writer: &mut W, piece: &[u8]) -> Result<(), SinkEnd>
    ensures { MatchResult result (λ _. Appends (W.contents writer.old) (W.contents writer.new) piece.now)
        (λ end. (end ≡ SinkEnd.Failed) × ((n : ℕ) × (n < length piece.now) × Appends (W.contents writer.old) (W.contents writer.new) (take n piece.now))) }
{
    let mut at = 0;
    while at < piece.len() {
        match writer.write(&piece[at..]) {
            Ok(0) | Err(_) => return Err(SinkEnd::Failed),
            Ok(count) => at += count,
        }
    }
    Ok(())
}

impl<W: Write> Sink for StreamSink<W> {
    ghost told = { λ s. record { written = W.contents s.writer; faults = s.faults; fails = None; keeps = None } };

    fn put(&mut self, piece: &[u8]) -> Result<(), SinkEnd> {
        let end = write_whole(&mut self.writer, piece);
        if end.is_err() {
            self.faults = self.faults.saturating_add(1);
        }
        end
    }
}
