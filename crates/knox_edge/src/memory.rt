//! A shelf and a sink in memory, whose reads and puts fail where they are told to.
ghost use Rattle.std.specs.Prelude.{◌≡◌, [], Some, option_map};
ghost use Rattle.knox_edge.specs.{Texts.unread, Texts.named_of, Texts.history_of, Shelf.entry_of, Shelf.is_in};

use crate::history::History;
use crate::shelf::{LIMIT, Shelf, ShelfEnd};
use crate::sink::{Sink, SinkEnd};
use std::alloc::Global;

/// Texts in memory. The reads whose numbers, from 1, stand in `fail` fail.
#[derive(Drop)]
pub struct MemShelf {
    held: Vec<(Vec<u8>, Vec<u8>)>,
    fail: Vec<u64>,
    history: History,
}

impl MemShelf {
    /// A shelf of these names and texts, of which nothing was asked.
    pub fn new(alloc: Global, held: Vec<(Vec<u8>, Vec<u8>)>, fail: Vec<u64>) -> MemShelf
        ensures history { ⟦<MemShelf as Shelf>⟧.history result ≡ unread }
        ensures holds { ⟦<MemShelf as Shelf>⟧.holds result ≡ Some (record { entries = named_of held.items; failing = fail.items }) }
    {
        MemShelf {
            held,
            fail,
            history: History::new(alloc),
        }
    }
}

/// The bytes of the first entry with this name.
fn entry<'a>(held: &'a [(Vec<u8>, Vec<u8>)], name: &[u8]) -> Option<&'a [u8]>
    ensures { option_map (λ bytes. bytes.now) result ≡ entry_of (named_of held.now) name.now }
{
    for (called, bytes) in held {
        if called.as_slice() == name {
            return Some(bytes.as_slice());
        }
    }
    None
}

/// Whether a number is one of these.
fn is_one_of(numbers: &[u64], number: u64) -> bool
    ensures { result ≡ is_in numbers.now number }
{
    numbers.contains(&number)
}

impl Shelf for MemShelf {
    ghost history = { λ s. history_of s.history };

    ghost holds = { λ s. Some (record { entries = named_of s.held.items; failing = s.fail.items }) };

    fn read(&mut self, name: &[u8]) -> Result<usize, ShelfEnd> {
        self.history.ask(name)?;
        let bytes = match entry(self.held.as_slice(), name) {
            Some(bytes) if !is_one_of(self.fail.as_slice(), self.history.names.len() as u64) =>
                bytes,
            _ => {
                self.history.faults = self.history.faults.saturating_add(1);
                return Err(ShelfEnd::Failed);
            }
        };
        if bytes.len() > LIMIT {
            self.history.taken = LIMIT as u64 + 1;
            return Err(ShelfEnd::TooLong);
        }
        let bytes = Vec::from_slice(self.history.alloc, bytes)?;
        self.history.taken = bytes.len() as u64;
        Ok(self.history.give(name, bytes)?)
    }

    fn text(&self, i: usize) -> &[u8] {
        self.history.given[i].1.as_slice()
    }
}

/// A sink in memory. The puts whose numbers, from 1, stand in `fail` fail, and keep the first
/// `keep` bytes of their piece, or all of a shorter one.
#[derive(Drop)]
pub struct MemSink {
    fail: Vec<u64>,
    keep: usize,
    written: Vec<u8>,
    count: u64,
    faults: u64,
}

impl MemSink {
    /// A sink that holds nothing and has counted no put.
    pub fn new(alloc: Global, fail: Vec<u64>, keep: usize) -> MemSink
        ensures { ⟦<MemSink as Sink>⟧.told result ≡ record { written = Some []; faults = 0; fails = Some (record { numbers = fail.items; counted = 0 }); keeps = Some keep } }
    {
        MemSink {
            fail,
            keep,
            written: Vec::new(alloc),
            count: 0,
            faults: 0,
        }
    }

    /// The bytes that were written.
    pub fn written(&self) -> &[u8]
        ensures { (⟦<MemSink as Sink>⟧.told self.now).written ≡ Some result.now }
    {
        self.written.as_slice()
    }
}

impl Sink for MemSink {
    ghost told = { λ s. record { written = Some s.written.items; faults = s.faults; fails = Some (record { numbers = s.fail.items; counted = s.count }); keeps = Some s.keep } };

    fn put(&mut self, piece: &[u8]) -> Result<(), SinkEnd> {
        if piece.is_empty() {
            return Ok(());
        }
        let memory = |_| SinkEnd::Memory;
        self.count = self.count.saturating_add(1);
        if !is_one_of(self.fail.as_slice(), self.count) {
            self.written.extend_from_slice(piece).map_err(memory)?;
            return Ok(());
        }
        let kept = &piece[..self.keep.min(piece.len())];
        self.written.extend_from_slice(kept).map_err(memory)?;
        self.faults = self.faults.saturating_add(1);
        Err(SinkEnd::Failed)
    }
}
