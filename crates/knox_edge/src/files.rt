//! A shelf over the files of the system.
ghost use Rattle.std.specs.Prelude.{◌≡◌, ◌+◌, ◌≤◌, [], None, IfSome, OnOk, IfErr, vec_len};
ghost use Rattle.knox_edge.specs.Texts.{limit, unread, history_of};

use crate::history::History;
use crate::shelf::{LIMIT, Shelf, ShelfEnd};
use std::alloc::Global;
use std::fs::File;
use std::io::Read;
use std::rt::Files;
use std::str;

/// Reads the file that a name names, and counts the reads that fail.
#[derive(Drop)]
pub struct FileShelf<'a, R: Files> {
    rt: &'a R,
    history: History,
}

impl<'a, R: Files> FileShelf<'a, R> {
    /// A shelf of the files that this runtime reaches, of which nothing was asked.
    pub fn new(rt: &'a R, alloc: Global) -> FileShelf<'a, R>
        ensures { ⟦<FileShelf<'a, R> as Shelf>⟧.history result ≡ unread }
    {
        FileShelf {
            rt,
            history: History::new(alloc),
        }
    }
}

/// Appends what a reader gives up to its end, and stops one byte past the limit.
fn read_all<S: Read>(source: &mut S, bytes: &mut Vec<u8>) -> Result<(), ShelfEnd>
    requires { bytes.old.items ≡ [] }
    ensures ok { OnOk result (vec_len bytes.new ≤ limit) }
    ensures whole { OnOk result (IfSome (S.remaining source.old) (λ text. bytes.new.items ≡ text)) }
    ensures too_long { IfErr result (λ end. end ≡ ShelfEnd.TooLong → vec_len bytes.new ≡ limit + 1) }
{
    let mut chunk = [0u8; 8192];
    'taking: while bytes.len() <= LIMIT {
        let most = chunk.len().min(LIMIT + 1 - bytes.len());
        match source.read(&mut chunk[..most]) {
            Ok(0) => return Ok(()),
            Ok(count) => bytes.extend_from_slice(&chunk[..count])?,
            Err(_) => return Err(ShelfEnd::Failed),
        }
    }
    Err(ShelfEnd::TooLong)
}

/// Appends the bytes of a file. A name that isn't UTF-8 names no file.
fn read_file<R: Files>(rt: &R, name: &[u8], bytes: &mut Vec<u8>) -> Result<(), ShelfEnd>
    requires { bytes.old.items ≡ [] }
    ensures ok { OnOk result (vec_len bytes.new ≤ limit) }
    ensures too_long { IfErr result (λ end. end ≡ ShelfEnd.TooLong → vec_len bytes.new ≡ limit + 1) }
{
    let path = str::from_utf8(name).ok().ok_or(ShelfEnd::Failed)?;
    let mut file = File::open(rt, path).ok().ok_or(ShelfEnd::Failed)?;
    read_all(&mut file, bytes)
}

impl<'a, R: Files> Shelf for FileShelf<'a, R> {
    ghost history = { λ s. history_of s.history };

    ghost holds = { λ _. None };

    fn read(&mut self, name: &[u8]) -> Result<usize, ShelfEnd> {
        self.history.ask(name)?;
        let mut bytes = Vec::new(self.history.alloc);
        let end = read_file(self.rt, name, &mut bytes);
        self.history.taken = bytes.len() as u64;
        if end == Err(ShelfEnd::Failed) {
            self.history.faults = self.history.faults.saturating_add(1);
        }
        end?;
        Ok(self.history.give(name, bytes)?)
    }

    fn text(&self, i: usize) -> &[u8] {
        self.history.given[i].1.as_slice()
    }
}
