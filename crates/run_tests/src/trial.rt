//! Runs over shelves and sinks in memory, for tests.
use example_texts::Texts;
use knox_edge::{MemShelf, MemSink};
use knox_run::{Status, Words, run};
use std::alloc::{AllocError, Global};

/// How a run ended, and what it wrote.
#[derive(Drop)]
pub(crate) struct Ran {
    pub(crate) status: Status,
    pub(crate) out: Vec<u8>,
    pub(crate) err: Vec<u8>,
}

impl Ran {
    /// Whether the run ended so, and wrote this alone: to `err` where nothing was answered, else to
    /// `out`.
    pub(crate) fn says(&self, status: Status, line: &[u8]) -> bool {
        let (told, silent) = match status {
            Status::Text | Status::Usage | Status::ReadFault | Status::NotYet => {
                (&self.err, &self.out)
            }
            _ => (&self.out, &self.err),
        };
        self.status == status && told.as_slice() == line && silent.is_empty()
    }
}

/// Texts with their names, as a shelf holds them.
pub(crate) fn held(
    alloc: Global,
    texts: &[(&[u8], &[u8])],
) -> Result<Vec<(Vec<u8>, Vec<u8>)>, AllocError> {
    let mut held = Vec::new(alloc);
    for (name, text) in texts {
        held.push((Vec::from_slice(alloc, name)?, Vec::from_slice(alloc, text)?))?;
    }
    Ok(held)
}

/// The words of a line, which single spaces part.
fn words_of(alloc: Global, line: &str) -> Result<Words, AllocError> {
    let mut items = Vec::new(alloc);
    for word in line.split(' ') {
        items.push(Vec::from_slice(alloc, word.as_bytes())?)?;
    }
    Ok(Words { items })
}

/// Runs the words of a line over a shelf, with an `out` and an `err` that fail at the puts of these
/// numbers and keep 2 bytes of such a piece, and 3.
pub(crate) fn run_line(
    alloc: Global,
    line: &str,
    mut shelf: MemShelf,
    out: Vec<u64>,
    err: Vec<u64>,
) -> Result<Ran, AllocError> {
    let words = words_of(alloc, line)?;
    let mut out = MemSink::new(alloc, out, 2);
    let mut err = MemSink::new(alloc, err, 3);
    let status = run(alloc, &words, &mut shelf, &mut out, &mut err);
    Ok(Ran {
        status,
        out: Vec::from_slice(alloc, out.written())?,
        err: Vec::from_slice(alloc, err.written())?,
    })
}

/// Verifies five texts, with an `out` that fails at these puts.
pub(crate) fn verify(alloc: Global, texts: Texts, fail: Vec<u64>) -> Result<Ran, AllocError> {
    let named = [
        (b"c".as_slice(), texts.c),
        (b"s".as_slice(), texts.s),
        (b"d".as_slice(), texts.d),
        (b"e".as_slice(), texts.e),
        (b"h".as_slice(), texts.h),
    ];
    let shelf = MemShelf::new(alloc, held(alloc, &named)?, Vec::new(alloc));
    run_line(alloc, "verify c s d e h", shelf, fail, Vec::new(alloc))
}

/// Five texts, how their run ends, and what it writes.
pub(crate) type Case = (Texts<'static>, Status, &'static [u8]);

/// The first case that ends in another way, or writes something else.
pub(crate) fn first_other(alloc: Global, cases: &[Case]) -> Result<Option<usize>, AllocError> {
    for (number, (texts, status, line)) in cases.iter().enumerate() {
        if !verify(alloc, *texts, Vec::new(alloc))?.says(*status, line) {
            return Ok(Some(number));
        }
    }
    Ok(None)
}
