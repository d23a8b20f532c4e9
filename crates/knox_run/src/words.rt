//! The words of the command line.
use std::alloc::Global;
use std::env::FillError;
use std::rt::Env;

/// The words after the program's name.
#[derive(Drop)]
pub struct Words {
    pub items: Vec<Vec<u8>>,
}

/// Why the system gave no words.
#[derive(Clone, Copy, Debug, PartialEq, Eq)]
pub enum NoWords {
    /// Memory ran out.
    Memory,
    /// A word fits no buffer.
    Refused,
}

/// The words that the program was started with, as bytes.
pub fn program_words<R: Env>(rt: &R, alloc: Global) -> Result<Words, NoWords> {
    let mut items = Vec::new(alloc);
    for place in 1..usize::MAX {
        match program_word(rt, alloc, place)? {
            Some(word) => items.push(word).map_err(|_| NoWords::Memory)?,
            None => break,
        }
    }
    Ok(Words { items })
}

/// The word at a place. The buffer doubles until the word fits.
fn program_word<R: Env>(rt: &R, alloc: Global, place: usize) -> Result<Option<Vec<u8>>, NoWords> {
    let mut capacity = 256usize;
    for _ in 0..usize::BITS {
        let mut bytes = Vec::new(alloc);
        bytes.resize(capacity, 0u8).map_err(|_| NoWords::Memory)?;
        match rt.arg(place, bytes.as_mut_slice()) {
            Ok(count) => {
                bytes.truncate(count);
                return Ok(Some(bytes));
            }
            Err(FillError::NotPresent) => return Ok(None),
            Err(FillError::TooLong) => capacity = capacity.saturating_mul(2),
        }
    }
    Err(NoWords::Refused)
}
