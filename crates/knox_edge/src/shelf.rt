//! Where texts come from, by name.
ghost use Rattle.std.specs.Prelude.{◌≡◌, ◌+◌, ◌<◌, length, Option, Some, slice_get, IfSome, option_map};
ghost use Rattle.knox_edge.specs.{Texts.Reads, declared.shelf.ShelfEnd.TheVariants.Memory};
ghost use Rattle.knox_edge.specs.Shelf.{Holding, answer_of, AnswersAs, Gives, Asks, CountsFault, TookTooMuch};

use std::alloc::AllocError;
use thiserror::Error;

/// How many bytes a text may have.
pub const LIMIT: usize = 67_108_864;

/// Why a read gave no text.
#[derive(Clone, Copy, Debug, PartialEq, Eq, Error)]
pub enum ShelfEnd {
    /// The text could not be read, and the shelf counted a fault.
    #[error("the text could not be read")]
    Failed,
    /// The text has more than 67,108,864 bytes.
    #[error("the text has more than 67108864 bytes")]
    TooLong,
    /// Memory ran out. This says nothing of the text.
    #[error("memory ran out")]
    Memory,
}

impl From<AllocError> for ShelfEnd {
    ghost from_gives = { λ _ end. end ≡ Memory };

    fn from(_e: AllocError) -> ShelfEnd {
        ShelfEnd::Memory
    }
}

/// Texts by name. A shelf keeps every name that was asked and every text that it gave.
pub trait Shelf {
    /// What the reads have asked, given and taken, and how many have failed.
    ghost history: { Self → Reads };

    /// What is held, where it is told.
    ghost holds: { Self → Option Holding };

    /// Reads the text with this name, and answers its place among those that were given.
    fn read(&mut self, name: &[u8]) -> Result<usize, ShelfEnd>
        ensures asks { Asks name.now result (history self.old).names (history self.new).names }
        ensures gives { Gives name.now result (history self.new).taken (history self.old).given (history self.new).given }
        ensures faults { CountsFault result (history self.old).faults (history self.new).faults }
        ensures too_long { TookTooMuch result (history self.new).taken }
        ensures holds { holds self.new ≡ holds self.old }
        ensures told { IfSome (holds self.old) (λ h. AnswersAs (answer_of h (length (history self.old).names + 1) name.now) name.now result (history self.old).given (history self.new).given) };

    /// The bytes of a text that was given, by its place.
    fn text(&self, i: usize) -> &[u8]
        requires { i < length (history self.now).given }
        ensures { option_map (λ e. e.1) (slice_get (history self.now).given i) ≡ Some result.now };
}
