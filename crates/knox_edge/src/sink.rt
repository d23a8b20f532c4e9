//! Where bytes go, piece by piece.
ghost use Rattle.std.specs.Prelude.{◌≡◌, IfSome, [], Ok, IsOk};
ghost use Rattle.knox_edge.specs.Sink.{Sunk, Writes, KeepsFirst, CountsFault, CountedWhereTold};

use thiserror::Error;

/// Why a piece was not put.
#[derive(Clone, Copy, Debug, PartialEq, Eq, Error)]
pub enum SinkEnd {
    /// The piece could not be written, and the sink counted a fault.
    #[error("the bytes could not be written")]
    Failed,
    /// Memory ran out. This says nothing of the sink.
    #[error("memory ran out")]
    Memory,
}

/// Takes pieces of bytes.
pub trait Sink {
    /// What was written, how many puts have failed, and which ones fail.
    ghost told: { Self → Sunk };

    /// Writes a piece. One without bytes is always put, and is not counted.
    fn put(&mut self, piece: &[u8]) -> Result<(), SinkEnd>
        ensures writes { Writes piece.now result (told self.old).written (told self.new).written }
        ensures kept { IfSome (told self.old).keeps (λ kept. KeepsFirst kept piece.now result (told self.old).written (told self.new).written) }
        ensures faults { CountsFault result (told self.old).faults (told self.new).faults }
        ensures counted { CountedWhereTold piece.now result (told self.old).fails (told self.new).fails }
        ensures keeps { (told self.new).keeps ≡ (told self.old).keeps }
        ensures empty { piece.now ≡ [] → IsOk result };
}
