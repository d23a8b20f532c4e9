//! What a shelf keeps of its reads.
ghost use Rattle.std.specs.Prelude.{◌≡◌, [], ◌∷◌, ◌++◌, length, OnOk, OnErr, IfOk};
ghost use Rattle.knox_edge.specs.Texts.{unread, history_of};

use std::alloc::{AllocError, Global};

/// The names that were asked, the texts that were given, and two counts.
#[derive(Drop)]
pub struct History {
    pub alloc: Global,
    pub names: Vec<Vec<u8>>,
    pub given: Vec<(Vec<u8>, Vec<u8>)>,
    pub taken: u64,
    pub faults: u64,
}

impl History {
    /// No reads.
    pub fn new(alloc: Global) -> History
        ensures { history_of result ≡ unread }
    {
        History {
            alloc,
            names: Vec::new(alloc),
            given: Vec::new(alloc),
            taken: 0,
            faults: 0,
        }
    }

    /// Keeps a name that is asked, and begins to count the bytes that are taken. Want of memory leaves
    /// everything as it was.
    pub fn ask(&mut self, name: &[u8]) -> Result<(), AllocError>
        ensures ok { OnOk result (history_of self.new ≡ record (history_of self.old) { names = (history_of self.old).names ++ name.now ∷ []; taken = 0 }) }
        ensures err { OnErr result (history_of self.new ≡ history_of self.old) }
    {
        self.names.push(Vec::from_slice(self.alloc, name)?)?;
        self.taken = 0;
        Ok(())
    }

    /// Keeps a text that is given, and answers its place. Want of memory leaves everything as it was.
    pub fn give(&mut self, name: &[u8], bytes: Vec<u8>) -> Result<usize, AllocError>
        ensures place { IfOk result (λ place. place ≡ length (history_of self.old).given) }
        ensures ok { OnOk result (history_of self.new ≡ record (history_of self.old) { given = (history_of self.old).given ++ (name.now, bytes.items) ∷ [] }) }
        ensures err { OnErr result (history_of self.new ≡ history_of self.old) }
    {
        let place = self.given.len();
        self.given
            .push((Vec::from_slice(self.alloc, name)?, bytes))?;
        Ok(place)
    }
}
