//! What a program reads from and writes to: a shelf of named texts and a sink for bytes.
//! Both count their faults, so that a caller can tell a failure from an excuse.
#![tactic(auto)]

mod files;
mod history;
mod memory;
mod shelf;
mod sink;
mod stream;

pub use files::FileShelf;
pub use memory::{MemShelf, MemSink};
pub use shelf::{LIMIT, Shelf, ShelfEnd};
pub use sink::{Sink, SinkEnd};
pub use stream::StreamSink;
