//! The outside of a run: what it reads, where it writes, and the files that it loads and stores.
//!
//! Each object may tell its bytes, and counts its faults. An answer `Failed` comes only where the
//! count rose in that call, so code that is generic over these traits cannot give up by itself.
#![tactic(auto)]

mod calls;
mod entries;
mod file_shelf;
mod memory_shelf;
mod memory_sink;
mod memory_source;
mod shelf;
mod sink;
mod source;
mod stored;
mod stream;

pub use entries::has_distinct_names;
pub use file_shelf::FileShelf;
pub use memory_shelf::{MemoryShelf, SureShelf};
pub use memory_sink::{MemorySink, SureSink};
pub use memory_source::{MemorySource, SureSource};
pub use shelf::{Shelf, ShelfEnd};
pub use sink::{Sink, SinkEnd, write_all};
pub use source::{Failed, Source};
pub use stored::Stored;
pub use stream::{StreamSink, StreamSource};
