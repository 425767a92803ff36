//! Where a replay reads its capture and where it writes: three traits, which may tell their bytes and always count their
//! faults. Those over memory tell all; a source or sink over a reader or writer tells what that tells, which of the
//! system's is nothing. `FileShelf` is a shelf over the files of the current folder, the edge at which a replay's streams
//! leave the program. Begin with `traits.rt`.
#![tactic(auto)]

mod calls;
mod files;
mod mem_shelf;
mod mem_sink;
mod mem_source;
mod send;
mod shelf;
mod std_sink;
mod std_source;
mod sure_source;
mod traits;

pub use mem_shelf::MemShelf;
pub use mem_sink::MemSink;
pub use mem_source::MemSource;
pub use shelf::{FileShelf, Lost};
pub use std_sink::StdSink;
pub use std_source::StdSource;
pub use sure_source::SureSource;
pub use traits::{Failed, Shelf, Sink, Source};
