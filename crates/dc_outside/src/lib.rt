//! What the program meets outside itself: a shelf of files that the words name, and sinks of bytes.
//!
//! Faults are counted by the outside alone, so no code can answer a fault that didn't happen.
#![tactic(auto)]

pub mod laws;
mod memory_shelf;
mod memory_sink;
mod shelf;
mod sink;

pub use memory_shelf::MemoryShelf;
pub use memory_sink::MemorySink;
pub use shelf::{ReadAll, Shelf, ShelfFault, read_all};
pub use sink::{Sink, SinkFault, write_all};
