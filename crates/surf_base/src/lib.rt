//! The outside of the program: where its bytes come from and where its text goes, as two traits with counts of faults;
//! both in memory, for tests; and the hexadecimal digits of every text.
#![tactic(auto)]

mod calls;
mod hex;
mod memory_shelf;
mod memory_sink;
mod shelf;
mod sink;

pub use hex::hex8;
pub use memory_shelf::MemoryShelf;
pub use memory_sink::MemorySink;
pub use shelf::{Shelf, ShelfError};
pub use sink::{Sink, SinkFailed, write_lines};

#[cfg(test)]
mod tests;
