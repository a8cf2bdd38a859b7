//! What is known of an executable once it is read: its segments, externs and symbols, and the names
//! that all later crates give to regions of memory.
#![tactic(auto)]

mod image;
mod name;
mod region;
mod spans;
mod symbols;
#[cfg(test)]
mod tests;

pub use image::{
    Extern, Image, PF_R, PF_W, PF_X, Segment, extern_address, memory_byte, segment_holding,
};
pub use name::Name;
pub use region::{Activation, Block, Cell, Kind, RegionId, Settings};
pub use spans::{Span, Spans};
pub use symbols::{SymbolPlace, Symbols};
