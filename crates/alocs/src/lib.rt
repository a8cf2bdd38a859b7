//! The cells of a region of memory: how cuts divide it, which cell has an offset, and which cells a range touches.
#![tactic(auto)]

mod cells;
mod extents;
mod touching;

pub use cells::{Cells, CutList};
pub use extents::{Extent, extent_of, home};

#[cfg(test)]
mod tests;
