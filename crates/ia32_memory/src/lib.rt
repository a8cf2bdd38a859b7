//! The bytes that a machine has under its addresses: those of its image, of its stack, and of the blocks that it was
//! given.
#![tactic(auto)]

mod elements;
mod memory;
mod reads;
mod spans;
#[cfg(test)]
mod tests;
mod writes;

pub use elements::Elements;
pub use memory::Memory;
