//! Which instruction is fetched at an address of an image.
#![tactic(auto)]

mod fetch;

pub use fetch::{LONGEST_INSTRUCTION, code_byte, fetched};
