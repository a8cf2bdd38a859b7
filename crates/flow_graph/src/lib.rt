//! Flow graphs: what each instruction of a program may use and define, and where control goes from it.
//!
//! A graph says nothing of the machine: its places are numbers, and so are its nodes. The calls decide walks, one by one,
//! or 64 searches side by side in rows of bits.
#![tactic(auto)]

mod graph;
mod order;
mod rows;
mod walks;

pub use graph::{FlowGraph, FlowNode};
pub use order::sweep_order;
pub use rows::{begin, grow, met, word_at};
pub use walks::{is_on, walk};

#[cfg(test)]
mod tests;
