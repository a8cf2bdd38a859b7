//! What a register or a cell may hold: every value, or strided intervals of offsets in regions of memory.
#![tactic(auto)]

mod ages;
mod facts;
mod joins;
mod part;
mod sums;
#[cfg(test)]
mod tests;
mod value;

pub use facts::{AbsFlags, CmpFact, CmpPlace};
pub use joins::{is_same_interval, is_same_part};
pub use part::{Both, Part};
pub use value::ValueSet;
