//! The arithmetic of the 32-bit Intel architecture at 8, 16 and 32 bits: what operations give, what they do
//! to the flags, and what parts of a register are read and written.
#![tactic(auto)]

mod arithmetic;
mod bits;
mod condition;
mod division;
mod parts;
mod product;
mod shifts;
#[cfg(test)]
mod tests;

pub use arithmetic::alu;
pub use condition::holds;
pub use division::divide;
pub use parts::{low_part, with_part, with_second_byte};
pub use product::mul;
pub use shifts::shift;
