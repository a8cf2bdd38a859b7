//! What an instruction of the 32-bit Intel architecture will do, worked out without changing anything: the plan of its
//! effects. Whoever performs a plan first sees that all of it can be done.
#![tactic(auto, using(crate::proofs::ToldLemmas::told_bind, crate::proofs::RowLemmas::told_register, crate::proofs::RowLemmas::told_carry, crate::proofs::RowLemmas::told_address_of, crate::proofs::RowLemmas::told_store_to, crate::proofs::RowLemmas::told_condition, crate::proofs::RowLemmas::told_halves, crate::proofs::RowLemmas::told_quotient, crate::proofs::RowLemmas::told_immediate, crate::proofs::RowLemmas::told_extra))]

mod arithmetic;
mod control;
mod draws;
mod entries;
mod moves;
mod operands;
mod products;
mod rows;
mod stack;
mod state;
mod strings;
#[cfg(test)]
mod tests;
mod widths;
mod words;

pub use entries::{Calls, Effects, Entry, Plan};
pub use rows::plan;
pub use state::Core;
pub use words::{Read, Reads, Words};
