//! Strided intervals of signed 32-bit numbers: `stride[lo, hi]` is lo, lo + stride and so on, up to hi.
//!
//! Each operation answers the interval of its formula, which holds every result of the processor's
//! operation on members. No call takes memory.
#![tactic(auto)]

mod arithmetic;
mod bounds;
mod interval;
mod joins;
mod laws;
mod sums;

pub use interval::Si;
pub use laws::interval_order;

#[cfg(test)]
mod tests;
