//! The cuts that facts about accesses force on the regions of memory: `close` lists them.
#![tactic(auto)]

mod closing;
mod facts;
mod known;
mod laws;
mod lists;
mod rows;
mod set;
mod spread;

pub use closing::close;
pub use facts::Constraint;
pub use laws::{carried_back, carried_inside, closed_lists_fit, cuts_lie_inside, least_cuts};
pub use lists::CutResult;

#[cfg(test)]
mod tests;
