//! What calls, returns and allocations do to abstract states.
#![tactic(auto)]

mod blocks;
mod calls;
mod lists;
mod moving;
mod returns;
mod values;

pub use blocks::{allocate, give_block};
pub use calls::{Call, called};
pub use returns::returned;
