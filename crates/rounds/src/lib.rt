//! Rounds of an analysis: each has cells of memory, abstract states, a flow graph and warnings, and its accesses tell the next one where to
//! cut.
#![tactic(auto)]

pub mod laws;
mod making;
mod next_cuts;
mod numbered;
mod placing;
mod round;
mod same;

pub use making::{first, next};
pub use numbered::RoundTag;
pub use round::Round;
