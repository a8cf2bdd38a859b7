//! Sweeps over a map from places to abstract states, for any domain of states: growing ones with widening until nothing changes, then
//! shrinking ones, and the check that a map is closed.
//!
//! The domain says what the places and states are ([`Domain`]). A growing sweep works out anew only what may have changed.
#![tactic(auto)]

mod closed;
mod domain;
mod growing;
mod kept;
mod row;
mod shrinking;
mod whole;

pub use closed::is_closed;
pub use domain::Domain;
pub use row::Row;
pub use whole::{Swept, sweep_all};

#[cfg(test)]
mod tests;
