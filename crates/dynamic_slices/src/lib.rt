//! Dynamic slices of runs: the steps on which a step depends by last writes, directly or through others.
#![tactic(auto)]

mod laws;
mod marks;
mod slices;

pub use laws::dynamic_slice_laws;
pub use marks::depends_of;
pub use slices::{dynamic_slice, last_at};
