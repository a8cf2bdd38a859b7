//! What the replies of sessions tell of runs.
#![tactic(auto)]

pub mod laws;
