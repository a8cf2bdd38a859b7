//! That along walks on which returns go home to their calls a round without warnings tells of each run: each dependence is a matched edge or
//! a matched control, and the slice over those lists it. These are laws, and no code.
#![tactic(auto)]

mod laws;

pub use laws::{matched_slices_list_dependences, rounds_have_matched_arrows};
