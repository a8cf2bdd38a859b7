//! That what a round without warnings tells holds of each run of the program: its states, its graph, its slices and its chops. These are
//! laws, and no code.
#![tactic(auto)]

mod laws;

pub use laws::{
    checks_agree, maps_without_warnings_are_clean, rounds_cover_places, rounds_describe_runs,
    rounds_have_arrows, rounds_keep_states_whole, rounds_know_states, rounds_list_dependences,
    rounds_return_home, rounds_tell_ways,
};
