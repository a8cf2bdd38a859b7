//! That each abstract state of a map has the form that the analysis keeps. These are laws, and no code.
#![tactic(auto)]

mod laws;

pub use laws::{
    instructions_are_spelled, instructions_keep_form, joins_have_form, maps_have_forms,
    starts_have_bytes, starts_have_form, successors_have_form, topped_states_have_form,
    widenings_have_form,
};
