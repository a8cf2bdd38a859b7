//! The argument on slices, over any machine and any map from its nodes to abstract states: where a few premises hold of each
//! single step, the backward slice of the map's graph lists each dependence of each execution. These are definitions and laws on
//! them, and no code.
#![tactic(auto)]

mod laws;

pub use laws::{
    Analysis, Layout, architecture_meets_laws, branches_control, complete_runs_escape,
    data_has_edges, dependences_are_arrows, dependences_are_chains, knows_states,
    live_procedures_have_nodes, passed_tables_are_clean, places_are_covered, premises_can_be_met,
    returns_home, rows_give_graph, runs_keep_slots, runs_meet_nodes, runs_walk,
    slices_list_dependences, states_are_whole, untouched_bytes_stay,
};
