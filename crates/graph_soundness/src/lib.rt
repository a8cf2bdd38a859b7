//! That the flow graph which the accesses of a map give describes each run of the machine: the sets of a node cover what is read and
//! written there, and its steps are those of the map. These are definitions and laws, and no code.
#![tactic(auto)]

mod laws;

pub use laws::{
    bytes_move, closed_maps_are_clean, cores_are_covered, graphs_are_of_maps, graphs_describe,
    places_are_covered, reaches_are_formed, reads_are_covered, sets_are_of_accesses,
    slices_of_graphs_list_dependences, sure_bytes_are_written, writes_are_covered,
    written_bytes_have_cells,
};
