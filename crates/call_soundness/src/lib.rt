//! That each step of the machine from a state that an analysis knows is one of its own: control goes to a successor of the node, whose
//! abstract state stands for the state. These are laws, and no code.
#![tactic(auto)]

mod laws;

pub use laws::{
    abstract_steps_are_met, allocated_states_stand, answers_are_rows, answers_keep_to_accesses,
    called_states_stand, calls_are_rows, control_steps_keep_to_accesses, externs_stand,
    fetched_instructions_stand, returned_states_stand, returns_are_rows, slots_stay,
    staying_steps_are_rows, steps_are_rows, steps_move_bytes,
};
