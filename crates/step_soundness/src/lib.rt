//! That abstract steps cover the machine's: what they give of values holds what the machine gives, and an abstract state after a change
//! of registers and flags stands for the machine's state after the same change. These are laws, and no code.
#![tactic(auto)]

mod laws;

pub use laws::{
    addresses_are_held, choices_are_held, conditions_may_hold, extensions_are_held,
    freed_flags_stand, grown_pointers_are_held, learned_facts_stand, low_parts_are_held,
    operands_are_held, plain_steps_advance, plain_steps_keep_to_accesses, pushed_pointers_are_held,
    risen_pointers_are_held, saved_values_stand, second_bytes_are_held, signs_are_held,
    stepped_pointers_are_held, stored_operands_stand, truths_are_held, written_directions_stand,
    written_flags_stand, written_parts_are_held, written_registers_stand,
};
