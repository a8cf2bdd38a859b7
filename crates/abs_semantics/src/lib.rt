//! Abstract states: what an analysis knows of a machine's state at a place of the program. Their parts, how two become one, and for
//! which states of the machine one stands. These are definitions and laws on them, and no code.
#![tactic(auto)]

mod laws;
mod parts;

pub use laws::{
    below_stands_for_no_more, cleared_cells_stand_for_more, joined_stands_for_first,
    joined_stands_for_second, memory_operands_are_members, range_reads_are_members,
    range_writes_keep_form, range_writes_stand_on, reads_are_members, reads_have_form,
    resolved_bytes_are_owned, slots_are_left, starts_have_states, unknown_writes_stand_on,
    widened_stands_for_new, widened_stands_for_old, writes_keep_form, writes_stand_on,
};
pub use parts::{CellValue, Known, Link, RangeValue, Reason};
