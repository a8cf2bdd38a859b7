//! Cells of memory with what they may hold, as rising lists: how two become one and are compared, each in one pass.
#![tactic(auto)]

mod below;
mod change;
mod map;
mod merge;
mod place;
mod regions;
mod same;

pub use change::Change;
pub use map::CellMap;
pub use merge::{has_length, held_by, of_both};
pub use regions::{Regions, Rule, Side, has_number, known_number};
pub use same::{Same, are_same, is_same_link};
