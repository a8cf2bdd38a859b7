//! Where control goes from a node with an abstract state, with which abstract states, and what can't be followed there.
#![tactic(auto)]

mod branches;
mod contents;
mod externs;
mod flow;
mod returning;
mod site;
mod stack;
mod target_lists;
mod warnings;
mod written;

pub use branches::side;
pub use contents::{Content, content_at, is_place};
pub use flow::successors;
pub use returning::may_have_led;
pub use site::{Placed, Program, Site};
pub use target_lists::{followed, known_targets, targets};
pub use warnings::warns;
