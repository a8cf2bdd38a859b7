//! Several programs in one run: the list of their files, how refiners are shared out, and what a script asks of each. All of
//! it is the project's own.
#![tactic(auto)]

mod list;
mod parts;
mod sharing;
#[cfg(test)]
mod tests;

pub use list::{ListError, read_list};
pub use parts::part;
pub use sharing::shares;
