//! Value-set analysis: which abstract states hold at the nodes of a program, found by sweeps over all of them, and the check of what
//! was found.
#![tactic(auto)]

mod checking;
mod domain;
pub mod laws;
mod states;
mod sweep;
mod table;
mod topped;
mod warning;

pub use checking::check;
pub use states::States;
pub use sweep::sweep_all;
pub use table::Tabled;
pub use warning::Warning;
