//! That the machine has runs with dependences: two complete runs of a small program with a call, a loop, memory and an extern. These are
//! laws, and no code.
#![tactic(auto)]

mod laws;

pub use laws::runs_have_dependences;
