//! Which step of a run wrote what stands at each address last.
#![tactic(auto)]

mod spans;
#[cfg(test)]
mod tests;
mod writers;

pub use spans::Written;
pub use writers::LastWriters;
