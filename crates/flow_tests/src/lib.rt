//! Tests of warnings and of targets of jumps. They stand apart because a crate that has tests is proved twice.
#![tactic(auto)]

#[cfg(test)]
mod tests;
