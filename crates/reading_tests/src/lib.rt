//! Tests of the crates that read files, words and instructions. They stand apart because a crate that has tests is proved twice.
#![tactic(auto)]

#[cfg(test)]
mod tests;
