//! Tests of replies to questions about rounds. They stand apart because a crate that has tests is proved twice.
#![tactic(auto)]

#[cfg(test)]
mod tests;
