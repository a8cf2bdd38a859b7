//! A `Vec` that contracts see as the list of its elements, and the lemmas that crates share and the standard library lacks.
#![tactic(auto)]

mod items;

pub use items::Items;

#[cfg(test)]
mod tests;
