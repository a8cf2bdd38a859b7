//! Makes programs of chance: a frame, and instructions that words of a seed tell.
#![tactic(auto)]

mod file;
mod items;
mod laws;

pub use file::make_image;
pub use items::next_word;
pub use laws::made_programs_have_entries;

#[cfg(test)]
mod tests;
