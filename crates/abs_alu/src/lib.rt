//! What the operations of arithmetic, the shifts and the products give of value-sets and sets of flags.
#![tactic(auto)]

mod computed;
mod flags;
mod operands;
mod results;
#[cfg(test)]
mod tests;
mod words;

pub use operands::known;
pub use results::abs;
pub use words::number;
