//! Questions about a round of an analysis: which round is asked for, and the reply to each question.
#![tactic(auto)]

mod answer;
mod asked;
mod laws;
mod lists;
mod matched;
mod path;
mod question;

pub use answer::{Answer, NoAnswer, answer_to};
pub use asked::{Choice, NoRound, asked_round};
pub use laws::{replies_are_settled, rounds_end};
pub use question::Question;
