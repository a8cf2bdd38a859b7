//! Values that are published by turns and read without locks.
//!
//! A [`Store`] has one to four lanes. Each lane has a word, which names the lane's round and the slot that holds its
//! value, and as many slots as the store has seats and two more. A thread steps with its [`Seat`]: it claims the next
//! round and publishes its value, or it pins the value of a round and reads it as long as it likes.
//!
//! What a seat has seen and published is its view ([`Known`]), which contracts alone read: each call says how it changes.
//! `load`, `claim`, `give_up`, `publish`, `pin` and [`Pin::leave`] take no memory and no lock.
//!
//! Nothing is said of progress: `publish` and `pin` end only if another thread doesn't take each slot before them, over
//! and over. That a slot is always free for the one that publishes is a law of `round_core`'s machine, and only tested
//! here.
#![tactic(auto)]

mod join;
mod make;
mod numbered;
mod pin;
mod rounds;
mod rule;
mod slots;
mod store;
#[cfg(test)]
mod tests;
mod view;
mod words;

pub use numbered::Numbered;
pub use pin::Pin;
pub use store::{ClaimRefused, Front, Seat, Store, Turn};
pub use view::{Key, Known, LaneTag, LaneView};
