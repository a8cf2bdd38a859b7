//! What contracts read of a store and of its seats.

use round_core::Word;
use std::snapshot::Snapshot;

/// What a seat says of one lane. No value of it is made.
pub struct LaneView {
    /// The words that the seat's steps read or wrote, oldest first.
    pub seen: [Word; 0],
    /// The numbers of the rounds that the seat published.
    pub made: [u64; 0],
    /// The word as the seat claimed it, while it has a turn.
    pub turn: Option<Word>,
}

/// What a seat says of its store. No value of it is made.
pub struct Known<G> {
    pub tag: G,
    pub seats: u64,
    pub lanes: [LaneView; 0],
}

/// What was fixed when a store was made: its values' tag, and how many seats and lanes it has.
#[derive(Drop)]
pub struct Key<G> {
    pub tag: Snapshot<G>,
    pub seats: u32,
    pub lanes: usize,
}

/// The tag and the lane that the values of a slot belong to.
#[derive(Drop)]
pub struct LaneTag<G> {
    pub tag: Snapshot<G>,
    pub lane: u32,
}
