//! The protocol by which rounds are claimed, published, read and reclaimed: a pure machine over events.
//!
//! Each lane has a word that names its newest round and the slot that holds it, and each seat is a thread's place. One
//! event is one atomic action of one seat. [`Core`] keeps the state and allows an event exactly where the protocol does;
//! the functions of `laws` say what holds over every list of events.
#![tactic(auto)]

mod event;
mod lane;
mod laws;
mod machine;
mod readers;
mod word;

pub use event::Event;
pub use laws::{
    claimer_alone_changes_word, free_slot_for_claimer, loaded_word_is_no_newer,
    read_slot_keeps_round, reader_after_load_has_pinned, word_rises_at_publish,
};
pub use machine::{Core, MAX_LANES};
pub use readers::MAX_SEATS;
pub use word::Word;
