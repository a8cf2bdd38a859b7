//! A store of rounds of one program.

ghost use Rattle.std.specs.Prelude.{◌≡◌, true};
ghost use Rattle.service.specs.Lanes.{tag_of, are_numbered};

use image_map::{Image, Settings};
use round_slots::Store;
use rounds::Round;

/// A thread's right to step on a shop's store.
pub type Seat = round_slots::Seat<Round>;

/// A program and its rounds. For each number of call sites that nodes keep, from 0 to 3, the store has one lane or none.
#[derive(Drop)]
pub struct Shop {
    pub image: Image,
    pub settings: Settings,
    pub store: Store<Round>,
    /// The store's lane for each number of call sites.
    pub lanes: [Option<u32>; 4],
    ghost tagged: { store.words.shared.key.tag.value ≡ tag_of image settings lanes },
    ghost numbered: { are_numbered 0 store.words.shared.key.lanes lanes ≡ true },
}
