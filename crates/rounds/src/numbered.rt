//! Rounds as the values of a store.

use crate::round::Round;
use image_map::{Image, Settings};
use round_slots::Numbered;

/// What the rounds of a store have in common. Only contracts read it.
#[derive(Drop)]
pub struct RoundTag {
    pub image: Image,
    pub settings: Settings,
    /// The store's lane for rounds whose nodes keep 0, 1, 2 or 3 call sites, where it has one.
    pub lanes: [Option<u32>; 4],
}

impl Numbered for Round {
    type Tag = RoundTag;

    ghost use Rattle.std.proofs.Common.{refl};
    ghost use Rattle.rounds.specs.Tags.{BelongsTo, HasNumber};

    ghost belongs = { BelongsTo };

    ghost possible = { HasNumber };

    ghost number = { λ r. r.number };

    fn round(&self) -> u32 {
        self.number
    }

    ghost belongs_to_possible = { λ tag lane r b. (r, b, refl) };
}
