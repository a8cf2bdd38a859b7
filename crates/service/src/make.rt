//! Making a shop.

ghost use Rattle.std.specs.Prelude.{◌≡◌, ◌≢◌, ◌≤◌, ◌↔◌, ℕ, IfOk, true, false, length, slice_index_or};
ghost use Rattle.std.specs.List.{All};
ghost use Rattle.image_map.specs.CallModel.{AreSettings};
ghost use Rattle.image_map.specs.Whole.{IsImage};
ghost use Rattle.round_slots.specs.Ends.{AreFirst};
ghost use Rattle.round_slots.specs.View.{first_view};
ghost use Rattle.rounds.specs.Tags.{BelongsTo};
ghost use Rattle.service.specs.Lanes.{tag_of, are_numbered, AreWanted};
ghost use Rattle.service.specs.Seats.{key_of, IsReady};

use crate::shop::{Seat, Shop};
use image_map::{Image, Settings};
use round_slots::Store;
use rounds::{Round, RoundTag, first};
use std::alloc::{AllocError, Global};

/// Round 0 for each number of call sites that is wanted, and the lane that it has in their order.
struct Openings {
    rounds: Vec<Round>,
    lanes: [Option<u32>; 4],
}

fn open(
    alloc: Global,
    image: &Image,
    settings: &Settings,
    wanted: [bool; 4],
) -> Result<Openings, AllocError>
    requires image { IsImage image.now }
    requires settings { AreSettings (length image.now.externs) settings.now }
    ensures first { IfOk result (λ o. AreFirst BelongsTo (λ r. r.number) (tag_of image.now settings.now o.lanes) 0 o.rounds.items) }
    ensures numbered { IfOk result (λ o. are_numbered 0 (length o.rounds.items) o.lanes ≡ true) }
    ensures few { IfOk result (λ o. length o.rounds.items ≤ 4) }
    ensures wanted { IfOk result (λ o. AreWanted wanted o.lanes) }
{
    let mut rounds = Vec::new(alloc);
    let mut lanes = [None; 4];
    for sites in 0..4 {
        if wanted[sites] {
            lanes[sites] = Some(rounds.len() as u32);
            rounds.push(first(alloc, image, settings, sites as u32)?)?;
        }
    }
    Ok(Openings { rounds, lanes })
}

impl Shop {
    /// A shop with round 0 for each number of call sites, from 0 to 3, that is wanted; and its seats.
    ///
    /// # Errors
    /// Where memory is wanting.
    pub fn make(
        alloc: Global,
        image: Image,
        settings: Settings,
        wanted: [bool; 4],
        seats: u32,
    ) -> Result<(Shop, Vec<Seat>), AllocError>
        requires image { IsImage image }
        requires settings { AreSettings (length image.externs) settings }
        requires some_lane { (k : ℕ) × (slice_index_or wanted k false ≡ true) }
        requires some_seat { 1 ≤ seats }
        requires few_seats { seats ≤ 12 }
        ensures program { IfOk result (λ made. (made.0.image ≡ image) × (made.0.settings ≡ settings)) }
        ensures lanes { IfOk result (λ made. AreWanted wanted made.0.lanes) }
        ensures count { IfOk result (λ made. length made.1.items ≡ seats) }
        ensures fresh { IfOk result (λ made. All (λ seat. IsReady made.0 seat.place seat.pinned × (seat.place.me.0 ≡ first_view (key_of made.0))) made.1.items) }
    {
        let Openings { rounds, lanes } = open(alloc, &image, &settings, wanted)?;
        let tag = RoundTag {
            image,
            settings,
            lanes,
        };
        let (store, seats) = Store::make(alloc, rounds, seats, &tag)?;
        let RoundTag {
            image,
            settings,
            lanes,
        } = tag;
        let shop = Shop {
            image,
            settings,
            store,
            lanes,
        };
        Ok((shop, seats))
    }
}
