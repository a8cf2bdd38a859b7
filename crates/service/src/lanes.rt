//! The lanes of a shop.

ghost use Rattle.std.specs.Prelude.{◌≡◌, ◌<◌, ◌≤◌, Some};
ghost use Rattle.service.specs.Seats.{HasLane, store_lane};

use crate::shop::Shop;

impl Shop {
    /// The store's lane of the rounds whose nodes keep so many call sites.
    pub(crate) fn lane_of(&self, sites: u32) -> u32
        requires { HasLane self.now sites }
        ensures lane { store_lane self.now sites ≡ Some result }
        ensures within { result < self.now.store.words.shared.key.lanes }
    {
        match self.lanes.get(sites as usize) {
            Some(Some(lane)) => *lane,
            _ => unreachable!(),
        }
    }

    /// How many lanes the store has.
    pub(crate) fn lane_count(&self) -> u32
        ensures lanes { result ≡ self.now.store.words.shared.key.lanes }
        ensures few { result ≤ 4 }
    {
        self.store.words.word_count() as u32
    }
}
