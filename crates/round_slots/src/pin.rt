//! A value that a seat has pinned.

ghost use Rattle.std.specs.Prelude.{◌≡◌, ◌<◌, false, Some};
ghost use Rattle.std.specs.Coded.{Coded-set};
ghost use Rattle.round_slots.specs.Rows.{Shows, Shows-prop};

use crate::numbered::Numbered;
use crate::slots::Right;
use crate::store::Seat;
use crate::view::Known;
use atomic_table as table;
use std::snapshot::Snapshot;

/// A round's value, which stays as it is until the seat that pinned it leaves it. It can't be dropped: end it by `leave`.
pub struct Pin<'a, T: Numbered> {
    right: Right<'a, T>,
    /// The value, for contracts.
    pub shown: Snapshot<T>,
    /// The seat that pinned it, as it was then.
    pub owner: Snapshot<table::Seat<(), Option<Known<T::Tag>>>>,
    ghost reads: { right.right ≡ 1 },
    ghost shows: { Shows right.value shown.value } by { Shows-prop (Coded-set T.code) right.value shown.value },
}

/// Makes a pin of the value that the right is for.
pub(crate) fn pinned<'a, T: Numbered>(
    right: Right<'a, T>,
    place: &table::Seat<(), Option<Known<T::Tag>>>,
) -> Pin<'a, T>
    requires reads { right.right ≡ 1 }
    requires shows { (x : T) × Shows right.value x }
    ensures shows { Shows right.entry.value result.shown.value }
    ensures owner { result.owner.value ≡ place.now }
{
    let shown = match right.get() {
        Some(held) => Snapshot::of(&held.0),
        None => unreachable!(),
    };
    let owner = Snapshot::of(place);
    Pin {
        right,
        shown,
        owner,
    }
}

impl<'a, T: Numbered> Pin<'a, T> {
    /// The value.
    pub fn value(&self) -> &T
        ensures { result.now ≡ self.now.shown.value }
    {
        match self.right.get() {
            Some(held) => &held.0,
            None => unreachable!(),
        }
    }

    /// The number of the value's round.
    pub fn round(&self) -> u32
        ensures { result ≡ T.number self.now.shown.value }
    {
        self.value().round()
    }

    /// Ends the reading.
    pub fn leave(self, seat: &mut Seat<T>)
        requires owner { (self.owner.value.table_id ≡ seat.old.place.table_id) × (self.owner.value.id ≡ seat.old.place.id) }
        ensures place { seat.new.place ≡ seat.old.place }
        ensures unpinned { seat.new.pinned ≡ false }
    {
        let Self {
            right,
            shown: _,
            owner: _,
        } = self;
        right.leave();
        seat.pinned = false;
    }
}
