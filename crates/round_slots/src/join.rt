//! Making two seats one.

ghost use Rattle.std.specs.Prelude.{◌≡◌, false};
ghost use Rattle.round_slots.specs.Seats.{Sits, HasNoTurn};
ghost use Rattle.round_slots.specs.Joins.{joined};

use crate::numbered::Numbered;
use crate::rule::Merge;
use crate::store::{Seat, Store};

impl<T: Numbered + Drop> Store<T> {
    /// Ends the other seat. The seat then has what both have published; what it has seen of a lane is what the one saw
    /// that saw the later round, and its own where neither did.
    pub fn join(&self, seat: &mut Seat<T>, other: Seat<T>)
        requires sits { Sits T.possible self.now.words.shared.table_id self.now.words.shared.key seat.old.place }
        requires other_sits { Sits T.possible self.now.words.shared.table_id self.now.words.shared.key other.place }
        requires no_pin { other.pinned ≡ false }
        requires no_turn { HasNoTurn self.now.words.shared.key other.place }
        ensures sits { Sits T.possible self.now.words.shared.table_id self.now.words.shared.key seat.new.place }
        ensures joins { (seat.new.place.table_id ≡ seat.old.place.table_id) × (seat.new.place.id ≡ seat.old.place.id) × (seat.new.place.me.0 ≡ joined seat.old.place.me.0 other.place.me.0) }
        ensures pinned { seat.new.pinned ≡ seat.old.pinned }
    {
        let Seat { place, pinned: _ } = other;
        self.words.shared.join_seat::<Merge>(&mut seat.place, place);
    }
}
