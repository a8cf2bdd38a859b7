//! Publishing a round's value, and pinning one.

ghost use Rattle.std.specs.Prelude.{◌≡◌, ℕ, ◌+◌, ◌<◌, true, false, None, Some};
ghost use Rattle.round_slots.specs.Rule.{AgreesWith};
ghost use Rattle.round_slots.specs.Seats.{Sits, Becomes, view_in, Pins};
ghost use Rattle.round_slots.specs.View.{next_word, published};

use crate::numbered::Numbered;
use crate::pin::{Pin, pinned};
use crate::rule::Advance;
use crate::slots::{enter_round, put};
use crate::store::{Seat, Store, Turn};
use round_core::Word;
use std::sync::Wait;

impl<T: Numbered + Drop> Store<T> {
    /// Ends the turn: puts the value into a slot that nobody reads, and has the lane's word name it. It waits for such a
    /// slot.
    pub fn publish<R: Wait>(&self, rt: &R, seat: &mut Seat<T>, turn: Turn, value: T)
        requires sits { Sits T.possible self.now.words.shared.table_id self.now.words.shared.key seat.old.place }
        requires lane { turn.lane < self.now.words.shared.key.lanes }
        requires turn { (view_in seat.old.place turn.lane).turn ≡ Some turn.word }
        requires belongs { T.belongs self.now.words.shared.key.tag.value turn.lane value }
        requires next { T.number value ≡ turn.word.round + 1 }
        ensures sits { Sits T.possible self.now.words.shared.table_id self.now.words.shared.key seat.new.place }
        ensures publishes { (slot : ℕ) × AgreesWith self.now.words.shared.key.seats turn.word (view_in seat.old.place turn.lane)
            × Becomes seat.old.place seat.new.place turn.lane (published (view_in seat.old.place turn.lane) turn.word (next_word turn.word slot)) }
        ensures ends { (view_in seat.new.place turn.lane).turn ≡ None }
        ensures pinned { seat.new.pinned ≡ seat.old.pinned }
    {
        let Turn { lane, word } = turn;
        let row = self.rows[lane as usize].as_slice();
        let slot = put(rt, row, word.slot, value);
        let next = Word {
            round: word.round + 1,
            claimed: false,
            slot,
        };
        self.words
            .shared
            .compare_exchange::<Advance<T>>(
                &mut seat.place,
                lane as usize,
                word.pack(),
                next.pack(),
            );
    }

    /// Pins the value of a round that a load of this call showed. It waits until a value that it enters is of the round
    /// that it loaded.
    pub fn pin<'a, R: Wait>(&'a self, rt: &R, seat: &mut Seat<T>, lane: u32) -> Pin<'a, T>
        requires sits { Sits T.possible self.now.words.shared.table_id self.now.words.shared.key seat.old.place }
        requires lane { lane < self.now.words.shared.key.lanes }
        requires unpinned { seat.old.pinned ≡ false }
        ensures sits { Sits T.possible self.now.words.shared.table_id self.now.words.shared.key seat.new.place }
        ensures pins { Pins self.now.words.shared.key seat.old.place seat.new.place lane (T.number result.shown.value) }
        ensures belongs { T.belongs self.now.words.shared.key.tag.value lane result.shown.value }
        ensures owner { result.owner.value ≡ seat.new.place }
        ensures pinned { seat.new.pinned ≡ true }
    {
        let row = self.rows[lane as usize].as_slice();
        for _ in rt.forever() {
            let word = self.look(seat, lane);
            if let Some(right) = enter_round(row, word) {
                let pin = pinned(right, &seat.place);
                seat.pinned = true;
                return pin;
            }
        }
        unreachable!()
    }
}
