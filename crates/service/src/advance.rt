//! Making the round behind a pinned one, and publishing it.

ghost use Rattle.std.specs.Prelude.{◌≡◌, ℕ, ◌+◌, ◌<◌, IsTrue, IfOk, IfErr, MatchResult, None, Some, length};
ghost use Rattle.image_map.specs.CallModel.{AreSettings};
ghost use Rattle.image_map.specs.Whole.{IsImage};
ghost use Rattle.round_slots.specs.Rule.{AgreesWith};
ghost use Rattle.round_slots.specs.Seats.{Becomes, HasNoTurn, view_in};
ghost use Rattle.round_slots.specs.View.{next_word, unmarked, published, gave_up};
ghost use Rattle.rounds.specs.Tags.{BelongsTo};
ghost use Rattle.service.specs.Seats.{key_of, SitsIn, IsReady};
ghost use Rattle.service.specs.Steps.{Publishes, LooksOn};
ghost use Rattle.service.specs.Advances.{Advances};

use crate::shop::{Seat, Shop};
use round_slots::{Pin, Turn};
use rounds::{Round, next};
use std::alloc::{AllocError, Global};
use std::sync::Wait;

/// A pinned round, and its lane of the store.
pub(crate) struct Held<'a> {
    pub(crate) lane: u32,
    pub(crate) pin: Pin<'a, Round>,
}

/// What came of trying to publish the round behind a pinned one.
#[derive(Clone, Copy, Debug)]
pub(crate) enum Advance {
    /// The round of this number was published.
    Published(u32),
    /// The pinned round, of this number, is the last.
    Settled(u32),
    /// Another seat makes the round behind it, or has published it.
    Refused,
}

impl Shop {
    // Makes the round behind this one, and publishes it or gives the turn up.
    fn publish_next<R: Wait>(
        &self,
        rt: &R,
        alloc: Global,
        seat: &mut Seat,
        turn: Turn,
        r: &Round,
    ) -> Result<u32, AllocError>
        requires sits { SitsIn self.now seat.old.place }
        requires lane { turn.lane < (key_of self.now).lanes }
        requires turn { (view_in seat.old.place turn.lane).turn ≡ Some turn.word }
        requires belongs { BelongsTo (key_of self.now).tag.value turn.lane r.now }
        requires round { turn.word.round ≡ r.now.number }
        requires more { ¬ IsTrue r.now.last }
        requires image { IsImage self.now.image }
        requires settings { AreSettings (length self.now.image.externs) self.now.settings }
        ensures sits { SitsIn self.now seat.new.place }
        ensures agrees { AgreesWith (key_of self.now).seats turn.word (view_in seat.old.place turn.lane) }
        ensures publishes { IfOk result (λ n. (n ≡ r.now.number + 1) × ((slot : ℕ) × Becomes seat.old.place seat.new.place turn.lane (published (view_in seat.old.place turn.lane) turn.word (next_word turn.word slot)))) }
        ensures gives_up { IfErr result (λ _. Becomes seat.old.place seat.new.place turn.lane (gave_up (view_in seat.old.place turn.lane) turn.word (unmarked turn.word))) }
        ensures pinned { seat.new.pinned ≡ seat.old.pinned }
    {
        match next(alloc, &self.image, &self.settings, r) {
            Ok(round) => {
                let number = round.number;
                self.store.publish(rt, seat, turn, round);
                Ok(number)
            }
            Err(error) => {
                self.store.give_up(seat, turn);
                Err(error)
            }
        }
    }

    /// Publishes the round behind a pinned one, unless that is the last or another seat is before this one; and lets the
    /// pinned round go.
    ///
    /// # Errors
    /// Where memory is wanting. Nothing is published then.
    pub(crate) fn advance<R: Wait>(
        &self,
        rt: &R,
        alloc: Global,
        seat: &mut Seat,
        held: Held<'_>,
    ) -> Result<Advance, AllocError>
        requires sits { SitsIn self.now seat.old.place }
        requires no_turn { HasNoTurn (key_of self.now) seat.old.place }
        requires lane { held.lane < (key_of self.now).lanes }
        requires belongs { BelongsTo (key_of self.now).tag.value held.lane held.pin.shown.value }
        requires owner { (held.pin.owner.value.table_id ≡ seat.old.place.table_id) × (held.pin.owner.value.id ≡ seat.old.place.id) }
        requires image { IsImage self.now.image }
        requires settings { AreSettings (length self.now.image.externs) self.now.settings }
        ensures ready { IsReady self.now seat.new.place seat.new.pinned }
        ensures advances { MatchResult result (λ a. Advances seat.old.place seat.new.place held.entry.lane held.entry.pin.shown.value a) (λ _. LooksOn seat.old.place seat.new.place held.entry.lane) }
    {
        let Held { lane, pin } = held;
        let number = pin.round();
        if pin.value().last {
            pin.leave(seat);
            return Ok(Advance::Settled(number));
        }
        match self.store.claim(seat, lane, number) {
            Ok(turn) => {
                let made = self.publish_next(rt, alloc, seat, turn, pin.value());
                pin.leave(seat);
                match made {
                    Ok(number) => Ok(Advance::Published(number)),
                    Err(error) => Err(error),
                }
            }
            Err(_) => {
                pin.leave(seat);
                Ok(Advance::Refused)
            }
        }
    }
}
