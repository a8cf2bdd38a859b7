//! The request for the next round.

ghost use Rattle.std.specs.Prelude.{◌≡◌, MatchResult, length};
ghost use Rattle.image_map.specs.CallModel.{AreSettings};
ghost use Rattle.image_map.specs.Whole.{IsImage};
ghost use Rattle.service.specs.Seats.{HasLane, IsReady};
ghost use Rattle.service.specs.Steps.{Watches, IsStepReply};
ghost use Rattle.service.specs.Ends.{EndsWith};

use crate::advance::{Advance, Held};
use crate::gate::{Gate, Point};
use crate::session::{Reply, Session};
use crate::shop::Shop;
use crate::short::{settled, stepped};
use std::alloc::{AllocError, Global};
use std::sync::Wait;

/// How a step ends.
#[derive(Clone, Copy, Debug)]
pub(crate) enum End {
    /// The round of this number was published.
    Published(u32),
    /// The round of this number is the last.
    Settled(u32),
}

impl Session {
    // Tries to publish the lane's next round until it has, or the lane's round is the last.
    fn settle<R: Wait, G: Gate>(
        &mut self,
        rt: &R,
        alloc: Global,
        shop: &Shop,
        gate: &G,
    ) -> Result<End, AllocError>
        requires ready { IsReady shop.now self.old.seat.place self.old.seat.pinned }
        requires lane { HasLane shop.now self.old.lane }
        requires image { IsImage shop.now.image }
        requires settings { AreSettings (length shop.now.image.externs) shop.now.settings }
        ensures ready { IsReady shop.now self.new.seat.place self.new.seat.pinned }
        ensures same { (self.new.number ≡ self.old.number) × (self.new.lane ≡ self.old.lane) }
        ensures ends { MatchResult result (EndsWith shop.now self.old.lane self.old.seat.place self.new.seat.place) (λ _. Watches shop.now self.old.lane self.old.seat.place self.new.seat.place) }
    {
        let lane = shop.lane_of(self.lane);
        let mut is_told = false;
        for _ in rt.forever() {
            let pin = shop.store.pin(rt, &mut self.seat, lane);
            if !is_told {
                gate.pass(self.place(Point::Pinned));
                is_told = true;
            }
            match shop.advance(rt, alloc, &mut self.seat, Held { lane, pin }) {
                Ok(Advance::Published(number)) => return Ok(End::Published(number)),
                Ok(Advance::Settled(number)) => return Ok(End::Settled(number)),
                Ok(Advance::Refused) => {}
                Err(error) => return Err(error),
            }
        }
        unreachable!()
    }

    /// Publishes the lane's next round, unless the lane's round is the last.
    ///
    /// # Errors
    /// Where memory is wanting. Nothing is published then.
    pub(crate) fn step<R: Wait, G: Gate>(
        &mut self,
        rt: &R,
        alloc: Global,
        shop: &Shop,
        gate: &G,
    ) -> Result<Reply, AllocError>
        requires ready { IsReady shop.now self.old.seat.place self.old.seat.pinned }
        requires lane { HasLane shop.now self.old.lane }
        requires image { IsImage shop.now.image }
        requires settings { AreSettings (length shop.now.image.externs) shop.now.settings }
        ensures ready { IsReady shop.now self.new.seat.place self.new.seat.pinned }
        ensures same { (self.new.number ≡ self.old.number) × (self.new.lane ≡ self.old.lane) }
        ensures replies { MatchResult result (λ reply. (reply.lane ≡ self.old.lane) × IsStepReply shop.now self.old.lane self.old.seat.place self.new.seat.place reply.round self.new.page) (λ _. Watches shop.now self.old.lane self.old.seat.place self.new.seat.place) }
    {
        self.asked = self.asked.saturating_add(1);
        let end = self.settle(rt, alloc, shop, gate)?;
        let (line, round) = match end {
            End::Published(round) => (stepped(round, self.lane), round),
            End::Settled(round) => (settled(round, self.lane), round),
        };
        self.page.show_line(line);
        gate.pass(self.place(Point::Answered));
        Ok(Reply {
            lane: self.lane,
            round,
        })
    }
}
