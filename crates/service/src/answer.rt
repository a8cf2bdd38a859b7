//! The answer to any request.

ghost use Rattle.std.specs.Prelude.{◌≡◌, MatchResult, IfOk, length};
ghost use Rattle.requests.specs.Texts.{lane_text};
ghost use Rattle.image_map.specs.CallModel.{AreSettings};
ghost use Rattle.image_map.specs.Whole.{IsImage};
ghost use Rattle.service.specs.Seats.{HasLane, IsReady};
ghost use Rattle.service.specs.Steps.{Watches};
ghost use Rattle.service.specs.Requests.{IsReading, IsAskable};
ghost use Rattle.service.specs.Answers.{Reads, AnswersTo};

use crate::gate::{Gate, Point};
use crate::session::{Reply, Session};
use crate::shop::Shop;
use crate::short::moved;
use requests::Request;
use std::alloc::{AllocError, Global};
use std::sync::Wait;

impl Session {
    // What the round that the lane has holds.
    fn read<R: Wait, G: Gate>(
        &mut self,
        rt: &R,
        alloc: Global,
        shop: &Shop,
        request: &Request,
        gate: &G,
    ) -> Result<Reply, AllocError>
        requires ready { IsReady shop.now self.old.seat.place self.old.seat.pinned }
        requires lane { HasLane shop.now self.old.lane }
        requires reading { IsReading request.now }
        requires image { IsImage shop.now.image }
        ensures ready { IsReady shop.now self.new.seat.place self.new.seat.pinned }
        ensures same { (self.new.number ≡ self.old.number) × (self.new.lane ≡ self.old.lane) }
        ensures lane { IfOk result (λ reply. reply.lane ≡ self.new.lane) }
        ensures reads { MatchResult result (Reads shop.now self.old self.new request.now) (λ _. Watches shop.now self.old.lane self.old.seat.place self.new.seat.place) }
    {
        self.asked = self.asked.saturating_add(1);
        let lane = shop.lane_of(self.lane);
        let pin = shop.store.pin(rt, &mut self.seat, lane);
        gate.pass(self.place(Point::Pinned));
        let shown = self.page.show_reading(alloc, pin.value(), request);
        let reply = Reply {
            lane: self.lane,
            round: pin.round(),
        };
        pin.leave(&mut self.seat);
        match shown {
            Ok(()) => {
                gate.pass(self.place(Point::Answered));
                Ok(reply)
            }
            Err(error) => Err(error),
        }
    }

    // Asks of other rounds from now on.
    fn change_lane(&mut self, sites: u32) -> Reply
        ensures { (self.new.number ≡ self.old.number) × (self.new.lane ≡ sites) × (self.new.seat ≡ self.old.seat) × (self.new.page ≡ lane_text sites) × (result ≡ record { lane = sites; round = 0 }) }
    {
        self.asked = self.asked.saturating_add(1);
        self.lane = sites;
        self.page.show_line(moved(sites));
        Reply {
            lane: sites,
            round: 0,
        }
    }

    /// The answer to a request: a slice, what a round holds, a step, or another number of call sites. `text` shows it.
    ///
    /// # Errors
    /// Where memory is wanting. Nothing is published then.
    pub fn answer<R: Wait, G: Gate>(
        &mut self,
        rt: &R,
        alloc: Global,
        shop: &Shop,
        request: &Request,
        gate: &G,
    ) -> Result<Reply, AllocError>
        requires ready { IsReady shop.now self.old.seat.place self.old.seat.pinned }
        requires lane { HasLane shop.now self.old.lane }
        requires request { IsAskable shop.now request.now }
        requires image { IsImage shop.now.image }
        requires settings { AreSettings (length shop.now.image.externs) shop.now.settings }
        ensures ready { IsReady shop.now self.new.seat.place self.new.seat.pinned }
        ensures number { self.new.number ≡ self.old.number }
        ensures lane { IfOk result (λ reply. reply.lane ≡ self.new.lane) }
        ensures answers { MatchResult result (AnswersTo shop.now self.old self.new request.now) (λ _. (self.new.lane ≡ self.old.lane) × Watches shop.now self.old.lane self.old.seat.place self.new.seat.place) }
    {
        match request {
            Request::Slice { at, skip_sp } => Ok(self.slice(rt, shop, *at, *skip_sp, gate)),
            Request::Values(_) | Request::Warnings | Request::Locations => {
                self.read(rt, alloc, shop, request, gate)
            }
            Request::Step => self.step(rt, alloc, shop, gate),
            Request::Lane(sites) => Ok(self.change_lane(*sites)),
            _ => unreachable!(),
        }
    }
}
