//! A session: its lane, its seat, and room for its replies.

ghost use Rattle.std.specs.Prelude.{◌≡◌, [], IfOk};
ghost use Rattle.rounds.specs.declared.round.Round.{Round};
ghost use Rattle.service.specs.Seats.{HasLane, IsReady, IsPinned, IsNoOlder};
ghost use Rattle.service.specs.Replies.{IsSliceReply};

use crate::gate::{Gate, Place, Point};
use crate::page::Page;
use crate::shop::{Seat, Shop};
use std::alloc::{AllocError, Global};
use std::sync::Wait;

/// What a reply is of.
#[derive(Clone, Copy, Debug, PartialEq, Eq)]
pub struct Reply {
    /// The number of call sites that nodes keep.
    pub lane: u32,
    /// The number of the round.
    pub round: u32,
}

/// One who asks, one request after another.
#[derive(Drop)]
pub struct Session {
    pub number: u32,
    /// The number of call sites that nodes keep in the rounds that it asks about.
    pub lane: u32,
    pub seat: Seat,
    /// How many requests it has made.
    pub(crate) asked: u32,
    /// The text of its last reply.
    pub(crate) page: Page,
}

impl Session {
    /// A session that has asked nothing, with room for its replies.
    ///
    /// # Errors
    /// Where memory is wanting.
    pub fn make(alloc: Global, number: u32, lane: u32, seat: Seat) -> Result<Session, AllocError>
        ensures { IfOk result (λ s. (s.number ≡ number) × (s.lane ≡ lane) × (s.seat ≡ seat) × (s.page ≡ [])) }
    {
        let page = Page::new(alloc)?;
        Ok(Session {
            number,
            lane,
            seat,
            asked: 0,
            page,
        })
    }

    /// The text of its last reply; none before the first.
    pub fn text(&self) -> &[u8]
        ensures { result.now ≡ self.now.page }
    {
        self.page.text()
    }

    // The point that it passes in its last request.
    pub(crate) fn place(&self, point: Point) -> Place {
        Place {
            session: self.number,
            request: self.asked,
            point,
        }
    }

    /// The slice back from an address in the round that the lane has, or the reply that no node of it has the address. It
    /// takes no memory and no lock.
    pub fn slice<R: Wait, G: Gate>(
        &mut self,
        rt: &R,
        shop: &Shop,
        at: u32,
        skip_sp: bool,
        gate: &G,
    ) -> Reply
        requires ready { IsReady shop.now self.old.seat.place self.old.seat.pinned }
        requires lane { HasLane shop.now self.old.lane }
        ensures ready { IsReady shop.now self.new.seat.place self.new.seat.pinned }
        ensures same { (self.new.number ≡ self.old.number) × (self.new.lane ≡ self.old.lane) × (result.lane ≡ self.old.lane) }
        ensures answers { (r : Round) × IsPinned shop.now self.old.lane self.old.seat.place self.new.seat.place r × IsSliceReply r at skip_sp self.new.page × (result.round ≡ r.number) }
        ensures no_older { IsNoOlder shop.now self.old.lane self.old.seat.place result.round }
    {
        self.asked = self.asked.saturating_add(1);
        let lane = shop.lane_of(self.lane);
        let pin = shop.store.pin(rt, &mut self.seat, lane);
        gate.pass(self.place(Point::Pinned));
        self.page.show_slice(pin.value(), at, skip_sp);
        let reply = Reply {
            lane: self.lane,
            round: pin.round(),
        };
        pin.leave(&mut self.seat);
        gate.pass(self.place(Point::Answered));
        reply
    }
}
