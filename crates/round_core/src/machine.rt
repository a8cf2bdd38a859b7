//! The machine: every lane, and the step that an event makes.

ghost use Rattle.std.specs.Prelude.{◌≡◌, ◌<◌, ◌≤◌, IfOk, IsTrue};
ghost use Rattle.std.specs.Bool.{OnTrue, OnFalse};

use crate::event::Event;
use crate::lane::Lane;
use crate::readers::MAX_SEATS;
use std::alloc::{AllocError, Global};
use std::marker::Model;

/// The most lanes that a core can have.
pub const MAX_LANES: u32 = 4;

/// The state of the protocol. In contracts it is the list of its lanes' states.
#[derive(Drop)]
pub struct Core {
    lanes: Vec<Lane>,
}

impl Model for Core {
    ghost use Rattle.std.specs.Prelude.{List};
    ghost use Rattle.std.specs.Coded.{coded_list};
    ghost use Rattle.round_core.specs.contracts.lane.Lane as lane;
    ghost use Rattle.round_core.specs.State.{LaneState};

    ghost Value = { List LaneState };

    ghost coded = { coded_list lane.the_row.coded };

    ghost view = { λ a. a.lanes.items };
}

impl Core {
    ghost use Rattle.std.specs.List.{list_any};
    ghost use Rattle.round_core.specs.Protocol.{start, reads_in, is_allowed, change};

    /// The start: for each lane `seats + 2` slots, round 0 in slot 0, nothing claimed, read or loaded.
    pub fn make(alloc: Global, lanes: u32, seats: u32) -> Result<Self, AllocError>
        requires some_lane { 1 ≤ lanes }
        requires few_lanes { lanes ≤ MAX_LANES }
        requires some_seat { 1 ≤ seats }
        requires few_seats { seats ≤ MAX_SEATS }
        ensures start { IfOk result (λ core. core ≡ start lanes seats) }
    {
        let mut made = Vec::new(alloc);
        for _ in 0..lanes {
            made.push(Lane::new(alloc, seats)?)?;
        }
        Ok(Core { lanes: made })
    }

    /// Lets the event happen where the protocol allows it, and says whether it does.
    pub fn step(&mut self, event: &Event) -> bool
        ensures exact { result ≡ is_allowed self.old event.now }
        ensures change { OnTrue result (self.new ≡ change self.old event.now) }
        ensures refused { OnFalse result (self.new ≡ self.old) }
    {
        let allowed = self.is_allowed(event);
        if allowed {
            self.apply(event);
        }
        allowed
    }

    fn is_allowed(&self, event: &Event) -> bool
        ensures { result ≡ is_allowed self.now event.now }
    {
        let Some(lane) = self.lanes.get(event.lane() as usize) else {
            return false;
        };
        lane.has(event.seat(), event.slot())
            && match *event {
                Event::Load { .. } => true,
                Event::Claim { seat, .. } => lane.can_be_claimed_by(seat),
                Event::GiveUp { seat, .. } => lane.has_idle_claimer(seat),
                Event::Publish { seat, slot, .. } => lane.can_publish(seat, slot),
                Event::Enter { seat, slot, .. } => {
                    !self.has_reader(seat) && lane.can_be_entered(seat, slot)
                }
                Event::Leave { seat, slot, .. } => lane.is_read_by(seat, slot),
                Event::Take { seat, slot, .. } => {
                    lane.has_idle_claimer(seat) && lane.can_be_taken(slot)
                }
                Event::Put {
                    seat,
                    slot,
                    round,
                    ..
                } => lane.can_put(seat, slot, round),
            }
    }

    /// The seat reads some slot of some lane.
    fn has_reader(&self, seat: u32) -> bool
        ensures { result ≡ list_any (reads_in seat) self.now }
    {
        self.lanes.iter().any(|lane| lane.has_reader(seat))
    }

    fn apply(&mut self, event: &Event)
        requires { IsTrue (is_allowed self.old event.now) }
        ensures { self.new ≡ change self.old event.now }
    {
        let lane = &mut self.lanes[event.lane() as usize];
        match *event {
            Event::Load { seat, .. } => lane.load(seat),
            Event::Claim { seat, .. } => lane.claim(seat),
            Event::GiveUp { seat, .. } => lane.give_up(seat),
            Event::Publish { seat, slot, .. } => lane.publish(seat, slot),
            Event::Enter { seat, slot, .. } => lane.enter(seat, slot),
            Event::Leave { seat, slot, .. } => lane.leave(seat, slot),
            Event::Take { seat, slot, .. } => lane.take(seat, slot),
            Event::Put { slot, round, .. } => lane.put(slot, round),
        }
    }
}

#[cfg(test)]
mod tests;
