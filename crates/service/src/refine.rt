//! One who makes the rounds of all lanes.

ghost use Rattle.std.specs.Prelude.{◌≡◌, ◌+◌, ◌<◌, ◌≤◌, ℕ, false, true, MatchResult, IfOk, IsTrue, length, slice_index_or};
ghost use Rattle.image_map.specs.CallModel.{AreSettings};
ghost use Rattle.image_map.specs.Whole.{IsImage};
ghost use Rattle.round_slots.specs.Seats.{Place, view_in};
ghost use Rattle.rounds.specs.declared.numbered.RoundTag.{RoundTag};
ghost use Rattle.service.specs.Seats.{key_of, IsReady};
ghost use Rattle.service.specs.Steps.{LooksOn};
ghost use Rattle.service.specs.Refines.{total_made, GrowsAt, SawLast, Refined, Visits};

use crate::advance::{Advance, Held};
use crate::gate;
use crate::gate::{Gate, Point};
use crate::refining::Refining;
use crate::shop::{Seat, Shop};
use std::alloc::{AllocError, Global};
use std::sync::Wait;
use std::thread;

impl Refining {
    // Whether the first lanes, so many, have their last round.
    fn is_done(&self, lanes: usize) -> bool
        requires size { length self.now.settled ≡ 4 }
        requires few { lanes ≤ 4 }
        ensures { IsTrue result → (lane : ℕ) → lane < lanes → slice_index_or self.now.settled lane false ≡ true }
    {
        for lane in 0..lanes {
            if !self.settled[lane] {
                return false;
            }
        }
        true
    }

    // The point that the refiner passes at its last pin.
    fn place(&self, point: Point) -> gate::Place {
        gate::Place {
            session: 0,
            request: self.pins,
            point,
        }
    }
}

impl Shop {
    // Tries once to publish the next round of the lane.
    fn visit<R: Wait, G: Gate>(
        &self,
        rt: &R,
        alloc: Global,
        seat: &mut Seat,
        refining: &Refining,
        gate: &G,
    ) -> Result<Advance, AllocError>
        requires ready { IsReady self.now seat.old.place seat.old.pinned }
        requires lane { refining.now.lane < (key_of self.now).lanes }
        requires image { IsImage self.now.image }
        requires settings { AreSettings (length self.now.image.externs) self.now.settings }
        ensures ready { IsReady self.now seat.new.place seat.new.pinned }
        ensures visits { MatchResult result (Visits self.now seat.old.place seat.new.place refining.now.lane) (λ _. LooksOn seat.old.place seat.new.place refining.now.lane) }
    {
        let lane = refining.lane;
        let pin = self.store.pin(rt, seat, lane);
        gate.pass(refining.place(Point::Pinned));
        let came = self.advance(rt, alloc, seat, Held { lane, pin });
        gate.pass(refining.place(Point::Answered));
        match came {
            Ok(advance) => Ok(advance),
            Err(error) => Err(error),
        }
    }

    // Visits the lane, and keeps what came of it.
    fn refine<R: Wait, G: Gate>(
        &self,
        rt: &R,
        alloc: Global,
        seat: &mut Seat,
        refining: &mut Refining,
        gate: &G,
    ) -> Result<(), AllocError>
        requires ready { IsReady self.now seat.old.place seat.old.pinned }
        requires lane { refining.old.lane < (key_of self.now).lanes }
        requires refined { (entry : Place RoundTag) × Refined self.now entry seat.old.place refining.old }
        requires image { IsImage self.now.image }
        requires settings { AreSettings (length self.now.image.externs) self.now.settings }
        ensures ready { IsReady self.now seat.new.place seat.new.pinned }
        ensures refined { (entry : Place RoundTag) → Refined self.now entry seat.old.place refining.old → Refined self.now entry seat.new.place refining.new }
    {
        refining.pins = refining.pins.saturating_add(1);
        match self.visit(rt, alloc, seat, refining, gate) {
            Ok(Advance::Published(_)) => {
                refining.made += 1;
                Ok(())
            }
            Ok(Advance::Settled(_)) => {
                refining.settled[refining.lane as usize] = true;
                Ok(())
            }
            Ok(Advance::Refused) => Ok(()),
            Err(error) => Err(error),
        }
    }

    // Visits each lane that hasn't its last round.
    fn refine_lanes<R: Wait, G: Gate>(
        &self,
        rt: &R,
        alloc: Global,
        seat: &mut Seat,
        refining: &mut Refining,
        gate: &G,
    ) -> Result<(), AllocError>
        requires ready { IsReady self.now seat.old.place seat.old.pinned }
        requires refined { (entry : Place RoundTag) × Refined self.now entry seat.old.place refining.old }
        requires image { IsImage self.now.image }
        requires settings { AreSettings (length self.now.image.externs) self.now.settings }
        ensures ready { IsReady self.now seat.new.place seat.new.pinned }
        ensures refined { (entry : Place RoundTag) → Refined self.now entry seat.old.place refining.old → Refined self.now entry seat.new.place refining.new }
    {
        for lane in 0..self.lane_count() {
            if !refining.settled[lane as usize] {
                refining.lane = lane;
                self.refine(rt, alloc, seat, refining, gate)?;
            }
        }
        Ok(())
    }
}

/// Makes and publishes rounds until the round of every lane is the last, and gives how many it published.
///
/// # Errors
/// Where memory is wanting. What was published stays.
pub fn refiner<R: Wait, G: Gate>(
    rt: &R,
    alloc: Global,
    shop: &Shop,
    seat: &mut Seat,
    gate: &G,
) -> Result<u32, AllocError>
    requires ready { IsReady shop.now seat.old.place seat.old.pinned }
    requires image { IsImage shop.now.image }
    requires settings { AreSettings (length shop.now.image.externs) shop.now.settings }
    ensures ready { IsReady shop.now seat.new.place seat.new.pinned }
    ensures grows { (lane : ℕ) → lane < (key_of shop.now).lanes → GrowsAt (view_in seat.old.place lane) (view_in seat.new.place lane) }
    ensures counts { IfOk result (λ made. made + total_made seat.old.place (key_of shop.now).lanes ≡ total_made seat.new.place (key_of shop.now).lanes) }
    ensures last { IfOk result (λ _. (lane : ℕ) → lane < (key_of shop.now).lanes → SawLast shop.now seat.old.place seat.new.place lane) }
{
    let mut refining = Refining {
        lane: 0,
        settled: [false; 4],
        made: 0,
        pins: 0,
    };
    for _ in rt.forever() {
        if refining.is_done(shop.lane_count() as usize) {
            return Ok(refining.made);
        }
        shop.refine_lanes(rt, alloc, seat, &mut refining, gate)?;
        thread::yield_now();
    }
    unreachable!()
}
