//! What seats do, one atomic action each.

ghost use Rattle.std.specs.Prelude.{◌≡◌};
ghost use Rattle.round_core.specs.Event.{lane_of, seat_of, slot_of};

/// One atomic action of one seat in one lane.
#[derive(Clone, Copy, Debug)]
pub enum Event {
    /// The seat loads the lane's word.
    Load {
        lane: u32,
        seat: u32,
    },
    /// The seat marks the word as claimed, to make the next round.
    Claim {
        lane: u32,
        seat: u32,
    },
    /// The claimer takes the mark away and has made nothing.
    GiveUp {
        lane: u32,
        seat: u32,
    },
    /// The claimer has the word name a slot that holds the next round.
    Publish {
        lane: u32,
        seat: u32,
        slot: u32,
    },
    /// The seat begins to read a slot.
    Enter {
        lane: u32,
        seat: u32,
        slot: u32,
    },
    /// The seat ends its reading of a slot.
    Leave {
        lane: u32,
        seat: u32,
        slot: u32,
    },
    /// The claimer takes a slot that nobody needs.
    Take {
        lane: u32,
        seat: u32,
        slot: u32,
    },
    /// The seat fills the slot that it has taken with a round.
    Put {
        lane: u32,
        seat: u32,
        slot: u32,
        round: u32,
    },
}

impl Event {
    /// The lane in which it happens.
    pub fn lane(&self) -> u32
        ensures { result ≡ lane_of self.now }
    {
        match *self {
            Event::Load { lane, .. }
            | Event::Claim { lane, .. }
            | Event::GiveUp { lane, .. }
            | Event::Publish { lane, .. }
            | Event::Enter { lane, .. }
            | Event::Leave { lane, .. }
            | Event::Take { lane, .. }
            | Event::Put { lane, .. } => lane,
        }
    }

    /// The seat that does it.
    pub fn seat(&self) -> u32
        ensures { result ≡ seat_of self.now }
    {
        match *self {
            Event::Load { seat, .. }
            | Event::Claim { seat, .. }
            | Event::GiveUp { seat, .. }
            | Event::Publish { seat, .. }
            | Event::Enter { seat, .. }
            | Event::Leave { seat, .. }
            | Event::Take { seat, .. }
            | Event::Put { seat, .. } => seat,
        }
    }

    /// The slot that it speaks of, if it speaks of one.
    pub fn slot(&self) -> Option<u32>
        ensures { result ≡ slot_of self.now }
    {
        match *self {
            Event::Load { .. } | Event::Claim { .. } | Event::GiveUp { .. } => None,
            Event::Publish { slot, .. }
            | Event::Enter { slot, .. }
            | Event::Leave { slot, .. }
            | Event::Take { slot, .. }
            | Event::Put { slot, .. } => Some(slot),
        }
    }
}
