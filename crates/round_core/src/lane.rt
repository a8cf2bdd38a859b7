//! One lane: its word, its claimer, its slots and what each seat has loaded.

ghost use Rattle.std.specs.Prelude.{◌≡◌, ◌==◌, ◌&&◌, ◌+◌, ◌<◌, ◌≤◌, not, nat_lt, length, replicate, slice_set, ◌∷◌, IfOk, IsTrue, true, false};
ghost use Rattle.std.specs.FinSet as set;

use crate::readers::{MAX_SEATS, Readers};
use crate::word::Word;
use std::alloc::{AllocError, Global};
use std::marker::Model;

/// What a slot holds.
#[derive(Drop)]
pub enum Slot {
    Empty,
    Taken { seat: u32 },
    Filled { round: u32, readers: Readers },
}

impl Slot {
    ghost use Rattle.round_core.specs.State.{is_free, is_taken_by, is_filled, is_filled_with, is_read_by};
    ghost use Rattle.round_core.specs.Protocol.{entered, left};

    /// Nobody has taken it, and nobody reads it.
    fn is_free(&self) -> bool
        ensures { result ≡ is_free self.now }
    {
        match self {
            Slot::Empty => true,
            Slot::Taken { .. } => false,
            Slot::Filled { readers, .. } => readers.is_empty(),
        }
    }

    fn is_taken_by(&self, seat: u32) -> bool
        ensures { result ≡ is_taken_by self.now seat }
    {
        match self {
            Slot::Taken { seat: taker } => *taker == seat,
            _ => false,
        }
    }

    fn is_filled(&self) -> bool
        ensures { result ≡ is_filled self.now }
    {
        match self {
            Slot::Filled { .. } => true,
            _ => false,
        }
    }

    /// It holds the round after this one.
    fn is_filled_after(&self, round: u32) -> bool
        ensures { result ≡ is_filled_with self.now (round + 1) }
    {
        match self {
            Slot::Filled { round: held, .. } => u64::from(*held) == u64::from(round) + 1,
            _ => false,
        }
    }

    fn is_read_by(&self, seat: u32) -> bool
        ensures { result ≡ is_read_by self.now seat }
    {
        match self {
            Slot::Filled { readers, .. } => readers.contains(seat),
            _ => false,
        }
    }

    fn enter(&mut self, seat: u32)
        requires { seat < MAX_SEATS }
        ensures { self.new ≡ entered self.old seat }
    {
        if let Slot::Filled { readers, .. } = self {
            readers.insert(seat);
        }
    }

    fn leave(&mut self, seat: u32)
        requires { seat < MAX_SEATS }
        ensures { self.new ≡ left self.old seat }
    {
        if let Slot::Filled { readers, .. } = self {
            readers.remove(seat);
        }
    }
}

#[derive(Drop)]
pub struct Lane {
    word: Word,
    claimer: Option<u32>,
    slots: Vec<Slot>,
    loaded: Vec<Option<Word>>,
}

impl Model for Lane {
    ghost use Rattle.std.specs.Prelude.{◌≤◌, length};
    ghost use Rattle.std.specs.Coded.{codes};
    ghost use Rattle.round_core.specs.contracts.readers.Readers as readers;
    ghost use Rattle.round_core.specs.State.{LaneState};

    ghost Value = { LaneState };

    ghost coded = { Prim.hlevel (codes, readers.the_row.coded) };

    ghost view = { λ a. record { word = a.word; claimer = a.claimer; slots = a.slots.items; loaded = a.loaded.items } };

    ghost invariant = { λ a. length a.loaded.items ≤ 12 };
}

impl Lane {
    ghost use Rattle.round_core.specs.State.{slot_at, loaded_by, is_free, is_filled, is_filled_with, is_read_by, is_taken_by, is_seat, is_word, names_slot};
    ghost use Rattle.round_core.specs.Protocol.{first_lane, has_taken, holds_next, reads_in, has_slot, with_word, with_slot, entered, left};

    /// A lane with round 0 in slot 0, for this many seats.
    pub fn new(alloc: Global, seats: u32) -> Result<Self, AllocError>
        requires { seats ≤ MAX_SEATS }
        ensures { IfOk result (λ lane. lane ≡ first_lane seats) }
    {
        Ok(Lane {
            word: Word {
                round: 0,
                claimed: false,
                slot: 0,
            },
            claimer: None,
            slots: first_slots(alloc, seats)?,
            loaded: vec![in alloc; None; seats as usize]?,
        })
    }

    /// The seat exists, and so does the slot, where there is one to look for.
    pub fn has(&self, seat: u32, slot: Option<u32>) -> bool
        ensures { result ≡ (nat_lt seat (length self.now.loaded) && has_slot self.now slot) }
    {
        (seat as usize) < self.loaded.len()
            && match slot {
                Some(slot) => (slot as usize) < self.slots.len(),
                None => true,
            }
    }

    /// The word is free to be claimed, and the seat has loaded it.
    pub fn can_be_claimed_by(&self, seat: u32) -> bool
        requires { seat < length self.now.loaded }
        ensures { result ≡ (not self.now.word.claimed && nat_lt self.now.word.round 4294967295
            && is_word (loaded_by self.now seat) self.now.word) }
    {
        !self.word.claimed
            && self.word.round < u32::MAX
            && self.loaded[seat as usize] == Some(self.word)
    }

    /// The seat is the claimer, has no slot taken, and no slot holds the next round.
    pub fn has_idle_claimer(&self, seat: u32) -> bool
        ensures { result ≡ (is_seat self.now.claimer seat && not (has_taken self.now seat)
            && not (holds_next self.now)) }
    {
        self.claimer == Some(seat) && !self.has_taken(seat) && !self.holds_next()
    }

    fn has_taken(&self, seat: u32) -> bool
        ensures { result ≡ has_taken self.now seat }
    {
        self.slots.iter().any(|slot| slot.is_taken_by(seat))
    }

    fn holds_next(&self) -> bool
        ensures { result ≡ holds_next self.now }
    {
        let round = self.word.round;
        self.slots.iter().any(|slot| slot.is_filled_after(round))
    }

    /// The seat is the claimer, and the slot holds the next round.
    pub fn can_publish(&self, seat: u32, slot: u32) -> bool
        requires { slot < length self.now.slots }
        ensures { result ≡ (is_seat self.now.claimer seat
            && is_filled_with (slot_at self.now slot) (self.now.word.round + 1)) }
    {
        self.claimer == Some(seat) && self.slots[slot as usize].is_filled_after(self.word.round)
    }

    /// The word that the seat loaded names the slot, which is filled.
    pub fn can_be_entered(&self, seat: u32, slot: u32) -> bool
        requires seat { seat < length self.now.loaded }
        requires slot { slot < length self.now.slots }
        ensures { result ≡ (names_slot (loaded_by self.now seat) slot
            && is_filled (slot_at self.now slot)) }
    {
        match self.loaded[seat as usize] {
            Some(word) => word.slot == slot && self.slots[slot as usize].is_filled(),
            None => false,
        }
    }

    /// The seat reads the slot.
    pub fn is_read_by(&self, seat: u32, slot: u32) -> bool
        requires { slot < length self.now.slots }
        ensures { result ≡ is_read_by (slot_at self.now slot) seat }
    {
        self.slots[slot as usize].is_read_by(seat)
    }

    /// The seat reads some slot.
    pub fn has_reader(&self, seat: u32) -> bool
        ensures { result ≡ reads_in seat self.now }
    {
        self.slots.iter().any(|slot| slot.is_read_by(seat))
    }

    /// An idle claimer may take the slot: it is not the word's, and nobody needs it.
    pub fn can_be_taken(&self, slot: u32) -> bool
        requires { slot < length self.now.slots }
        ensures { result ≡ (not (slot == self.now.word.slot) && is_free (slot_at self.now slot)) }
    {
        slot != self.word.slot && self.slots[slot as usize].is_free()
    }

    /// The seat has taken the slot, and this round is the next one.
    pub fn can_put(&self, seat: u32, slot: u32, round: u32) -> bool
        requires { slot < length self.now.slots }
        ensures { result ≡ (is_taken_by (slot_at self.now slot) seat
            && round == self.now.word.round + 1) }
    {
        self.slots[slot as usize].is_taken_by(seat)
            && u64::from(round) == u64::from(self.word.round) + 1
    }

    pub fn load(&mut self, seat: u32)
        requires { seat < length self.old.loaded }
        ensures { self.new ≡ record self.old {
          loaded = slice_set self.old.loaded seat (Some self.old.word);
        } }
    {
        self.loaded[seat as usize] = Some(self.word);
    }

    /// The seat changes the word, and so has loaded the new one.
    fn set_word(&mut self, seat: u32, word: Word, claimer: Option<u32>)
        requires { seat < length self.old.loaded }
        ensures { self.new ≡ with_word self.old seat word claimer }
    {
        self.word = word;
        self.claimer = claimer;
        self.loaded[seat as usize] = Some(word);
    }

    pub fn claim(&mut self, seat: u32)
        requires { seat < length self.old.loaded }
        ensures { self.new ≡ with_word self.old seat (record self.old.word { claimed = true }) (Some seat) }
    {
        let Word { round, slot, .. } = self.word;
        self.set_word(
            seat,
            Word {
                round,
                claimed: true,
                slot,
            },
            Some(seat),
        );
    }

    pub fn give_up(&mut self, seat: u32)
        requires { seat < length self.old.loaded }
        ensures { self.new ≡ with_word self.old seat (record self.old.word { claimed = false }) None }
    {
        let Word { round, slot, .. } = self.word;
        self.set_word(
            seat,
            Word {
                round,
                claimed: false,
                slot,
            },
            None,
        );
    }

    pub fn publish(&mut self, seat: u32, slot: u32)
        requires seat { seat < length self.old.loaded }
        requires slot { slot < length self.old.slots }
        requires filled { IsTrue (is_filled_with (slot_at self.old slot) (self.old.word.round + 1)) }
        ensures { self.new ≡ with_word self.old seat
            (record { round = self.old.word.round + 1; claimed = false; slot = slot }) None }
    {
        if let Slot::Filled { round, .. } = self.slots[slot as usize] {
            self.set_word(
                seat,
                Word {
                    round,
                    claimed: false,
                    slot,
                },
                None,
            );
        }
    }

    pub fn enter(&mut self, seat: u32, slot: u32)
        requires seat { seat < length self.old.loaded }
        requires slot { slot < length self.old.slots }
        ensures { self.new ≡ with_slot self.old slot (entered (slot_at self.old slot) seat) }
    {
        self.slots[slot as usize].enter(seat);
    }

    pub fn leave(&mut self, seat: u32, slot: u32)
        requires seat { seat < length self.old.loaded }
        requires slot { slot < length self.old.slots }
        ensures { self.new ≡ with_slot self.old slot (left (slot_at self.old slot) seat) }
    {
        self.slots[slot as usize].leave(seat);
    }

    pub fn take(&mut self, seat: u32, slot: u32)
        requires { slot < length self.old.slots }
        ensures { self.new ≡ with_slot self.old slot (Slot.Taken seat) }
    {
        self.slots[slot as usize] = Slot::Taken { seat };
    }

    pub fn put(&mut self, slot: u32, round: u32)
        requires { slot < length self.old.slots }
        ensures { self.new ≡ with_slot self.old slot (Slot.Filled round set.empty) }
    {
        self.slots[slot as usize] = Slot::Filled {
            round,
            readers: Readers::new(),
        };
    }
}

/// Round 0 in slot 0, and `seats + 1` empty slots.
fn first_slots(alloc: Global, seats: u32) -> Result<Vec<Slot>, AllocError>
    requires { seats ≤ MAX_SEATS }
    ensures { IfOk result (λ slots.
        slots.items ≡ Slot.Filled 0 set.empty ∷ replicate (seats + 1) Slot.Empty) }
{
    let mut slots = Vec::with_capacity(alloc, seats as usize + 2)?;
    slots.push(Slot::Filled {
        round: 0,
        readers: Readers::new(),
    })?;
    for _ in 0..seats + 1 {
        slots.push(Slot::Empty)?;
    }
    Ok(slots)
}

#[cfg(test)]
pub mod tests;
