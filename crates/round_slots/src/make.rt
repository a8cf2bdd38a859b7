//! Making a store, and closing it.

ghost use Rattle.std.specs.Prelude.{◌≡◌, ℕ, ◌+◌, ◌<◌, ◌≤◌, length, IfOk, false, None, slice_index_or};
ghost use Rattle.std.specs.List.{All, AllByRecursion};
ghost use Rattle.round_slots.specs.Ends.{AreFirst, AreAdmitted, IsFresh, IsSeat, IsCovered, EndsAt};
ghost use Rattle.round_slots.specs.Rows.{AreRows};
ghost use Rattle.round_slots.specs.Seats.{Sits, HasNoTurn};
ghost use Rattle.round_slots.specs.View.{first_view};

use crate::numbered::Numbered;
use crate::rule::{Add, Gather, Words};
use crate::slots::{Held, Slot, put_first};
use crate::store::{Front, Seat, Store};
use crate::view::{Key, Known, LaneTag};
use atomic_table as table;
use counted_slot::Counted;
use round_core::Word;
use std::alloc::{AllocError, Global};
use std::snapshot::Snapshot;

/// The words of four lanes at the start: round 0, not claimed, in slot 0.
const FIRST_WORDS: [u64; 4] = [0; 4];

/// As many seats as the store has, none of which has done anything.
fn fresh_seats<T: Numbered + Drop>(
    alloc: Global,
    words: &Words<T>,
    first: table::Seat<(), Option<Known<T::Tag>>>,
    seats: u32,
) -> Result<Vec<Seat<T>>, AllocError>
    requires first { IsFresh words.now.shared.table_id words.now.shared.key first }
    requires some_word { 0 < words.now.shared.table_id.words }
    requires some_seat { 1 ≤ seats }
    requires seats { seats ≡ words.now.shared.key.seats }
    ensures { IfOk result (λ all. (length all.items ≡ seats) × All (λ seat. IsFresh words.now.shared.table_id words.now.shared.key seat.place × (seat.pinned ≡ false)) all.items) }
{
    let mut place = first;
    let mut all = Vec::with_capacity(alloc, seats as usize)?;
    for _ in 1..seats {
        let other = words.shared.split_seat::<Add>(&mut place);
        all.push(Seat {
            place: other,
            pinned: false,
        })?;
    }
    all.push(Seat {
        place,
        pinned: false,
    })?;
    Ok(all)
}

/// Empty slots for values of one lane.
fn fresh_row<T: Numbered + Drop>(
    alloc: Global,
    tag: &T::Tag,
    lane: u32,
    slots: usize,
) -> Result<Vec<Slot<T>>, AllocError>
    ensures { IfOk result (λ row. (length row.items ≡ slots) × AllByRecursion (λ t. (t.tag.value ≡ tag.now) × (t.lane ≡ lane)) row.items) }
{
    let about = LaneTag {
        tag: Snapshot::of(tag),
        lane,
    };
    let mut row = Vec::with_capacity(alloc, slots)?;
    for _ in 0..slots {
        row.push(Counted::<Option<Held<T>>>::new(None, &about))?;
    }
    Ok(row)
}

/// Empty slots for each lane.
fn fresh_rows<T: Numbered + Drop>(
    alloc: Global,
    tag: &T::Tag,
    key: &Key<T::Tag>,
) -> Result<Vec<Vec<Slot<T>>>, AllocError>
    requires tag { tag.now ≡ key.now.tag.value }
    requires few_seats { key.now.seats ≤ 12 }
    requires few_lanes { key.now.lanes ≤ 4 }
    ensures { IfOk result (λ rows. (length rows.items ≡ key.now.lanes) × AreRows key.now 0 rows.items) }
{
    let mut rows = Vec::with_capacity(alloc, key.lanes)?;
    for lane in 0..key.lanes {
        rows.push(fresh_row::<T>(alloc, tag, lane as u32, key.seats as usize + 2)?)?;
    }
    Ok(rows)
}

/// Puts each lane's first value into the lane's first slot. It comes to its end only where each is seen to stand there.
fn put_firsts<T: Numbered + Drop>(
    rows: &[Vec<Slot<T>>],
    mut first: Vec<T>,
) -> Result<(), AllocError>
    requires { AreAdmitted T.belongs first.items rows.now }
{
    while let Some(value) = first.pop() {
        put_first(rows[first.len()].as_slice(), value)?.leave();
    }
    Ok(())
}

/// One seat that has seen and published what all of these have.
fn gather<T: Numbered + Drop>(
    words: &Words<T>,
    mut seats: Vec<Seat<T>>,
) -> table::Seat<(), Option<Known<T::Tag>>>
    requires some_seat { 0 < length seats.items }
    requires some_word { 0 < words.now.shared.table_id.words }
    requires sit { All (λ seat. IsSeat words.now.shared.table_id words.now.shared.key seat.place) seats.items }
    ensures seat { IsSeat words.now.shared.table_id words.now.shared.key result }
    ensures covers { All (λ seat. (lane : ℕ) → lane < words.now.shared.key.lanes → IsCovered result seat.place lane) seats.items }
{
    let Some(Seat { mut place, .. }) = seats.pop() else {
        unreachable!()
    };
    while let Some(Seat { place: other, .. }) = seats.pop() {
        words.shared.join_seat::<Gather>(&mut place, other);
    }
    place
}

impl<T: Numbered + Drop> Store<T> {
    /// A store with a lane for each value, which is the lane's round 0, and its seats.
    ///
    /// # Errors
    /// Where memory is wanting.
    pub fn make(
        alloc: Global,
        first: Vec<T>,
        seats: u32,
        tag: &T::Tag,
    ) -> Result<(Store<T>, Vec<Seat<T>>), AllocError>
        requires some_lane { 1 ≤ length first.items }
        requires few_lanes { length first.items ≤ 4 }
        requires some_seat { 1 ≤ seats }
        requires few_seats { seats ≤ 12 }
        requires first { AreFirst T.belongs T.number tag.now 0 first.items }
        ensures store { IfOk result (λ made. (made.0.words.shared.key.tag.value ≡ tag.now) × (made.0.words.shared.key.seats ≡ seats) × (made.0.words.shared.key.lanes ≡ length first.items)) }
        ensures count { IfOk result (λ made. length made.1.items ≡ seats) }
        ensures fresh { IfOk result (λ made. All (λ seat. Sits T.possible made.0.words.shared.table_id made.0.words.shared.key seat.place
            × (seat.place.me.0 ≡ first_view made.0.words.shared.key) × HasNoTurn made.0.words.shared.key seat.place × (seat.pinned ≡ false)) made.1.items) }
    {
        let lanes = first.len();
        let key = Key {
            tag: Snapshot::of(tag),
            seats,
            lanes,
        };
        let (words, place) = Words::<T>::of_words(alloc, &FIRST_WORDS[..lanes], &key)?;
        let seats = fresh_seats::<T>(alloc, &words, place, seats)?;
        let rows = fresh_rows::<T>(alloc, tag, &key)?;
        put_firsts(rows.as_slice(), first)?;
        Ok((Store { words, rows }, seats))
    }

    /// Ends the store and its seats, and gives each lane's last word.
    pub fn close(self, seats: Vec<Seat<T>>) -> [Option<Front>; 4]
        requires some_seat { 1 ≤ length seats.items }
        requires sit { All (λ seat. Sits T.possible self.words.shared.table_id self.words.shared.key seat.place) seats.items }
        ensures fronts { (lane : ℕ) → lane < self.words.shared.key.lanes → EndsAt T.possible self.words.shared.key (λ seat. seat.place) seats.items lane (slice_index_or result lane None) }
        ensures others { (lane : ℕ) → self.words.shared.key.lanes ≤ lane → slice_index_or result lane None ≡ None }
    {
        let Store { words, rows } = self;
        let lanes = rows.len();
        let closed = {
            let place = gather::<T>(&words, seats);
            words.close_with(place)
        };
        let mut fronts = [None; 4];
        for lane in 0..lanes {
            let Word { round, claimed, .. } = Word::unpack(closed.word(lane));
            fronts[lane] = Some(Front { round, claimed });
        }
        closed.free();
        fronts
    }
}
