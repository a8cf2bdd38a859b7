//! The slots of one lane: who may read a value, and who may put one.

ghost use Rattle.std.specs.Prelude.{◌≡◌, ◌≢◌, ℕ, ◌<◌, ◌≤◌, length, slice_index_or, IfOk, IfSome};
ghost use Rattle.round_slots.specs.Rows.{Admits, Shows, holds_number};

use crate::numbered::Numbered;
use crate::view::LaneTag;
use counted_slot::{Claim, Counted, FREE, Fits, MOST_READERS, ONE_READER, PRESENT, TAKEN};
use round_core::Word;
use std::alloc::AllocError;
use std::sync::Wait;

/// A value in a slot.
#[derive(Drop)]
pub struct Held<T>(pub T);

impl<T: Numbered> Fits for Held<T> {
    type Tag = LaneTag<T::Tag>;

    ghost fits = { λ tag x. T.belongs tag.tag.value tag.lane x.0 };
}

/// A place for a value, which many may read or one may write.
pub type Slot<T: Numbered> = Counted<Option<Held<T>>>;

/// The right to read a slot's value or to write it.
pub type Right<'a, T: Numbered> = Claim<'a, Option<Held<T>>>;

/// The right to read what the slot holds, unless it holds nothing or is being written.
fn enter<T: Numbered>(slot: &Slot<T>) -> Option<Right<'_, T>>
    ensures { IfSome result (λ right. (right.right ≡ 1) × (right.tag ≡ slot.now)) }
{
    let count = slot.load();
    if count % ONE_READER != PRESENT || count / ONE_READER >= MOST_READERS {
        return None;
    }
    let (found, right) = slot.turn(count, count + ONE_READER);
    if found == count {
        Some(right)
    } else {
        right.done();
        None
    }
}

/// The right to write the slot, unless somebody reads or writes it.
fn take<T: Numbered>(slot: &Slot<T>) -> Option<Right<'_, T>>
    ensures { IfSome result (λ right. (right.right ≡ 2) × (right.tag ≡ slot.now)) }
{
    let count = slot.load();
    if count != FREE && count != PRESENT {
        return None;
    }
    let (found, right) = slot.turn(count, TAKEN);
    if found == count {
        Some(right)
    } else {
        right.done();
        None
    }
}

/// The right to read the value of the word's round, where the slot that the word names still holds it.
pub fn enter_round<T: Numbered>(row: &[Slot<T>], word: Word) -> Option<Right<'_, T>>
    ensures { IfSome result (λ right. (right.right ≡ 1) × ((x : T) × Shows right.value x × (T.number x ≡ word.round) × T.belongs right.tag.tag.value right.tag.lane x)
        × (word.slot < length row.now) × ((d : _) → right.tag ≡ slice_index_or row.now word.slot d)) }
{
    let slot = row.get(word.slot as usize)?;
    let right = enter(slot)?;
    if holds_round(right.get(), word.round) {
        Some(right)
    } else {
        right.leave();
        None
    }
}

fn holds_round<T: Numbered>(content: &Option<Held<T>>, round: u32) -> bool
    ensures { result ≡ holds_number T.number content.now round }
{
    match content {
        Some(held) => held.0.round() == round,
        None => false,
    }
}

/// A slot that nobody reads or writes, other than this one, with the right to write it.
fn take_other<T: Numbered>(row: &[Slot<T>], named: u32) -> Option<(usize, Right<'_, T>)>
    ensures right { IfSome result (λ taken. (taken.0 < length row.now) × (taken.1.right ≡ 2) × ((d : _) → taken.1.tag ≡ slice_index_or row.now taken.0 d)) }
    ensures other { IfSome result (λ taken. taken.0 ≢ named) }
{
    for (index, slot) in row.iter().enumerate() {
        if index != named as usize {
            if let Some(right) = take(slot) {
                return Some((index, right));
            }
        }
    }
    None
}

/// Puts the value into a slot that nobody reads, other than the one that is named, and says which. It waits for one.
pub fn put<T: Numbered + Drop, R: Wait>(rt: &R, row: &[Slot<T>], named: u32, value: T) -> u32
    requires admits { Admits T.belongs value row.now }
    requires few { length row.now ≤ 14 }
    ensures within { result < length row.now }
    ensures other { result ≢ named }
{
    for _ in rt.forever() {
        if let Some((index, right)) = take_other(row, named) {
            right.put(Some(Held(value)), PRESENT);
            return index as u32;
        }
    }
    unreachable!()
}

/// Puts the value into the first slot of a row that nobody has used yet, and enters it: the right to read what stands
/// there then.
///
/// # Errors
/// Where the slot can't be taken or entered, which doesn't happen while nobody else knows it.
pub fn put_first<T: Numbered + Drop>(row: &[Slot<T>], value: T) -> Result<Right<'_, T>, AllocError>
    requires some { 0 < length row.now }
    requires admits { Admits T.belongs value row.now }
    ensures stands { IfOk result (λ right. (right.right ≡ 1) × ((x : T) × Shows right.value x × (T.number x ≡ T.number value) × T.belongs right.tag.tag.value right.tag.lane x)
        × ((d : _) → right.tag ≡ slice_index_or row.now 0 d)) }
{
    let word = Word {
        round: value.round(),
        claimed: false,
        slot: 0,
    };
    let Some(right) = take(&row[0]) else {
        return Err(AllocError);
    };
    right.put(Some(Held(value)), PRESENT);
    match enter_round(row, word) {
        Some(right) => Ok(right),
        None => Err(AllocError),
    }
}
