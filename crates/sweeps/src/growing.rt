//! Growing sweeps: each works out anew only what may have changed.
ghost use Rattle.std.specs.Prelude.{◌≡◌, ◌-◌, ◌<◌, ◌≤◌, ◌^◌, true, false, [], map, length, replicate, take, IfOk, OnOk, not, nat_lt, nat_le, ◌∷◌, slice_get, slice_set, slice_index_or, if◌then◌else◌};
ghost use Rattle.std.specs.List.{fold, list_any, AllByRecursion};
ghost use Rattle.std.specs.Option.{option_map_or};
ghost use Rattle.sweeps.specs.declared.kept.Slot.TheVariants.{Idle};
ghost use Rattle.sweeps.specs.Sweeps.{AreRising, with_arrival, is_widening as is_widening_spec, widened_to, changed_to, with_state, raised, lowered, is_same_place};
ghost use Rattle.sweeps.specs.Kept.{rank_by, number_of, kept_table, place_in, pair_of, all_arrivals, strangers, moved, with_stale, touch_at, touched, touched_by, renewed, aimed, aimed_at, AreAimed, came, add_at, settled, settled_by, lowered_kept, entered, with_kept, zip_with, aimed_all, renewed_all, filled_slots, settled_all, met, stepped, IsSound};

use crate::domain::Domain;
use crate::kept::{Arrival, Kept, Slot, number, number_near, rank, successors};
use crate::row::Row;
use item_list::Items;
use std::alloc::{AllocError, Global};
use std::mem;

// The places of rows that the last sweep changed.
fn moved_places<D: Domain>(
    alloc: Global,
    domain: &D,
    kept: &[Kept<D::Place, D::State>],
) -> Result<Vec<D::Place>, AllocError>
    ensures { IfOk result (λ v. v.items ≡ moved kept.now) }
{
    let mut places = Vec::new(alloc);
    for k in kept {
        if k.changed {
            let place = domain.copy_place(&k.row.place)?;
            places.push(place)?;
        }
    }
    Ok(places)
}

// Whether one of these places concerns this one.
fn is_concerned<D: Domain>(domain: &D, place: &D::Place, places: &[D::Place]) -> bool
    ensures { result ≡ list_any (λ q. (D.meaning domain.now).concerns place.now q) places.now }
{
    if !domain.looks_at_others(place) {
        return false;
    }
    for other in places {
        if domain.concerns(place, other) {
            return true;
        }
    }
    false
}

// Whether a row's successors are to be made anew.
fn is_stale<D: Domain>(domain: &D, k: &Kept<D::Place, D::State>, places: &[D::Place]) -> bool
    ensures { result ≡ (with_stale (D.meaning domain.now) places.now k.now).stale }
{
    if k.changed {
        return true;
    }
    is_concerned(domain, &k.row.place, places)
}

// Notes which rows' successors are to be made anew.
fn note_stale<D: Domain>(
    alloc: Global,
    domain: &D,
    kept: &mut Vec<Kept<D::Place, D::State>>,
) -> Result<(), AllocError>
    ensures { OnOk result (kept.new.items ≡ map (with_stale (D.meaning domain.now) (moved kept.old.items)) kept.old.items) }
{
    let places = moved_places(alloc, domain, kept.as_slice())?;
    for at in 0..kept.len() {
        kept[at].stale = is_stale(domain, &kept[at], places.as_slice());
    }
    Ok(())
}

// The row of a place is due, if it has one.
fn touch<D: Domain>(
    domain: &D,
    kept: &[Kept<D::Place, D::State>],
    slots: &mut [Slot<D::State>],
    place: &D::Place,
)
    requires rising { AreRising (D.meaning domain.now) (map place_in kept.now) }
    requires slots { length slots.old ≡ length kept.now }
    ensures { slots.new ≡ touch_at (D.meaning domain.now) kept.now slots.old place.now }
{
    match number(domain, kept, place) {
        None => {}
        Some(at) => {
            if at < slots.len() {
                slots[at] = Slot::Due;
            }
        }
    }
}

// The rows of a stale row's successors are due, and the row itself.
fn touch_around<D: Domain>(
    domain: &D,
    kept: &[Kept<D::Place, D::State>],
    slots: &mut [Slot<D::State>],
    k: &Kept<D::Place, D::State>,
)
    requires rising { AreRising (D.meaning domain.now) (map place_in kept.now) }
    requires slots { length slots.old ≡ length kept.now }
    ensures { slots.new ≡ fold (touch_at (D.meaning domain.now) kept.now) slots.old (touched_by k.now) }
{
    if !k.stale {
        return;
    }
    touch(domain, kept, slots, &k.row.place);
    for arrival in k.arrivals.as_slice() {
        touch(domain, kept, slots, &arrival.place);
    }
}

fn touch_all<D: Domain>(domain: &D, kept: &[Kept<D::Place, D::State>], slots: &mut [Slot<D::State>])
    requires rising { AreRising (D.meaning domain.now) (map place_in kept.now) }
    requires slots { length slots.old ≡ length kept.now }
    ensures { slots.new ≡ fold (touch_at (D.meaning domain.now) kept.now) slots.old (touched kept.now) }
{
    for k in kept {
        touch_around(domain, kept, slots, k);
    }
}

// Makes the successors of a row anew, if it is stale.
fn renew_row<D: Domain>(
    alloc: Global,
    domain: &D,
    kept: &mut Vec<Kept<D::Place, D::State>>,
    at: usize,
) -> Result<(), AllocError>
    requires { at < length kept.old.items }
    ensures { OnOk result ((d : _) → kept.new.items ≡ slice_set kept.old.items at (renewed (D.meaning domain.now) (kept_table kept.old.items) (slice_index_or kept.old.items at d))) }
{
    if !kept[at].stale {
        return Ok(());
    }
    let arrivals = successors(alloc, domain, kept.as_slice(), &kept[at].row)?;
    kept[at].arrivals = arrivals;
    Ok(())
}

// Makes the successors of stale rows anew.
pub(crate) fn renew<D: Domain>(
    alloc: Global,
    domain: &D,
    kept: &mut Vec<Kept<D::Place, D::State>>,
) -> Result<(), AllocError>
    ensures { OnOk result (kept.new.items ≡ map (renewed (D.meaning domain.now) (kept_table kept.old.items)) kept.old.items) }
{
    for at in 0..kept.len() {
        renew_row(alloc, domain, kept, at)?;
    }
    Ok(())
}

// The number of an arrival's place.
fn target<D: Domain>(
    domain: &D,
    kept: &[Kept<D::Place, D::State>],
    arrival: &Arrival<D::Place, D::State>,
) -> Option<usize>
    requires { AreRising (D.meaning domain.now) (map place_in kept.now) }
    ensures { result ≡ number_of (D.meaning domain.now) (map place_in kept.now) arrival.now.place }
{
    let hint = arrival.target.unwrap_or(0);
    number_near(domain, kept, &arrival.place, hint)
}

// The same arrivals, each with the number of its place.
fn aim_list<D: Domain>(
    domain: &D,
    kept: &[Kept<D::Place, D::State>],
    list: Items<Arrival<D::Place, D::State>>,
) -> Items<Arrival<D::Place, D::State>>
    requires { AreRising (D.meaning domain.now) (map place_in kept.now) }
    ensures { result ≡ map (aimed_at (D.meaning domain.now) (map place_in kept.now)) list }
{
    let mut arrivals = list.into_vec();
    for at in 0..arrivals.len() {
        arrivals[at].target = target(domain, kept, &arrivals[at]);
    }
    Items::from_vec(arrivals)
}

// Looks up the places of all arrivals.
pub(crate) fn aim<D: Domain>(alloc: Global, domain: &D, kept: &mut Vec<Kept<D::Place, D::State>>)
    requires { AreRising (D.meaning domain.now) (map place_in kept.old.items) }
    ensures { kept.new.items ≡ map (aimed (D.meaning domain.now) (map place_in kept.old.items)) kept.old.items }
{
    for at in 0..kept.len() {
        let list = mem::replace(&mut kept[at].arrivals, Items::new(alloc));
        let arrivals = aim_list(domain, kept.as_slice(), list);
        kept[at].arrivals = arrivals;
    }
}

// How many of some new rows stand before a place.
fn rank_new<D: Domain>(domain: &D, rows: &[Row<D::Place, D::State>], place: &D::Place) -> usize
    requires { AreRising (D.meaning domain.now) (map {B = D.Place} (λ r. r.place) rows.now) }
    ensures rank { result ≡ rank_by (λ r. (D.meaning domain.now).before r.place place.now) rows.now }
    ensures within { result ≤ length rows.now }
{
    rows.partition_point(
        |row: &Row<D::Place, D::State>| -> bool
            ensures { result ≡ (D.meaning domain.entry.now).before row.now.place place.entry.now }
        { domain.is_before(&row.place, place) },
    )
}

// Whether the row with a number stands at a place, where those before it stand before the place.
fn is_at<D: Domain>(
    domain: &D,
    rows: &[Row<D::Place, D::State>],
    at: usize,
    place: &D::Place,
) -> bool
    ensures { result ≡ option_map_or (λ r. not ((D.meaning domain.now).before place.now r.place)) (slice_get rows.now at) false }
{
    match rows.get(at) {
        None => false,
        Some(row) => !domain.is_before(place, &row.place),
    }
}

// A state comes to a place that isn't in the map yet.
fn meet<D: Domain>(
    domain: &D,
    rows: &mut Vec<Row<D::Place, D::State>>,
    place: &D::Place,
    state: &D::State,
) -> Result<(), AllocError>
    requires { AreRising (D.meaning domain.now) (map {B = D.Place} (λ r. r.place) rows.old.items) }
    ensures { OnOk result (rows.new.items ≡ with_arrival (D.meaning domain.now) rows.old.items (place.now, state.now)) }
{
    let at = rank_new(domain, rows.as_slice(), place);
    if is_at(domain, rows.as_slice(), at, place) {
        let joined = domain.join(&rows[at].state, state)?;
        rows[at].state = joined;
        return Ok(());
    }
    let row = Row {
        place: domain.copy_place(place)?,
        state: domain.copy_state(state)?,
        changes: 1,
    };
    rows.insert(at, row)?;
    Ok(())
}

fn meet_one<D: Domain>(
    domain: &D,
    rows: &mut Vec<Row<D::Place, D::State>>,
    arrival: &Arrival<D::Place, D::State>,
) -> Result<(), AllocError>
    requires { AreRising (D.meaning domain.now) (map {B = D.Place} (λ r. r.place) rows.old.items) }
    ensures { OnOk result (rows.new.items ≡ fold (with_arrival (D.meaning domain.now)) rows.old.items (strangers (arrival.now ∷ []))) }
{
    if arrival.target.is_some() {
        return Ok(());
    }
    meet(domain, rows, &arrival.place, &arrival.state)
}

fn meet_list<D: Domain>(
    domain: &D,
    rows: &mut Vec<Row<D::Place, D::State>>,
    arrivals: &[Arrival<D::Place, D::State>],
) -> Result<(), AllocError>
    requires { AreRising (D.meaning domain.now) (map {B = D.Place} (λ r. r.place) rows.old.items) }
    ensures { OnOk result (rows.new.items ≡ fold (with_arrival (D.meaning domain.now)) rows.old.items (strangers arrivals.now)) }
{
    for arrival in arrivals {
        meet_one(domain, rows, arrival)?;
    }
    Ok(())
}

// The rows of the places that aren't in the map yet.
fn new_rows<D: Domain>(
    alloc: Global,
    domain: &D,
    kept: &[Kept<D::Place, D::State>],
) -> Result<Vec<Row<D::Place, D::State>>, AllocError>
    ensures { IfOk result (λ v. v.items ≡ fold (with_arrival (D.meaning domain.now)) [] (strangers (all_arrivals kept.now))) }
{
    let mut rows = Vec::new(alloc);
    for k in kept {
        meet_list(domain, &mut rows, k.arrivals.as_slice())?;
    }
    Ok(rows)
}

// The first state that comes to a row, joined with the row's own, if that counts.
fn first<D: Domain>(
    domain: &D,
    counts: bool,
    own: &D::State,
    state: &D::State,
) -> Result<D::State, AllocError>
    ensures { IfOk result (λ s. s ≡ (if counts then (D.meaning domain.now).join own.now state.now else state.now)) }
{
    if counts {
        return domain.join(own, state);
    }
    domain.copy_state(state)
}

// A state comes to a slot: to the row's own state at first, if that counts.
fn come<D: Domain>(
    domain: &D,
    counts: bool,
    own: &D::State,
    slot: Slot<D::State>,
    state: &D::State,
) -> Result<Slot<D::State>, AllocError>
    ensures { IfOk result (λ s. s ≡ came (D.meaning domain.now) counts own.now slot state.now) }
{
    match slot {
        Slot::Idle => Ok(Slot::Idle),
        Slot::Due => Ok(Slot::Joined(first(domain, counts, own, state)?)),
        Slot::Joined(joined) => Ok(Slot::Joined(domain.join(&joined, state)?)),
    }
}

pub(crate) fn add<D: Domain>(
    domain: &D,
    counts: bool,
    kept: &[Kept<D::Place, D::State>],
    slots: &mut [Slot<D::State>],
    arrival: &Arrival<D::Place, D::State>,
) -> Result<(), AllocError>
    requires rising { AreRising (D.meaning domain.now) (map place_in kept.now) }
    requires slots { length slots.old ≡ length kept.now }
    requires aimed { arrival.now.target ≡ number_of (D.meaning domain.now) (map place_in kept.now) arrival.now.place }
    ensures { OnOk result (slots.new ≡ add_at (D.meaning domain.now) counts kept.now slots.old arrival.now) }
{
    match arrival.target {
        None => Ok(()),
        Some(at) => {
            if at >= slots.len() {
                return Ok(());
            }
            let slot = mem::replace(&mut slots[at], Slot::Idle);
            let next = come(domain, counts, &kept[at].row.state, slot, &arrival.state)?;
            slots[at] = next;
            Ok(())
        }
    }
}

fn add_list<D: Domain>(
    domain: &D,
    counts: bool,
    kept: &[Kept<D::Place, D::State>],
    slots: &mut [Slot<D::State>],
    arrivals: &[Arrival<D::Place, D::State>],
) -> Result<(), AllocError>
    requires rising { AreRising (D.meaning domain.now) (map place_in kept.now) }
    requires slots { length slots.old ≡ length kept.now }
    requires aimed { AreAimed (D.meaning domain.now) (map place_in kept.now) arrivals.now }
    ensures { OnOk result (slots.new ≡ fold (add_at (D.meaning domain.now) counts kept.now) slots.old arrivals.now) }
{
    for arrival in arrivals {
        add(domain, counts, kept, slots, arrival)?;
    }
    Ok(())
}

// All arrivals come to the slots of their places.
pub(crate) fn gather<D: Domain>(
    domain: &D,
    counts: bool,
    kept: &[Kept<D::Place, D::State>],
    slots: &mut [Slot<D::State>],
) -> Result<(), AllocError>
    requires rising { AreRising (D.meaning domain.now) (map place_in kept.now) }
    requires slots { length slots.old ≡ length kept.now }
    requires aimed { AreAimed (D.meaning domain.now) (map place_in kept.now) (all_arrivals kept.now) }
    ensures { OnOk result (slots.new ≡ fold (add_at (D.meaning domain.now) counts kept.now) slots.old (all_arrivals kept.now)) }
{
    for k in kept {
        add_list(domain, counts, kept, slots, k.arrivals.as_slice())?;
    }
    Ok(())
}

// Whether a successor doesn't stand behind a place.
fn goes_back<D: Domain>(domain: &D, place: &D::Place, next: &D::Place) -> bool
    ensures { result ≡ nat_le ((D.meaning domain.now).address next.now) ((D.meaning domain.now).address place.now) }
{
    domain.address(next) <= domain.address(place)
}

// Whether a place has a successor that doesn't stand behind it.
fn is_widening<D: Domain>(
    domain: &D,
    place: &D::Place,
    arrivals: &[Arrival<D::Place, D::State>],
) -> bool
    ensures { result ≡ is_widening_spec (D.meaning domain.now) place.now (map pair_of arrivals.now) }
{
    for arrival in arrivals {
        if goes_back(domain, place, &arrival.place) {
            return true;
        }
    }
    false
}

// The joined state, widened from the fourth change on where the place widens.
fn widened<D: Domain>(
    domain: &D,
    widening: bool,
    number: u32,
    old: &D::State,
    new: D::State,
) -> Result<D::State, AllocError>
    ensures { IfOk result (λ s. s ≡ widened_to (D.meaning domain.now) widening number old.now new) }
{
    if widening && 4 <= number {
        return domain.widen(old, &new);
    }
    Ok(new)
}

// The state after a change.
fn changed<D: Domain>(
    domain: &D,
    widening: bool,
    number: u32,
    old: &D::State,
    new: D::State,
) -> Result<D::State, AllocError>
    ensures { IfOk result (λ s. s ≡ changed_to (D.meaning domain.now) widening number old.now new) }
{
    let state = widened(domain, widening, number, old, new)?;
    if 48 <= number {
        return domain.top_differences(old, &state);
    }
    Ok(state)
}

// A row takes a state.
fn take_state<D: Domain>(domain: &D, row: &mut Row<D::Place, D::State>, state: D::State)
    requires { row.old.changes < 2 ^ 32 - 1 }
    ensures { row.new ≡ with_state (D.meaning domain.now) row.old state }
{
    if domain.is_same(&row.state, &state) {
        return;
    }
    row.state = state;
    row.changes += 1;
}

// A row after a sweep, by the join of its own state and those that came to it.
fn raise<D: Domain>(
    domain: &D,
    widening: bool,
    row: &mut Row<D::Place, D::State>,
    joined: D::State,
) -> Result<(), AllocError>
    requires { row.old.changes < 2 ^ 32 - 1 }
    ensures { OnOk result (row.new ≡ raised (D.meaning domain.now) widening row.old joined) }
{
    if domain.is_same(&row.state, &joined) {
        return Ok(());
    }
    let state = changed(domain, widening, row.changes + 1, &row.state, joined)?;
    take_state(domain, row, state);
    Ok(())
}

// A row by what came to its slot, in a growing sweep.
fn raise_kept<D: Domain>(
    domain: &D,
    k: &mut Kept<D::Place, D::State>,
    slot: Slot<D::State>,
) -> Result<(), AllocError>
    requires { k.old.row.changes < 2 ^ 32 - 1 }
    ensures { OnOk result (k.new ≡ settled (D.meaning domain.now) k.old slot) }
{
    match slot {
        Slot::Joined(joined) => {
            let before = k.row.changes;
            let widening = is_widening(domain, &k.row.place, k.arrivals.as_slice());
            raise(domain, widening, &mut k.row, joined)?;
            k.changed = before < k.row.changes;
        }
        Slot::Due => k.changed = false,
        Slot::Idle => k.changed = false,
    }
    Ok(())
}

// A row takes a state that is below its own.
fn lower<D: Domain>(domain: &D, row: &mut Row<D::Place, D::State>, state: D::State)
    ensures { row.new ≡ lowered (D.meaning domain.now) row.old (Some state) }
{
    if !domain.is_below(&state, &row.state) {
        return;
    }
    row.state = state;
}

// A row by what came to its slot, in a shrinking sweep.
fn lower_kept<D: Domain>(domain: &D, k: &mut Kept<D::Place, D::State>, slot: Slot<D::State>)
    ensures { k.new ≡ lowered_kept (D.meaning domain.now) k.old slot }
{
    match slot {
        Slot::Joined(state) => lower(domain, &mut k.row, state),
        Slot::Due => {}
        Slot::Idle => {}
    }
}

fn settle_row<D: Domain>(
    domain: &D,
    grows: bool,
    k: &mut Kept<D::Place, D::State>,
    slot: Slot<D::State>,
) -> Result<(), AllocError>
    requires { grows ≡ true → k.old.row.changes < 2 ^ 32 - 1 }
    ensures { OnOk result (k.new ≡ settled_by (D.meaning domain.now) grows k.old slot) }
{
    if grows {
        return raise_kept(domain, k, slot);
    }
    lower_kept(domain, k, slot);
    Ok(())
}

// All rows by what came to their slots.
pub(crate) fn settle<D: Domain>(
    domain: &D,
    grows: bool,
    kept: &mut Vec<Kept<D::Place, D::State>>,
    slots: &mut [Slot<D::State>],
) -> Result<(), AllocError>
    requires slots { length slots.old ≡ length kept.old.items }
    requires few { grows ≡ true → AllByRecursion (λ k. k.row.changes < 2 ^ 32 - 1) kept.old.items }
    ensures { OnOk result (kept.new.items ≡ zip_with (settled_by (D.meaning domain.now) grows) kept.old.items slots.old) }
{
    for at in 0..kept.len() {
        if at >= slots.len() {
            return Ok(());
        }
        let slot = mem::replace(&mut slots[at], Slot::Idle);
        settle_row(domain, grows, &mut kept[at], slot)?;
    }
    Ok(())
}

// Puts a new row at its place.
fn put<D: Domain>(
    alloc: Global,
    domain: &D,
    kept: &mut Vec<Kept<D::Place, D::State>>,
    row: Row<D::Place, D::State>,
) -> Result<(), AllocError>
    requires { AreRising (D.meaning domain.now) (map place_in kept.old.items) }
    ensures { OnOk result (kept.new.items ≡ with_kept (D.meaning domain.now) kept.old.items row) }
{
    let at = rank(domain, kept.as_slice(), &row.place);
    let new = Kept {
        row,
        changed: true,
        stale: false,
        arrivals: Items::new(alloc),
    };
    kept.insert(at, new)?;
    Ok(())
}

// Puts new rows at their places.
fn enter<D: Domain>(
    alloc: Global,
    domain: &D,
    kept: &mut Vec<Kept<D::Place, D::State>>,
    rows: Vec<Row<D::Place, D::State>>,
) -> Result<(), AllocError>
    requires kept { AreRising (D.meaning domain.now) (map place_in kept.old.items) }
    requires rows { AreRising (D.meaning domain.now) (map {B = D.Place} (λ r. r.place) rows.items) }
    requires apart { AllByRecursion (λ r. AllByRecursion (λ k. is_same_place (D.meaning domain.now) k.row.place r.place ≡ false) kept.old.items) rows.items }
    ensures { OnOk result (kept.new.items ≡ entered (D.meaning domain.now) kept.old.items rows.items) }
{
    let mut left = rows;
    'entering: loop {
        match left.pop() {
            None => return Ok(()),
            Some(row) => put(alloc, domain, kept, row)?,
        }
    }
}

fn idle_slots<S: Drop>(alloc: Global, count: usize) -> Result<Vec<Slot<S>>, AllocError>
    ensures { IfOk result (λ v. v.items ≡ replicate count Idle) }
{
    let mut slots = Vec::new(alloc);
    for at in 0..count {
        slots.push(Slot::Idle)?;
    }
    Ok(slots)
}

// Makes the successors of stale rows anew, and joins in slots what comes to the rows of which an input may have changed.
fn fill<D: Domain>(
    alloc: Global,
    domain: &D,
    kept: &mut Vec<Kept<D::Place, D::State>>,
    slots: &mut [Slot<D::State>],
) -> Result<(), AllocError>
    requires rising { AreRising (D.meaning domain.now) (map place_in kept.old.items) }
    requires slots { length slots.old ≡ length kept.old.items }
    ensures kept { OnOk result (kept.new.items ≡ aimed_all (D.meaning domain.now) (renewed_all (D.meaning domain.now) kept.old.items)) }
    ensures slots { OnOk result (slots.new ≡ filled_slots (D.meaning domain.now) kept.old.items slots.old) }
{
    touch_all(domain, kept.as_slice(), slots);
    renew(alloc, domain, kept)?;
    touch_all(domain, kept.as_slice(), slots);
    aim(alloc, domain, kept);
    gather(domain, true, kept.as_slice(), slots)
}

// The rows after a sweep, without new ones.
fn settle_all<D: Domain>(
    alloc: Global,
    domain: &D,
    kept: &mut Vec<Kept<D::Place, D::State>>,
) -> Result<Vec<Row<D::Place, D::State>>, AllocError>
    requires sound { IsSound (D.meaning domain.now) kept.old.items }
    requires few { AllByRecursion (λ k. k.row.changes < 2 ^ 32 - 1) kept.old.items }
    ensures kept { OnOk result (kept.new.items ≡ settled_all (D.meaning domain.now) kept.old.items) }
    ensures rows { IfOk result (λ v. v.items ≡ met (D.meaning domain.now) kept.old.items) }
{
    note_stale(alloc, domain, kept)?;
    let mut slots = idle_slots(alloc, kept.len())?;
    fill(alloc, domain, kept, slots.as_mut_slice())?;
    let rows = new_rows(alloc, domain, kept.as_slice())?;
    settle(domain, true, kept, slots.as_mut_slice())?;
    Ok(rows)
}

// A growing sweep, in a map that may have so many places. It tells whether more places were met than there is room for.
pub(crate) fn grow<D: Domain>(
    alloc: Global,
    domain: &D,
    most: usize,
    kept: &mut Vec<Kept<D::Place, D::State>>,
) -> Result<bool, AllocError>
    requires sound { IsSound (D.meaning domain.now) kept.old.items }
    requires few { AllByRecursion (λ k. k.row.changes < 2 ^ 32 - 1) kept.old.items }
    ensures kept { OnOk result (kept.new.items ≡ stepped (D.meaning domain.now) most kept.old.items) }
    ensures full { IfOk result (λ b. b ≡ nat_lt (most - length kept.old.items) (length (met (D.meaning domain.now) kept.old.items))) }
{
    let room = most.saturating_sub(kept.len());
    let mut rows = settle_all(alloc, domain, kept)?;
    let full = room < rows.len();
    rows.truncate(room);
    enter(alloc, domain, kept, rows)?;
    Ok(full)
}
