//! What is kept of a map between sweeps.
ghost use Rattle.std.specs.Prelude.{◌≡◌, ◌≤◌, map, length, IfOk};
ghost use Rattle.sweeps.specs.Sweeps.{entry_of, others_of, successors_of, AreRising};
ghost use Rattle.sweeps.specs.Kept.{table_of, rank_by, number_of, unaimed, kept_table, place_in};

use crate::closed::others;
use crate::domain::Domain;
use crate::row::Row;
use item_list::Items;
use std::alloc::{AllocError, Global};

/// A successor of a row.
#[derive(Drop)]
pub(crate) struct Arrival<P, S> {
    pub(crate) place: P,
    pub(crate) state: S,
    /// The number of the place's row, as it was looked up last.
    pub(crate) target: Option<usize>,
}

/// A row, with its successors as they were made last.
#[derive(Drop)]
pub(crate) struct Kept<P, S> {
    pub(crate) row: Row<P, S>,
    /// Whether the last sweep changed the row.
    pub(crate) changed: bool,
    /// Whether the successors are to be made anew.
    pub(crate) stale: bool,
    pub(crate) arrivals: Items<Arrival<P, S>>,
}

/// What comes to a row in a sweep.
#[derive(Drop)]
pub(crate) enum Slot<S> {
    /// Nothing new.
    Idle,
    /// Nothing yet.
    Due,
    /// The join of what came.
    Joined(S),
}

// How many rows stand before a place.
pub(crate) fn rank<D: Domain>(
    domain: &D,
    kept: &[Kept<D::Place, D::State>],
    place: &D::Place,
) -> usize
    requires { AreRising (D.meaning domain.now) (map place_in kept.now) }
    ensures rank { result ≡ rank_by (λ k. (D.meaning domain.now).before k.row.place place.now) kept.now }
    ensures within { result ≤ length kept.now }
{
    kept.partition_point(
        |k: &Kept<D::Place, D::State>| -> bool
            ensures { result ≡ (D.meaning domain.entry.now).before k.now.row.place place.entry.now }
        { domain.is_before(&k.row.place, place) },
    )
}

// The number of a place's row, if it has one: found by halves.
pub(crate) fn number<D: Domain>(
    domain: &D,
    kept: &[Kept<D::Place, D::State>],
    place: &D::Place,
) -> Option<usize>
    requires { AreRising (D.meaning domain.now) (map place_in kept.now) }
    ensures { result ≡ number_of (D.meaning domain.now) (map place_in kept.now) place.now }
{
    let at = rank(domain, kept, place);
    match kept.get(at) {
        None => None,
        Some(k) => {
            if domain.is_before(place, &k.row.place) {
                return None;
            }
            Some(at)
        }
    }
}

// The same, by a number that may be it.
pub(crate) fn number_near<D: Domain>(
    domain: &D,
    kept: &[Kept<D::Place, D::State>],
    place: &D::Place,
    hint: usize,
) -> Option<usize>
    requires { AreRising (D.meaning domain.now) (map place_in kept.now) }
    ensures { result ≡ number_of (D.meaning domain.now) (map place_in kept.now) place.now }
{
    if let Some(k) = kept.get(hint) {
        if !domain.is_before(place, &k.row.place) && !domain.is_before(&k.row.place, place) {
            return Some(hint);
        }
    }
    number(domain, kept, place)
}

// The places and states, lent.
fn table<'a, P, S>(alloc: Global, kept: &'a [Kept<P, S>]) -> Result<Vec<(&'a P, &'a S)>, AllocError>
    ensures { IfOk result (λ v. table_of v.items ≡ kept_table kept.now) }
{
    let mut entries = Vec::new(alloc);
    for k in kept {
        entries.push((&k.row.place, &k.row.state))?;
    }
    Ok(entries)
}

// The rows that concern a place.
fn others_kept<'a, D: Domain>(
    alloc: Global,
    domain: &D,
    kept: &'a [Kept<D::Place, D::State>],
    place: &D::Place,
) -> Result<Vec<(&'a D::Place, &'a D::State)>, AllocError>
    ensures { IfOk result (λ v. table_of v.items ≡ others_of (D.meaning domain.now) (kept_table kept.now) place.now) }
{
    if !domain.looks_at_others(place) {
        return Ok(Vec::new(alloc));
    }
    let entries = table(alloc, kept)?;
    others(alloc, domain, entries.as_slice(), place)
}

fn list<P: Drop, S: Drop>(
    alloc: Global,
    pairs: Vec<(P, S)>,
) -> Result<Items<Arrival<P, S>>, AllocError>
    ensures { IfOk result (λ list. list ≡ map unaimed pairs.items) }
{
    let mut arrivals = Vec::new(alloc);
    for pair in pairs {
        arrivals.push(Arrival {
            place: pair.0,
            state: pair.1,
            target: None,
        })?;
    }
    Ok(Items::from_vec(arrivals))
}

/// The successors of a row.
pub(crate) fn successors<D: Domain>(
    alloc: Global,
    domain: &D,
    kept: &[Kept<D::Place, D::State>],
    row: &Row<D::Place, D::State>,
) -> Result<Items<Arrival<D::Place, D::State>>, AllocError>
    ensures { IfOk result (λ list. list ≡ map unaimed (successors_of (D.meaning domain.now) (kept_table kept.now) (entry_of row.now))) }
{
    let others = others_kept(alloc, domain, kept, &row.place)?;
    let pairs = domain.successors(&row.place, &row.state, others.as_slice())?;
    list(alloc, pairs)
}
