//! The check that a map is closed.
ghost use Rattle.std.specs.Prelude.{◌≡◌, map, length, IfOk};
ghost use Rattle.std.specs.List.{list_all};
ghost use Rattle.sweeps.specs.Sweeps.{others_of, successors_of, has_above as has_above_spec, is_closed as is_closed_spec, AreRising};
ghost use Rattle.sweeps.specs.Kept.{table_of, rank_by};

use crate::domain::Domain;
use std::alloc::{AllocError, Global};

/// The places that concern one, with their states.
pub(crate) fn others<'a, D: Domain>(
    alloc: Global,
    domain: &D,
    table: &[(&'a D::Place, &'a D::State)],
    place: &D::Place,
) -> Result<Vec<(&'a D::Place, &'a D::State)>, AllocError>
    ensures { IfOk result (λ v. table_of v.items ≡ others_of (D.meaning domain.now) (table_of table.now) place.now) }
{
    let mut others = Vec::new(alloc);
    if !domain.looks_at_others(place) {
        return Ok(others);
    }
    for entry in table {
        if domain.concerns(place, entry.0) {
            others.push((entry.0, entry.1))?;
        }
    }
    Ok(others)
}

// How many places of the table stand before one.
fn rank<'a, D: Domain>(
    domain: &D,
    table: &[(&'a D::Place, &'a D::State)],
    place: &D::Place,
) -> usize
    requires { AreRising (D.meaning domain.now) (map {B = D.Place} (λ e. e.0.now) table.now) }
    ensures { result ≡ rank_by (λ e. (D.meaning domain.now).before e.0.now place.now) table.now }
{
    table.partition_point(
        |entry: &(&D::Place, &D::State)| -> bool
            ensures { result ≡ (D.meaning domain.entry.now).before entry.now.0.now place.entry.now }
        { domain.is_before(entry.0, place) },
    )
}

// Whether the table has the place, with a state above this one: found by halves.
fn has_above<'a, D: Domain>(
    domain: &D,
    table: &[(&'a D::Place, &'a D::State)],
    place: &D::Place,
    state: &D::State,
) -> bool
    requires { AreRising (D.meaning domain.now) (map {B = D.Place} (λ e. e.0.now) table.now) }
    ensures { result ≡ has_above_spec (D.meaning domain.now) (table_of table.now) (place.now, state.now) }
{
    let at = rank(domain, table, place);
    match table.get(at) {
        None => false,
        Some(entry) => {
            if domain.is_before(place, entry.0) {
                return false;
            }
            domain.is_below(state, entry.1)
        }
    }
}

// Whether the table has all these places, with states above these.
fn are_above<'a, D: Domain>(
    domain: &D,
    table: &[(&'a D::Place, &'a D::State)],
    arrivals: &[(D::Place, D::State)],
) -> bool
    requires { AreRising (D.meaning domain.now) (map {B = D.Place} (λ e. e.0.now) table.now) }
    ensures { result ≡ list_all (has_above_spec (D.meaning domain.now) (table_of table.now)) arrivals.now }
{
    for (place, state) in arrivals {
        if !has_above(domain, table, place, state) {
            return false;
        }
    }
    true
}

/// Whether a map is closed: it has the entry, with a state that allows what the initial one does, and wherever control may go from one
/// of its places it has the next, with a state that allows what comes to it. The places rise.
///
/// # Errors
/// Where memory is wanting.
pub fn is_closed<'a, D: Domain>(
    alloc: Global,
    domain: &D,
    entry: &D::Place,
    initial: &D::State,
    table: &[(&'a D::Place, &'a D::State)],
) -> Result<bool, AllocError>
    requires { AreRising (D.meaning domain.now) (map {B = D.Place} (λ e. e.0.now) table.now) }
    ensures { IfOk result (λ b. b ≡ is_closed_spec (D.meaning domain.now) entry.now initial.now (table_of table.now)) }
{
    if !has_above(domain, table, entry, initial) {
        return Ok(false);
    }
    for (place, state) in table {
        let others = others(alloc, domain, table, place)?;
        let arrivals = domain.successors(place, state, others.as_slice())?;
        if !are_above(domain, table, arrivals.as_slice()) {
            return Ok(false);
        }
    }
    Ok(true)
}
