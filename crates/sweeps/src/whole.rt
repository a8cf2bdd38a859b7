//! All sweeps.
ghost use Rattle.std.specs.Prelude.{◌≡◌, ◌||◌, [], ◌∷◌, map, nat_lt, IfOk, OnOk};
ghost use Rattle.std.specs.List.{list_any};
ghost use Rattle.sweeps.specs.Sweeps.{AreRising, first_sweep, grown_times, shrunk, swept};
ghost use Rattle.sweeps.specs.Kept.{place_in, rows_of, fresh};

use crate::domain::Domain;
use crate::growing::grow;
use crate::kept::Kept;
use crate::row::Row;
use crate::shrinking::shrink;
use item_list::Items;
use std::alloc::{AllocError, Global};

/// What the sweeps give.
#[derive(Drop)]
pub struct Swept<P, S> {
    /// The places, rising, with their states.
    pub rows: Vec<Row<P, S>>,
    /// Whether more places were met than a map may have.
    pub full: bool,
}

// The entry alone.
fn begin<D: Domain>(
    alloc: Global,
    domain: &D,
    entry: &D::Place,
    initial: &D::State,
) -> Result<Vec<Kept<D::Place, D::State>>, AllocError>
    ensures { IfOk result (λ v. v.items ≡ map fresh (first_sweep (D.meaning domain.now) entry.now initial.now).rows) }
{
    let mut kept = Vec::new(alloc);
    let row = Row {
        place: domain.copy_place(entry)?,
        state: domain.copy_state(initial)?,
        changes: 1,
    };
    kept.push(Kept {
        row,
        changed: true,
        stale: false,
        arrivals: Items::new(alloc),
    })?;
    Ok(kept)
}

fn any_changed<P, S>(kept: &[Kept<P, S>]) -> bool
    ensures { result ≡ list_any (λ k. k.changed) kept.now }
{
    kept.iter().any(|k| k.changed)
}

fn either(first: bool, second: bool) -> bool
    ensures { result ≡ (first || second) }
{
    first | second
}

// The growing sweeps: 4,096, or until nothing changes.
fn grow_all<D: Domain>(
    alloc: Global,
    domain: &D,
    most: usize,
    entry: &D::Place,
    initial: &D::State,
) -> Result<(Vec<Kept<D::Place, D::State>>, bool), AllocError>
    ensures rows { IfOk result (λ r. rows_of r.0.items ≡ (grown_times (D.meaning domain.now) 4096 most (first_sweep (D.meaning domain.now) entry.now initial.now)).rows) }
    ensures full { IfOk result (λ r. r.1 ≡ (grown_times (D.meaning domain.now) 4096 most (first_sweep (D.meaning domain.now) entry.now initial.now)).full) }
    ensures rising { IfOk result (λ r. AreRising (D.meaning domain.now) (map place_in r.0.items)) }
{
    let mut kept = begin(alloc, domain, entry, initial)?;
    let mut full = false;
    for sweep in 0..4096u32 {
        let more = grow(alloc, domain, most, &mut kept)?;
        full = either(full, more);
        if !any_changed(kept.as_slice()) {
            return Ok((kept, full));
        }
    }
    Ok((kept, full))
}

// The rows without what is kept for them.
fn rows_only<P: Drop, S: Drop>(
    alloc: Global,
    kept: Vec<Kept<P, S>>,
) -> Result<Vec<Row<P, S>>, AllocError>
    ensures { IfOk result (λ v. v.items ≡ rows_of kept.items) }
{
    let mut rows = Vec::new(alloc);
    for k in kept {
        rows.push(k.row)?;
    }
    Ok(rows)
}

// All sweeps, in a map of so many places at most.
pub(crate) fn sweep_within<D: Domain>(
    alloc: Global,
    domain: &D,
    most: usize,
    entry: &D::Place,
    initial: &D::State,
) -> Result<Swept<D::Place, D::State>, AllocError>
    ensures rows { IfOk result (λ w. w.rows.items ≡ (swept (D.meaning domain.now) most entry.now initial.now).rows) }
    ensures full { IfOk result (λ w. w.full ≡ (swept (D.meaning domain.now) most entry.now initial.now).full) }
    ensures rising { IfOk result (λ w. AreRising (D.meaning domain.now) (map {B = D.Place} (λ r. r.place) w.rows.items)) }
{
    let grown = grow_all(alloc, domain, most, entry, initial)?;
    let mut kept = grown.0;
    let full = grown.1;
    shrink(alloc, domain, entry, initial, &mut kept)?;
    shrink(alloc, domain, entry, initial, &mut kept)?;
    shrink(alloc, domain, entry, initial, &mut kept)?;
    shrink(alloc, domain, entry, initial, &mut kept)?;
    let rows = rows_only(alloc, kept)?;
    Ok(Swept { rows, full })
}

/// The states of all places that control may come to from the entry: 4,096 growing sweeps, or until nothing changes, in a map of 4,096
/// places at most, and then four shrinking ones.
///
/// # Errors
/// Where memory is wanting.
pub fn sweep_all<D: Domain>(
    alloc: Global,
    domain: &D,
    entry: &D::Place,
    initial: &D::State,
) -> Result<Swept<D::Place, D::State>, AllocError>
    ensures rows { IfOk result (λ w. w.rows.items ≡ (swept (D.meaning domain.now) 4096 entry.now initial.now).rows) }
    ensures full { IfOk result (λ w. w.full ≡ (swept (D.meaning domain.now) 4096 entry.now initial.now).full) }
    ensures rising { IfOk result (λ w. AreRising (D.meaning domain.now) (map {B = D.Place} (λ r. r.place) w.rows.items)) }
{
    sweep_within(alloc, domain, 4096, entry, initial)
}
