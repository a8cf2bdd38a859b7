//! The places of what is written, and whether they may be others or reach into return slots.

ghost use Rattle.std.specs.Prelude.{◌≡◌, ◌-ℤ◌, ◌+ℤ◌, ◌&&◌, pos, is_some, map, IfOk};
ghost use Rattle.std.specs.List.{list_any};
ghost use Rattle.std.specs.Int.{int_max};
ghost use Rattle.abs_semantics.specs.Resolve.{same_reason as same_reason_spec};
ghost use Rattle.abs_semantics.specs.Touching.{is_frame as is_frame_spec, touches_slot as touches_slot_spec};
ghost use Rattle.abs_steps.specs.Warnings.{writes_slot_in as writes_slot_in_spec};
ghost use Rattle.abs_state.specs.Reads.{told_by};
ghost use Rattle.transfer_flow.specs.Written.{met_by, met, with_reason as with_reason_spec, with_slot as with_slot_spec};
ghost use Rattle.transfer.specs.Views.{view_by};

use abs_resolve::Places;
use abs_semantics::Reason;
use abs_steps::Access;
use image_map::RegionId;
use std::alloc::{AllocError, Global};
use transfer::View;
use vset::Part;

/// An access with its places.
#[derive(Drop)]
pub(crate) struct Written {
    pub(crate) places: Places,
    pub(crate) len: Option<u32>,
}

/// The places of an access: one whose length isn't known may be anywhere.
fn resolved(alloc: Global, view: &View<'_>, access: &Access) -> Result<Places, AllocError>
    ensures { IfOk result (λ p. told_by p ≡ (met (view_by view.now) access.now).places) }
{
    match access.len {
        None => {
            let mut reasons = Vec::new(alloc);
            reasons.push(Reason::UnknownWrite)?;
            Ok(Places {
                entries: Vec::new(alloc),
                reasons,
            })
        }
        Some(len) => view.state.resolve(alloc, view.procedure, &access.addr, len),
    }
}

/// Each access with its places.
pub(crate) fn all_written(
    alloc: Global,
    view: &View<'_>,
    accesses: &[Access],
) -> Result<Vec<Written>, AllocError>
    ensures { IfOk result (λ v. map met_by v.items ≡ map (met (view_by view.now)) accesses.now) }
{
    let mut out = Vec::new(alloc);
    for access in accesses {
        let places = resolved(alloc, view, access)?;
        let len = access.len;
        out.push(Written { places, len })?;
    }
    Ok(out)
}

fn is_same_reason(a: &Reason, b: &Reason) -> bool
    ensures { result ≡ same_reason_spec a.now b.now }
{
    matches!(
        (a, b),
        (Reason::UnknownWrite, Reason::UnknownWrite)
            | (Reason::OutOfRegion, Reason::OutOfRegion)
            | (Reason::HeapOverrun, Reason::HeapOverrun)
    )
}

fn has_reason(reason: &Reason, written: &Written) -> bool
    ensures { result ≡ list_any (same_reason_spec reason.now) (met_by written.now).places.reasons }
{
    written
        .places
        .reasons
        .as_slice()
        .iter()
        .any(|r| is_same_reason(reason, r))
}

fn some_with_reason(reason: &Reason, all: &[Written]) -> bool
    ensures { result ≡ list_any (λ w. list_any (same_reason_spec reason.now) (met_by w).places.reasons) all.now }
{
    all.iter().any(|written| has_reason(reason, written))
}

/// Whether some address may mean other places, for this reason.
pub(crate) fn with_reason(reason: &Reason, all: &[Written]) -> bool
    ensures { result ≡ with_reason_spec reason.now (map met_by all.now) }
{
    some_with_reason(reason, all)
}

fn is_frame(region: &RegionId) -> bool
    ensures { result ≡ is_frame_spec region.now }
{
    matches!(region, RegionId::Frame(_) | RegionId::OldFrame(_))
}

/// The least offset from which `len` bytes reach into a return slot, or the least of some.
fn low_bound(least: i32, len: u32) -> i32
    ensures { result ≡ int_max least ((pos 0 -ℤ pos len) +ℤ pos 1) }
{
    let low = 1 - i64::from(len);
    if i64::from(least) <= low {
        low as i32
    } else {
        least
    }
}

/// Whether a range of `len` bytes from some member reaches into a return slot.
fn touches_slot(len: u32, part: &Part) -> bool
    ensures { result ≡ touches_slot_spec len part.now }
{
    is_frame(&part.region) && part.si.clip(low_bound(part.si.lo(), len), 3).is_some()
}

fn any_touches(len: u32, parts: &[Part]) -> bool
    ensures { result ≡ list_any (touches_slot_spec len) parts.now }
{
    parts.iter().any(|part| touches_slot(len, part))
}

fn writes_slot(written: &Written) -> bool
    ensures { result ≡ writes_slot_in_spec (met_by written.now).places.entries (met_by written.now).len }
{
    match written.len {
        None => false,
        Some(len) => any_touches(len, written.places.entries.as_slice()),
    }
}

fn some_with_slot(all: &[Written]) -> bool
    ensures { result ≡ list_any (λ w. writes_slot_in_spec (met_by w).places.entries (met_by w).len) all.now }
{
    all.iter().any(|written| writes_slot(written))
}

/// Whether a return slot may be written.
pub(crate) fn with_slot(all: &[Written]) -> bool
    ensures { result ≡ with_slot_spec (map met_by all.now) }
{
    some_with_slot(all)
}
