//! The offsets that regions have.
ghost use Rattle.std.specs.Prelude.{◌≡◌, ◌≤◌, [], ◌∷◌, ◌↔◌, ◌⊎◌, Contains, IfOk, OnOk, false, find, int_le, int_lt, length, negsuc, pos, slice_get, true};
ghost use Rattle.std.specs.List.Sorted.{IsPartitionPoint};
ghost use Rattle.image_map.specs.Whole.{ArePlaced, IsPlaced, end_of};
ghost use Rattle.alocs.specs.Extents.{AreOfImage, RiseFrom, Takes, home as home_spec};
ghost use Rattle.alocs.specs.Halves.{IsClearOf};

use image_map::{RegionId, Segment};
use std::alloc::{AllocError, Global};

/// The offsets from `start` up to, and without, `end`.
#[derive(Clone, Copy, Debug)]
pub struct Extent {
    pub start: i32,
    pub end: i32,
}

/// The region whose extent and cuts a region has: older activations and blocks have those of the newest.
pub fn home(region: RegionId) -> RegionId
    ensures { result ≡ home_spec region }
{
    match region {
        RegionId::Global => RegionId::Global,
        RegionId::Frame(procedure) | RegionId::OldFrame(procedure) => RegionId::Frame(procedure),
        RegionId::Heap(key) | RegionId::OldHeap(key) => RegionId::Heap(key),
    }
}

fn extent_at(extents: &[Extent], number: usize) -> Option<Extent>
    ensures { result ≡ slice_get extents.now number }
{
    match extents.get(number) {
        None => None,
        Some(extent) => Some(*extent),
    }
}

/// The first of the extents that ends above an offset: found by a search that halves them.
pub(crate) fn extent_after(extents: &[Extent], offset: i64) -> Option<Extent>
    requires { RiseFrom (negsuc 2147483647) extents.now }
    ensures { result ≡ find (λ x. int_lt offset x.end) extents.now }
{
    let passed = extents.partition_point(
        |x: &Extent| -> bool
            ensures { result ≡ int_le x.now.end offset }
        { i64::from(x.end) <= offset },
    );
    extent_at(extents, passed)
}

/// The offsets of `Global` that a segment has.
pub fn extent_of(segment: &Segment) -> Extent
    requires { IsPlaced segment.now }
    ensures start { result.start ≡ pos segment.now.start }
    ensures end { result.end ≡ pos (end_of segment.now) }
{
    let end = i64::from(segment.start) + segment.bytes.len() as i64;
    Extent {
        start: segment.start as i32,
        end: end as i32,
    }
}

// How many of the extents start below an offset.
fn place_of(extents: &[Extent], offset: i32) -> usize
    requires { RiseFrom (pos 0) extents.now }
    ensures point { IsPartitionPoint (λ x. int_lt x.start offset ≡ true) (λ x. int_lt x.start offset ≡ false) extents.now result }
    ensures within { result ≤ length extents.now }
{
    extents.partition_point(
        |x: &Extent| -> bool
            ensures { result ≡ int_lt x.now.start offset }
        { x.start < offset },
    )
}

// Puts the extent of a segment between those that stand below and above it.
fn add_segment(extents: &mut Vec<Extent>, segment: &Segment) -> Result<(), AllocError>
    requires placed { IsPlaced segment.now }
    requires apart { (x : Extent) → Contains extents.old.items x → IsClearOf segment.now x }
    requires rise { RiseFrom (pos 0) extents.old.items }
    ensures rise { OnOk result (RiseFrom (pos 0) extents.new.items) }
    ensures each { OnOk result ((x : Extent) → Contains extents.new.items x ↔ (Contains extents.old.items x ⊎ Takes segment.now x)) }
{
    let extent = extent_of(segment);
    if extent.start == extent.end {
        return Ok(());
    }
    let place = place_of(extents.as_slice(), extent.start);
    extents.insert(place, extent)?;
    Ok(())
}

/// The extents of an image's segments that have bytes, rising.
pub(crate) fn image_extents(alloc: Global, segments: &[Segment]) -> Result<Vec<Extent>, AllocError>
    requires { ArePlaced segments.now }
    ensures { IfOk result (λ xs. AreOfImage segments.now xs.items) }
{
    let mut extents = Vec::new(alloc);
    for segment in segments {
        add_segment(&mut extents, segment)?;
    }
    Ok(extents)
}

/// An extent alone.
pub(crate) fn only(alloc: Global, start: i32, end: i32) -> Result<Vec<Extent>, AllocError>
    ensures { IfOk result (λ xs. xs.items ≡ record { start = start; end = end } ∷ []) }
{
    let mut extents = Vec::new(alloc);
    extents.push(Extent { start, end })?;
    Ok(extents)
}
