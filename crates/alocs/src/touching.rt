//! The cells of one region.
ghost use Rattle.std.specs.Prelude.{◌≡◌, ◌≤◌, ◌≤ℤ◌, ◌<ℤ◌, ◌+ℤ◌, ◌-ℤ◌, IfOk, Some, find, int_le, negsuc, pos, slice_get};
ghost use Rattle.alocs.specs.Extents.{RiseFrom};
ghost use Rattle.alocs.specs.Cells.{AreRising, AreTouched, cells_from, cells_in, holds};
ghost use Rattle.alocs.specs.Halves.{IsFirstFrom, before, ends_after, lowered, raised};

use crate::extents::{Extent, extent_after};
use image_map::{Cell, RegionId};
use std::alloc::{AllocError, Global};
use strided::Si;

/// How a region is divided: its extents, rising, and its cuts, rising.
#[derive(Clone, Copy)]
pub(crate) struct Plan<'a> {
    pub region: RegionId,
    pub extents: &'a [Extent],
    pub cuts: &'a [i32],
}

impl Plan<'_> {
    /// The first cell that ends above an offset.
    pub(crate) fn cell_after(&self, offset: i64) -> Option<Cell>
        requires rise { RiseFrom (negsuc 2147483647) self.now.extents.now }
        requires rising { AreRising self.now.cuts.now }
        ensures { result ≡ find (ends_after offset) (cells_in self.now.region self.now.extents.now self.now.cuts.now) }
    {
        let extent = extent_after(self.extents, offset)?;
        let within = offset.max(i64::from(extent.start));
        Some(cell_at(self.region, extent, self.cuts, within))
    }
}

impl Plan<'_> {
    /// The cell that has an offset.
    pub(crate) fn cell_with(&self, offset: i32) -> Option<Cell>
        requires rise { RiseFrom (negsuc 2147483647) self.now.extents.now }
        requires rising { AreRising self.now.cuts.now }
        ensures { result ≡ find (holds offset) (cells_in self.now.region self.now.extents.now self.now.cuts.now) }
    {
        match self.cell_after(i64::from(offset)) {
            None => None,
            Some(cell) => {
                if cell.start <= offset {
                    Some(cell)
                } else {
                    None
                }
            }
        }
    }
}

// The last of the first cuts, where it lies above `start`.
fn cut_before(cuts: &[i32], passed: usize, start: i32) -> i32
    ensures { result ≡ raised start (before cuts.now passed) }
{
    match passed.checked_sub(1) {
        None => start,
        Some(last) => match cuts.get(last) {
            None => start,
            Some(cut) => start.max(*cut),
        },
    }
}

// The cut with a number, where it lies below `end`.
fn cut_behind(cuts: &[i32], passed: usize, end: i32) -> i32
    ensures { result ≡ lowered end (slice_get cuts.now passed) }
{
    match cuts.get(passed) {
        None => end,
        Some(cut) => end.min(*cut),
    }
}

// The cell of an extent that has an offset, which lies in the extent: found by a search that halves the cuts.
fn cell_at(region: RegionId, extent: Extent, cuts: &[i32], offset: i64) -> Cell
    requires rising { AreRising cuts.now }
    requires above { extent.start ≤ℤ offset }
    requires below { offset <ℤ extent.end }
    ensures { Some result ≡ find (ends_after offset) (cells_from region extent.start cuts.now extent.end) }
{
    let passed = cuts.partition_point(
        |cut: &i32| -> bool
            ensures { result ≡ int_le cut.now offset }
        { i64::from(*cut) <= offset },
    );
    Cell {
        region,
        start: cut_before(cuts, passed, extent.start),
        end: cut_behind(cuts, passed, extent.end),
    }
}

// The least place from which `len` bytes reach past a cell's start.
fn lower_bound(start: i32, len: u32) -> i64
    ensures { result ≡ (start -ℤ pos len) +ℤ pos 1 }
{
    i64::from(start) - i64::from(len) + 1
}

// The least of the offsets that isn't below a bound.
fn first_from(offsets: &Si, bound: i64) -> Option<i32>
    requires { bound ≤ℤ pos 2147483647 }
    ensures { IsFirstFrom offsets.now bound result }
{
    let low = bound.max(i64::from(offsets.lo())) as i32;
    match offsets.clip(low, offsets.hi()) {
        None => None,
        Some(above) => Some(above.lo()),
    }
}

/// The cells that a range of `len` bytes from some of the offsets touches. Between two that it touches it goes on by one search, so
/// it takes the time of its answer.
pub(crate) fn touched(
    alloc: Global,
    plan: &Plan<'_>,
    offsets: &Si,
    len: u32,
) -> Result<Vec<Cell>, AllocError>
    requires rise { RiseFrom (negsuc 2147483647) plan.now.extents.now }
    requires rising { AreRising plan.now.cuts.now }
    requires some { 1 ≤ len }
    ensures { IfOk result (λ cells. AreTouched (cells_in plan.now.region plan.now.extents.now plan.now.cuts.now) offsets.now len cells.items) }
{
    let mut cells = Vec::new(alloc);
    let mut passed = i64::from(offsets.lo());
    while let Some(cell) = plan.cell_after(passed) {
        match first_from(offsets, lower_bound(cell.start, len)) {
            None => return Ok(cells),
            Some(first) => {
                if first < cell.end {
                    cells.push(cell)?;
                    passed = i64::from(cell.end);
                } else {
                    passed = i64::from(first);
                }
            }
        }
    }
    Ok(cells)
}
