//! Which cells ranges of bytes touch.

ghost use Rattle.std.specs.Prelude.{◌≡◌, ◌-ℤ◌, ◌+ℤ◌, ◌<ℤ◌, ◌≤ℤ◌, ◌+◌, pos, negsuc, int_lt, None, IfSome};
ghost use Rattle.std.specs.Int.{int_max};
ghost use Rattle.strided.specs.Interval.{IsCanonical};
ghost use Rattle.strided.specs.Operations.{clip};
ghost use Rattle.std.specs.List.{list_any};
ghost use Rattle.std.specs.Ordering.{int_eq};
ghost use Rattle.abs_semantics.specs.Touching.{meeting as meeting_spec, touches as touches_spec, is_range as is_range_spec, is_other as is_other_spec, crosses as crosses_spec, any_touches as any_touches_spec, any_crosses as any_crosses_spec, names_one as names_one_spec, sure_place as sure_place_spec, lone_place as lone_place_spec};
ghost use Rattle.abs_semantics.specs.Accesses.{is_open_at as is_open_at_spec, may_change as may_change_spec};

use cell_map::has_length;
use image_map::{Cell, Image, PF_W, RegionId, Segment};
use strided::Si;
use vset::Part;

fn is_same(a: i32, b: i32) -> bool
    ensures { result ≡ int_eq a b }
{
    a == b
}

/// The least offset from which `len` bytes reach past a start, and no less than `lo`.
fn least(start: i32, len: u32, lo: i32) -> i64
    ensures value { result ≡ int_max lo ((start -ℤ pos len) +ℤ pos 1) }
    ensures above { lo ≤ℤ result }
{
    let bound = i64::from(start) - i64::from(len) + 1;
    bound.max(i64::from(lo))
}

/// An offset from `lo` on, unless it lies above `hi`.
fn narrowed(offset: i64, lo: i32, hi: i32) -> Option<i32>
    requires { lo ≤ℤ offset }
    ensures some { IfSome result (λ o. o ≡ offset) }
    ensures none { result ≡ None → hi <ℤ offset }
{
    if i64::from(hi) < offset {
        None
    } else {
        Some(offset as i32)
    }
}

/// The offset before another, if there is one.
fn last_before(end: i32) -> Option<i32>
    ensures some { IfSome result (λ o. o ≡ end -ℤ pos 1) }
    ensures none { result ≡ None → end ≡ negsuc 2147483647 }
{
    if end == i32::MIN { None } else { Some(end - 1) }
}

/// The members from `low` on and below `end`.
fn clipped(si: &Si, low: i32, end: i32) -> Option<Si>
    requires { IsCanonical si.now }
    ensures { result ≡ clip si.now low (end -ℤ pos 1) }
{
    match last_before(end) {
        None => None,
        Some(high) => si.clip(low, high),
    }
}

/// The members from which ranges of `len` bytes share a byte with a cell.
fn meeting(si: &Si, len: u32, cell: &Cell) -> Option<Si>
    ensures { result ≡ meeting_spec si.now len cell.now }
{
    match narrowed(least(cell.start, len, si.lo()), si.lo(), si.hi()) {
        None => None,
        Some(low) => clipped(si, low, cell.end),
    }
}

/// Whether `len` bytes from an offset of a part share a byte with a cell.
pub fn touches(len: u32, cell: &Cell, x: &Part) -> bool
    ensures { result ≡ touches_spec len cell.now x.now }
{
    x.region == cell.region && meeting(&x.si, len, cell).is_some()
}

/// Whether a cell is the range from the members, which are one then.
pub(crate) fn is_range(len: u32, cell: &Cell, si: &Si) -> bool
    ensures { result ≡ is_range_spec len cell.now si.now }
{
    is_same(si.lo(), cell.start) && is_same(si.hi(), cell.start) && has_length(len, cell)
}

fn is_other(len: u32, cell: &Cell, si: Option<Si>) -> bool
    ensures { result ≡ is_other_spec len cell.now si }
{
    match si {
        None => false,
        Some(si) => !is_range(len, cell, &si),
    }
}

fn crosses(len: u32, cell: &Cell, x: &Part) -> bool
    ensures { result ≡ crosses_spec len cell.now x.now }
{
    x.region == cell.region && is_other(len, cell, meeting(&x.si, len, cell))
}

pub(crate) fn any_touches(len: u32, xs: &[Part], cell: &Cell) -> bool
    ensures { result ≡ any_touches_spec len xs.now cell.now }
{
    xs.iter().any(|x| touches(len, cell, x))
}

pub(crate) fn any_crosses(len: u32, xs: &[Part], cell: &Cell) -> bool
    ensures { result ≡ any_crosses_spec len xs.now cell.now }
{
    xs.iter().any(|x| crosses(len, cell, x))
}

/// Whether a region names one thing alone.
fn names_one(region: &RegionId) -> bool
    ensures { result ≡ names_one_spec region.now }
{
    match region {
        RegionId::Global | RegionId::Frame(_) | RegionId::Heap(_) => true,
        RegionId::OldFrame(_) | RegionId::OldHeap(_) => false,
    }
}

/// The place, where there is one alone.
pub(crate) fn lone_place(xs: &[Part]) -> Option<Part>
    ensures value { result ≡ lone_place_spec xs.now }
    ensures form { IfSome result (λ x. IsCanonical x.si) }
{
    match xs {
        [x] if x.si.stride() == 0 => Some(*x),
        _ => None,
    }
}

/// The place, where it is one of one thing.
pub(crate) fn sure_place(xs: &[Part]) -> Option<Part>
    ensures value { result ≡ sure_place_spec xs.now }
    ensures form { IfSome result (λ x. IsCanonical x.si) }
{
    match lone_place(xs) {
        Some(x) if names_one(&x.region) => Some(x),
        _ => None,
    }
}

fn is_above(a: i32, start: u32) -> bool
    ensures { result ≡ int_lt (pos start) a }
{
    i64::from(start) < i64::from(a)
}

fn is_below_end(a: i32, start: u32, len: usize) -> bool
    ensures { result ≡ int_lt a (pos (start + len)) }
{
    let distance = i64::from(a) - i64::from(start);
    distance < 0 || (distance as u64) < len as u64
}

/// Whether a segment that may be written has a byte of a cell.
fn is_open_at(cell: &Cell, segment: &Segment) -> bool
    ensures { result ≡ is_open_at_spec cell.now segment.now }
{
    segment.flags & PF_W == PF_W
        && (is_above(cell.end, segment.start)
            && is_below_end(cell.start, segment.start, segment.bytes.len()))
}

fn is_open(segments: &[Segment], cell: &Cell) -> bool
    ensures { result ≡ list_any (is_open_at_spec cell.now) segments.now }
{
    segments.iter().any(|segment| is_open_at(cell, segment))
}

/// Whether writes may change a cell: cells of the image that have no byte of a segment that may be written stay.
pub fn may_change(image: &Image, cell: &Cell) -> bool
    ensures { result ≡ may_change_spec image.now cell.now }
{
    cell.region != RegionId::Global || is_open(image.segments.as_slice(), cell)
}
