//! What kept lists and facts add to a set of cuts.
ghost use Rattle.std.specs.Prelude.{◌≡◌, ◌≤◌, [], Contains, length};
ghost use Rattle.image_map.specs.Whole.{ArePlaced};
ghost use Rattle.asi_cuts.specs.declared.set.Cut.{Cut};
ghost use Rattle.asi_cuts.specs.Adding.{Adds, IsAt, IsCarriedBy, IsEnd, IsFollowing, IsForced, IsIn, IsInSegment, IsInWindow, IsKept, IsMade, IsMadeBy, IsOf, IsOfAny, IsOfEither};

use crate::facts::Constraint;
use crate::known::KnownCuts;
use crate::rows::{Pair, Row, elements, one, repeated, spread};
use crate::set::{Cut, Halt};
use alocs::{CutList, extent_of};
use image_map::{RegionId, Segment};

// Adds the cuts of a row from `low` up to `high`.
fn add_window(set: &mut KnownCuts, row: &Row, low: i32, high: i32) -> Result<(), Halt>
    requires stride { 1 ≤ row.now.stride }
    requires few { length set.old ≤ 1024 }
    ensures { Adds (IsInWindow row.now low high) set.old set.new result }
{
    let within = row.number_up_to(high);
    let mut number = row.number_below(low);
    while number < within {
        let cut = Cut {
            region: row.region,
            offset: row.offset(number) as i32,
        };
        match set.add(cut) {
            Ok(()) => {}
            Err(halt) => return Err(halt),
        }
        number += 1;
    }
    Ok(())
}

// Adds the cuts of a row that lie in a segment.
fn add_global(set: &mut KnownCuts, row: &Row, segments: &[Segment]) -> Result<(), Halt>
    requires placed { ArePlaced segments.now }
    requires stride { 1 ≤ row.now.stride }
    requires few { length set.old ≤ 1024 }
    ensures { Adds (IsOfAny (IsInSegment row.now) segments.now) set.old set.new result }
{
    for segment in segments {
        let extent = extent_of(segment);
        match add_window(set, row, extent.start, extent.end) {
            Ok(()) => {}
            Err(halt) => return Err(halt),
        }
    }
    Ok(())
}

// Adds the cuts of a row that lie in their region.
fn add_row(set: &mut KnownCuts, row: &Row, segments: &[Segment]) -> Result<(), Halt>
    requires placed { ArePlaced segments.now }
    requires few { length set.old ≤ 1024 }
    ensures { Adds (IsIn segments.now (IsOf row.now)) set.old set.new result }
{
    if row.count == 0 {
        return Ok(());
    }
    let spaced = spread(row);
    match row.region {
        RegionId::Global => add_global(set, &spaced, segments),
        RegionId::Frame(_) | RegionId::OldFrame(_) => add_window(set, &spaced, -(1 << 20), 1 << 16),
        RegionId::Heap(_) | RegionId::OldHeap(_) => add_window(set, &spaced, 0, 1 << 29),
    }
}

// Adds the cuts of two rows.
fn add_rows(
    set: &mut KnownCuts,
    first: &Row,
    second: &Row,
    segments: &[Segment],
) -> Result<(), Halt>
    requires placed { ArePlaced segments.now }
    requires few { length set.old ≤ 1024 }
    ensures { Adds (IsOfEither segments.now first.now second.now) set.old set.new result }
{
    match add_row(set, first, segments) {
        Ok(()) => {}
        Err(halt) => return Err(halt),
    }
    add_row(set, second, segments)
}

// Adds the cuts at the ends of `len` bytes at a start.
fn add_ends(
    set: &mut KnownCuts,
    region: RegionId,
    start: i32,
    len: u32,
    segments: &[Segment],
) -> Result<(), Halt>
    requires placed { ArePlaced segments.now }
    requires few { length set.old ≤ 1024 }
    ensures { Adds (IsIn segments.now (IsEnd region start len)) set.old set.new result }
{
    add_rows(
        set,
        &one(region, start, 0),
        &one(region, start, len),
        segments,
    )
}

// Adds the cuts that a fact makes by itself.
fn add_made(set: &mut KnownCuts, fact: &Constraint, segments: &[Segment]) -> Result<(), Halt>
    requires placed { ArePlaced segments.now }
    requires few { length set.old ≤ 1024 }
    ensures { Adds (IsIn segments.now (IsMadeBy fact.now)) set.old set.new result }
{
    match *fact {
        Constraint::Bounds { region, start, end } => {
            add_rows(set, &one(region, start, 0), &one(region, end, 0), segments)
        }
        Constraint::Elements {
            region,
            start,
            stride,
            count,
            len,
        } => {
            let starts = elements(region, start, stride, count);
            add_rows(set, &starts, &starts.shifted(len), segments)
        }
        Constraint::Same {
            a,
            a_start,
            b,
            b_start,
            len,
        } => {
            match add_ends(set, a, a_start, len, segments) {
                Ok(()) => {}
                Err(halt) => return Err(halt),
            }
            add_ends(set, b, b_start, len, segments)
        }
    }
}

// Adds the cuts that a fact makes of a cut, which is there.
fn carry(
    set: &mut KnownCuts,
    fact: &Constraint,
    cut: &Cut,
    segments: &[Segment],
) -> Result<(), Halt>
    requires placed { ArePlaced segments.now }
    requires there { Contains set.old cut.now }
    requires few { length set.old ≤ 1024 }
    ensures { Adds (IsIn segments.now (IsCarriedBy cut.now fact.now)) set.old set.new result }
{
    match *fact {
        Constraint::Bounds { .. } => Ok(()),
        Constraint::Elements {
            region,
            start,
            stride,
            count,
            len,
        } => {
            if cut.region != region {
                return Ok(());
            }
            let starts = elements(region, start, stride, count);
            add_row(set, &repeated(&starts, len, cut.offset), segments)
        }
        Constraint::Same {
            a,
            a_start,
            b,
            b_start,
            len,
        } => {
            let pair = Pair {
                a,
                a_start,
                b,
                b_start,
                len,
            };
            add_rows(set, &pair.moved(cut), &pair.turned().moved(cut), segments)
        }
    }
}

// Adds the cuts that facts make of a cut, which is there.
fn carry_all(
    set: &mut KnownCuts,
    facts: &[Constraint],
    cut: &Cut,
    segments: &[Segment],
) -> Result<(), Halt>
    requires placed { ArePlaced segments.now }
    requires there { Contains set.old cut.now }
    requires few { length set.old ≤ 1024 }
    ensures { Adds (IsFollowing segments.now facts.now cut.now) set.old set.new result }
{
    for fact in facts {
        match carry(set, fact, cut, segments) {
            Ok(()) => {}
            Err(halt) => return Err(halt),
        }
    }
    Ok(())
}

// Adds the cuts that facts make by themselves.
fn add_all_made(set: &mut KnownCuts, facts: &[Constraint], segments: &[Segment]) -> Result<(), Halt>
    requires placed { ArePlaced segments.now }
    requires few { length set.old ≤ 1024 }
    ensures { Adds (IsMade segments.now facts.now) set.old set.new result }
{
    for fact in facts {
        match add_made(set, fact, segments) {
            Ok(()) => {}
            Err(halt) => return Err(halt),
        }
    }
    Ok(())
}

// Adds a cut where it lies in its region.
fn add_one(
    set: &mut KnownCuts,
    region: RegionId,
    offset: &i32,
    segments: &[Segment],
) -> Result<(), Halt>
    requires placed { ArePlaced segments.now }
    requires few { length set.old ≤ 1024 }
    ensures { Adds (IsIn segments.now (IsAt region offset.now)) set.old set.new result }
{
    add_row(set, &one(region, *offset, 0), segments)
}

// Adds the cuts of a list.
fn add_list(set: &mut KnownCuts, list: &CutList, segments: &[Segment]) -> Result<(), Halt>
    requires placed { ArePlaced segments.now }
    requires few { length set.old ≤ 1024 }
    ensures { Adds (IsOfAny (λ offset. IsIn segments.now (IsAt list.now.region offset)) list.now.cuts) set.old set.new result }
{
    for offset in list.cuts.as_slice() {
        match add_one(set, list.region, offset, segments) {
            Ok(()) => {}
            Err(halt) => return Err(halt),
        }
    }
    Ok(())
}

// Adds the kept cuts.
fn add_kept(set: &mut KnownCuts, kept: &[CutList], segments: &[Segment]) -> Result<(), Halt>
    requires placed { ArePlaced segments.now }
    requires few { length set.old ≤ 1024 }
    ensures { Adds (IsKept segments.now kept.now) set.old set.new result }
{
    for list in kept {
        match add_list(set, list, segments) {
            Ok(()) => {}
            Err(halt) => return Err(halt),
        }
    }
    Ok(())
}

/// Adds all cuts that kept lists and facts force: first those that stand by themselves, then, cut by cut in the order in which they
/// were found, those that facts make of it.
pub(crate) fn add_forced(
    set: &mut KnownCuts,
    kept: &[CutList],
    facts: &[Constraint],
    segments: &[Segment],
) -> Result<(), Halt>
    requires placed { ArePlaced segments.now }
    requires none { set.old ≡ [] }
    ensures { Adds (IsForced segments.now kept.now facts.now) set.old set.new result }
{
    match add_kept(set, kept, segments) {
        Ok(()) => {}
        Err(halt) => return Err(halt),
    }
    match add_all_made(set, facts, segments) {
        Ok(()) => {}
        Err(halt) => return Err(halt),
    }
    let mut followed = 0;
    while let Some(cut) = set.nth(followed) {
        match carry_all(set, facts, &cut, segments) {
            Ok(()) => {}
            Err(halt) => return Err(halt),
        }
        followed += 1;
    }
    Ok(())
}
