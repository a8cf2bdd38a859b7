//! Spans of addresses with their writers, as slices that rise.

ghost use Rattle.std.specs.Prelude.{◌≡◌, ◌++◌, ◌<◌, ◌≤◌, ◌+◌, nat_le, length, drop, slice_get, OnOk, OnErr, IfOk};
ghost use Rattle.std.specs.Option.{option_to_list};
ghost use Rattle.last_writers.specs.Writers.{IsRising};
ghost use Rattle.last_writers.specs.Cuts.{passed as passed_by, low_part, high_part, middle_part, replaced, steps_before as steps_before_spec};

use std::alloc::{AllocError, Global};

/// The addresses from `start` up to, and without, `end`, and the step that wrote them last.
#[derive(Clone, Copy, Debug, PartialEq, Eq)]
pub struct Written {
    pub start: u32,
    pub end: u32,
    pub step: u32,
}

/// How many of the spans end at an address or below it, found by halves.
pub(crate) fn passed(spans: &[Written], address: u32) -> usize
    requires { IsRising spans.now }
    ensures value { result ≡ passed_by address spans.now }
    ensures within { result ≤ length spans.now }
{
    spans.partition_point(
        |w: &Written| -> bool
            ensures { result ≡ nat_le w.now.end address }
        { w.end <= address },
    )
}

/// The part of the span at an index that lies below an address.
fn part_below(spans: &[Written], at: usize, limit: u32) -> Option<Written>
    ensures { result ≡ low_part limit (slice_get spans.now at) }
{
    let w = spans.get(at)?;
    if w.start < limit {
        Some(Written {
            start: w.start,
            end: limit,
            step: w.step,
        })
    } else {
        None
    }
}

/// The part of the span at an index that lies at an address or above it, where the span ends above it.
fn part_above(spans: &[Written], at: usize, limit: u32) -> Option<Written>
    ensures { result ≡ high_part limit (slice_get spans.now at) }
{
    let w = spans.get(at)?;
    Some(Written {
        start: w.start.max(limit),
        end: w.end,
        step: w.step,
    })
}

/// A range that a step wrote, where one did.
fn written_by(start: u32, end: u32, step: Option<u32>) -> Option<Written>
    ensures { result ≡ middle_part start end step }
{
    match step {
        None => None,
        Some(step) => Some(Written { start, end, step }),
    }
}

/// The number of the span behind the one at an index, or that index where there is no span.
fn behind(spans: &[Written], at: usize) -> usize
    ensures rest { drop result spans.now ≡ drop (at + 1) spans.now }
    ensures after { at ≤ result }
    ensures within { at ≤ length spans.now → result ≤ length spans.now }
{
    if at < spans.len() { at + 1 } else { at }
}

fn push(pieces: &mut Vec<Written>, piece: Option<Written>) -> Result<(), AllocError>
    ensures { OnOk result (pieces.new.items ≡ pieces.old.items ++ option_to_list piece) }
{
    if let Some(piece) = piece {
        pieces.push(piece)?;
    }
    Ok(())
}

/// What is left of a span before `first` below the range, the range itself, and what is left of a span before `last`
/// above it.
fn pieces(
    alloc: Global,
    spans: &[Written],
    first: usize,
    last: usize,
    range: (u32, u32, Option<u32>),
) -> Result<Vec<Written>, AllocError>
    ensures { IfOk result (λ v. v.items ≡ (option_to_list (low_part range.0 (slice_get spans.now first)) ++ option_to_list (middle_part range.0 range.1 range.2)) ++ option_to_list (high_part range.1 (slice_get spans.now last))) }
{
    let (start, end, step) = range;
    let mut pieces = Vec::new(alloc);
    push(&mut pieces, part_below(spans, first, start))?;
    push(&mut pieces, written_by(start, end, step))?;
    push(&mut pieces, part_above(spans, last, end))?;
    Ok(pieces)
}

/// Gives the addresses from `start` up to `end` a writer, or none.
pub(crate) fn replace(
    alloc: Global,
    spans: &mut Vec<Written>,
    start: u32,
    end: u32,
    step: Option<u32>,
) -> Result<(), AllocError>
    requires range { start < end }
    requires rising { IsRising spans.old.items }
    ensures ok { OnOk result (spans.new.items ≡ replaced start end step spans.old.items) }
    ensures err { OnErr result (spans.new.items ≡ spans.old.items) }
{
    let first = passed(spans.as_slice(), start);
    let last = passed(spans.as_slice(), end);
    let pieces = pieces(alloc, spans.as_slice(), first, last, (start, end, step))?;
    let behind = behind(spans.as_slice(), last);
    spans.splice(first..behind, pieces)?;
    Ok(())
}

/// The spans from an index on.
pub(crate) fn rest(spans: &[Written], at: usize) -> &[Written]
    requires { at ≤ length spans.now }
    ensures { result.now ≡ drop at spans.now }
{
    &spans[at..]
}

/// The steps of the spans, from the first on, that begin below an address.
pub(crate) fn steps_before(
    alloc: Global,
    spans: &[Written],
    end: u32,
) -> Result<Vec<u32>, AllocError>
    ensures { IfOk result (λ v. v.items ≡ steps_before_spec end spans.now) }
{
    let mut steps = Vec::new(alloc);
    for w in spans {
        if end <= w.start {
            return Ok(steps);
        }
        steps.push(w.step)?;
    }
    Ok(steps)
}
