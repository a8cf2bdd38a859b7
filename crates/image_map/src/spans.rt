ghost use Rattle.std.specs.Prelude.{◌≡◌, ℕ, [], ◌∷◌, ◌++◌, ◌<◌, ◌≤◌, ◌+◌, if◌then◌else◌, nat_le, length, drop, slice_get, OnOk, OnErr, IfOk};
ghost use Rattle.std.specs.Option.{option_to_list};
ghost use Rattle.item_list.specs.Ranges.{within};
ghost use Rattle.image_map.specs.Ranges.{is_any, IsRising, passed as passed_by, low_part, high_part, middle_part, replaced as spans_with};

use std::alloc::{AllocError, Global};
use std::marker::Model;

/// The addresses from `start` up to, and without, `end`.
#[derive(Clone, Copy, Debug, PartialEq, Eq)]
pub struct Span {
    pub start: u32,
    pub end: u32,
}

/// Spans that aren't empty, rise, and share no address.
#[derive(Debug, Drop)]
pub struct Spans {
    spans: Vec<Span>,
}

impl Model for Spans {
    ghost use Rattle.std.specs.Prelude.{List};
    ghost use Rattle.image_map.specs.declared.spans.Span.{Span};
    ghost use Rattle.image_map.specs.Ranges.{IsRising};

    ghost Value = { List Span };

    ghost view = { λ s. s.spans.items };

    ghost invariant = { λ s. IsRising s.spans.items };
}

impl Spans {
    /// No span.
    pub fn new(alloc: Global) -> Spans
        ensures { result ≡ [] }
    {
        Spans {
            spans: Vec::new(alloc),
        }
    }

    /// The spans of a `Vec`.
    pub fn from_vec(spans: Vec<Span>) -> Spans
        requires { IsRising spans.items }
        ensures { result ≡ spans.items }
    {
        Spans { spans }
    }

    /// The spans, lent.
    pub fn as_slice(&self) -> &[Span]
        ensures spans { result.now ≡ self.now }
        ensures rising { IsRising self.now }
    {
        self.spans.as_slice()
    }

    /// Whether an address lies in a span: found by a search that halves them.
    pub fn contains(&self, address: u64) -> bool
        ensures { result ≡ is_any self.now address }
    {
        is_in(self.spans.as_slice(), address)
    }

    /// Puts the addresses from `start` up to, and without, `end` into the spans, or takes them out. It
    /// searches by halves, and moves the spans behind the range once.
    pub fn set(&mut self, alloc: Global, start: u32, end: u32, any: bool) -> Result<(), AllocError>
        requires { start < end }
        ensures ok { OnOk result ((a : ℕ) → is_any self.new a ≡ (if within start end a then any else is_any self.old a)) }
        ensures err { OnErr result (self.new ≡ self.old) }
    {
        replace(alloc, &mut self.spans, start, end, any)?;
        Ok(())
    }
}

impl Clone for Spans {
    ghost is_clone = { λ s clone. clone ≡ s };

    fn clone(&self) -> Result<Spans, AllocError> {
        Ok(Spans {
            spans: self.spans.clone()?,
        })
    }
}

/// How many of the spans end at an address or below it.
fn passed(spans: &[Span], address: u64) -> usize
    requires { IsRising spans.now }
    ensures value { result ≡ passed_by address spans.now }
    ensures within { result ≤ length spans.now }
{
    spans.partition_point(
        |s: &Span| -> bool
            ensures { result ≡ nat_le s.now.end address }
        { s.end as u64 <= address },
    )
}

fn is_in(spans: &[Span], address: u64) -> bool
    requires { IsRising spans.now }
    ensures { result ≡ is_any spans.now address }
{
    match spans.get(passed(spans, address)) {
        None => false,
        Some(span) => span.start as u64 <= address,
    }
}

/// The part of the span at an index that lies below an address.
fn part_below(spans: &[Span], at: usize, limit: u32) -> Option<Span>
    ensures { result ≡ low_part limit (slice_get spans.now at) }
{
    let span = spans.get(at)?;
    if span.start < limit {
        Some(Span {
            start: span.start,
            end: limit,
        })
    } else {
        None
    }
}

/// The part of the span at an index that lies at an address or above it, where the span ends above it.
fn part_above(spans: &[Span], at: usize, limit: u32) -> Option<Span>
    ensures { result ≡ high_part limit (slice_get spans.now at) }
{
    let span = spans.get(at)?;
    Some(Span {
        start: span.start.max(limit),
        end: span.end,
    })
}

/// The number of the span behind the one at an index, or that index where there is no span.
fn behind(spans: &[Span], at: usize) -> usize
    ensures rest { drop result spans.now ≡ drop (at + 1) spans.now }
    ensures after { at ≤ result }
    ensures within { at ≤ length spans.now → result ≤ length spans.now }
{
    if at < spans.len() { at + 1 } else { at }
}

fn push(pieces: &mut Vec<Span>, piece: Option<Span>) -> Result<(), AllocError>
    ensures { OnOk result (pieces.new.items ≡ pieces.old.items ++ option_to_list piece) }
{
    if let Some(piece) = piece {
        pieces.push(piece)?;
    }
    Ok(())
}

/// What stands in place of the spans from number `first` to number `last`, once the addresses from `start` up
/// to `end` are in the spans, or out of them.
fn pieces(
    alloc: Global,
    spans: &[Span],
    first: usize,
    last: usize,
    start: u32,
    end: u32,
    any: bool,
) -> Result<Vec<Span>, AllocError>
    ensures { IfOk result (λ v. v.items ≡ (option_to_list (low_part start (slice_get spans.now first)) ++ option_to_list (middle_part start end any)) ++ option_to_list (high_part end (slice_get spans.now last))) }
{
    let mut pieces = Vec::new(alloc);
    push(&mut pieces, part_below(spans, first, start))?;
    push(&mut pieces, any.then_some(Span { start, end }))?;
    push(&mut pieces, part_above(spans, last, end))?;
    Ok(pieces)
}

/// The spans with the addresses from `start` up to `end` in them, or out of them.
fn replace(
    alloc: Global,
    spans: &mut Vec<Span>,
    start: u32,
    end: u32,
    any: bool,
) -> Result<(), AllocError>
    requires range { start < end }
    requires rising { IsRising spans.old.items }
    ensures ok { OnOk result (spans.new.items ≡ spans_with start end any spans.old.items) }
    ensures err { OnErr result (spans.new.items ≡ spans.old.items) }
{
    let first = passed(spans.as_slice(), start as u64);
    let last = passed(spans.as_slice(), end as u64);
    let pieces = pieces(alloc, spans.as_slice(), first, last, start, end, any)?;
    let behind = behind(spans.as_slice(), last);
    spans.splice(first..behind, pieces)?;
    Ok(())
}
