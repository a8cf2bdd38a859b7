//! The addresses that are mapped, as spans.

ghost use Rattle.std.specs.Prelude.{◌≡◌, ℕ, ◌-◌, ◌^◌, ◌&&◌, nat_lt, is_some, map, IfOk};
ghost use Rattle.image_map.specs.Ranges.{is_any};
ghost use Rattle.ia32_memory.specs.Mapped.{bytes_of, span_of as span_spec};

use crate::memory::Memory;
use image_map::{Segment, Span};
use std::alloc::{AllocError, Global};

/// The addresses of a segment's bytes, but for the last of all addresses, behind which no span ends.
fn span_of(segment: &Segment) -> Span
    ensures { result ≡ span_spec segment.now }
{
    let end = u64::from(segment.start).saturating_add(segment.bytes.len() as u64);
    Span {
        start: segment.start,
        end: end.min(u64::from(u32::MAX)) as u32,
    }
}

fn spans_of(alloc: Global, segments: &[Segment]) -> Result<Vec<Span>, AllocError>
    ensures { IfOk result (λ v. v.items ≡ map span_spec segments.now) }
{
    let mut spans = Vec::new(alloc);
    for segment in segments {
        spans.push(span_of(segment))?;
    }
    Ok(spans)
}

impl Memory {
    /// Spans of all addresses that are mapped, but for the last of all addresses.
    pub fn mapped_spans(&self, alloc: Global) -> Result<Vec<Span>, AllocError>
        ensures { IfOk result (λ v. (a : ℕ) → is_any v.items a ≡ (is_some (bytes_of self.now a) && nat_lt a (2 ^ 32 - 1))) }
    {
        let spans = spans_of(alloc, self.segments())?;
        Ok(spans)
    }
}
