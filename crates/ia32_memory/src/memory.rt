ghost use Rattle.std.specs.Prelude.{◌≡◌, ℕ, ◌+◌, ◌-◌, ◌<◌, ◌≤◌, ◌^◌, [], ◌∷◌, ◌++◌, ◌&&◌, if◌then◌else◌, is_some, length, nat_lt, position, OnOk, OnErr, IfOk};
ghost use Rattle.image_map.specs.Memory.{holds, byte_in};
ghost use Rattle.item_list.specs.Ranges.{within};
ghost use Rattle.image_map.specs.Ranges.{is_any};
ghost use Rattle.image_map.specs.Whole.{IsImage};
ghost use Rattle.image_map.specs.Shapes.{shapes};
ghost use Rattle.ia32_semantics.specs.Effects.{is_open};
ghost use Rattle.ia32_semantics.specs.Outcome.{is_in_stack};
ghost use Rattle.ia32_semantics.specs.CallModel.{IsEntrySlot};
ghost use Rattle.ia32_memory.specs.Mapped.{bytes_of, is_open_at, is_in_first, AreWithin, IsClear, AreBytes, HaveBytes, bytes_below, zeros_from};
ghost use Rattle.ia32_memory.specs.Changes.{with_byte, cleared, with_zeros, zeroed};
ghost use Rattle.ia32_memory.specs.Start.{start_bytes};

use image_map::{Image, PF_R, PF_W, Segment, Span, segment_holding};
use item_list::Items;
use std::alloc::{AllocError, Global};
use std::marker::Model;

/// How far the stack goes down from the entry's return slot.
const BELOW_ENTRY: u32 = 0x10_0000;

/// How far it goes up.
const ABOVE_ENTRY: u32 = 0x1_0000;

/// The bytes that are mapped, each under its address: those of the stack, of an image's segments, and of
/// blocks. What may be written lies in a segment with `PF_W`.
#[derive(Drop)]
pub struct Memory {
    /// The stack first, and it has the addresses that others share with it.
    segments: Vec<Segment>,
    /// So many bytes of the stack, from its lowest on, are 0.
    clear: usize,
}

impl Model for Memory {
    ghost use Rattle.image_map.specs.declared.image.Segment.{Segment};
    ghost use Rattle.std.specs.Prelude.{List};

    ghost Value = { List Segment };

    ghost use Rattle.ia32_memory.specs.Mapped.{AreWithin, IsClear};

    ghost view = { λ m. m.segments.items };

    ghost invariant = { λ m. AreWithin m.segments.items × IsClear m.clear m.segments.items };
}

/// The index of the first segment that holds an address.
fn index_of(segments: &[Segment], address: u32) -> Option<usize>
    ensures { result ≡ position (holds address) segments.now }
{
    segments.iter().position(|s| s.holds(address))
}

/// The byte that the first segment to hold an address has there.
fn byte_at(segments: &[Segment], address: u32) -> Option<u8>
    ensures { result ≡ byte_in segments.now address }
{
    let segment = segment_holding(segments, address)?;
    segment
        .bytes
        .get(address.saturating_sub(segment.start) as usize)
        .copied()
}

/// A segment of zeros that may be read and written.
#[tactic(auto, unfolding(crate::specs::Mapped::zeros_from))]
fn zeros(alloc: Global, start: u32, size: u32) -> Result<Segment, AllocError>
    ensures { IfOk result (λ s. s ≡ zeros_from start size) }
{
    Ok(Segment {
        start,
        bytes: Items::from_vec(vec![in alloc; 0; size as usize]?),
        flags: PF_R | PF_W,
    })
}

/// Puts a segment of zeros behind others.
fn push_zeros(
    alloc: Global,
    segments: &mut Vec<Segment>,
    start: u32,
    size: u32,
) -> Result<(), AllocError>
    ensures ok { OnOk result (segments.new.items ≡ segments.old.items ++ zeros_from start size ∷ []) }
    ensures err { OnErr result (segments.new.items ≡ segments.old.items) }
{
    let segment = zeros(alloc, start, size)?;
    segments.push(segment)?;
    Ok(())
}

/// Each byte is below 256.
fn bytes_are_small(bytes: &[u8])
    ensures { AreBytes bytes.now }
{}

/// A copy of a segment.
fn copied(alloc: Global, segment: &Segment) -> Result<Segment, AllocError>
    ensures same { IfOk result (λ s. s ≡ segment.now) }
    ensures bytes { AreBytes segment.now.bytes }
{
    let bytes = segment.bytes.as_slice();
    bytes_are_small(bytes);
    let copy = Items::from_slice(alloc, bytes)?;
    Ok(Segment {
        start: segment.start,
        bytes: copy,
        flags: segment.flags,
    })
}

/// The stack of a run whose entry's return slot has an address, and behind it an image's segments.
fn stack_and_segments(
    alloc: Global,
    image: &[Segment],
    slot: u32,
) -> Result<Vec<Segment>, AllocError>
    requires { IsEntrySlot slot }
    ensures segments { IfOk result (λ v. v.items ≡ zeros_from (slot - 1048576) 1114112 ∷ image.now) }
    ensures bytes { IfOk result (λ v. HaveBytes image.now) }
{
    let stack = zeros(alloc, slot - BELOW_ENTRY, BELOW_ENTRY + ABOVE_ENTRY)?;
    let mut segments = Vec::new(alloc);
    segments.push(stack)?;
    for segment in image {
        segments.push(copied(alloc, segment)?)?;
    }
    Ok(segments)
}

/// Stores a byte at an address, where a segment has one, of segments of which the first begins with so many bytes
/// of 0. The result is with how many it begins then.
fn store_byte(segments: &mut [Segment], clear: usize, address: u32, byte: u8) -> usize
    ensures bytes { bytes_of segments.new ≡ with_byte (bytes_of segments.old) address byte }
    ensures shapes { shapes segments.new ≡ shapes segments.old }
    ensures within { AreWithin segments.old → AreWithin segments.new }
    ensures clear { IsClear clear segments.old → IsClear result segments.new }
{
    match index_of(segments, address) {
        None => clear,
        Some(at) => {
            let segment = &mut segments[at];
            let offset = address.saturating_sub(segment.start) as usize;
            segment.bytes.set(offset, byte);
            if at == 0 { clear.min(offset) } else { clear }
        }
    }
}

/// Stores 0 from one index up to, and without, another.
fn zero_part(bytes: &mut Items<u8>, from: usize, to: usize)
    requires { to ≤ length bytes.old }
    ensures { bytes.new ≡ zeroed from (to - from) bytes.old }
{
    let last = to.max(from);
    for at in from..last {
        bytes.set(at, 0);
    }
}

/// How many of a segment's bytes lie below an address.
fn bytes_under(segment: &Segment, below: u32) -> usize
    ensures value { result ≡ bytes_below segment.now below }
    ensures within { result ≤ length segment.now.bytes }
{
    (below.saturating_sub(segment.start) as usize).min(segment.bytes.len())
}

/// Stores 0 in the first segment below an address, where the segment begins with so many bytes of 0. The result is
/// with how many it begins then.
fn clear_below(segments: &mut [Segment], clear: usize, below: u32) -> usize
    requires { IsClear clear segments.old }
    ensures bytes { bytes_of segments.new ≡ cleared (λ a. is_in_first segments.old a && nat_lt a below) (bytes_of segments.old) }
    ensures shapes { shapes segments.new ≡ shapes segments.old }
    ensures within { AreWithin segments.old → AreWithin segments.new }
    ensures clear { IsClear result segments.new }
{
    let stack = &mut segments[0];
    let end = bytes_under(stack, below);
    zero_part(&mut stack.bytes, clear, end);
    clear.max(end)
}

impl Memory {
    /// The memory in which a run of an image starts, with the entry's return slot at an address: the stack has
    /// zeros, and so has each byte of the image that may be any.
    pub fn for_image(alloc: Global, image: &Image, slot: u32) -> Result<Memory, AllocError>
        requires image { IsImage image.now }
        requires slot { IsEntrySlot slot }
        ensures bytes { IfOk result (λ m. bytes_of m ≡ start_bytes image.now slot) }
        ensures open { IfOk result (λ m. (a : ℕ) → is_open_at m a ≡ is_open image.now (bytes_of m) a) }
        ensures stack { IfOk result (λ m. (a : ℕ) → is_in_first m a ≡ is_in_stack slot a) }
        ensures sized { IfOk result (λ m. (a byte : ℕ) → bytes_of m a ≡ Some byte → byte < 256) }
    {
        let mut memory = Memory {
            segments: stack_and_segments(alloc, image.segments.as_slice(), slot)?,
            clear: BELOW_ENTRY as usize,
        };
        memory.clear_spans(image.any_bytes.as_slice());
        Ok(memory)
    }

    /// Maps zeros at so many addresses from one on, but for those that are mapped already; they may be written.
    pub fn add_zeros(&mut self, alloc: Global, start: u32, size: u32) -> Result<(), AllocError>
        requires { start + size ≤ 2 ^ 32 }
        ensures bytes { OnOk result (bytes_of self.new ≡ with_zeros (bytes_of self.old) start size) }
        ensures open { OnOk result ((a : ℕ) → is_open_at self.new a ≡ (if is_some (bytes_of self.old a) then is_open_at self.old a else within start (start + size) a)) }
        ensures stack { OnOk result ((a : ℕ) → is_in_first self.new a ≡ is_in_first self.old a) }
        ensures err { OnErr result (self.new ≡ self.old) }
    {
        push_zeros(alloc, &mut self.segments, start, size)?;
        Ok(())
    }

    /// Stores 0 in each byte of spans.
    fn clear_spans(&mut self, spans: &[Span])
        ensures bytes { bytes_of self.new ≡ cleared (λ a. is_any spans.now a) (bytes_of self.old) }
        ensures shapes { shapes self.new ≡ shapes self.old }
    {
        for span in spans {
            self.clear_range(span.start, span.end);
        }
    }

    /// Stores 0 in each byte from one address up to, and without, another.
    fn clear_range(&mut self, start: u32, end: u32)
        ensures bytes { bytes_of self.new ≡ cleared (λ a. within start end a) (bytes_of self.old) }
        ensures shapes { shapes self.new ≡ shapes self.old }
    {
        let last = end.max(start);
        for address in start..last {
            self.put(address, 0);
        }
    }

    /// The byte at an address, or `None` where none is mapped.
    pub fn byte(&self, address: u32) -> Option<u8>
        ensures { result ≡ bytes_of self.now address }
    {
        byte_at(self.segments.as_slice(), address)
    }

    /// No byte is mapped past the end of the addresses.
    pub(crate) fn ends(&self)
        ensures { AreWithin self.now }
    {
        let _ = &self.segments;
    }

    /// What is mapped.
    pub(crate) fn segments(&self) -> &[Segment]
        ensures { result.now ≡ self.now }
    {
        self.segments.as_slice()
    }

    /// Whether a byte is mapped at an address and may be written: it lies in a segment with `PF_W`.
    pub fn may_write(&self, address: u32) -> bool
        ensures { result ≡ is_open_at self.now address }
    {
        match segment_holding(self.segments.as_slice(), address) {
            Some(segment) => segment.flags & PF_W == PF_W,
            None => false,
        }
    }

    /// Stores a byte at an address, where one is mapped.
    pub fn put(&mut self, address: u32, byte: u8)
        ensures bytes { bytes_of self.new ≡ with_byte (bytes_of self.old) address byte }
        ensures shapes { shapes self.new ≡ shapes self.old }
    {
        self.clear = store_byte(&mut self.segments, self.clear, address, byte);
    }

    /// Stores 0 in each byte of the stack below an address. It goes over no byte that was never written, or
    /// that it cleared and that wasn't written since.
    pub fn forget(&mut self, below: u32)
        ensures bytes { bytes_of self.new ≡ cleared (λ a. is_in_first self.old a && nat_lt a below) (bytes_of self.old) }
        ensures shapes { shapes self.new ≡ shapes self.old }
    {
        self.clear = clear_below(&mut self.segments, self.clear, below);
    }
}
