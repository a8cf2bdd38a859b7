//! The memory of an image while relocations change it.
ghost use Rattle.std.specs.Prelude.{◌≡◌, ℕ, ◌+◌, ◌-◌, ◌*◌, ◌/◌, ◌%◌, ◌^◌, ◌<◌, ◌≤◌, ◌==◌, if◌then◌else◌, Some, None, true, position, OnOk, OnErr};
ghost use Rattle.std.specs.List.{list_any};
ghost use Rattle.image_map.specs.Memory.{holds, byte_in, byte_of};
ghost use Rattle.image_map.specs.Shapes.{shapes};
ghost use Rattle.elf32.specs.Relocating.{stored, lost, word_in, added};
ghost use Rattle.elf32.specs.Shapes.{in_shape, has_whole_word};

use image_map::{Segment, Spans, memory_byte};
use std::alloc::{AllocError, Global};

/// Segments, and the spans of them that may hold any byte.
#[derive(Drop)]
pub struct Memory {
    pub segments: Vec<Segment>,
    pub any_bytes: Spans,
}

/// The index of the first segment that holds an address.
fn index_of(segments: &[Segment], address: u32) -> Option<usize>
    ensures { result ≡ position (holds address) segments.now }
{
    segments.iter().position(|s| s.holds(address))
}

/// Puts a byte at an address that a segment has.
fn store_byte(segments: &mut [Segment], address: u32, byte: u8)
    requires { list_any (in_shape address) (shapes segments.old) ≡ true }
    ensures byte { (a : ℕ) → byte_in segments.new a ≡ (if a == address then Some byte else byte_in segments.old a) }
    ensures shapes { shapes segments.new ≡ shapes segments.old }
{
    if let Some(at) = index_of(segments, address) {
        let segment = &mut segments[at];
        let offset = address.saturating_sub(segment.start) as usize;
        segment.bytes.set(offset, byte);
    }
}

/// Puts a word, its low byte first, at an address where a segment has the whole word.
fn store_word(segments: &mut [Segment], place: u32, value: u32)
    requires whole { has_whole_word (shapes segments.old) place }
    requires small { place + 4 ≤ 2 ^ 31 }
    ensures word { (a : ℕ) → byte_in segments.new a ≡ stored place value (byte_in segments.old) a }
    ensures shapes { shapes segments.new ≡ shapes segments.old }
{
    store_byte(segments, place, (value % 256) as u8);
    store_byte(segments, place + 1, (value / 256 % 256) as u8);
    store_byte(segments, place + 2, (value / 65_536 % 256) as u8);
    store_byte(segments, place + 3, (value / 16_777_216) as u8);
}

impl Memory {
    /// The word at an address, where its four bytes are known.
    fn word(&self, at: u32) -> Option<u32>
        requires { at + 4 ≤ 2 ^ 31 }
        ensures { result ≡ word_in (byte_of self.now.segments.items self.now.any_bytes) at }
    {
        let segments = self.segments.as_slice();
        let b0 = memory_byte(segments, &self.any_bytes, at)?;
        let b1 = memory_byte(segments, &self.any_bytes, at + 1)?;
        let b2 = memory_byte(segments, &self.any_bytes, at + 2)?;
        let b3 = memory_byte(segments, &self.any_bytes, at + 3)?;
        Some(b0 as u32 + 256 * b1 as u32 + 65_536 * b2 as u32 + 16_777_216 * b3 as u32)
    }

    /// Stores a word, which is known from then on.
    pub fn store(&mut self, alloc: Global, place: u32, value: u32) -> Result<(), AllocError>
        requires whole { has_whole_word (shapes self.old.segments.items) place }
        requires small { place + 4 ≤ 2 ^ 31 }
        ensures word { OnOk result ((a : ℕ) → byte_of self.new.segments.items self.new.any_bytes a ≡ stored place value (byte_of self.old.segments.items self.old.any_bytes) a) }
        ensures shapes { shapes self.new.segments.items ≡ shapes self.old.segments.items }
    {
        self.any_bytes.set(alloc, place, place + 4, false)?;
        store_word(&mut self.segments, place, value);
        Ok(())
    }

    /// Lets the bytes from `start` up to `end` be any.
    pub fn lose(&mut self, alloc: Global, start: u32, end: u32) -> Result<(), AllocError>
        ensures lost { OnOk result ((a : ℕ) → byte_of self.new.segments.items self.new.any_bytes a ≡ lost start end (byte_of self.old.segments.items self.old.any_bytes) a) }
        ensures shapes { shapes self.new.segments.items ≡ shapes self.old.segments.items }
    {
        if start < end {
            self.any_bytes.set(alloc, start, end, true)?;
        }
        Ok(())
    }

    /// Adds a number to the word in place; where that isn't known the word may be any.
    pub fn add(&mut self, alloc: Global, place: u32, value: u32) -> Result<(), AllocError>
        requires whole { has_whole_word (shapes self.old.segments.items) place }
        requires small { place + 4 ≤ 2 ^ 31 }
        ensures word { OnOk result ((a : ℕ) → byte_of self.new.segments.items self.new.any_bytes a ≡ added place value (byte_of self.old.segments.items self.old.any_bytes) a) }
        ensures shapes { shapes self.new.segments.items ≡ shapes self.old.segments.items }
    {
        match self.word(place) {
            Some(word) => self.store(alloc, place, value.wrapping_add(word)),
            None => self.lose(alloc, place, place + 4),
        }
    }
}
