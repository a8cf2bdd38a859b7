//! Segments as the file has them, before any relocation.
ghost use Rattle.std.specs.Prelude.{◌≡◌, ◌-◌, ◌<◌, ◌^◌, ◌++◌, map, take, drop, replicate, IfOk};
ghost use Rattle.elf32.specs.Checks.{end_of};
ghost use Rattle.elf32.specs.Loading.{segment};
ghost use Rattle.elf32.specs.Shapes.{AreLow};

use crate::fields::ProgramHeader;
use image_map::Segment;
use item_list::Items;
use std::alloc::{AllocError, Global};

/// The `len` bytes from an offset on, or fewer where the slice ends before.
pub fn part(bytes: &[u8], offset: usize, len: usize) -> &[u8]
    ensures { result.now ≡ take len (drop offset bytes.now) }
{
    if offset >= bytes.len() {
        return &[];
    }
    let rest = &bytes[offset..];
    if len < rest.len() { &rest[..len] } else { rest }
}

/// The bytes of a segment: those in the file, and zeros after them.
fn segment_bytes(alloc: Global, bytes: &[u8], h: &ProgramHeader) -> Result<Vec<u8>, AllocError>
    ensures { IfOk result (λ v. v.items ≡ take h.now.p_filesz (drop h.now.p_offset bytes.now) ++ replicate (h.now.p_memsz - h.now.p_filesz) 0) }
{
    let mut memory = Vec::with_capacity(alloc, h.p_memsz as usize)?;
    memory.extend_from_slice(part(bytes, h.p_offset as usize, h.p_filesz as usize))?;
    let zeros = h.p_memsz.saturating_sub(h.p_filesz);
    for _ in 0..zeros {
        memory.push(0)?;
    }
    Ok(memory)
}

fn segment(alloc: Global, bytes: &[u8], bias: u32, h: &ProgramHeader) -> Result<Segment, AllocError>
    requires { end_of bias h.now < 2 ^ 32 }
    ensures { IfOk result (λ s. s ≡ segment bytes.now bias h.now) }
{
    let memory = segment_bytes(alloc, bytes, h)?;
    Ok(Segment {
        start: h.p_vaddr + bias,
        bytes: Items::from_vec(memory),
        flags: h.p_flags,
    })
}

/// The segments that are loaded, in order.
pub fn segments(
    alloc: Global,
    bytes: &[u8],
    bias: u32,
    loads: &[ProgramHeader],
) -> Result<Vec<Segment>, AllocError>
    requires { AreLow bias loads.now }
    ensures { IfOk result (λ v. v.items ≡ map (segment bytes.now bias) loads.now) }
{
    let mut segments = Vec::new(alloc);
    for h in loads {
        segments.push(segment(alloc, bytes, bias, h)?)?;
    }
    Ok(segments)
}
