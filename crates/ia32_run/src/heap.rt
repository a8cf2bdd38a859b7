//! Where a new block goes.

ghost use Rattle.std.specs.Prelude.{◌≡◌, ◌<◌, ◌^◌, reverse};
ghost use Rattle.ia32_semantics.specs.State.{newest_site as newest_site_spec};
ghost use Rattle.ia32_semantics.specs.Operands.{is_set as is_set_spec};
ghost use Rattle.ia32_run.specs.Choices.{heap_end as heap_end_spec, base_given as base_given_spec};

use image_map::{Activation, Block};

/// Blocks lie from this address up to the addresses of the stack.
const HEAP_LOW: u64 = 0x9000_0000;

const STACK_LOW: u64 = 0xB000_0000;

/// Whether bit 16 of a word is set.
pub(crate) fn is_set(word: u32) -> bool
    ensures { result ≡ is_set_spec word }
{
    word / 65_536 % 2 == 1
}

/// The first address behind all blocks.
fn heap_end(blocks: &[Block]) -> u64
    ensures value { result ≡ heap_end_spec blocks.now }
    ensures below { result < 2 ^ 33 }
{
    let mut end = HEAP_LOW;
    let mut rest = blocks;
    'each: while let Some((block, after)) = rest.split_first() {
        end = end.max(u64::from(block.base) + u64::from(block.size));
        rest = after;
    }
    end
}

/// Where a block of a size goes that a word of choice wants: behind the others. It is 0 where the word wants none, and where no
/// room is left.
pub(crate) fn base_given(blocks: &[Block], word: u32, size: u32) -> u32
    ensures { result ≡ base_given_spec blocks.now word size }
{
    let next = (heap_end(blocks) + 15) / 16 * 16;
    if is_set(word) && next + u64::from(size) <= STACK_LOW {
        next as u32
    } else {
        0
    }
}

/// The site of the newest call that hasn't returned, or 0 where there is none.
pub(crate) fn newest_site(frames: &[Activation]) -> u32
    ensures { result ≡ newest_site_spec (reverse frames.now) }
{
    match frames.split_last() {
        None => 0,
        Some((newest, before)) => { if before.is_empty() { 0 } else { newest.site } }
    }
}
