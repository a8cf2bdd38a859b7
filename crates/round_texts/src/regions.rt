//! How regions are written.
ghost use Rattle.std.specs.Prelude.{◌≡◌, ◌++◌, ◌∷◌, OnOk};
ghost use Rattle.surf_base.specs.Hex.{hex8_text};
ghost use Rattle.round_texts.specs.Regions.{region_text};

use crate::push::push_digits;
use image_map::RegionId;
use std::alloc::AllocError;

// Puts a region's word, and its number behind a byte, behind a text.
fn push_numbered(
    text: &mut Vec<u8>,
    word: &[u8],
    between: u8,
    number: u32,
) -> Result<(), AllocError>
    ensures { OnOk result (text.new.items ≡ text.old.items ++ (word.now ++ (between ∷ hex8_text number))) }
{
    text.extend_from_slice(word)?;
    text.push(between)?;
    push_digits(text, number)
}

/// Puts a region behind a text: its word, and, behind a byte that parts them, the address of its procedure or its key.
pub(crate) fn push_region(
    text: &mut Vec<u8>,
    between: u8,
    region: RegionId,
) -> Result<(), AllocError>
    ensures { OnOk result (text.new.items ≡ text.old.items ++ region_text between region) }
{
    match region {
        RegionId::Global => text.extend_from_slice(b"global"),
        RegionId::Frame(procedure) => push_numbered(text, b"frame", between, procedure),
        RegionId::OldFrame(procedure) => push_numbered(text, b"oldframe", between, procedure),
        RegionId::Heap(key) => push_numbered(text, b"heap", between, key),
        RegionId::OldHeap(key) => push_numbered(text, b"oldheap", between, key),
    }
}
