// A memory is read and changed by each call, at the ends of segments too.
ghost use Rattle.std.specs.Prelude.{◌≡◌, IfOk};
ghost use Rattle.image_map.specs.Whole.{IsImage};

use super::*;
use ia32_types::Width;
use image_map::{Image, PF_R, PF_W, PF_X, Segment, Spans, Symbols};
use item_list::Items;
use std::alloc::{AllocError, Global};
use std::test::Fail;

const SLOT: u32 = 0xBFF0_000C;

fn segment(alloc: Global, start: u32, bytes: &[u8], flags: u32) -> Result<Segment, AllocError>
    ensures { IfOk result (λ s. s ≡ record { start = start; bytes = bytes.now; flags = flags }) }
{
    Ok(Segment {
        start,
        bytes: Items::from_slice(alloc, bytes)?,
        flags,
    })
}

/// Two segments that adjoin, one of code and one that may be written.
fn image(alloc: Global) -> Result<Image, AllocError>
    ensures { IfOk result (λ i. IsImage i) }
{
    let mut segments = Items::new(alloc);
    segments.push(segment(alloc, 0x1000, &[1, 2, 3, 4], PF_R | PF_X)?)?;
    segments.push(segment(alloc, 0x1004, &[5, 6, 7, 8], PF_R | PF_W)?)?;
    Ok(Image {
        segments,
        externs: Items::new(alloc),
        symbols: Symbols::new(alloc)?,
        any_bytes: Spans::new(alloc),
        words: Items::new(alloc),
        entry: 0x1000,
        bias: 0,
    })
}

#[test]
fn numbers_of_each_width(rt: HostRuntime) -> Result<(), Fail> {
    let image = image(rt.alloc())?;
    let mut memory = Memory::for_image(rt.alloc(), &image, SLOT)?;
    assert_eq!(rt; memory.byte(0xFFF), None);
    assert_eq!(rt; memory.number(Width::B8, 0x1003), Some(4));
    assert_eq!(rt; memory.number(Width::W16, 0x1003), Some(0x504));
    assert_eq!(rt; memory.word(0x1002), Some(0x605_0403));
    assert_eq!(rt; memory.word(0x1005), None);
    assert_eq!(rt; memory.word(0xFFFF_FFFE), None);
    memory.write(Width::D32, 0x1004, 0x1122_3344);
    memory.write(Width::W16, 0x1006, 0x99_5566);
    memory.write(Width::B8, 0x1004, 0x1_0077);
    assert_eq!(rt; memory.word(0x1004), Some(0x5566_3377));
    assert!(rt; memory.is_open(0x1004, 4));
    assert!(rt; !memory.is_open(0x1003, 2));
    assert!(rt; memory.is_mapped(0x1003, 2));
    Ok(())
}

#[test]
fn elements_blocks_and_the_stack(rt: HostRuntime) -> Result<(), Fail> {
    let image = image(rt.alloc())?;
    let mut memory = Memory::for_image(rt.alloc(), &image, SLOT)?;
    memory.add_zeros(rt.alloc(), 0x9000_0000, 12)?;
    assert_eq!(rt; memory.word(0x9000_0008), Some(0));
    assert_eq!(rt; memory.byte(0x9000_000C), None);
    memory.write(Width::D32, 0x9000_0000, 0x0403_0201);
    // Each byte is copied after the one before it was.
    let upwards = Elements {
        down: false,
        width: Width::B8,
        count: 4,
    };
    memory.copy(upwards, 0x9000_0000, 0x9000_0002);
    assert_eq!(rt; memory.word(0x9000_0002), Some(0x0201_0201));
    assert!(rt; memory.are_mapped(upwards, 0x1004));
    assert!(rt; !memory.are_open(upwards, 0x1001));
    let downwards = Elements {
        down: true,
        width: Width::W16,
        count: 2,
    };
    memory.fill(downwards, SLOT, 0x7_1234);
    assert_eq!(rt; memory.word(SLOT - 2), Some(0x1234_1234));
    memory.forget(SLOT);
    assert_eq!(rt; memory.word(SLOT - 2), Some(0x1234_0000));
    Ok(())
}
