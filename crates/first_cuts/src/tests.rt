// The first cuts of a small image, by hand.
ghost use Rattle.std.specs.Prelude.{IfOk};
ghost use Rattle.image_map.specs.Whole.{IsImage};

use super::*;
use image_map::{Image, PF_X, Segment, Spans, Symbols};
use item_list::Items;
use std::alloc::{AllocError, Global};
use std::test::Fail;

/// Code at 0x1000, data at 0x2000 that reads like code, and a relocated word in the data.
fn image(alloc: Global, code: &[u8; 18]) -> Result<Image, AllocError>
    ensures { IfOk result (λ i. IsImage i) }
{
    let mut segments = Items::new(alloc);
    segments.push(Segment {
        start: 0x2000,
        bytes: Items::from_slice(alloc, &[0xA1, 8, 0x20, 0, 0, 0, 0, 0])?,
        flags: 0,
    })?;
    segments.push(Segment {
        start: 0x1000,
        bytes: Items::from_slice(alloc, code)?,
        flags: PF_X,
    })?;
    Ok(Image {
        segments,
        externs: Items::new(alloc),
        symbols: Symbols::new(alloc)?,
        any_bytes: Spans::new(alloc),
        words: Items::from_slice(alloc, &[0x2003])?,
        entry: 0,
        bias: 0,
    })
}

fn cuts(alloc: Global, code: &[u8; 18]) -> Result<Items<i32>, AllocError> {
    let image = image(alloc, code)?;
    let mut lists = first_lists(alloc, &image)?;
    match lists.pop() {
        Some(list) => Ok(list.cuts),
        None => Ok(Items::new(alloc)),
    }
}

// A displacement and an immediate, behind a byte that doesn't decode; then an address that nothing is read from.
#[test]
fn constants_are_cuts(rt: HostRuntime) -> Result<(), Fail> {
    let code = [
        0xF0, 0xC7, 5, 4, 0x20, 0, 0, 2, 0x20, 0, 0, 0x8D, 0x80, 6, 0x20, 0, 0, 0x90,
    ];
    let cuts = cuts(rt.alloc(), &code)?;
    assert_eq!(rt;
        cuts.as_slice(),
        [
            0x1000, 0x1012, 0x2000, 0x2002, 0x2003, 0x2004, 0x2006, 0x2007, 0x2008
        ]
        .as_slice()
    );
    Ok(())
}

// The target of a call, an immediate of 16 bits, what a return takes, and the end of a segment.
#[test]
fn others_are_no_cuts(rt: HostRuntime) -> Result<(), Fail> {
    let code = [
        0xE8, 0xFC, 0xF, 0, 0, 0x66, 0xB8, 1, 0x20, 0xC2, 1, 0x20, 0x6A, 1, 0x90, 0x90, 0x90, 0x90,
    ];
    let cuts = cuts(rt.alloc(), &code)?;
    assert_eq!(rt;
        cuts.as_slice(),
        [0x1000, 0x1012, 0x2000, 0x2003, 0x2007, 0x2008].as_slice()
    );
    Ok(())
}
