//! Files that tell a run of a short program, and files that are wrong in one place.
ghost use Rattle.std.specs.Prelude.{IfOk, ◌≡◌};
ghost use Rattle.image_map.specs.Whole.{IsImage};
ghost use Rattle.ia32_run.specs.Acts.{AreKnown};

use super::*;
use ia32_run::Finish;
use image_map::{Image, PF_R, PF_X, Segment, Settings, Spans, Symbols};
use item_list::Items;
use std::alloc::{AllocError, Global};

/// mov ecx, eax; imul eax, ecx, which takes three words; ret.
const CODE: [u8; 6] = [0x89, 0xC1, 0x0F, 0xAF, 0xC1, 0xC3];

/// A first line, without its last word.
const START: &str =
    "start 00000000 0000000a 00000002 00000003 00000004 00000005 00000006 00010000 00000000 00000000 00000000";

/// Files, with / between lines and START for S; and the line that fails, or no line, or how many steps are told.
const ROWS: [(&str, Result<usize, u32>); 12] = [
    (
        "S 00000000/08049000/08049002 00000000 00010000 00000000/08049005",
        Ok(3),
    ),
    ("S 00000000/08049000", Ok(1)),
    ("S 00000000", Ok(0)),
    ("", Err(1)),
    ("S/08049000", Err(1)),
    ("S 0000000A/08049000", Err(1)),
    ("S 00000000/08049002 00000000 00010000 00000000", Err(2)),
    ("S 00000000//08049000", Err(2)),
    ("S 00000000/08049000/08049005", Err(3)),
    ("S 00000000/08049000/08049002 00000000 00010000", Err(3)),
    (
        "S 00000000/08049000/08049002 00000000 00010000 00000000 00000000",
        Err(3),
    ),
    (
        "S 00000000/08049000/08049002 00000000 00010000 00000000/08049005/08049000",
        Err(5),
    ),
];

fn segment(alloc: Global, start: u32, bytes: &[u8], flags: u32) -> Result<Segment, AllocError>
    ensures { IfOk result (λ s. s ≡ record { start = start; bytes = bytes.now; flags = flags }) }
{
    Ok(Segment {
        start,
        bytes: Items::from_slice(alloc, bytes)?,
        flags,
    })
}

fn image(alloc: Global) -> Result<Image, AllocError>
    ensures { IfOk result (λ i. IsImage i) }
{
    let mut segments = Items::new(alloc);
    segments.push(segment(alloc, 0x0804_9000, &CODE, PF_R | PF_X)?)?;
    Ok(Image {
        segments,
        externs: Items::new(alloc),
        symbols: Symbols::new(alloc)?,
        any_bytes: Spans::new(alloc),
        words: Items::new(alloc),
        entry: 0x0804_9000,
        bias: 0,
    })
}

fn settings(alloc: Global) -> Settings
    ensures { AreKnown result }
{
    Settings {
        entry: 0x0804_9000,
        rounds: 1,
        kinds: Items::new(alloc),
    }
}

/// The bytes of a row's file.
fn file_of(alloc: Global, row: &str) -> Result<Vec<u8>, AllocError> {
    let mut bytes = Vec::new(alloc);
    for byte in row.bytes() {
        match byte {
            b'S' => bytes.extend_from_slice(START.as_bytes())?,
            b'/' => bytes.push(b'\n')?,
            other => bytes.push(other)?,
        }
    }
    Ok(bytes)
}

/// What a file tells: how many steps, or the line that fails.
fn told(alloc: Global, bytes: &[u8]) -> Result<Result<usize, u32>, AllocError> {
    if bytes.len() > 1000 {
        return Err(AllocError);
    }
    match replay(alloc, &image(alloc)?, &settings(alloc), bytes) {
        Ok(log) => Ok(Ok(log.steps.len())),
        Err(ReplayError::Line(number)) => Ok(Err(number)),
        Err(ReplayError::Memory) => Err(AllocError),
    }
}

#[test]
fn lines_are_told(rt: HostRuntime) -> Result<(), AllocError> {
    for (row, wanted) in ROWS {
        let bytes = file_of(rt.alloc(), row)?;
        assert_eq!(rt; told(rt.alloc(), &bytes)?, wanted, "{row}");
    }
    Ok(())
}

#[test]
fn runs_end(rt: HostRuntime) -> Result<(), AllocError> {
    let alloc = rt.alloc();
    let bytes = file_of(
        alloc,
        "S 00000000\r/08049000/08049002 00000000 00010000 00000000\r/08049005/",
    )?;
    if bytes.len() > 1000 {
        return Err(AllocError);
    }
    match replay(alloc, &image(alloc)?, &settings(alloc), &bytes) {
        Ok(log) => assert_eq!(rt; log.finish, Finish::Return),
        Err(_) => assert!(rt; false),
    }
    Ok(())
}
