//! Kept lists, facts and the cuts that they force, by table.
ghost use Rattle.std.specs.Prelude.{IfOk};
ghost use Rattle.image_map.specs.Whole.{IsImage};

use super::*;
use alocs::CutList;
use image_map::{Image, RegionId, Segment, Spans, Symbols};
use item_list::Items;
use std::alloc::{AllocError, Global};
use std::test::Fail;

// Two segments: 16 bytes at 4096, and 8 at 8192.
fn image(alloc: Global) -> Result<Image, AllocError>
    ensures { IfOk result (λ i. IsImage i) }
{
    let mut segments = Items::new(alloc);
    segments.push(Segment {
        start: 0x1000,
        bytes: Items::from_slice(alloc, &[0; 16])?,
        flags: 0,
    })?;
    segments.push(Segment {
        start: 0x2000,
        bytes: Items::from_slice(alloc, &[0; 8])?,
        flags: 0,
    })?;
    Ok(Image {
        segments,
        externs: Items::new(alloc),
        symbols: Symbols::new(alloc)?,
        any_bytes: Spans::new(alloc),
        words: Items::new(alloc),
        entry: 0,
        bias: 0,
    })
}

// A region by a letter, if it is one.
fn region(word: &str) -> Option<RegionId> {
    match word {
        "g" => Some(RegionId::Global),
        "f" => Some(RegionId::Frame(1)),
        "h" => Some(RegionId::Heap(1)),
        _ => None,
    }
}

fn offset(word: &str) -> i32 {
    word.parse().unwrap_or(0)
}

fn count(word: &str) -> u32 {
    word.parse().unwrap_or(0)
}

// A fact by its words: `b` a region and two ends; `e` a region, a start, stride, count and length; `s` two regions, each with a start,
// and a length.
fn fact(words: &[&str]) -> Option<Constraint> {
    match words {
        ["b", r, start, end] => Some(Constraint::Bounds {
            region: region(r)?,
            start: offset(start),
            end: offset(end),
        }),
        ["e", r, start, stride, number, len] => Some(Constraint::Elements {
            region: region(r)?,
            start: offset(start),
            stride: count(stride),
            count: count(number),
            len: count(len),
        }),
        ["s", a, a_start, b, b_start, len] => Some(Constraint::Same {
            a: region(a)?,
            a_start: offset(a_start),
            b: region(b)?,
            b_start: offset(b_start),
            len: count(len),
        }),
        _ => None,
    }
}

fn facts(alloc: Global, text: &str) -> Result<Vec<Constraint>, AllocError> {
    let mut facts = Vec::new(alloc);
    for part in text.split(';') {
        let mut words = Vec::new(alloc);
        for word in part.split_whitespace() {
            words.push(word)?;
        }
        if let Some(fact) = fact(&words) {
            facts.push(fact)?;
        }
    }
    Ok(facts)
}

// Cuts by their words: a region, and the offsets that follow it.
fn cuts(alloc: Global, text: &str) -> Result<Vec<(RegionId, i32)>, AllocError> {
    let mut cuts = Vec::new(alloc);
    let mut here = RegionId::Global;
    for word in text.split_whitespace() {
        match region(word) {
            Some(region) => here = region,
            None => cuts.push((here, offset(word)))?,
        }
    }
    Ok(cuts)
}

// A list for each cut.
fn lists(alloc: Global, text: &str) -> Result<Vec<CutList>, AllocError> {
    let mut lists = Vec::new(alloc);
    for (region, offset) in &cuts(alloc, text)? {
        lists.push(CutList {
            region: *region,
            cuts: Items::from_slice(alloc, &[*offset])?,
        })?;
    }
    Ok(lists)
}

// The cuts of lists, or none where they are too many.
fn told(alloc: Global, closed: &CutResult) -> Result<Vec<(RegionId, i32)>, AllocError> {
    let mut cuts = Vec::new(alloc);
    if let CutResult::Cuts(lists) = closed {
        for list in lists.as_slice() {
            for offset in list.cuts.as_slice() {
                cuts.push((list.region, *offset))?;
            }
        }
    }
    Ok(cuts)
}

fn closed(alloc: Global, kept: &str, given: &str) -> Result<Vec<(RegionId, i32)>, AllocError> {
    let result = close(
        alloc,
        &lists(alloc, kept)?,
        &facts(alloc, given)?,
        &image(alloc)?,
    )?;
    told(alloc, &result)
}

#[test]
fn cuts_are_forced(rt: HostRuntime) -> Result<(), Fail> {
    for (kept, given, forced) in [
        ("", "b f -8 4", "f -8 4"),
        ("", "e f 0 8 3 4", "f 0 4 8 12 16 20"),
        // A cut inside one element stands in each that reaches so far: the last is shorter.
        ("", "e h 0 8 3 4; b h 2 6", "h 0 2 4 6 8 10 12 14 16 18 20"),
        // The last element is longer than the stride.
        ("", "e f 0 2 2 6; b f 3 3", "f 0 1 2 3 6 8"),
        ("", "e f 0 0 4294967295 4; b f 2 2", "f 0 2 4"),
        // A chain of ranges, both ways.
        (
            "",
            "s f 0 h 0 8; s g 4096 h 0 8; b g 4098 4098",
            "g 4096 4098 4104 f 0 2 8 h 0 2 8",
        ),
        (
            "h 5",
            "s f 0 h 0 8; s h 0 g 4096 8",
            "g 4096 4101 4104 f 0 5 8 h 0 5 8",
        ),
        // A cut that comes two ways, and ends that aren't carried.
        (
            "",
            "s f 0 f 16 4; s f 16 f 0 4; b f 3 20",
            "f 0 3 4 16 19 20",
        ),
        // Kept cuts outside are left out, and those at an end of their region aren't.
        (
            "g 4095 4096 4113 8192 f 65536 65537 h -1 0",
            "",
            "g 4096 8192 f 65536 h 0",
        ),
        // What is carried out of a region is left out.
        (
            "",
            "s f 65532 g 4096 8; b g 4098 4102",
            "g 4096 4098 4102 4104 f 65532 65534",
        ),
    ] {
        let cut = closed(rt.alloc(), kept, given)?;
        assert_eq!(rt; cut, cuts(rt.alloc(), forced)?, "{kept}: {given}");
    }
    Ok(())
}

#[test]
fn cuts_are_counted(rt: HostRuntime) -> Result<(), Fail> {
    for (kept, given, number) in [
        ("", "e h 0 2 1023 2", 1024),
        ("h 2", "e h 0 2 1023 2", 1024),
        ("h 1", "e h 0 2 1023 2", 0),
        ("", "e h 0 2 1024 2", 0),
        ("", "e f -1048576 1 4294967295 4294967295", 0),
        ("", "e g 0 1 4294967295 1", 26),
    ] {
        let cut = closed(rt.alloc(), kept, given)?;
        assert_eq!(rt; cut.len(), number, "{kept}: {given}");
    }
    Ok(())
}
