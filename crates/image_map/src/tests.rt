use crate::{
    Cell, Extern, Image, Kind, Name, PF_R, PF_W, PF_X, RegionId, Segment, Settings, Span, Spans,
    SymbolPlace, Symbols, extern_address,
};
use item_list::Items;
use std::alloc::{AllocError, Global};
use std::sync::Arc;

fn segment(alloc: Global, start: u32, bytes: &[u8], flags: u32) -> Result<Segment, AllocError> {
    Ok(Segment {
        start,
        bytes: Items::from_slice(alloc, bytes)?,
        flags,
    })
}

const NAMES: &[u8] = b"main\0init\0puts";

/// Three symbols, of which two have one name.
fn symbols(buffer: &Arc<Vec<u8>, Global>, alloc: Global) -> Result<Symbols, AllocError> {
    let mut places = Vec::new(alloc);
    for (start, value) in [(0, 1), (5, 2), (0, 3)] {
        places.extend_from_slice(&[SymbolPlace { start, value }])?;
    }
    Symbols::at_places(buffer, places)
}

/// Two segments that adjoin, one of code and one that may be written, with two bytes of any content.
fn image(alloc: Global) -> Result<Image, AllocError> {
    let mut segments = Items::new(alloc);
    segments.push(segment(alloc, 0x1000, &[1, 2, 3], PF_R | PF_X)?)?;
    segments.push(segment(alloc, 0x1003, &[4, 5], PF_R | PF_W)?)?;
    let buffer = Arc::new(alloc, Vec::from_slice(alloc, NAMES)?)?;
    let mut externs = Items::new(alloc);
    externs.push(Extern {
        name: Name::new(&buffer, 10)?,
    })?;
    let mut any_bytes = Spans::new(alloc);
    any_bytes.set(alloc, 0x1002, 0x1004, true)?;
    Ok(Image {
        segments,
        externs,
        symbols: symbols(&buffer, alloc)?,
        any_bytes,
        words: Items::new(alloc),
        entry: 0x1000,
        bias: 0,
    })
}

#[test]
fn queries_read_the_image(rt: HostRuntime) {
    let image = image(rt.alloc()).expect(&rt, "memory");
    assert_eq!(rt; image.byte_at(0xFFF), None);
    assert_eq!(rt; image.byte_at(0x1000), Some(1));
    assert_eq!(rt; image.byte_at(0x1002), None);
    assert_eq!(rt; image.byte_at(0x1003), None);
    assert_eq!(rt; image.byte_at(0x1004), Some(5));
    assert_eq!(rt; image.byte_at(0x1005), None);
    assert!(rt; image.is_code(0x1002));
    assert!(rt; !image.is_code(0x1003));
    assert!(rt; !image.is_code(0x1005));
    assert!(rt; image.is_writable(0x1003));
    assert!(rt; !image.is_writable(0x1002));
    assert_eq!(rt; image.extern_at(0xF000_0000), Some(0));
    assert_eq!(rt; image.extern_at(0xF000_0008), None);
    assert_eq!(rt; image.extern_at(0xF000_0010), None);
    assert_eq!(rt; image.extern_at(0x1000), None);
    assert_eq!(rt; extern_address(1), 0xF000_0010);
    assert_eq!(rt; image.symbol(b"main"), Some(1));
    assert_eq!(rt; image.symbol(b"init"), Some(2));
    assert_eq!(rt; image.symbol(b"mai"), None);
}

#[test]
fn spans_are_cut_and_joined(rt: HostRuntime) {
    let alloc = rt.alloc();
    let mut spans = Spans::new(alloc);
    spans.set(alloc, 10, 20, true).expect(&rt, "memory");
    spans.set(alloc, 30, 40, true).expect(&rt, "memory");
    spans.set(alloc, 15, 32, false).expect(&rt, "memory");
    spans.set(alloc, 18, 19, true).expect(&rt, "memory");
    let ends = |s: &Span| (s.start, s.end);
    let found: Vec<(u32, u32)> = spans
        .as_slice()
        .iter()
        .map(ends)
        .collect(alloc)
        .expect(&rt, "memory");
    assert_eq!(rt; found.as_slice(), [(10, 15), (18, 19), (32, 40)].as_slice());
    assert!(rt; spans.contains(14));
    assert!(rt; !spans.contains(15));
}

#[test]
fn names_end_at_a_nul(rt: HostRuntime) {
    let alloc = rt.alloc();
    let text = Vec::from_slice(alloc, NAMES).expect(&rt, "memory");
    let buffer = Arc::new(alloc, text).expect(&rt, "memory");
    for (start, name) in [(0, "main"), (4, ""), (12, "ts"), (99, "")] {
        let found = Name::new(&buffer, start).expect(&rt, "memory");
        assert!(rt; found.is(name.as_bytes()));
        assert!(rt; !found.is(b"mai") && !found.is(b"main\0init"));
    }
}

#[test]
fn a_clone_is_the_same_image(rt: HostRuntime) {
    let image = image(rt.alloc()).expect(&rt, "memory");
    let clone = image.clone().expect(&rt, "memory");
    assert_eq!(rt; clone.byte_at(0x1000), Some(1));
    assert_eq!(rt; clone.byte_at(0x1002), None);
    assert_eq!(rt; clone.symbol(b"init"), Some(2));
    assert_eq!(rt; clone.extern_at(0xF000_0000), Some(0));
}

#[test]
fn regions_are_ordered(rt: HostRuntime) {
    let rising = [
        RegionId::Global,
        RegionId::Frame(7),
        RegionId::Frame(9),
        RegionId::OldFrame(0),
        RegionId::Heap(0),
        RegionId::OldHeap(0),
    ];
    for (low, high) in rising.iter().zip(&rising[1..]) {
        assert!(rt; low < high && low.is_before(high) && low != high);
    }
}

#[test]
fn cells_are_ordered(rt: HostRuntime) {
    let cell = |region, start, end| Cell { region, start, end };
    let rising = [
        cell(RegionId::Global, 9, 12),
        cell(RegionId::Heap(7), -4, -3),
        cell(RegionId::Heap(7), -4, 0),
        cell(RegionId::Heap(7), 0, 1),
        cell(RegionId::Heap(8), -8, -4),
    ];
    for (low, high) in rising.iter().zip(&rising[1..]) {
        assert!(rt; low < high && low.is_before(high) && low != high);
    }
}

#[test]
fn settings_have_a_kind_for_each_extern(rt: HostRuntime) {
    let alloc = rt.alloc();
    let kinds = [
        Kind::Pure(0),
        Kind::Reader(8),
        Kind::Fills(1, 8),
        Kind::Alloc,
    ];
    let settings = Settings {
        entry: 0x1000,
        rounds: 8,
        kinds: Items::from_slice(alloc, &kinds).expect(&rt, "memory"),
    };
    assert!(rt; settings.are_valid(4));
    assert!(rt; !settings.are_valid(5));
    assert!(rt; !Kind::Fills(0, 8).is_valid());
    assert!(rt; !Kind::Reader(9).is_valid());
}
