//! Files, part by part, and what is said of the images that they have, or why they have none.

use super::{bytes_of, write};
use elf32::{ElfError, read_image};
use image_map::Image;
use std::alloc::{AllocError, Global};

/// A file of one segment of code, which is entered at its start.
const PLAIN: &str = "
7F 45 4C 46 01 01 01 00 00000000 00000000 ident
02 00 03 00 00000001 08049000 00000034 00000000 00000000 kind, machine, entry, program-headers
34 00 20 00 01 00 00 00 00 00 00 00 sizes
00000001 00000054 08049000 08049000 0000000F 0000000F 00000005 00000001 segment
B8 05 00 00 00 BB 07 00 00 00 89 C1 01 D9 C3";

/// A file of code, 32 bytes of data, symbols and a relocation, which its rows add. Of the dynamic symbols, puts and exit
/// are undefined, and two are named seven; seven is in the other table too, where uts is a part of puts.
const LINKED: &str = "
7F 45 4C 46 01 01 01 00 00000000 00000000 ident
02 00 03 00 00000001 08049000 00000034 00000134 00000000 kind, machine, entry, program-headers, sections
34 00 20 00 02 00 28 00 05 00 00 00 sizes
00000001 00000074 08049000 08049000 0000000F 0000000F 00000005 00000001 segment
00000001 00000083 0804C000 0804C000 00000020 00000020 00000006 00000001 segment
B8 05 00 00 00 BB 07 00 00 00 89 C1 01 D9 C3
07070707 07070707 07070707 07070707 07070707 07070707 07070707 07070707
00 70 75 74 73 00 65 78 69 74 00 73 65 76 65 6E 00 strings
00000000 00000000 00000000 00000000 no-symbol
00000001 00000000 00000000 00000000 puts
00000006 00000000 00000000 00000000 exit
0000000B 00001234 00000006 00010000 seven
0000000B 00009999 00000064 00010000 seven
0000000B 00007777 00000000 00010000 seven
00000002 00008888 00000000 00010000 uts
00000001 00000001 00000000 00000000 puts
00000000 00000000 00000000 00000000 00000000 00000000 00000000 00000000 00000000 00000000 no-section
00000000 00000003 00000000 00000000 000000A3 00000011 00000000 00000000 00000000 00000000 strings
00000000 0000000B 00000000 00000000 000000B4 00000050 00000001 00000000 00000000 00000000 dynamic-symbols
00000000 00000009 00000000 00000000 000001FC 00000008 00000002 00000000 00000000 00000000 relocations
00000000 00000002 00000000 00000000 00000104 00000030 00000001 00000000 00000000 00000000 symbols";

/// Changes of the plain file, and what is said of the image, or the first check that fails.
const PLAIN_ROWS: &str = "\
@0 7F = @8049000 entry code B8 05 @804900E C3 -- none @8048FFF -- @0 bias
@16 03 @72 00000014 = @8449000 entry B8 @8049000 -- @844900E C3 00 @8449013 00 -- @400000 bias
@0 00 = Magic
@4 02 = Class
@5 02 = Class
@18 3E 00 = Machine
@16 01 00 = Kind
@16 01 00 3E 00 = Machine
@44 00 00 = Header(65535)
@44 02 00 = Short(99)
@44 41 00 = TooMany
@32 00000063 00000000 34 00 20 00 01 00 00 00 01 00 = Header(65535)
@32 00000063 00000000 34 00 20 00 01 00 28 00 01 00 = Short(99)
@48 01 04 = TooMany
@68 00000010 = Header(0)
@72 00000000 = Header(0)
@56 FFFFFFFF = Short(99)
@60 00000000 = Range(0)
@60 7FFFFFF8 = Range(0)
@72 04000001 = TooMany
@76 00000007 = WritableCode(0)
@60 FFFFFFFF = Range(0)";

/// The same of the file with a relocation.
const LINKED_ROWS: &str = "\
0804900F 00000000 @92 0804900F = @804900E code C3 @804900F data 07 @804902E 07 -- none
0804C000 00000000 @92 0804900E = Overlap(0, 1)
0804C000 00000000 @92 08048FE1 = Overlap(0, 1)
0804C000 00000000 = @7777 $seven @8888 $uts !puts !seve !
0804C000 00000000 @16 03 = @407777 $seven @408888 $uts !puts
0804C000 00000000 = @804C000 unstored 07 07 07 07
0804C000 00000301 = @804C000 stored 3B 19 07 07
0804C000 00000301 0804C000 00000301 @448 00000010 = @804C000 6F 2B 07 07
0804C000 00000101 = @804C000 07 07 07 F7
0804C000 00000305 = @804C000 unstored -- -- -- --
0804C000 00000306 = @804C000 34 12 00 00
0804C000 00000307 = @804C000 34 12 00 00
0804C000 00000107 = @804C000 00 00 00 F0
0804C000 00000008 = @804C000 07 07 07 07
0804C000 00000305 0804C000 00000000 @448 00000010 = @804C000 -- -- -- --
0804C000 00000305 0804C000 00000301 @448 00000010 = @804C000 -- -- -- --
0804C000 00000305 0804C000 00000008 @448 00000010 = @804C000 -- -- -- --
0804C000 00000305 0804C000 00000306 @448 00000010 = @804C000 34 12 00 00
0804C000 00000305 0804C000 00000307 @448 00000010 = @804C000 34 12 00 00
0804C000 00000305 0804C000 00000306 0804C000 00000301 @448 00000018 = @804C000 68 24 00 00
0804C000 00000307 0804C000 00000305 @448 00000010 = @804C000 -- -- -- --
0804C000 00000000 @16 03 = @844C000 unstored 07 07 07 07
0804C000 00000301 @16 03 = @844C000 stored 3B 19 47 07
0804C000 00000305 @16 03 = @844C000 unstored -- -- -- --
0804C000 00000306 @16 03 = @844C000 stored 34 12 40 00
0804C000 00000307 @16 03 = @844C000 stored 34 12 40 00
0804C000 00000107 @16 03 = @844C000 stored 00 00 00 F0
0804C000 00000008 @16 03 = @844C000 stored 07 07 47 07
0804C000 00000305 0804C004 00000301 0804C000 00000306 0804C014 00000405 @448 00000020 = @804C000 34 12 00 00 -- -- -- -- 07 @804C013 07 -- @804C01F -- --
0804C000 00000207 0804C004 00000106 0804C008 00000207 @448 00000018 = @804C000 00 00 00 F0 10 00 00 F0 00 00 00 F0
0804C000 0000010E = Relocation(0, 14)
0804C000 00000002 = Relocation(0, 2)
0804C000 00000507 = Relocation(0, 7)
0804C000 00000500 = Relocation(0, 0)
0804C01D 00000108 = Relocation(0, 8)
0804C01D 00000000 = Relocation(0, 0)
08048FFF 00000000 = Relocation(0, 0)
0804C000 00000000 0804C000 0000010E @448 00000010 = Relocation(1, 14)
0804C000 00000000 0804C000 00000002 @448 00000010 = Relocation(1, 2)
0804C000 00000000 0804C000 00000507 @448 00000010 = Relocation(1, 7)
0804C000 00000000 0804C000 00000500 @448 00000010 = Relocation(1, 0)
0804C000 00000000 0804C01D 00000108 @448 00000010 = Relocation(1, 8)
0804C000 00000000 0804C01D 00000000 @448 00000010 = Relocation(1, 0)
0804C000 00000000 08048FFF 00000000 @448 00000010 = Relocation(1, 0)";

/// Reads a file, of which none here is longer.
fn read(alloc: Global, bytes: &[u8]) -> Result<Image, ElfError> {
    if bytes.len() > 2_000_000 {
        return Err(ElfError::Memory);
    }
    read_image(alloc, bytes)
}

/// Whether a word is right of an image and an address: a byte, or that none is known, what may be done there, that
/// relocations stored a word there, that the image is entered there or moved up by as much, or that a symbol has this value
/// or isn't there.
fn is_right(image: &Image, at: u32, word: &str) -> bool {
    match word {
        "code" => image.is_code(at),
        "data" => image.is_writable(at) && !image.is_code(at),
        "none" => !image.is_writable(at) && !image.is_code(at),
        "stored" => image.words.as_slice().contains(&at),
        "unstored" => !image.words.as_slice().contains(&at),
        "entry" => image.entry == at,
        "bias" => image.bias == at,
        _ => match (word.strip_prefix('$'), word.strip_prefix('!')) {
            (Some(name), _) => image.symbol(name.as_bytes()) == Some(at),
            (_, Some(name)) => image.symbol(name.as_bytes()).is_none(),
            _ => image.byte_at(at) == u8::from_str_radix(word, 16).ok(),
        },
    }
}

/// Whether the words are right of an image, where `@A` moves to the address A, and each byte to the next address.
fn shows(image: &Image, told: &str) -> bool {
    let mut at = 0u32;
    for word in told.split_whitespace() {
        if let Some(address) = word.strip_prefix('@') {
            at = u32::from_str_radix(address, 16).unwrap_or(0);
        } else if is_right(image, at, word) {
            at = at.wrapping_add(u32::from(word.len() == 2));
        } else {
            return false;
        }
    }
    true
}

/// Whether a row tells what a file has with the row's changes.
fn holds(alloc: Global, file: &str, row: &str) -> Result<bool, AllocError> {
    let Some((changes, told)) = row.split_once(" = ") else {
        return Ok(false);
    };
    let mut bytes = bytes_of(alloc, file)?;
    write(&mut bytes, changes)?;
    match read(alloc, bytes.as_slice()) {
        Ok(image) => Ok(shows(&image, told)),
        Err(cause) => Ok(format!(in alloc; "{cause:?}")?.as_str() == told),
    }
}

#[test]
fn files(rt: HostRuntime) -> Result<(), AllocError> {
    for (file, rows) in [(PLAIN, PLAIN_ROWS), (LINKED, LINKED_ROWS)] {
        for row in rows.lines() {
            assert!(rt; holds(rt.alloc(), file, row)?, "{row}");
        }
    }
    Ok(())
}

#[test]
fn short_files(rt: HostRuntime) -> Result<(), AllocError> {
    let plain = bytes_of(rt.alloc(), PLAIN)?;
    assert!(rt; plain.len() == 99);
    for len in [0, 51, 52, 83, 84, 98] {
        let short = plain.as_slice().get(..len).unwrap_or_default();
        let cause = read(rt.alloc(), short).err();
        assert!(rt; cause == Some(ElfError::Short(len as u32)), "{len}");
    }
    Ok(())
}

#[test]
fn what_relocations_leave(rt: HostRuntime) -> Result<(), AllocError> {
    // A copy into the first word, which is stored later, and a copy that the segment's end cuts off.
    let mut bytes = bytes_of(rt.alloc(), LINKED)?;
    write(
        &mut bytes,
        "0804C000 00000305 0804C004 00000301 0804C000 00000306 0804C014 00000405",
    )?;
    write(
        &mut bytes,
        "0804C008 00000207 0804C00C 00000106 0804C010 00000207 @448 00000038",
    )?;
    let read = read(rt.alloc(), bytes.as_slice());
    assert!(rt; read.is_ok());
    if let Ok(image) = read {
        let stored = [
            0x0804_C004,
            0x0804_C000,
            0x0804_C008,
            0x0804_C00C,
            0x0804_C010,
        ];
        assert!(rt; image.words.as_slice() == stored.as_slice());
        assert!(rt; image.any_bytes.as_slice().len() == 2);
        // Numbered by their first use.
        assert!(rt; image.externs.get(0).is_some_and(|e| e.name.is(b"exit")));
        assert!(rt; image.externs.get(1).is_some_and(|e| e.name.is(b"puts")));
        assert!(rt; image.externs.len() == 2);
    }
    Ok(())
}

/// A file with a number of undefined dynamic symbols and a relocation by each, a number of relocations that do nothing, and
/// one more.
fn many(alloc: Global, externs: u32, idle: u32, last: u32) -> Result<Vec<u8>, AllocError> {
    let mut bytes = bytes_of(alloc, LINKED)?;
    let symbols = externs.wrapping_mul(16);
    let relocations = externs.wrapping_add(idle).wrapping_add(1).wrapping_mul(8);
    let end = symbols.wrapping_add(508);
    let sections = format!(in alloc;
        "@404 000001FC {symbols:08X} @444 {end:08X} {relocations:08X}"
    )?;
    for _ in 0..externs {
        write(&mut bytes, "00000001 00000000 00000000 00000000")?;
    }
    for index in 0..externs {
        let info = index.wrapping_mul(256) | 7;
        write(
            &mut bytes,
            format!(in alloc; "0804C000 {info:08X}")?.as_str(),
        )?;
    }
    for _ in 0..idle {
        write(&mut bytes, "0804C000 00000000")?;
    }
    write(
        &mut bytes,
        format!(in alloc; "0804C000 {last:08X}")?.as_str(),
    )?;
    write(&mut bytes, sections.as_str())?;
    Ok(bytes)
}

#[test]
fn limits(rt: HostRuntime) -> Result<(), AllocError> {
    for (externs, idle, last, cause) in [
        (1, 65_534, 0, None),
        (1, 65_535, 0, Some(ElfError::TooMany)),
        (1, 65_535, 14, Some(ElfError::Relocation(65_536, 14))),
        (1024, 0, 0, None),
        (1025, 0, 0, Some(ElfError::TooMany)),
    ] {
        let bytes = many(rt.alloc(), externs, idle, last)?;
        assert!(rt; read(rt.alloc(), bytes.as_slice()).err() == cause);
    }
    Ok(())
}
