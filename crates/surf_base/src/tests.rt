// Examples of the fakes, which no contract can show to succeed, and of printed digits.
use super::*;
use std::alloc::{AllocError, Global};
use std::test::Fail;

const TEXT: &[u8] =
    b"slice 0804900c round 0 lane 2\n08049000\n0804900a\nend 2 addresses 0 warnings\n";

fn named(alloc: Global, name: &str) -> Result<String, AllocError> {
    String::from_str(alloc, name)
}

// A read through the trait.
fn read_a<F: Shelf>(alloc: Global, shelf: &mut F, limit: u32) -> Result<Vec<u8>, ShelfError> {
    shelf.read(alloc, "a", limit)
}

#[test]
fn writes_lines_until_one_fails(rt: HostRuntime) -> Result<(), Fail> {
    let alloc = rt.alloc();
    // The failing call or 0, the room, whether all is written, and how many bytes are.
    let rows = [
        (0, 200, true, 75),
        (5, 200, true, 75),
        (0, 75, true, 75),
        (0, 74, false, 48),
        (1, 200, false, 0),
        (2, 200, false, 30),
        (3, 200, false, 39),
        (4, 200, false, 48),
        (0, 38, false, 30),
        (0, 29, false, 0),
    ];
    for (failing, room, whole, written) in rows {
        let calls = [failing].to_vec(alloc)?;
        let mut sink = MemorySink::new(alloc, room, calls)?;
        let answer = write_lines(TEXT, &mut sink);
        assert_eq!(rt; answer.is_ok(), whole, "call {failing}, room {room}");
        assert_eq!(rt;
            sink.written().len(),
            written,
            "call {failing}, room {room}"
        );
        assert!(rt;
            TEXT.starts_with(sink.written()),
            "call {failing}, room {room}"
        );
    }
    Ok(())
}

#[test]
fn a_failing_write_takes_nothing(rt: HostRuntime) -> Result<(), Fail> {
    let alloc = rt.alloc();
    let mut sink = MemorySink::new(alloc, 6, [2].to_vec(alloc)?)?;
    assert_eq!(rt; sink.write(b"abc"), Ok(()));
    assert_eq!(rt; sink.write(b"d"), Err(SinkFailed));
    assert_eq!(rt; sink.write(b"defg"), Err(SinkFailed));
    assert_eq!(rt; sink.write(b"def"), Ok(()));
    assert_eq!(rt; sink.write(b""), Ok(()));
    assert_eq!(rt; sink.written(), b"abcdef".as_slice());
    Ok(())
}

#[test]
fn reads_files_by_name(rt: HostRuntime) -> Result<(), Fail> {
    let alloc = rt.alloc();
    let mut shelf = MemoryShelf::new(alloc, [3].to_vec(alloc)?);
    shelf.add(alloc, named(alloc, "a")?, b"old".to_vec(alloc)?)?;
    shelf.add(alloc, named(alloc, "b")?, b"other".to_vec(alloc)?)?;
    shelf.add(alloc, named(alloc, "a")?, b"text".to_vec(alloc)?)?;
    let whole = read_a(alloc, &mut shelf, 4).or(Err("read 1"))?;
    assert_eq!(rt; whole.as_slice(), b"text".as_slice());
    assert_eq!(rt;
        read_a(alloc, &mut shelf, 3).err(),
        Some(ShelfError::TooLong(3))
    );
    assert_eq!(rt;
        read_a(alloc, &mut shelf, 9).err(),
        Some(ShelfError::Failed),
        "a listed call"
    );
    assert_eq!(rt;
        shelf.read(alloc, "c", 9).err(),
        Some(ShelfError::Failed),
        "an unknown name"
    );
    let other = shelf.read(alloc, "b", 9).or(Err("read 5"))?;
    assert_eq!(rt; other.as_slice(), b"other".as_slice());
    Ok(())
}

#[test]
fn prints_eight_digits(rt: HostRuntime) {
    assert_eq!(rt; hex8(0).as_slice(), b"00000000".as_slice());
    assert_eq!(rt; hex8(0x0804_900c).as_slice(), b"0804900c".as_slice());
    assert_eq!(rt; hex8(0x89ab_cdef).as_slice(), b"89abcdef".as_slice());
    assert_eq!(rt; hex8(u32::MAX).as_slice(), b"ffffffff".as_slice());
}
