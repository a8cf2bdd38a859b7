//! Scripts that are refused and that are read, and the longest slice.
use super::*;
use std::alloc::{AllocError, Global};
use std::test::Fail;

// So many times the line of a step, and then this.
fn steps(alloc: Global, count: u32, end: &[u8]) -> Result<Vec<u8>, AllocError> {
    let mut text = Vec::new(alloc);
    for _ in 0..count {
        text.extend_from_slice(b"1 step\n")?;
    }
    text.extend_from_slice(end)?;
    Ok(text)
}

// Why two sessions refuse a short script, if they do.
fn refusal(alloc: Global, text: &[u8]) -> Option<ScriptError> {
    if text.len() < 100_000 {
        read_script(alloc, text, 2).err()
    } else {
        None
    }
}

#[test]
fn refuses_lines(rt: HostRuntime) {
    let rows = [
        ("#\u{80}", LineCause::NotText),
        (" 1 step", LineCause::Session),
        ("01 step", LineCause::Session),
        ("3 step", LineCause::Session),
        ("1 slices 1", LineCause::Word),
        ("1 step 2", LineCause::Word),
        ("1 program 1", LineCause::Word),
        ("1 slice", LineCause::Address),
        ("1 slice 123456789", LineCause::Address),
        ("1 values 1 ", LineCause::Address),
        ("1 lane 4", LineCause::Lane),
    ];
    for (line, cause) in rows {
        let refused = refusal(rt.alloc(), line.as_bytes());
        assert_eq!(rt; refused, Some(ScriptError::Line(1, cause)), "{line:?}");
    }
    let second = refusal(rt.alloc(), b"1 step\n1 slice xyz");
    assert_eq!(rt; second, Some(ScriptError::Line(2, LineCause::Address)));
    let byte = refusal(rt.alloc(), &[0xff]);
    assert_eq!(rt; byte, Some(ScriptError::Line(1, LineCause::NotText)));
}

#[test]
fn refuses_long_scripts(rt: HostRuntime) -> Result<(), Fail> {
    let alloc = rt.alloc();
    assert_eq!(rt; refusal(alloc, &steps(alloc, 1024, b"\r\n# x")?), None);
    let long = steps(alloc, 1025, b"bad\n")?;
    assert_eq!(rt; refusal(alloc, &long), Some(ScriptError::TooLong(1024)));
    let lane = steps(alloc, 1024, b"1 lane 9")?;
    let cause = ScriptError::Line(1025, LineCause::Lane);
    assert_eq!(rt; refusal(alloc, &lane), Some(cause));
    Ok(())
}

#[test]
fn reads_requests(rt: HostRuntime) -> Result<(), Fail> {
    let text = b"1 slice 0804900C\r\n\r\n2 program 2";
    let script = read_programs_script(rt.alloc(), text, 2, 2).or(Err("refused"))?;
    assert_eq!(rt; script.lines.len(), 2);
    assert_eq!(rt;
        script.lines.get(1).copied(),
        Some((2, Request::Program(2)))
    );
    Ok(())
}

// The beginning of what was written of a slice of the greatest numbers.
fn written(alloc: Global, addresses: u32) -> Result<Vec<u8>, AllocError> {
    let mut into = vec![in alloc; 0; 40960]?;
    let listed = vec![in alloc; u32::MAX; (addresses % 4097) as usize]?;
    let len = write_slice(u32::MAX, u32::MAX, 3, &listed, u32::MAX, &mut into);
    into.truncate(len as usize);
    Ok(into)
}

#[test]
fn writes_slices(rt: HostRuntime) -> Result<(), Fail> {
    let one =
        b"slice ffffffff round 4294967295 lane 3\nffffffff\nend 1 addresses 4294967295 warnings\n";
    assert_eq!(rt; written(rt.alloc(), 1)?.as_slice(), one.as_slice());
    assert_eq!(rt; written(rt.alloc(), 4096)?.len(), 36942);
    Ok(())
}
