//! Lists of one to five lines, shares, and the parts of a script.
use super::*;
use requests::{Request, read_programs_script};
use std::alloc::{AllocError, Global};
use std::test::Fail;

// The error of a list, if it is none.
fn refusal(alloc: Global, bytes: &[u8]) -> Option<ListError> {
    if bytes.len() < 1000 {
        read_list(alloc, bytes).err()
    } else {
        None
    }
}

#[test]
fn lists_names(rt: HostRuntime) -> Result<(), AllocError> {
    let rows: [(&str, Option<u32>); 6] = [
        ("", Some(1)),
        ("one\n\nthree\n", Some(2)),
        ("one\r\ntwo words\nthree", None),
        ("a\nb\nc\nd\n", None),
        ("a\nb\nc\nd\ne", Some(5)),
        ("a\n\u{e9}\n", Some(2)),
    ];
    for (text, line) in rows {
        let wanted = line.map(ListError::Line);
        assert_eq!(rt; refusal(rt.alloc(), text.as_bytes()), wanted, "{text:?}");
    }
    match read_list(rt.alloc(), b"one\r\ntwo words\nthree") {
        Ok(names) => match names.as_slice() {
            [one, two, _] => {
                assert_eq!(rt; one.as_str(), "one");
                assert_eq!(rt; two.as_str(), "two words");
            }
            _ => assert!(rt; false),
        },
        Err(_) => assert!(rt; false),
    }
    Ok(())
}

#[test]
fn counts_bytes_of_a_name(rt: HostRuntime) -> Result<(), AllocError> {
    for (count, line) in [(255, None), (256, Some(1))] {
        let mut text = Vec::new(rt.alloc());
        for _ in 0..count {
            text.extend_from_slice(b"n")?;
        }
        text.extend_from_slice(b"\r\n")?;
        assert_eq!(rt; refusal(rt.alloc(), &text), line.map(ListError::Line));
    }
    Ok(())
}

#[test]
fn shares_refiners_in_turn(rt: HostRuntime) {
    assert_eq!(rt; shares(0, 4), [0, 0, 0, 0]);
    assert_eq!(rt; shares(4, 3), [2, 1, 1, 0]);
    assert_eq!(rt; shares(3, 2), [2, 1, 0, 0]);
}

#[test]
fn parts_follow_the_sessions(rt: HostRuntime) -> Result<(), AllocError> {
    let text = b"1 step\n2 program 2\n1 warnings\n2 step\n2 program 1\n2 locations\n";
    match read_programs_script(rt.alloc(), text, 2, 2) {
        Ok(script) => {
            let first = part(rt.alloc(), &script, 1)?;
            let wanted = [
                (1, Request::Step),
                (1, Request::Warnings),
                (2, Request::Locations),
            ];
            assert_eq!(rt; first.lines.as_slice(), wanted.as_slice());
            let second = part(rt.alloc(), &script, 2)?;
            assert_eq!(rt; second.lines.as_slice(), [(2, Request::Step)].as_slice());
        }
        Err(_) => assert!(rt; false),
    }
    Ok(())
}
