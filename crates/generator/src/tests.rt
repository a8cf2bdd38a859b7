// A small file, byte by byte.
use super::{make_image, next_word};
use std::test::Fail;

#[test]
fn one_item(rt: HostRuntime) -> Result<(), Fail> {
    let file = make_image(rt.alloc(), 1, 1)?;
    assert_eq!(rt; file.len(), 100);
    assert_eq!(rt;
        &file[84..],
        b"\x55\x89\xE5\x81\xEC\x00\x01\x00\x00\xB8\x08\x00\x00\x00\xC9\xC3".as_slice()
    );
    assert_eq!(rt; next_word(1), 0x3C88_596C);
    Ok(())
}
