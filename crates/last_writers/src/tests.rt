//! Ranges that take over from others, and one that is forgotten.

use crate::LastWriters;
use std::alloc::{AllocError, Global};

/// Step 1 writes 16 addresses, step 2 four of them, step 9 some before, and then a range across them is forgotten.
fn written(alloc: Global) -> Result<LastWriters, AllocError> {
    let mut writers = LastWriters::new(alloc);
    writers.set(alloc, 0x1000, 0x1010, Some(1))?;
    writers.set(alloc, 0x1004, 0x1008, Some(2))?;
    writers.set(alloc, 0xFF0, 0x1000, Some(9))?;
    writers.set(alloc, 0x1006, 0x100C, None)?;
    Ok(writers)
}

#[test]
fn ranges_take_over(rt: HostRuntime) {
    let alloc = rt.alloc();
    let writers = written(alloc).expect(&rt, "memory");
    let all = writers.writers(alloc, 0, 0xFFFF_FFFF).expect(&rt, "memory");
    assert_eq!(rt; all.as_slice(), &[1, 2, 9][..]);
    let across = writers.writers(alloc, 0x1003, 0x1005).expect(&rt, "memory");
    assert_eq!(rt; across.as_slice(), &[1, 2][..]);
    let forgotten = writers.writers(alloc, 0x1006, 0x100C).expect(&rt, "memory");
    assert_eq!(rt; forgotten.len(), 0);
    let last = writers.writers(alloc, 0x100B, 0x100D).expect(&rt, "memory");
    assert_eq!(rt; last.as_slice(), &[1][..]);
}
