//! Accesses to memory.

use vset::ValueSet;

/// Bytes that are read or written: at each value of `addr`, so many. `len` is `None` where their number isn't known.
#[derive(Drop)]
pub struct Access {
    pub addr: ValueSet,
    pub len: Option<u32>,
    pub write: bool,
}
