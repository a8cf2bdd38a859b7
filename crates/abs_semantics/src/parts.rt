//! What abstract states are made of.

ghost use Rattle.std.specs.Prelude.{◌≡◌};

use ia32_types::Width;
use image_map::{Cell, RegionId};
use std::alloc::AllocError;
use strided::Si;
use vset::ValueSet;

/// What a cell may hold.
#[derive(Drop)]
pub struct CellValue {
    pub cell: Cell,
    pub value: ValueSet,
}

impl Clone for CellValue {
    ghost is_clone = { λ entry clone. clone ≡ entry };

    fn clone(&self) -> Result<CellValue, AllocError> {
        Ok(CellValue {
            cell: self.cell,
            value: self.value.clone()?,
        })
    }
}

/// An activation of `child`, the newest of its procedure unless it is aged, was called by one of `parent`, and
/// its base lies so far from the parent's.
#[derive(Clone, Copy)]
pub struct Link {
    pub child: u32,
    pub aged: bool,
    pub parent: u32,
    pub off: Si,
}

/// A number that is known of a region.
#[derive(Clone, Copy, Debug)]
pub struct Known {
    pub region: RegionId,
    pub number: u32,
}

/// Why an address may mean places that aren't listed.
#[derive(Clone, Copy, Debug, PartialEq, Eq)]
pub enum Reason {
    UnknownWrite,
    OutOfRegion,
    HeapOverrun,
}

/// What a write to a range of bytes leaves there.
#[derive(Drop)]
pub enum RangeValue {
    /// Bytes that may be any.
    Any,
    /// A number of so many bytes, over and over.
    Number(u32, Width),
    /// The bytes of the range of the same length at an address.
    Copy(ValueSet),
}
