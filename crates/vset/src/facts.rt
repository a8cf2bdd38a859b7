//! Facts on flags and on the last comparison.

use ia32_types::{FlagSet, Reg};
use image_map::Cell;
use strided::Si;

/// Which flags may be 0, and which may be 1.
#[derive(Clone, Copy)]
pub struct AbsFlags {
    pub zero: FlagSet,
    pub one: FlagSet,
}

/// What a comparison was of.
#[derive(Clone, Copy)]
pub enum CmpPlace {
    Reg(Reg),
    Cell(Cell),
}

/// The flags are those of a comparison of the place's value with some number of the bound.
#[derive(Clone, Copy)]
pub struct CmpFact {
    pub place: CmpPlace,
    pub bound: Si,
}
