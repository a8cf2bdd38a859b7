//! What accesses say of the cuts of regions.
ghost use Rattle.std.specs.Prelude.{◌≡◌, ◌≢◌};

use image_map::RegionId;

/// A fact about accesses. It names `Global`, `Frame` and `Heap` regions.
#[derive(Clone, Copy, Debug)]
pub enum Constraint {
    /// A range from `start` up to, and without, `end`: it is cut at both ends.
    Bounds {
        region: RegionId,
        start: i32,
        end: i32,
    },
    /// Elements of `len` bytes, `count` of them, `stride` bytes apart: each is cut at both ends, and all are divided alike.
    Elements {
        region: RegionId,
        start: i32,
        stride: u32,
        count: u32,
        len: u32,
    },
    /// Two ranges of `len` bytes, of which one is copied to the other: both are cut at their ends, and divided alike.
    Same {
        a: RegionId,
        a_start: i32,
        b: RegionId,
        b_start: i32,
        len: u32,
    },
}
