//! Worked rows: each condition, at the ends of the words too, and what becomes of other regions.

use crate::refine;
use ia32_types::{Cond, Reg};
use image_map::RegionId;
use std::alloc::{AllocError, Global};
use std::process::Abort;
use std::test::Fail;
use strided::Si;
use vset::{CmpFact, CmpPlace, Part, ValueSet};

const FRAME: RegionId = RegionId::Frame(0x1000);

/// The two ends of an interval of stride 1, or of one number.
type Ends = (i32, i32);

fn all(rt: &impl Abort, ends: Ends) -> Si {
    let stride = if ends.0 == ends.1 { 0 } else { 1 };
    Si::new(stride, ends.0, ends.1).expect(rt, "an interval")
}

fn fact(rt: &impl Abort, bound: Ends) -> CmpFact {
    CmpFact {
        place: CmpPlace::Reg(Reg::Eax),
        bound: all(rt, bound),
    }
}

/// What is left of numbers, by its ends.
fn left(
    rt: &impl Abort,
    alloc: Global,
    condition: u8,
    bound: Ends,
    x: Ends,
) -> Result<Option<Ends>, AllocError> {
    let v = ValueSet::numbers(all(rt, x));
    let cond = Cond::new(condition % 16);
    let refined = refine(alloc, cond, true, &fact(rt, bound), &v)?;
    Ok(refined.only_number().map(|si| (si.lo(), si.hi())))
}

#[test]
fn rows(rt: HostRuntime) -> Result<(), Fail> {
    let alloc = rt.alloc();
    let most = i32::MAX;
    let least = i32::MIN;
    let around = (-8, 7);
    let cases = [
        (2, (1, 3), around, Some((0, 2))),
        (2, (0, 0), around, None),
        (2, (-1, 3), around, Some(around)),
        (3, (2, 3), (0, 7), Some((2, 7))),
        (3, (2, 3), around, Some(around)),
        (4, (2, 9), around, Some((2, 7))),
        (5, (7, 7), around, Some((-8, 6))),
        (5, (-8, -8), around, Some((-7, 7))),
        (5, (3, 3), around, Some(around)),
        (5, (least, least), (least, least), None),
        (6, (1, 3), around, Some((0, 3))),
        (6, (-1, 3), around, Some(around)),
        (7, (2, 3), (0, 7), Some((3, 7))),
        (7, (most, most), (0, most), None),
        (8, (0, 0), around, Some((-8, -1))),
        (8, (0, 1), around, Some(around)),
        (9, (0, 0), around, Some((0, 7))),
        (10, (0, 0), around, Some(around)),
        (12, (-9, 3), around, Some((-8, 2))),
        (12, (least, least), (least, 0), None),
        (13, (3, 9), around, Some((3, 7))),
        (13, (most, most), (0, most), Some((most, most))),
        (14, (-9, -2), around, Some((-8, -2))),
        (14, (least, least), (least, 0), Some((least, least))),
        (15, (2, 9), around, Some((3, 7))),
        (15, (most, most), (0, most), None),
    ];
    for (condition, bound, x, wanted) in cases.iter() {
        assert_eq!(rt; left(&rt, alloc, *condition, *bound, *x)?, *wanted);
    }
    Ok(())
}

#[test]
fn regions(rt: HostRuntime) -> Result<(), Fail> {
    let alloc = rt.alloc();
    let frame = ValueSet::one(Part {
        region: FRAME,
        si: Si::one(-8),
    });
    let below_four = fact(&rt, (4, 4));
    let less = Cond::new(12);
    let numbers = ValueSet::numbers(all(&rt, (0, 9)));
    let both = frame.join(alloc, &numbers)?;
    let left = frame.join(alloc, &ValueSet::numbers(all(&rt, (0, 3))))?;
    assert!(rt; refine(alloc, less, true, &below_four, &both)?.equals(&left));
    let right = frame.join(alloc, &ValueSet::numbers(all(&rt, (4, 9))))?;
    assert!(rt; refine(alloc, less, false, &below_four, &both)?.equals(&right));
    let ten = fact(&rt, (10, 10));
    assert!(rt; refine(alloc, less, false, &ten, &both)?.equals(&frame));
    assert!(rt; refine(alloc, less, false, &ten, &frame)?.equals(&frame));
    let top = ValueSet::top();
    let low = ValueSet::numbers(all(&rt, (i32::MIN, 3)));
    assert!(rt; refine(alloc, less, true, &below_four, &top)?.equals(&low));
    assert!(rt; refine(alloc, Cond::new(10), true, &below_four, &top)?.equals(&top));
    Ok(())
}
