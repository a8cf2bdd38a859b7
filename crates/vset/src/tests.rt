//! Worked values: for each operation numbers, a frame and every value, and the edges of the rules.

use crate::{Part, ValueSet};
use image_map::RegionId;
use std::alloc::{AllocError, Global};
use std::process::Abort;
use std::test::Fail;
use strided::Si;

const FRAME: RegionId = RegionId::Frame(0x1000);

const OLD: RegionId = RegionId::OldFrame(0x1000);

/// The part of these offsets.
fn part(rt: &impl Abort, region: RegionId, stride: u32, lo: i32, hi: i32) -> Part {
    let si = Si::new(stride, lo, hi).expect(rt, "an interval");
    Part { region, si }
}

fn one(rt: &impl Abort, region: RegionId, offset: i32) -> ValueSet {
    ValueSet::one(part(rt, region, 0, offset, offset))
}

/// A number and an offset in the frame.
fn both(rt: &impl Abort, alloc: Global, number: i32, offset: i32) -> Result<ValueSet, AllocError> {
    one(rt, FRAME, offset).join(alloc, &one(rt, RegionId::Global, number))
}

#[test]
fn sums(rt: HostRuntime) -> Result<(), Fail> {
    let alloc = rt.alloc();
    let three = one(&rt, RegionId::Global, 3);
    let frame = one(&rt, FRAME, -8);
    assert!(rt;
        three
            .add(alloc, &three)?
            .equals(&one(&rt, RegionId::Global, 6))
    );
    assert!(rt; three.add(alloc, &frame)?.equals(&one(&rt, FRAME, -5)));
    assert!(rt; frame.add(alloc, &three)?.equals(&one(&rt, FRAME, -5)));
    assert!(rt; frame.add(alloc, &frame)?.equals(&ValueSet::top()));
    assert!(rt; three.add(alloc, &ValueSet::top())?.equals(&ValueSet::top()));
    assert!(rt; frame.sub(alloc, &three)?.equals(&one(&rt, FRAME, -11)));
    assert!(rt;
        frame
            .sub(alloc, &frame)?
            .equals(&one(&rt, RegionId::Global, 0))
    );
    assert!(rt; three.sub(alloc, &frame)?.equals(&ValueSet::top()));
    let old = one(&rt, OLD, -8);
    assert!(rt; old.sub(alloc, &old)?.equals(&ValueSet::top()));
    let pair = both(&rt, alloc, 1, 0)?;
    assert!(rt; pair.add(alloc, &three)?.equals(&both(&rt, alloc, 4, 3)?));
    let none = ValueSet::from_parts(Vec::new(alloc));
    assert!(rt; none.add(alloc, &three)?.equals(&none));
    Ok(())
}

#[test]
fn joins(rt: HostRuntime) -> Result<(), Fail> {
    let alloc = rt.alloc();
    let three = one(&rt, RegionId::Global, 3);
    let seven = one(&rt, RegionId::Global, 7);
    let step = ValueSet::one(part(&rt, RegionId::Global, 4, 3, 7));
    assert!(rt; three.join(alloc, &seven)?.equals(&step));
    assert!(rt;
        three
            .join(alloc, &ValueSet::top())?
            .equals(&ValueSet::top())
    );
    let grown = ValueSet::one(part(&rt, RegionId::Global, 4, 3, i32::MAX));
    assert!(rt; three.widen(alloc, &seven)?.equals(&grown));
    assert!(rt; seven.widen(alloc, &seven)?.equals(&seven));
    assert!(rt; three.below(&step) && !step.below(&three) && step.below(&ValueSet::top()));
    assert!(rt; !ValueSet::top().below(&step) && !both(&rt, alloc, 3, 0)?.below(&three));
    let full = ValueSet::one(part(&rt, FRAME, 1, i32::MIN, i32::MAX));
    assert!(rt; full.equals(&ValueSet::top()));
    assert!(rt; three.only_number().is_some() && both(&rt, alloc, 3, 0)?.only_number().is_none());
    Ok(())
}

#[test]
fn crowds(rt: HostRuntime) -> Result<(), Fail> {
    let alloc = rt.alloc();
    let mut v = one(&rt, RegionId::Global, 0);
    for site in 1..8u32 {
        v = v.join(alloc, &one(&rt, RegionId::Heap(site), 0))?;
    }
    assert_eq!(rt; v.parts().map(|ps| ps.len()), Some(8));
    let more = v.join(alloc, &one(&rt, FRAME, 0))?;
    assert!(rt; more.equals(&ValueSet::top()) && !v.equals(&more) && v.clone()?.equals(&v));
    Ok(())
}

#[test]
fn ages(rt: HostRuntime) -> Result<(), Fail> {
    let alloc = rt.alloc();
    let frame = one(&rt, FRAME, 4);
    let old = one(&rt, OLD, 8);
    let step = ValueSet::one(part(&rt, OLD, 4, 4, 8));
    assert!(rt;
        frame
            .join(alloc, &old)?
            .age(alloc, &FRAME, &OLD)?
            .equals(&step)
    );
    assert!(rt; old.age(alloc, &FRAME, &OLD)?.equals(&old));
    let kept = old.join(alloc, &one(&rt, FRAME, 8))?;
    assert!(rt; old.also(alloc, &OLD, &FRAME)?.equals(&kept));
    assert!(rt; frame.drop_region(alloc, &FRAME)?.equals(&ValueSet::top()));
    assert!(rt; frame.drop_region(alloc, &OLD)?.equals(&frame));
    assert!(rt;
        ValueSet::top()
            .age(alloc, &FRAME, &OLD)?
            .equals(&ValueSet::top())
    );
    assert!(rt;
        ValueSet::top()
            .also(alloc, &OLD, &FRAME)?
            .equals(&ValueSet::top())
    );
    Ok(())
}
