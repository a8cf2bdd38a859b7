//! Worked values at the edges of each rule.

use crate::{
    Operation, aligned_or, are_one_register, count_of, grown, is_zero, keeps_flags, known_quotient,
    sign_of, stepped, truth_of, widened,
};
use abs_alu::number;
use abs_semantics::Known;
use ia32_types::{Cond, Flag, FlagSet, Op, Operand, Reg, Width};
use image_map::RegionId;
use std::alloc::AllocError;
use std::process::Abort;
use std::test::Fail;
use strided::Si;
use vset::{AbsFlags, Part, ValueSet};

/// A stride and two ends.
type Numbers = (u32, i32, i32);

fn numbers(rt: &impl Abort, (stride, lo, hi): Numbers) -> ValueSet {
    ValueSet::numbers(Si::new(stride, lo, hi).expect(rt, "an interval"))
}

fn found(value: &ValueSet) -> Option<Numbers> {
    value
        .only_number()
        .map(|si| (si.stride(), si.lo(), si.hi()))
}

/// DF may be 0 and may be 1.
fn direction(zero: bool, one: bool) -> AbsFlags {
    AbsFlags {
        zero: FlagSet::only_if(zero, Flag::Df),
        one: FlagSet::only_if(one, Flag::Df),
    }
}

/// CF is clear, ZF may be either, SF is set and OF clear.
fn signed() -> AbsFlags {
    AbsFlags {
        zero: FlagSet::CF.with(FlagSet::ZF).with(FlagSet::OF),
        one: FlagSet::ZF.with(FlagSet::SF),
    }
}

#[test]
fn extensions(rt: HostRuntime) -> Result<(), Fail> {
    let from = |signed, from, to, v: Numbers| found(&widened(signed, from, to, numbers(&rt, v)));
    assert_eq!(rt;
        from(true, Width::B8, Width::D32, (0, 0x80, 0x80)),
        Some((0, -0x80, -0x80))
    );
    assert_eq!(rt;
        from(true, Width::B8, Width::W16, (0, 0x80, 0x80)),
        Some((0, 0xFF80, 0xFF80))
    );
    assert_eq!(rt;
        from(false, Width::B8, Width::W16, (0, 0x80, 0x80)),
        Some((0, 0x80, 0x80))
    );
    assert_eq!(rt;
        from(true, Width::W16, Width::D32, (1, 0, 0xFFFF)),
        Some((1, -0x8000, 0x7FFF))
    );
    assert_eq!(rt;
        from(false, Width::B8, Width::D32, (1, 3, 5)),
        Some((1, 3, 5))
    );
    assert_eq!(rt;
        from(false, Width::B8, Width::W16, (1, 3, 5)),
        Some((1, 0, 0xFFFF))
    );
    assert_eq!(rt; found(&sign_of(&numbers(&rt, (1, 0, 9)))), Some((0, 0, 0)));
    assert_eq!(rt;
        found(&sign_of(&numbers(&rt, (1, -9, -1)))),
        Some((0, -1, -1))
    );
    assert_eq!(rt; found(&sign_of(&ValueSet::top())), Some((1, -1, 0)));
    Ok(())
}

#[test]
fn conditions(rt: HostRuntime) -> Result<(), Fail> {
    let f = signed();
    let cases = [
        (2, Some((0, 0, 0))),
        (3, Some((0, 1, 1))),
        (6, Some((1, 0, 1))),
        (12, Some((0, 1, 1))),
        (14, Some((0, 1, 1))),
    ];
    for (code, wanted) in cases.iter() {
        assert_eq!(rt; found(&truth_of(Cond::new(*code), &f)), *wanted);
    }
    Ok(())
}

#[test]
fn aligned(rt: HostRuntime) -> Result<(), Fail> {
    let alloc = rt.alloc();
    let frame = |offset| {
        ValueSet::one(Part {
            region: RegionId::Frame(2),
            si: Si::one(offset),
        })
    };
    let aligns = [Known {
        region: RegionId::Frame(2),
        number: 12,
    }];
    let lowered = aligned_or(alloc, &aligns, &frame(-20), &number(-16), ValueSet::top())?;
    assert!(rt; lowered.equals(&frame(-28)));
    let exchanged = aligned_or(alloc, &aligns, &number(-16), &frame(-20), ValueSet::top())?;
    assert!(rt; exchanged.equals(&frame(-28)));
    let by_another = aligned_or(alloc, &aligns, &frame(-20), &number(-32), ValueSet::top())?;
    assert!(rt; by_another.parts().is_none());
    Ok(())
}

#[test]
fn counts(rt: HostRuntime) -> Result<(), Fail> {
    let up = direction(true, false);
    let cases = [
        ((0, 262_144, 262_144), true),
        ((0, 262_145, 262_145), false),
        ((1, -1, 4), false),
        ((1, 0, 4), true),
    ];
    for (count, wanted) in cases.iter() {
        assert_eq!(rt; count_of(&up, &numbers(&rt, *count), 4).is_some(), *wanted);
    }
    assert!(rt; count_of(&direction(true, true), &number(1), 4).is_none());
    Ok(())
}

#[test]
fn pointers(rt: HostRuntime) -> Result<(), Fail> {
    let alloc = rt.alloc();
    let at = number(100);
    assert_eq!(rt;
        found(&stepped(alloc, &direction(true, false), 4, &at)?),
        Some((0, 104, 104))
    );
    assert_eq!(rt;
        found(&stepped(alloc, &direction(false, true), 4, &at)?),
        Some((0, 96, 96))
    );
    assert_eq!(rt;
        found(&stepped(alloc, &direction(true, true), 4, &at)?),
        Some((8, 96, 104))
    );
    let count = Si::spaced(1, 0, 5);
    assert_eq!(rt; found(&grown(alloc, 2, &count, &at)?), Some((2, 100, 110)));
    Ok(())
}

#[test]
fn quotients(rt: HostRuntime) -> Result<(), Fail> {
    let by = number(3);
    assert_eq!(rt;
        known_quotient(Width::D32, false, &number(0), &number(10), &by),
        Some((3, 1))
    );
    assert_eq!(rt;
        known_quotient(Width::D32, false, &number(3), &number(10), &by),
        None
    );
    assert_eq!(rt;
        known_quotient(Width::W16, false, &number(0), &number(10), &by),
        None
    );
    assert_eq!(rt;
        known_quotient(Width::D32, false, &ValueSet::top(), &number(10), &by),
        None
    );
    Ok(())
}

#[test]
fn operations(rt: HostRuntime) -> Result<(), Fail> {
    let eax = Some(Operand::Reg(Reg::Eax));
    let ecx = Some(Operand::Reg(Reg::Ecx));
    let of = |op, width| Operation { op, width };
    assert!(rt; is_zero(&of(Op::Xor, Width::D32), &eax, &eax));
    assert!(rt; !is_zero(&of(Op::Xor, Width::W16), &eax, &eax));
    assert!(rt; !is_zero(&of(Op::Sub, Width::D32), &eax, &ecx));
    assert!(rt; !is_zero(&of(Op::Or, Width::D32), &eax, &eax));
    assert!(rt; !are_one_register(&None, &None));
    assert!(rt; keeps_flags(&of(Op::Rol, Width::D32), &number(32)));
    assert!(rt; !keeps_flags(&of(Op::Shl, Width::D32), &number(33)));
    assert!(rt; !keeps_flags(&of(Op::Add, Width::D32), &number(32)));
    Ok(())
}
