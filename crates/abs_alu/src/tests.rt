//! Worked values: each operation on numbers, the edges of its rule, a frame and every value.

ghost use Rattle.ia32_alu.specs.Widths.{IsWidth};

use crate::abs;
use ia32_types::{Flag, FlagSet, Op};
use image_map::RegionId;
use std::alloc::{AllocError, Global};
use std::process::Abort;
use std::test::Fail;
use strided::Si;
use vset::{AbsFlags, Part, ValueSet};

/// A stride and two ends.
type Numbers = (u32, i32, i32);

/// All flags are 0.
fn clear() -> AbsFlags {
    AbsFlags {
        zero: FlagSet::all(),
        one: FlagSet::none(),
    }
}

/// Each flag may be either.
fn any() -> AbsFlags {
    AbsFlags {
        zero: FlagSet::all(),
        one: FlagSet::all(),
    }
}

/// The flags of a set, CF at 1, PF at 2, ZF at 4, SF at 8, OF at 16 and DF at 32.
fn mask(set: FlagSet) -> u8 {
    u8::from(set.has(Flag::Cf))
        | u8::from(set.has(Flag::Pf)) << 1
        | u8::from(set.has(Flag::Zf)) << 2
        | u8::from(set.has(Flag::Sf)) << 3
        | u8::from(set.has(Flag::Of)) << 4
        | u8::from(set.has(Flag::Df)) << 5
}

fn numbers(rt: &impl Abort, (stride, lo, hi): Numbers) -> ValueSet {
    ValueSet::numbers(Si::new(stride, lo, hi).expect(rt, "an interval"))
}

/// What an operation gives of numbers, by its stride and ends, and which flags may then be 0 and which 1, where all were 0 before.
fn outcome<const W: u32>(
    rt: &impl Abort,
    alloc: Global,
    op: Op,
    a: Numbers,
    b: Numbers,
) -> Result<(Option<Numbers>, [u8; 2]), AllocError>
    requires { IsWidth W }
{
    let (value, flags) = abs::<W>(alloc, &op, &numbers(rt, a), &numbers(rt, b), &clear())?;
    let found = value
        .only_number()
        .map(|si| (si.stride(), si.lo(), si.hi()));
    Ok((found, [mask(flags.zero), mask(flags.one)]))
}

/// The value that an operation on 32 bits gives, where each flag may be either before.
fn wide(alloc: Global, op: Op, a: &ValueSet, b: &ValueSet) -> Result<ValueSet, AllocError> {
    let (value, _) = abs::<32>(alloc, &op, a, b, &any())?;
    Ok(value)
}

#[test]
fn words(rt: HostRuntime) -> Result<(), Fail> {
    let alloc = rt.alloc();
    let cases = [
        (Op::Add, Some((4, 11, 19))),
        (Op::Sub, Some((4, 5, 13))),
        (Op::Cmp, Some((4, 5, 13))),
        (Op::And, Some((1, 0, 3))),
        (Op::Test, Some((1, 0, 3))),
        (Op::Or, Some((1, 0, 31))),
        (Op::Xor, Some((1, 0, 31))),
        (Op::Inc, Some((4, 9, 17))),
        (Op::Dec, Some((4, 7, 15))),
        (Op::Not, Some((4, -17, -9))),
        (Op::Neg, Some((4, -16, -8))),
        (Op::Mul, Some((12, 24, 48))),
        (Op::Imul, Some((12, 24, 48))),
        (Op::Shl, Some((32, 64, 128))),
        (Op::Shr, Some((1, 1, 2))),
        (Op::Sar, Some((1, 1, 2))),
        (Op::Rol, None),
        (Op::Ror, None),
    ];
    for (op, wanted) in cases.iter() {
        let (found, _) = outcome::<32>(&rt, alloc, *op, (4, 8, 16), (0, 3, 3))?;
        assert_eq!(rt; found, *wanted);
    }
    Ok(())
}

#[test]
fn edges(rt: HostRuntime) -> Result<(), Fail> {
    let alloc = rt.alloc();
    let bytes = (1, 0, 255);
    let two = (0, 2, 2);
    let rotated = outcome::<32>(&rt, alloc, Op::Rol, (0, 3, 3), (0, 1, 1))?;
    assert_eq!(rt; rotated, (Some((0, 6, 6)), [63, 0]));
    let known = outcome::<8>(&rt, alloc, Op::Add, (0, 255, 255), two)?;
    assert_eq!(rt; known, (Some((0, 1, 1)), [62, 1]));
    let unknown = outcome::<8>(&rt, alloc, Op::Add, bytes, two)?;
    assert_eq!(rt; unknown, (Some(bytes), [63, 31]));
    let masked = outcome::<32>(&rt, alloc, Op::And, (0, -4, -4), (0, 7, 7))?;
    assert_eq!(rt; masked, (Some((0, 4, 4)), [63, 0]));
    let still = outcome::<16>(&rt, alloc, Op::Shl, bytes, (0, 32, 32))?;
    assert_eq!(rt; still, (Some((1, 0, 0xFFFF)), [63, 0]));
    let moved = outcome::<32>(&rt, alloc, Op::Shl, bytes, bytes)?;
    assert_eq!(rt; moved, (None, [63, 31]));
    Ok(())
}

#[test]
fn regions(rt: HostRuntime) -> Result<(), Fail> {
    let alloc = rt.alloc();
    let region = RegionId::Frame(0x1000);
    let frame = ValueSet::one(Part {
        region,
        si: Si::one(-8),
    });
    let lower = ValueSet::one(Part {
        region,
        si: Si::one(-12),
    });
    let top = ValueSet::top();
    let four = numbers(&rt, (0, 4, 4));
    assert!(rt; wide(alloc, Op::Sub, &frame, &four)?.equals(&lower));
    assert!(rt; wide(alloc, Op::And, &frame, &four)?.equals(&top));
    assert!(rt; wide(alloc, Op::Add, &top, &four)?.equals(&top));
    let sum = numbers(&rt, (1, 8, 9));
    assert!(rt; wide(alloc, Op::Adc, &four, &four)?.equals(&sum));
    Ok(())
}
