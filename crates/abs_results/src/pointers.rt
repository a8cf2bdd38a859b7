//! The stack pointer, and the pointers and counts of string instructions.

ghost use Rattle.std.specs.Prelude.{◌≡◌, ◌^◌, ◌≤◌, if◌then◌else◌, None, IfOk, IfSome};
ghost use Rattle.vset.specs.Values.{only_number};
ghost use Rattle.abs_steps.specs.Flags.{allows};
ghost use Rattle.abs_steps.specs.Rows.{pushed_at as pushed_at_spec, risen as risen_spec};
ghost use Rattle.abs_steps.specs.Strings.{stepped as stepped_spec, goes_up as goes_up_spec, if_counted as if_counted_spec, bytes_of as bytes_of_spec, grown as grown_spec};

use abs_alu::number;
use ia32_types::Flag;
use si_bits::mul;
use std::alloc::{AllocError, Global};
use strided::Si;
use vset::{AbsFlags, ValueSet};

/// Four bytes lower.
pub fn pushed_at(alloc: Global, sp: &ValueSet) -> Result<ValueSet, AllocError>
    ensures { IfOk result (λ v. v ≡ pushed_at_spec sp.now) }
{
    sp.sub(alloc, &number(4))
}

/// Four bytes higher.
pub fn risen(alloc: Global, sp: &ValueSet) -> Result<ValueSet, AllocError>
    ensures { IfOk result (λ v. v ≡ risen_spec sp.now) }
{
    sp.add(alloc, &number(4))
}

/// A pointer after one element of `size` bytes, downwards where DF is set.
pub fn stepped(alloc: Global, f: &AbsFlags, size: u8, at: &ValueSet) -> Result<ValueSet, AllocError>
    ensures { IfOk result (λ v. v ≡ stepped_spec (allows f.now) size at.now) }
{
    let by = number(i32::from(size));
    let may_be_set = f.one.has(Flag::Df);
    let may_be_clear = f.zero.has(Flag::Df);
    match (may_be_set, may_be_clear) {
        (true, false) => at.sub(alloc, &by),
        (false, true) => at.add(alloc, &by),
        _ => {
            let up = at.add(alloc, &by)?;
            let down = at.sub(alloc, &by)?;
            up.join(alloc, &down)
        }
    }
}

/// Whether DF is sure to be clear.
fn goes_up(f: &AbsFlags) -> bool
    ensures { result ≡ goes_up_spec (allows f.now) }
{
    f.zero.has(Flag::Df) && !f.one.has(Flag::Df)
}

/// Numbers of elements of `size` bytes: at least 0, and of 2^20 bytes at most.
pub fn if_counted(size: u32, numbers: Option<Si>) -> Option<Si>
    requires { size ≤ 4 }
    ensures value { result ≡ if_counted_spec size numbers }
    ensures few { IfSome result (λ c. bytes_of_spec size c ≤ 2 ^ 20) }
{
    let count = numbers?;
    if count.lo() < 0 {
        return None;
    }
    let bytes = u64::from(count.hi().unsigned_abs()) * u64::from(size);
    if bytes <= 1 << 20 { Some(count) } else { None }
}

/// How often a string instruction of elements of `size` bytes repeats, where DF is sure to be clear and the count is known.
pub fn count_of(f: &AbsFlags, count: &ValueSet, size: u32) -> Option<Si>
    requires { size ≤ 4 }
    ensures value { result ≡ (if goes_up_spec (allows f.now) then if_counted_spec size (only_number count.now) else None) }
    ensures few { IfSome result (λ c. bytes_of_spec size c ≤ 2 ^ 20) }
{
    if goes_up(f) {
        if_counted(size, count.only_number())
    } else {
        None
    }
}

/// The bytes of so many elements, at most.
pub fn bytes_of(size: u32, count: &Si) -> u32
    requires { bytes_of_spec size count.now ≤ 2 ^ 20 }
    ensures { result ≡ bytes_of_spec size count.now }
{
    count.hi().unsigned_abs() * size
}

/// A pointer after so many elements.
pub fn grown(alloc: Global, size: u8, count: &Si, at: &ValueSet) -> Result<ValueSet, AllocError>
    ensures { IfOk result (λ v. v ≡ grown_spec size count.now at.now) }
{
    let by = mul(count, &Si::one(i32::from(size)));
    at.add(alloc, &ValueSet::numbers(by))
}
