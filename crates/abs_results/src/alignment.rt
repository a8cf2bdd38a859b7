//! An offset in an activation whose base is known modulo 16, lowered to a multiple of a power of 2.

ghost use Rattle.std.specs.Prelude.{◌≡◌, ◌+◌, ◌<◌, ◌≤◌, pos, ◌+ℤ◌, IfOk, IfSome};
ghost use Rattle.ia32_types.specs.declared.Op.TheVariants.{And};
ghost use Rattle.ia32_types.specs.declared.Width.TheVariants.{D32};
ghost use Rattle.vset.specs.Values.{only_number as only_number_spec};
ghost use Rattle.abs_steps.specs.Calls.{remainder as remainder_spec};
ghost use Rattle.abs_steps.specs.Results.{power_of as power_of_spec, only_of, align_of as align_of_spec, lowered as lowered_spec, lowered_by as lowered_by_spec, first_of, aligned_or as aligned_or_spec};

use abs_alu::number;
use abs_semantics::Known;
use cell_map::known_number;
use image_map::RegionId;
use std::alloc::{AllocError, Global};
use vset::{Part, ValueSet};

/// 2^t of -2^t, where t is at most 4.
fn power_of(mask: Option<i32>) -> Option<u32>
    ensures { result ≡ power_of_spec mask }
{
    match mask? {
        -1 => Some(1),
        -2 => Some(2),
        -4 => Some(4),
        -8 => Some(8),
        -16 => Some(16),
        _ => None,
    }
}

/// The one number.
fn only_number(v: &ValueSet) -> Option<i32>
    ensures { result ≡ only_of (only_number_spec v.now) }
{
    v.only_number()?.only()
}

/// What the base of the newest activation leaves modulo 16.
fn align_of(aligns: &[Known], region: RegionId) -> Option<u32>
    ensures { result ≡ align_of_spec aligns.now region }
{
    match region {
        RegionId::Frame(_) => known_number(aligns, &region),
        _ => None,
    }
}

/// The remainder of a sum by a power of 2 up to 16.
fn remainder(base: u32, offset: i32, m: u32) -> i32
    requires some { 0 < m }
    requires small { m ≤ 16 }
    ensures { result ≡ pos (remainder_spec (pos base +ℤ offset) m) }
{
    (i64::from(base) + i64::from(offset)).rem_euclid(i64::from(m)) as i32
}

/// A value lowered by the remainder of its one offset and the base.
fn lowered(
    alloc: Global,
    base: Option<u32>,
    offset: Option<i32>,
    m: Option<u32>,
    v: &ValueSet,
) -> Result<Option<ValueSet>, AllocError>
    requires { IfSome m (λ n. (0 < n) × (n ≤ 16)) }
    ensures { IfOk result (λ r. r ≡ lowered_spec base offset m v.now) }
{
    match (base, offset, m) {
        (Some(base), Some(offset), Some(m)) => {
            let by = number(remainder(base, offset, m));
            Ok(Some(v.sub(alloc, &by)?))
        }
        _ => Ok(None),
    }
}

/// One offset in a newest activation under a mask.
fn lowered_by(
    alloc: Global,
    aligns: &[Known],
    v: &ValueSet,
    mask: &ValueSet,
) -> Result<Option<ValueSet>, AllocError>
    ensures { IfOk result (λ r. r ≡ lowered_by_spec aligns.now v.now mask.now) }
{
    match v.parts() {
        Some([x]) => lowered(
            alloc,
            align_of(aligns, x.region),
            x.si.only(),
            power_of(only_number(mask)),
            v,
        ),
        _ => Ok(None),
    }
}

/// What `and` gives, where its own rule gives `other`: of an offset in an activation and -2^t, in either order, it lowers the offset
/// where the base is known modulo 16.
#[tactic(auto, unfolding(abs_steps::specs::Results::aligned_or))]
pub fn aligned_or(
    alloc: Global,
    aligns: &[Known],
    x: &ValueSet,
    y: &ValueSet,
    other: ValueSet,
) -> Result<ValueSet, AllocError>
    ensures { IfOk result (λ v. v ≡ aligned_or_spec aligns.now And D32 x.now y.now other) }
{
    if let Some(v) = lowered_by(alloc, aligns, x, y)? {
        return Ok(v);
    }
    match lowered_by(alloc, aligns, y, x)? {
        Some(v) => Ok(v),
        None => Ok(other),
    }
}
