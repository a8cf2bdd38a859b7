//! Shifts and rotates.

ghost use Rattle.std.specs.Prelude.{◌≡◌, ◌<◌, ◌≤◌, ◌^◌, ◌%◌};
ghost use Rattle.ia32_alu.specs.Widths.{IsWidth};
ghost use Rattle.ia32_semantics.specs.Shift.{shifted_left as shifted_left_spec, shifted_right as shifted_right_spec, shifted_signed as shifted_signed_spec, rotated_left as rotated_left_spec, rotated_right as rotated_right_spec, low_bit as low_bit_spec, second_bit as second_bit_spec, set_by_one as set_by_one_spec, set_below as set_below_spec, left_flags as left_flags_spec, right_flags as right_flags_spec, signed_flags as signed_flags_spec, turn_flags as turn_flags_spec, rotated_left_flags as rotated_left_flags_spec, rotated_right_flags as rotated_right_flags_spec, shift_value, shift_flags, shift_by as shift_by_spec, shift_flags_by as shift_flags_by_spec};

use crate::bits::{complement, differ, kept_flags, limit, result_flags, scaled, sign};
use ia32_semantics::{FlagOut, FlagsOut};
use ia32_types::Op;

/// Moved up by `n`.
#[tactic(auto, unfolding(ia32_semantics::specs::Shift::shifted_left))]
fn shifted_left<const W: u32>(a: u32, n: u32) -> u32
    requires width { IsWidth W }
    requires count { n ≤ 32 }
    ensures value { result ≡ shifted_left_spec W a n }
    ensures below { result < 2 ^ W }
{
    (scaled(a, n) % limit::<W>()) as u32
}

/// Moved down by `n`.
#[tactic(auto, using(crate::proofs::WidthLemmas::halved_below), unfolding(ia32_semantics::specs::Shift::shifted_right))]
fn shifted_right(a: u32, n: u32) -> u32
    requires { n < 32 }
    ensures { result ≡ shifted_right_spec a n }
{
    a >> n
}

/// Moved down by `n`, with copies of the sign from above.
#[tactic(auto, unfolding(ia32_semantics::specs::Shift::shifted_right, ia32_semantics::specs::Shift::shifted_signed))]
fn shifted_signed<const W: u32>(a: u32, n: u32) -> u32
    requires width { IsWidth W }
    requires first { a < 2 ^ W }
    requires count { n < 32 }
    ensures { result ≡ shifted_signed_spec W a n }
{
    if sign::<W>(a) {
        let kept = shifted_right(complement::<W>(a), n);
        (limit::<W>() - 1 - u64::from(kept)) as u32
    } else {
        shifted_right(a, n)
    }
}

/// Turned up by `n` modulo the width.
#[tactic(auto, using(crate::proofs::WidthLemmas::turned_below), unfolding(ia32_semantics::specs::Shift::rotated_left))]
fn rotated_left<const W: u32>(a: u32, n: u32) -> u32
    requires width { IsWidth W }
    requires first { a < 2 ^ W }
    ensures { result ≡ rotated_left_spec W a n }
{
    let by = n % W;
    (scaled(a, by) % limit::<W>() + (u64::from(a) >> (W - by))) as u32
}

/// Turned down by `n` modulo the width.
#[tactic(auto, using(crate::proofs::WidthLemmas::turned_below), unfolding(ia32_semantics::specs::Shift::rotated_right))]
fn rotated_right<const W: u32>(a: u32, n: u32) -> u32
    requires width { IsWidth W }
    requires first { a < 2 ^ W }
    ensures { result ≡ rotated_right_spec W a n }
{
    let by = n % W;
    ((u64::from(a) >> by) + scaled(a, W - by) % limit::<W>()) as u32
}

/// The lowest bit.
#[tactic(auto, unfolding(ia32_semantics::specs::Shift::low_bit))]
fn low_bit(value: u32) -> bool
    ensures { result ≡ low_bit_spec value }
{
    value % 2 == 1
}

/// The bit below the top one of the width.
#[tactic(auto, unfolding(ia32_semantics::specs::Shift::second_bit))]
fn second_bit<const W: u32>(value: u32) -> bool
    requires { IsWidth W }
    ensures { result ≡ second_bit_spec W value }
{
    low_bit(value >> (W - 2))
}

/// A flag that only a count of 1 defines.
fn set_by_one(n: u32, value: bool) -> FlagOut
    ensures { result ≡ set_by_one_spec n value }
{
    if n == 1 {
        FlagOut::Set(value)
    } else {
        FlagOut::Undefined
    }
}

/// A carry that only a count below the width defines.
fn set_below<const W: u32>(n: u32, value: bool) -> FlagOut
    ensures { result ≡ set_below_spec W n value }
{
    if W <= n {
        FlagOut::Undefined
    } else {
        FlagOut::Set(value)
    }
}

/// The flags after `Shl`.
#[tactic(auto, unfolding(ia32_semantics::specs::Shift::left_flags))]
fn left_flags<const W: u32>(a: u32, n: u32) -> FlagsOut
    requires width { IsWidth W }
    requires some { 1 ≤ n }
    requires count { n < 32 }
    ensures { result ≡ left_flags_spec W a n }
{
    let value = shifted_left::<W>(a, n);
    let lost = sign::<W>(shifted_left::<W>(a, n - 1));
    let overflow = set_by_one(n, differ(sign::<W>(value), lost));
    result_flags::<W>(value, set_below::<W>(n, lost), overflow)
}

/// The flags after `Shr`.
#[tactic(auto, unfolding(ia32_semantics::specs::Shift::right_flags))]
fn right_flags<const W: u32>(a: u32, n: u32) -> FlagsOut
    requires width { IsWidth W }
    requires some { 1 ≤ n }
    requires count { n < 32 }
    ensures { result ≡ right_flags_spec W a n }
{
    let lost = low_bit(shifted_right(a, n - 1));
    let overflow = set_by_one(n, sign::<W>(a));
    result_flags::<W>(shifted_right(a, n), set_below::<W>(n, lost), overflow)
}

/// The flags after `Sar`.
#[tactic(auto, unfolding(ia32_semantics::specs::Shift::signed_flags))]
fn signed_flags<const W: u32>(a: u32, n: u32) -> FlagsOut
    requires width { IsWidth W }
    requires first { a < 2 ^ W }
    requires some { 1 ≤ n }
    requires count { n < 32 }
    ensures { result ≡ signed_flags_spec W a n }
{
    let lost = low_bit(shifted_signed::<W>(a, n - 1));
    result_flags::<W>(
        shifted_signed::<W>(a, n),
        FlagOut::Set(lost),
        set_by_one(n, false),
    )
}

/// The flags after a rotate, with this carry and this overflow.
#[tactic(auto, unfolding(ia32_semantics::specs::Alu::kept_flags))]
fn turn_flags(carry: bool, overflow: FlagOut) -> FlagsOut
    ensures { result ≡ turn_flags_spec carry overflow }
{
    FlagsOut {
        cf: FlagOut::Set(carry),
        pf: FlagOut::Kept,
        zf: FlagOut::Kept,
        sf: FlagOut::Kept,
        of: overflow,
    }
}

/// The flags after `Rol` with this result.
#[tactic(auto, unfolding(ia32_semantics::specs::Shift::rotated_left_flags))]
fn rotated_left_flags<const W: u32>(a: u32, n: u32) -> FlagsOut
    requires width { IsWidth W }
    requires first { a < 2 ^ W }
    ensures { result ≡ rotated_left_flags_spec W a n }
{
    let value = rotated_left::<W>(a, n);
    let carry = low_bit(value);
    turn_flags(carry, set_by_one(n, differ(sign::<W>(value), carry)))
}

/// The flags after `Ror` with this result.
#[tactic(auto, unfolding(ia32_semantics::specs::Shift::rotated_right_flags))]
fn rotated_right_flags<const W: u32>(a: u32, n: u32) -> FlagsOut
    requires width { IsWidth W }
    requires first { a < 2 ^ W }
    ensures { result ≡ rotated_right_flags_spec W a n }
{
    let value = rotated_right::<W>(a, n);
    let carry = sign::<W>(value);
    turn_flags(carry, set_by_one(n, differ(carry, second_bit::<W>(value))))
}

/// What a shift or a rotate gives by a count below 32.
#[tactic(auto, unfolding(ia32_semantics::specs::Shift::shift_by))]
fn shift_by<const W: u32>(op: &Op, a: u32, n: u32) -> u32
    requires width { IsWidth W }
    requires first { a < 2 ^ W }
    requires count { n < 32 }
    ensures { result ≡ shift_by_spec W op.now a n }
{
    match op {
        Op::Shl => shifted_left::<W>(a, n),
        Op::Shr => shifted_right(a, n),
        Op::Sar => shifted_signed::<W>(a, n),
        Op::Rol => rotated_left::<W>(a, n),
        Op::Ror => rotated_right::<W>(a, n),
        _ => 0,
    }
}

/// What it does to the flags by a count of 1 to 31.
#[tactic(auto, unfolding(ia32_semantics::specs::Shift::shift_flags_by))]
fn shift_flags_by<const W: u32>(op: &Op, a: u32, n: u32) -> FlagsOut
    requires width { IsWidth W }
    requires first { a < 2 ^ W }
    requires some { 1 ≤ n }
    requires count { n < 32 }
    ensures { result ≡ shift_flags_by_spec W op.now a n }
{
    match op {
        Op::Shl => left_flags::<W>(a, n),
        Op::Shr => right_flags::<W>(a, n),
        Op::Sar => signed_flags::<W>(a, n),
        Op::Rol => rotated_left_flags::<W>(a, n),
        Op::Ror => rotated_right_flags::<W>(a, n),
        _ => kept_flags(),
    }
}

/// What a shift or a rotate gives at a width, and what it does to the flags: `Shl`, `Shr`, `Sar`, `Rol` and
/// `Ror`. The count is taken modulo 32, and where that is 0 no flag changes. Any other operation gives 0 and
/// keeps the flags.
#[tactic(auto, unfolding(ia32_semantics::specs::Shift::shift_value, ia32_semantics::specs::Shift::shift_flags))]
pub fn shift<const W: u32>(op: &Op, a: u32, count: u32) -> (u32, FlagsOut)
    requires width { IsWidth W }
    requires first { a < 2 ^ W }
    ensures value { result.0 ≡ shift_value W op.now a count }
    ensures flags { result.1 ≡ shift_flags W op.now a count }
{
    let n = count % 32;
    let value = shift_by::<W>(op, a, n);
    if n == 0 {
        (value, kept_flags())
    } else {
        (value, shift_flags_by::<W>(op, a, n))
    }
}
