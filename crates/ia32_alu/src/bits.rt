//! Bounds of a width, and the bits of a result that make flags.

ghost use Rattle.std.specs.Prelude.{◌≡◌, ◌≤◌, ◌<◌, ◌^◌, ◌*◌, ◌-◌};
ghost use Rattle.ia32_alu.specs.Widths.{IsWidth};
ghost use Rattle.ia32_semantics.specs.Alu.{sign as sign_spec, has_even_parity as has_even_parity_spec, carry_value as carry_value_spec, differ as differ_spec, result_flags as result_flags_spec, kept_flags as kept_flags_spec};

use ia32_semantics::{FlagOut, FlagsOut};

/// 2 to the width.
pub fn limit<const W: u32>() -> u64
    requires { IsWidth W }
    ensures value { result ≡ 2 ^ W }
    ensures low { 256 ≤ result }
    ensures high { result ≤ 2 ^ 32 }
{
    match W {
        8 => 1 << 8,
        16 => 1 << 16,
        _ => 1 << 32,
    }
}

/// 2 to the width, less one: the place of the sign.
pub fn half<const W: u32>() -> u64
    requires { IsWidth W }
    ensures value { result ≡ 2 ^ (W - 1) }
    ensures low { 128 ≤ result }
    ensures high { result ≤ 2 ^ 31 }
{
    match W {
        8 => 1 << 7,
        16 => 1 << 15,
        _ => 1 << 31,
    }
}

/// The number moved up by up to 32 bits.
#[tactic(auto, using(crate::proofs::WidthLemmas::scaled_fits))]
pub fn scaled(a: u32, n: u32) -> u64
    requires { n ≤ 32 }
    ensures { result ≡ a * 2 ^ n }
{
    u64::from(a) << n
}

/// The top bit of the width.
#[tactic(auto, unfolding(ia32_semantics::specs::Alu::sign))]
pub fn sign<const W: u32>(value: u32) -> bool
    requires { IsWidth W }
    ensures { result ≡ sign_spec W value }
{
    half::<W>() <= u64::from(value)
}

/// Whether the low 8 bits have an even number of ones.
#[tactic(auto, unfolding(ia32_semantics::specs::Alu::has_even_parity))]
fn has_even_parity(value: u32) -> bool
    ensures { result ≡ has_even_parity_spec value }
{
    (value % 256).count_ones() % 2 == 0
}

/// 1 where a carry is set.
pub fn carry_value(carry: bool) -> u64
    ensures value { result ≡ carry_value_spec carry }
    ensures few { result ≤ 1 }
{
    if carry { 1 } else { 0 }
}

/// Whether two truth values aren't the same.
pub fn differ(a: bool, b: bool) -> bool
    ensures { result ≡ differ_spec a b }
{
    if a { !b } else { b }
}

/// The flags of a result, with this carry and this overflow.
#[tactic(auto, unfolding(ia32_semantics::specs::Alu::result_flags))]
pub fn result_flags<const W: u32>(value: u32, carry: FlagOut, overflow: FlagOut) -> FlagsOut
    requires { IsWidth W }
    ensures { result ≡ result_flags_spec W value carry overflow }
{
    FlagsOut {
        cf: carry,
        pf: FlagOut::Set(has_even_parity(value)),
        zf: FlagOut::Set(value == 0),
        sf: FlagOut::Set(sign::<W>(value)),
        of: overflow,
    }
}

/// All flags kept.
#[tactic(auto, unfolding(ia32_semantics::specs::Alu::kept_flags))]
pub fn kept_flags() -> FlagsOut
    ensures { result ≡ kept_flags_spec }
{
    FlagsOut {
        cf: FlagOut::Kept,
        pf: FlagOut::Kept,
        zf: FlagOut::Kept,
        sf: FlagOut::Kept,
        of: FlagOut::Kept,
    }
}

/// All bits of the width turned.
pub fn complement<const W: u32>(value: u32) -> u32
    requires width { IsWidth W }
    requires in_width { value < 2 ^ W }
    ensures value { result ≡ 2 ^ W - 1 - value }
{
    (limit::<W>() - 1 - u64::from(value)) as u32
}
