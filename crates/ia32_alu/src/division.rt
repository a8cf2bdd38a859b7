//! Quotients and remainders.

ghost use Rattle.std.specs.Prelude.{◌≡◌, ◌<◌, ◌≤◌, ◌^◌, ◌-◌, ◌*◌, ◌/◌, ◌%◌};
ghost use Rattle.ia32_alu.specs.Widths.{IsWidth};
ghost use Rattle.ia32_semantics.specs.Alu.{sign as sign_spec};
ghost use Rattle.ia32_semantics.specs.Division.{dividend as dividend_spec, unsigned_division as unsigned_spec, signed_as as signed_as_spec, magnitude as magnitude_spec, quotient_fits as quotient_fits_spec, division_of_sizes as of_sizes_spec, signed_division as signed_spec, division};

use crate::bits::{differ, half, limit, sign};

/// The number of twice the width whose halves these are.
#[tactic(auto, unfolding(ia32_semantics::specs::Division::dividend))]
fn dividend<const W: u32>(high: u32, low: u32) -> u64
    requires width { IsWidth W }
    requires high_part { high < 2 ^ W }
    requires low_part { low < 2 ^ W }
    ensures value { result ≡ dividend_spec W high low }
    ensures below { result < 2 ^ (2 * W) }
{
    match W {
        8 => u64::from(high) * 0x100 + u64::from(low),
        16 => u64::from(high) * 0x1_0000 + u64::from(low),
        _ => u64::from(high) * 0x1_0000_0000 + u64::from(low),
    }
}

#[tactic(auto, unfolding(ia32_semantics::specs::Division::unsigned_division))]
fn unsigned<const W: u32>(n: u64, by: u32) -> Option<(u32, u32)>
    requires width { IsWidth W }
    ensures { result ≡ unsigned_spec W n by }
{
    let by = u64::from(by);
    if by == 0 || limit::<W>() <= n / by {
        None
    } else {
        Some(((n / by) as u32, (n % by) as u32))
    }
}

/// The top bit of twice the width.
#[tactic(auto, unfolding(ia32_semantics::specs::Alu::sign))]
fn is_negative<const W: u32>(n: u64) -> bool
    requires { IsWidth W }
    ensures { result ≡ sign_spec (2 * W) n }
{
    match W {
        8 => 0x8000 <= n,
        16 => 0x8000_0000 <= n,
        _ => 0x8000_0000_0000_0000 <= n,
    }
}

/// The size of a signed number of twice the width.
#[tactic(auto, unfolding(ia32_semantics::specs::Alu::sign, ia32_semantics::specs::Division::magnitude))]
fn double_magnitude<const W: u32>(n: u64) -> u64
    requires width { IsWidth W }
    requires in_width { n < 2 ^ (2 * W) }
    ensures { result ≡ magnitude_spec (2 * W) n }
{
    if is_negative::<W>(n) {
        match W {
            8 => 0xFFFF - n + 1,
            16 => 0xFFFF_FFFF - n + 1,
            _ => 0xFFFF_FFFF_FFFF_FFFF - n + 1,
        }
    } else {
        n
    }
}

/// The size of a signed number.
#[tactic(auto, unfolding(ia32_semantics::specs::Alu::sign, ia32_semantics::specs::Division::magnitude))]
fn magnitude<const W: u32>(value: u32) -> u64
    requires width { IsWidth W }
    requires in_width { value < 2 ^ W }
    ensures value { result ≡ magnitude_spec W value }
    ensures below { result ≤ 2 ^ (W - 1) }
{
    if sign::<W>(value) {
        limit::<W>() - u64::from(value)
    } else {
        u64::from(value)
    }
}

/// Whether a quotient of this size fits.
#[tactic(auto, unfolding(ia32_semantics::specs::Division::quotient_fits))]
fn quotient_fits<const W: u32>(negative: bool, size: u64) -> bool
    requires { IsWidth W }
    ensures { result ≡ quotient_fits_spec W negative size }
{
    if negative {
        size <= half::<W>()
    } else {
        size < half::<W>()
    }
}

/// A number of this size, negative where that is told.
#[tactic(auto, unfolding(ia32_semantics::specs::Division::signed_as))]
fn signed_as<const W: u32>(negative: bool, size: u64) -> u32
    requires width { IsWidth W }
    requires in_width { size < 2 ^ W }
    ensures { result ≡ signed_as_spec W negative size }
{
    if negative {
        ((limit::<W>() - size) % limit::<W>()) as u32
    } else {
        size as u32
    }
}

/// The division of two sizes, where the dividend and the quotient are negative as told.
#[tactic(auto, unfolding(ia32_semantics::specs::Division::division_of_sizes, ia32_semantics::specs::Division::quotient_fits))]
fn division_of_sizes<const W: u32>(
    is_negative: bool,
    has_negative_quotient: bool,
    n: u64,
    by: u64,
) -> Option<(u32, u32)>
    requires width { IsWidth W }
    requires in_width { by ≤ 2 ^ (W - 1) }
    ensures { result ≡ of_sizes_spec W is_negative has_negative_quotient n by }
{
    if by == 0 {
        return None;
    }
    if quotient_fits::<W>(has_negative_quotient, n / by) {
        let quotient = signed_as::<W>(has_negative_quotient, n / by);
        let remainder = signed_as::<W>(is_negative, n % by);
        Some((quotient, remainder))
    } else {
        None
    }
}

#[tactic(auto, unfolding(ia32_semantics::specs::Division::signed_division))]
fn signed_division<const W: u32>(n: u64, by: u32) -> Option<(u32, u32)>
    requires width { IsWidth W }
    requires dividend { n < 2 ^ (2 * W) }
    requires divisor { by < 2 ^ W }
    ensures { result ≡ signed_spec W n by }
{
    let is_negative = is_negative::<W>(n);
    let has_negative_quotient = differ(is_negative, sign::<W>(by));
    division_of_sizes::<W>(
        is_negative,
        has_negative_quotient,
        double_magnitude::<W>(n),
        magnitude::<W>(by),
    )
}

/// Quotient and remainder of the number whose halves are `high` and `low` by a number of the width; none
/// exactly where the divisor is 0 or the quotient doesn't fit. A signed quotient is rounded toward 0.
#[tactic(auto, unfolding(ia32_semantics::specs::Division::division))]
pub fn divide<const W: u32>(signed: bool, high: u32, low: u32, by: u32) -> Option<(u32, u32)>
    requires width { IsWidth W }
    requires high_part { high < 2 ^ W }
    requires low_part { low < 2 ^ W }
    requires divisor { by < 2 ^ W }
    ensures { result ≡ division W signed high low by }
{
    let n = dividend::<W>(high, low);
    if signed {
        signed_division::<W>(n, by)
    } else {
        unsigned::<W>(n, by)
    }
}
