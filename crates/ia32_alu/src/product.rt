//! Products.

ghost use Rattle.std.specs.Prelude.{◌≡◌, ◌<◌, ◌≤◌, ◌^◌, ◌-◌, ◌*◌, ◌%◌};
ghost use Rattle.ia32_alu.specs.Widths.{IsWidth};
ghost use Rattle.ia32_semantics.specs.Product.{extended as extended_spec, product as product_spec, product_low, product_high, product_spills as product_spills_spec, product_flags as product_flags_spec};

use crate::bits::{limit, sign};
use ia32_semantics::{FlagOut, FlagsOut};

/// The ones of twice the width that stand above the width.
fn high_ones<const W: u32>() -> u64
    requires { IsWidth W }
    ensures value { result ≡ 2 ^ (2 * W) - 2 ^ W }
{
    match W {
        8 => 0xFF00,
        16 => 0xFFFF_0000,
        _ => 0xFFFF_FFFF_0000_0000,
    }
}

/// A number at twice the width, with zeros or with copies of its sign above it.
#[tactic(auto, unfolding(ia32_semantics::specs::Product::extended))]
fn extended<const W: u32>(signed: bool, value: u32) -> u64
    requires width { IsWidth W }
    requires in_width { value < 2 ^ W }
    ensures value { result ≡ extended_spec signed W (2 * W) value }
    ensures below { result < 2 ^ (2 * W) }
{
    if signed && sign::<W>(value) {
        high_ones::<W>() + u64::from(value)
    } else {
        u64::from(value)
    }
}

/// A number modulo 2 to twice the width.
fn at_double<const W: u32>(value: u64) -> u64
    requires { IsWidth W }
    ensures { result ≡ value % 2 ^ (2 * W) }
{
    match W {
        8 => value % 0x1_0000,
        16 => value % 0x1_0000_0000,
        _ => value,
    }
}

/// The product at twice the width.
#[tactic(auto, using(crate::proofs::WidthLemmas::double_of_wrapped), unfolding(ia32_semantics::specs::Product::product))]
fn product<const W: u32>(signed: bool, a: u32, b: u32) -> u64
    requires width { IsWidth W }
    requires first { a < 2 ^ W }
    requires second { b < 2 ^ W }
    ensures value { result ≡ product_spec W signed a b }
    ensures below { result < 2 ^ (2 * W) }
{
    at_double::<W>(extended::<W>(signed, a).wrapping_mul(extended::<W>(signed, b)))
}

/// Whether the product isn't its low part at twice the width.
#[tactic(auto, unfolding(ia32_semantics::specs::Product::product_spills, ia32_semantics::specs::Product::product_low))]
fn product_spills<const W: u32>(signed: bool, a: u32, b: u32) -> bool
    requires width { IsWidth W }
    requires first { a < 2 ^ W }
    requires second { b < 2 ^ W }
    ensures { result ≡ product_spills_spec W signed a b }
{
    let whole = product::<W>(signed, a, b);
    let low = (whole % limit::<W>()) as u32;
    !(whole == extended::<W>(signed, low))
}

/// The flags of a product.
#[tactic(auto, unfolding(ia32_semantics::specs::Product::product_flags))]
fn product_flags<const W: u32>(signed: bool, a: u32, b: u32) -> FlagsOut
    requires width { IsWidth W }
    requires first { a < 2 ^ W }
    requires second { b < 2 ^ W }
    ensures { result ≡ product_flags_spec W signed a b }
{
    let spills = product_spills::<W>(signed, a, b);
    FlagsOut {
        cf: FlagOut::Set(spills),
        pf: FlagOut::Undefined,
        zf: FlagOut::Undefined,
        sf: FlagOut::Undefined,
        of: FlagOut::Set(spills),
    }
}

/// The low and the high part of a product, and what it does to the flags.
#[tactic(auto, using(crate::proofs::WidthLemmas::high_part_below), unfolding(ia32_semantics::specs::Product::product_low, ia32_semantics::specs::Product::product_high))]
pub fn mul<const W: u32>(signed: bool, a: u32, b: u32) -> (u32, u32, FlagsOut)
    requires width { IsWidth W }
    requires first { a < 2 ^ W }
    requires second { b < 2 ^ W }
    ensures low { result.0 ≡ product_low W signed a b }
    ensures high { result.1 ≡ product_high W signed a b }
    ensures flags { result.2 ≡ product_flags_spec W signed a b }
{
    let whole = product::<W>(signed, a, b);
    let low = (whole % limit::<W>()) as u32;
    let high = (whole / limit::<W>()) as u32;
    (low, high, product_flags::<W>(signed, a, b))
}
