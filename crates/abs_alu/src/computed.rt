//! What the processor gives of known operands.

ghost use Rattle.std.specs.Prelude.{◌≡◌, ◌<◌, ◌^◌};
ghost use Rattle.ia32_alu.specs.Widths.{IsWidth};
ghost use Rattle.ia32_semantics.specs.Product.{product_low, product_flags};
ghost use Rattle.abs_alu.specs.Computed.{computed as computed_spec, computed_flags};
ghost use Rattle.abs_alu.specs.Operands.{AreWords};

use crate::operands::Arguments;
use ia32_alu::{alu, mul, shift};
use ia32_semantics::FlagsOut;
use ia32_types::Op;

/// The low part of a product, with the product's flags.
fn product<const W: u32>(signed: bool, a: u32, b: u32) -> (u32, FlagsOut)
    requires width { IsWidth W }
    requires first { a < 2 ^ W }
    requires second { b < 2 ^ W }
    ensures value { result.0 ≡ product_low W signed a b }
    ensures flags { result.1 ≡ product_flags W signed a b }
{
    let (low, _, flags) = mul::<W>(signed, a, b);
    (low, flags)
}

/// What the processor gives, and what that does to the flags.
#[tactic(auto, unfolding(crate::specs::Computed::computed, crate::specs::Computed::computed_flags))]
pub(crate) fn computed<const W: u32>(op: &Op, x: Arguments) -> (u32, FlagsOut)
    requires width { IsWidth W }
    requires words { AreWords W x }
    ensures value { result.0 ≡ computed_spec W op.now x.first x.second x.carry }
    ensures flags { result.1 ≡ computed_flags W op.now x.first x.second x.carry }
{
    match op {
        Op::Shl | Op::Shr | Op::Sar | Op::Rol | Op::Ror => shift::<W>(op, x.first, x.second),
        Op::Mul => product::<W>(false, x.first, x.second),
        Op::Imul => product::<W>(true, x.first, x.second),
        _ => alu::<W>(op, x.first, x.second, x.carry),
    }
}
