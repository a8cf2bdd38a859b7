//! Parts of a register: what an operand of a width reads of it, and what stays when one is written.

ghost use Rattle.std.specs.Prelude.{◌≡◌, ◌<◌, ◌^◌};
ghost use Rattle.ia32_semantics.specs.Effects.{High, with_part as with_part_spec};
ghost use Rattle.ia32_semantics.specs.Operands.{bits, part_of, low_part as low_part_spec};

use ia32_types::Width;

/// The low part of a number, as wide as told.
pub fn low_part(width: Width, value: u32) -> u32
    ensures value { result ≡ low_part_spec width value }
    ensures below { result < 2 ^ bits width }
{
    match width {
        Width::B8 => value % 0x100,
        Width::W16 => value % 0x1_0000,
        Width::D32 => value,
    }
}

/// A register's value, of which the part that an operand of a width is takes another: the low 8 bits, the low 16, or all.
#[tactic(auto, unfolding(ia32_semantics::specs::Effects::with_part))]
pub fn with_part(width: Width, old: u32, value: u32) -> u32
    ensures { result ≡ with_part_spec (part_of width) old value }
{
    match width {
        Width::B8 => old / 0x100 * 0x100 + value % 0x100,
        Width::W16 => old / 0x1_0000 * 0x1_0000 + value % 0x1_0000,
        Width::D32 => value,
    }
}

/// A register's value of which the second byte, bits 8 to 15, is another.
#[tactic(auto, unfolding(ia32_semantics::specs::Effects::with_part))]
pub fn with_second_byte(old: u32, value: u32) -> u32
    ensures { result ≡ with_part_spec High old value }
{
    old / 0x1_0000 * 0x1_0000 + value % 0x100 * 0x100 + old % 0x100
}
