//! Registers of which a part takes a value.

ghost use Rattle.std.specs.Prelude.{◌≡◌, ◌<◌, ◌^◌, IfSome};
ghost use Rattle.ia32_semantics.specs.Effects.{Word, Low, High};
ghost use Rattle.ia32_semantics.specs.Operands.{part_of};
ghost use Rattle.abs_semantics.specs.Operands.{known_with_part, is_up_to as is_up_to_spec, if_alone as if_alone_spec, with_part_value};

use abs_alu::known;
use abs_results::word_number;
use ia32_alu::{with_part as with_low_part, with_second_byte as with_high_byte};
use ia32_types::Width;
use strided::Si;
use vset::ValueSet;

/// Whether there are numbers alone, from 0 up to one.
fn is_up_to(most: u16, numbers: Option<Si>) -> bool
    ensures { result ≡ is_up_to_spec most numbers }
{
    match numbers {
        None => false,
        Some(x) => 0 <= x.lo() && x.hi() <= i32::from(most),
    }
}

/// The part, where nothing stands above it.
fn if_alone(most: u16, old: &ValueSet, new: ValueSet) -> ValueSet
    ensures { result ≡ if_alone_spec most old.now new }
{
    if is_up_to(most, old.only_number()) {
        new
    } else {
        ValueSet::top()
    }
}

#[tactic(auto, unfolding(abs_semantics::specs::Operands::with_part_value))]
fn with_word(old: &ValueSet, new: ValueSet) -> ValueSet
    ensures { result ≡ with_part_value Word old.now new }
{
    match (known::<32>(old), known::<16>(&new)) {
        (Some(whole), Some(word)) => word_number(with_low_part(Width::W16, whole, word)),
        _ => if_alone(0xFFFF, old, new),
    }
}

#[tactic(auto, unfolding(abs_semantics::specs::Operands::with_part_value))]
fn with_low(old: &ValueSet, new: ValueSet) -> ValueSet
    ensures { result ≡ with_part_value Low old.now new }
{
    match (known::<32>(old), known::<8>(&new)) {
        (Some(whole), Some(byte)) => word_number(with_low_part(Width::B8, whole, byte)),
        _ => if_alone(0xFF, old, new),
    }
}

/// A register that held a value, of which the part that an operand of a width is takes another.
#[tactic(auto, unfolding(abs_semantics::specs::Operands::with_part_value))]
pub fn with_part(width: Width, old: &ValueSet, new: ValueSet) -> ValueSet
    ensures { result ≡ with_part_value (part_of width) old.now new }
{
    match width {
        Width::B8 => with_low(old, new),
        Width::W16 => with_word(old, new),
        Width::D32 => new,
    }
}

/// A register that held a value, of which the second byte takes another.
#[tactic(auto, unfolding(abs_semantics::specs::Operands::with_part_value))]
pub fn with_second_byte(old: &ValueSet, new: &ValueSet) -> ValueSet
    ensures { result ≡ with_part_value High old.now new.now }
{
    match (known::<32>(old), known::<8>(new)) {
        (Some(whole), Some(byte)) => word_number(with_high_byte(whole, byte)),
        _ => ValueSet::top(),
    }
}
