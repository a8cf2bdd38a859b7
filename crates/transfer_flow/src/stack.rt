//! Where the stack pointer stands.

ghost use Rattle.std.specs.Prelude.{◌≡◌, ◌==◌, ◌&&◌, ◌+◌, ◌+ℤ◌, pos, int_lt};
ghost use Rattle.std.specs.Ordering.{int_eq};
ghost use Rattle.abs_semantics.specs.declared.parts.Link.{Link};
ghost use Rattle.abs_steps.specs.Successors.{offset_in as offset_in_spec, frame_offset as frame_offset_spec, stack_offset as stack_offset_spec, is_zero_offset as is_zero_offset_spec, is_at_slot as is_at_slot_spec, takes_too_much as takes_too_much_spec, extra_of as extra_of_spec};
ghost use Rattle.abs_state.specs.Views.{seen};

use abs_semantics::Link;
use abs_state::AbsState;
use ia32_types::{Operand, Reg};
use image_map::RegionId;
use vset::{Part, ValueSet};

fn is_same(a: i32, b: i32) -> bool
    ensures { result ≡ int_eq a b }
{
    a == b
}

fn offset_in(procedure: u32, part: &Part) -> Option<i32>
    ensures { result ≡ offset_in_spec procedure part.now }
{
    if part.region == RegionId::Frame(procedure) {
        part.si.only()
    } else {
        None
    }
}

/// The one offset in the newest activation of a procedure, where a value is that alone.
pub(crate) fn frame_offset(procedure: u32, value: &ValueSet) -> Option<i32>
    ensures { result ≡ frame_offset_spec procedure value.now }
{
    match value.parts() {
        Some([part]) => offset_in(procedure, part),
        _ => None,
    }
}

/// The stack pointer at a node of a procedure.
pub(crate) fn stack_offset(procedure: u32, a: &AbsState) -> Option<i32>
    ensures { result ≡ stack_offset_spec procedure (seen a.now) }
{
    frame_offset(procedure, a.registers.value(Reg::Esp))
}

/// Whether the stack pointer is that with which the activation began.
pub(crate) fn is_at_slot(procedure: u32, a: &AbsState) -> bool
    ensures { result ≡ is_at_slot_spec procedure (seen a.now) }
{
    match stack_offset(procedure, a) {
        None => false,
        Some(offset) => is_same(offset, 0),
    }
}

/// The bytes that a ret takes beside its return word.
pub(crate) fn extra_of(operand: &Option<Operand>) -> u32
    ensures { result ≡ extra_of_spec operand.now }
{
    match operand {
        Some(Operand::Imm(n)) => *n,
        _ => 0,
    }
}

/// The last offset of a return slot's base, and what is taken from there.
fn end_after(high: i32, extra: u32) -> i64
    ensures { result ≡ high +ℤ pos (4 + extra) }
{
    i64::from(high) + (4 + i64::from(extra))
}

fn is_positive(a: i64) -> bool
    ensures { result ≡ int_lt (pos 0) a }
{
    0 < a
}

fn link_takes_too_much(procedure: u32, extra: u32, link: &Link) -> bool
    ensures { result ≡ (link.now.child == procedure && int_lt (pos 0) (link.now.off.hi +ℤ pos (4 + extra))) }
{
    link.child == procedure && is_positive(end_after(link.off.hi(), extra))
}

/// Whether a return takes bytes of the caller's caller, by some link, old ones too.
pub(crate) fn takes_too_much(procedure: u32, extra: u32, a: &AbsState) -> bool
    ensures { result ≡ takes_too_much_spec procedure extra (seen a.now) }
{
    a.links
        .as_slice()
        .iter()
        .any(|link| link_takes_too_much(procedure, extra, link))
}
