//! The string instructions, once and repeated.

ghost use Rattle.std.specs.Prelude.{◌≡◌, ◌≤◌, ◌^◌, ◌∷◌, [], if◌then◌else◌, IfSome, OnOk};
ghost use Rattle.ia32_types.specs.Numbers.{size as size_spec};
ghost use Rattle.abs_semantics.specs.declared.parts.RangeValue.TheVariants as range;
ghost use Rattle.ia32_semantics.specs.Effects.{Whole};
ghost use Rattle.abs_steps.specs.Effects.{fills};
ghost use Rattle.abs_semantics.specs.Operands.{with_register};
ghost use Rattle.abs_steps.specs.Strings.{moved as moved_spec, stored as stored_spec, moved_once as moved_once_spec, stored_once as stored_once_spec, moved_often as moved_often_spec, stored_often as stored_often_spec, bytes_of as bytes_of_spec, if_alone as if_alone_spec, number_or_any as number_or_any_spec, count_of as count_of_spec};
ghost use Rattle.abs_state.specs.Views.{seen};
ghost use Rattle.transfer.specs.Steps.{after, view_in, with_pointers};

use crate::view::{stored_at, value_of};
use abs_alu::{known, number};
use abs_results::{bytes_of, count_of, grown, stepped};
use abs_semantics::RangeValue;
use abs_state::{AbsState, Memory};
use ia32_types::{Operand, Reg, Width};
use std::alloc::{AllocError, Global};
use strided::Si;
use vset::ValueSet;

/// ESI and EDI take values.
fn put_ends(from: ValueSet, to: ValueSet, a: &mut AbsState)
    ensures { seen a.new ≡ with_register (with_register (seen a.old) Whole 6 from) Whole 7 to }
{
    a.put_register(Reg::Esi, from);
    a.put_register(Reg::Edi, to);
}

/// One element goes from ESI to EDI.
fn moved_once(
    alloc: Global,
    memory: &Memory<'_>,
    width: Width,
    a: &mut AbsState,
) -> Result<(), AllocError>
    ensures { OnOk result (seen a.new ≡ after memory.now (moved_once_spec (view_in memory.now (seen a.old)) width) (seen a.old)) }
{
    let value = stored_at(alloc, memory, a, width, a.register(Reg::Esi))?;
    let from = stepped(alloc, &a.flags, width.bytes() as u8, a.register(Reg::Esi))?;
    let to = stepped(alloc, &a.flags, width.bytes() as u8, a.register(Reg::Edi))?;
    let at = a.register(Reg::Edi).clone()?;
    a.write(alloc, memory, &at, width.bytes(), &value)?;
    put_ends(from, to, a);
    Ok(())
}

/// One element of EAX goes to EDI.
fn stored_once(
    alloc: Global,
    memory: &Memory<'_>,
    width: Width,
    a: &mut AbsState,
) -> Result<(), AllocError>
    ensures { OnOk result (seen a.new ≡ after memory.now (stored_once_spec (view_in memory.now (seen a.old)) width) (seen a.old)) }
{
    let eax = Some(Operand::Reg(Reg::Eax));
    let value = value_of(alloc, memory, a, width, &eax)?;
    let to = stepped(alloc, &a.flags, width.bytes() as u8, a.register(Reg::Edi))?;
    let at = a.register(Reg::Edi).clone()?;
    a.write(alloc, memory, &at, width.bytes(), &value)?;
    a.put_register(Reg::Edi, to);
    Ok(())
}

/// Bytes at EDI are written.
fn fill(
    alloc: Global,
    memory: &Memory<'_>,
    len: Option<u32>,
    value: &RangeValue,
    a: &mut AbsState,
) -> Result<(), AllocError>
    requires { IfSome len (λ n. 1 ≤ n) }
    ensures { OnOk result (seen a.new ≡ after memory.now (fills ((seen a.old).registers 7) len value.now ∷ []) (seen a.old)) }
{
    let at = a.register(Reg::Edi).clone()?;
    a.write_range(alloc, memory, &at, len, value)
}

/// The pointers after a repeated instruction, of which none is left to do.
fn put_pointers(from: ValueSet, to: ValueSet, a: &mut AbsState)
    ensures { seen a.new ≡ with_pointers from to (seen a.old) }
{
    put_ends(from, to, a);
    a.put_register(Reg::Ecx, number(0));
}

/// The pointers are written with what they hold.
fn keep_pointers(a: &mut AbsState) -> Result<(), AllocError>
    ensures { OnOk result (seen a.new ≡ with_pointers ((seen a.old).registers 6) ((seen a.old).registers 7) (seen a.old)) }
{
    let from = a.register(Reg::Esi).clone()?;
    let to = a.register(Reg::Edi).clone()?;
    put_pointers(from, to, a);
    Ok(())
}

/// What a range holds, where it is known how many bytes are written.
fn if_alone(count: &Si, value: RangeValue) -> RangeValue
    ensures { result ≡ if_alone_spec count.now value }
{
    if count.stride() == 0 {
        value
    } else {
        RangeValue::Any
    }
}

/// How often an instruction repeats, where it is known.
fn repeats(a: &AbsState, width: Width) -> Option<Si>
    ensures value { result ≡ count_of_spec (seen a.now) (size_spec width) }
    ensures few { IfSome result (λ c. bytes_of_spec (size_spec width) c ≤ 2 ^ 20) }
{
    let size = width.bytes();
    count_of(&a.flags, a.register(Reg::Ecx), size)
}

/// So many elements go from ESI to EDI.
fn moved_counted(
    alloc: Global,
    memory: &Memory<'_>,
    width: Width,
    count: &Si,
    a: &mut AbsState,
) -> Result<(), AllocError>
    requires { bytes_of_spec (size_spec width) count.now ≤ 2 ^ 20 }
    ensures { OnOk result (seen a.new ≡ after memory.now (moved_often_spec (view_in memory.now (seen a.old)) width (Some count.now)) (seen a.old)) }
{
    let bytes = bytes_of(width.bytes(), count);
    if bytes == 0 {
        return keep_pointers(a);
    }
    let source = a.register(Reg::Esi).clone()?;
    let from = grown(alloc, width.bytes() as u8, count, a.register(Reg::Esi))?;
    let to = grown(alloc, width.bytes() as u8, count, a.register(Reg::Edi))?;
    let value = if_alone(count, RangeValue::Copy(source));
    fill(alloc, memory, Some(bytes), &value, a)?;
    put_pointers(from, to, a);
    Ok(())
}

fn moved_often(
    alloc: Global,
    memory: &Memory<'_>,
    width: Width,
    a: &mut AbsState,
) -> Result<(), AllocError>
    ensures { OnOk result (seen a.new ≡ after memory.now (moved_often_spec (view_in memory.now (seen a.old)) width (count_of_spec (seen a.old) (size_spec width))) (seen a.old)) }
{
    match repeats(a, width) {
        None => {
            fill(alloc, memory, None, &RangeValue::Any, a)?;
            put_pointers(ValueSet::top(), ValueSet::top(), a);
            Ok(())
        }
        Some(count) => moved_counted(alloc, memory, width, &count, a),
    }
}

fn number_or_any(width: Width, number: Option<u32>) -> RangeValue
    ensures { result ≡ number_or_any_spec width number }
{
    match number {
        None => RangeValue::Any,
        Some(number) => RangeValue::Number(number, width),
    }
}

/// So many elements of EAX go to EDI.
fn stored_counted(
    alloc: Global,
    memory: &Memory<'_>,
    width: Width,
    count: &Si,
    a: &mut AbsState,
) -> Result<(), AllocError>
    requires { bytes_of_spec (size_spec width) count.now ≤ 2 ^ 20 }
    ensures { OnOk result (seen a.new ≡ after memory.now (stored_often_spec (view_in memory.now (seen a.old)) width (Some count.now)) (seen a.old)) }
{
    let bytes = bytes_of(width.bytes(), count);
    if bytes == 0 {
        return keep_pointers(a);
    }
    let from = a.register(Reg::Esi).clone()?;
    let to = grown(alloc, width.bytes() as u8, count, a.register(Reg::Edi))?;
    let number = number_or_any(width, known::<32>(a.register(Reg::Eax)));
    fill(alloc, memory, Some(bytes), &if_alone(count, number), a)?;
    put_pointers(from, to, a);
    Ok(())
}

fn stored_often(
    alloc: Global,
    memory: &Memory<'_>,
    width: Width,
    a: &mut AbsState,
) -> Result<(), AllocError>
    ensures { OnOk result (seen a.new ≡ after memory.now (stored_often_spec (view_in memory.now (seen a.old)) width (count_of_spec (seen a.old) (size_spec width))) (seen a.old)) }
{
    match repeats(a, width) {
        None => {
            let from = a.register(Reg::Esi).clone()?;
            fill(alloc, memory, None, &RangeValue::Any, a)?;
            put_pointers(from, ValueSet::top(), a);
            Ok(())
        }
        Some(count) => stored_counted(alloc, memory, width, &count, a),
    }
}

/// Elements go from ESI to EDI: one, or as many as ECX says.
pub(crate) fn moved(
    alloc: Global,
    memory: &Memory<'_>,
    rep: bool,
    width: Width,
    a: &mut AbsState,
) -> Result<(), AllocError>
    ensures { OnOk result (seen a.new ≡ after memory.now (moved_spec rep (view_in memory.now (seen a.old)) width) (seen a.old)) }
{
    if rep {
        moved_often(alloc, memory, width, a)
    } else {
        moved_once(alloc, memory, width, a)
    }
}

/// Elements of EAX go to EDI: one, or as many as ECX says.
pub(crate) fn stored(
    alloc: Global,
    memory: &Memory<'_>,
    rep: bool,
    width: Width,
    a: &mut AbsState,
) -> Result<(), AllocError>
    ensures { OnOk result (seen a.new ≡ after memory.now (stored_spec rep (view_in memory.now (seen a.old)) width) (seen a.old)) }
{
    if rep {
        stored_often(alloc, memory, width, a)
    } else {
        stored_once(alloc, memory, width, a)
    }
}
