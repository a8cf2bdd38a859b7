//! What can't be followed at a node.

ghost use Rattle.std.specs.Prelude.{◌≡◌, ◌++◌, [], ◌&&◌, not, map, IfOk, OnOk};
ghost use Rattle.std.specs.List.{list_all};
ghost use Rattle.image_map.specs.CallModel.{IsKind};
ghost use Rattle.image_map.specs.declared.image.Image.{Image};
ghost use Rattle.abs_steps.specs.Places.{Extern as ExternSpec, Instruction as InstructionSpec, is_place as is_place_spec};
ghost use Rattle.abs_steps.specs.Successors.{is_call as is_call_spec};
ghost use Rattle.abs_steps.specs.Warnings.{is_above as is_above_spec, loses_stack as loses_stack_spec, extern_loses_stack as extern_loses_stack_spec, has_unresolved as has_unresolved_spec, is_unresolved as is_unresolved_spec, are_places as are_places_spec, is_unknown as is_unknown_spec, warnings};
ghost use Rattle.abs_state.specs.Reads.{items_of};
ghost use Rattle.transfer_flow.specs.Contents.{meant, IsContent};
ghost use Rattle.transfer_flow.specs.Names.{only, with_reasons};
ghost use Rattle.transfer_flow.specs.Written.{met_by, with_slot as with_slot_spec};
ghost use Rattle.abs_steps.specs.declared.warnings.WarnName.TheVariants as name;
ghost use Rattle.transfer.specs.Views.{view_by};

use crate::contents::{Content, is_place};
use crate::stack::{extra_of, frame_offset, is_at_slot, stack_offset, takes_too_much};
use crate::target_lists::{is_indirect, known_targets};
use crate::written::{Written, all_written, with_reason, with_slot};
use abs_semantics::Reason;
use abs_steps::WarnName;
use ia32_types::{Instr, Op, Operand, Reg};
use image_map::{Image, Kind};
use std::alloc::{AllocError, Global};
use transfer::{View, extern_writes, writes};

fn is_above(offset: Option<i32>) -> bool
    ensures { result ≡ is_above_spec offset }
{
    match offset {
        None => true,
        Some(offset) => 0 < offset,
    }
}

/// Whether the stack pointer, or the frame pointer at leave, isn't where the instruction needs it.
#[tactic(auto, unfolding(abs_steps::specs::Warnings::loses_stack))]
fn loses_stack(view: &View<'_>, i: &Instr) -> bool
    ensures { result ≡ loses_stack_spec i.now.op (view_by view.now) i.now.dst }
{
    let procedure = view.procedure;
    match i.op {
        Op::Push | Op::Pop => stack_offset(procedure, view.state).is_none(),
        Op::Leave => frame_offset(procedure, view.state.registers.value(Reg::Ebp)).is_none(),
        Op::Call => is_above(stack_offset(procedure, view.state)),
        Op::Ret => {
            !is_at_slot(procedure, view.state)
                || takes_too_much(procedure, extra_of(&i.dst), view.state)
        }
        _ => false,
    }
}

#[tactic(auto, unfolding(abs_steps::specs::Warnings::extern_loses_stack))]
fn extern_loses_stack(view: &View<'_>, kind: &Kind) -> bool
    ensures { result ≡ extern_loses_stack_spec kind.now (view_by view.now) }
{
    match kind {
        Kind::Stop => false,
        _ => !is_at_slot(view.procedure, view.state),
    }
}

fn all_places(image: &Image, targets: &[u32]) -> bool
    ensures { result ≡ list_all (is_place_spec image.now) targets.now }
{
    targets.iter().all(|t| is_place(image, *t))
}

/// Whether there are targets, and all of them are places.
fn are_places(image: &Image, targets: &Option<Vec<u32>>) -> bool
    ensures { result ≡ are_places_spec image.now (items_of targets.now) }
{
    match targets {
        None => false,
        Some(targets) => !targets.is_empty() && all_places(image, targets.as_slice()),
    }
}

/// Whether an indirect target isn't known, has no value, or may be no place.
fn is_unresolved(
    alloc: Global,
    image: &Image,
    view: &View<'_>,
    operand: &Option<Operand>,
) -> Result<bool, AllocError>
    ensures { IfOk result (λ t. t ≡ is_unresolved_spec image.now (view_by view.now) operand.now) }
{
    if !is_indirect(operand) {
        return Ok(false);
    }
    let targets = known_targets(alloc, view, operand)?;
    Ok(!are_places(image, &targets))
}

#[tactic(auto, unfolding(abs_steps::specs::Warnings::has_unresolved))]
fn has_unresolved(
    alloc: Global,
    image: &Image,
    view: &View<'_>,
    i: &Instr,
) -> Result<bool, AllocError>
    ensures { IfOk result (λ t. t ≡ has_unresolved_spec i.now.op image.now (view_by view.now) i.now.dst) }
{
    match i.op {
        Op::Jmp | Op::Call => is_unresolved(alloc, image, view, &i.dst),
        _ => Ok(false),
    }
}

/// Puts a name behind others, if it is wanted.
fn add_if(names: &mut Vec<WarnName>, wanted: bool, name: WarnName) -> Result<(), AllocError>
    ensures { OnOk result (names.new.items ≡ names.old.items ++ only wanted name) }
{
    if wanted {
        names.push(name)?;
    }
    Ok(())
}

/// The names of what is told of writes, but for return slots.
fn add_reasons(names: &mut Vec<WarnName>, all: &[Written]) -> Result<(), AllocError>
    ensures { OnOk result (names.new.items ≡ with_reasons names.old.items (map met_by all.now)) }
{
    add_if(
        names,
        with_reason(&Reason::UnknownWrite, all),
        WarnName::UnknownWrite,
    )?;
    add_if(
        names,
        with_reason(&Reason::OutOfRegion, all),
        WarnName::OutOfRegion,
    )?;
    add_if(
        names,
        with_reason(&Reason::HeapOverrun, all),
        WarnName::HeapOverrun,
    )
}

fn is_call(op: &Op) -> bool
    ensures { result ≡ is_call_spec op.now }
{
    matches!(op, Op::Call)
}

/// Whether an instruction that is no call may write a return slot.
fn spoils_slot(op: &Op, all: &[Written]) -> bool
    ensures { result ≡ (not (is_call_spec op.now) && with_slot_spec (map met_by all.now)) }
{
    !is_call(op) && with_slot(all)
}

/// The names of what is known of an instruction's writes.
fn instruction_names(
    alloc: Global,
    unresolved: bool,
    all: &[Written],
    slot: bool,
    lost: bool,
) -> Result<Vec<WarnName>, AllocError>
    ensures { IfOk result (λ v. v.items ≡ (with_reasons ([] ++ only unresolved name.UnresolvedJump) (map met_by all.now) ++ only slot name.ReturnSlot) ++ only lost name.StackLost) }
{
    let mut names = Vec::new(alloc);
    add_if(&mut names, unresolved, WarnName::UnresolvedJump)?;
    add_reasons(&mut names, all)?;
    add_if(&mut names, slot, WarnName::ReturnSlot)?;
    add_if(&mut names, lost, WarnName::StackLost)?;
    Ok(names)
}

fn instruction_warns(
    alloc: Global,
    view: &View<'_>,
    image: &Image,
    i: &Instr,
) -> Result<Vec<WarnName>, AllocError>
    ensures { IfOk result (λ v. v.items ≡ warnings (InstructionSpec i.now) image.now (view_by view.now)) }
{
    let written = writes(alloc, view.state, i)?;
    let all = all_written(alloc, view, written.as_slice())?;
    let unresolved = has_unresolved(alloc, image, view, i)?;
    let slot = spoils_slot(&i.op, all.as_slice());
    let lost = loses_stack(view, i);
    let names = instruction_names(alloc, unresolved, all.as_slice(), slot, lost)?;
    Ok(names)
}

fn is_unknown(kind: &Kind) -> bool
    ensures { result ≡ is_unknown_spec kind.now }
{
    matches!(kind, Kind::Unknown)
}

/// The names of what is known of an extern's writes.
fn extern_names(
    alloc: Global,
    all: &[Written],
    lost: bool,
    unknown: bool,
) -> Result<Vec<WarnName>, AllocError>
    ensures { IfOk result (λ v. v.items ≡ ((with_reasons [] (map met_by all.now) ++ only (with_slot_spec (map met_by all.now)) name.ReturnSlot) ++ only lost name.StackLost) ++ only unknown name.UnknownExtern) }
{
    let mut names = Vec::new(alloc);
    add_reasons(&mut names, all)?;
    add_if(&mut names, with_slot(all), WarnName::ReturnSlot)?;
    add_if(&mut names, lost, WarnName::StackLost)?;
    add_if(&mut names, unknown, WarnName::UnknownExtern)?;
    Ok(names)
}

fn extern_warns(alloc: Global, view: &View<'_>, kind: &Kind) -> Result<Vec<WarnName>, AllocError>
    requires { IsKind kind.now }
    ensures { IfOk result (λ v. (image : Image) → v.items ≡ warnings (ExternSpec kind.now) image (view_by view.now)) }
{
    let written = extern_writes(alloc, view, kind)?;
    let all = all_written(alloc, view, written.as_slice())?;
    let lost = extern_loses_stack(view, kind);
    let names = extern_names(alloc, all.as_slice(), lost, is_unknown(kind))?;
    Ok(names)
}

/// What can't be followed at a node where this stands, in the order of the names, each once.
pub fn warns(
    alloc: Global,
    view: &View<'_>,
    content: &Content,
    image: &Image,
) -> Result<Vec<WarnName>, AllocError>
    requires { IsContent (meant content.now) }
    ensures { IfOk result (λ v. v.items ≡ warnings (meant content.now) image.now (view_by view.now)) }
{
    match content {
        Content::Extern(kind) => extern_warns(alloc, view, kind),
        Content::Instruction(i) => instruction_warns(alloc, view, image, i),
        Content::Nothing => {
            let mut names = Vec::new(alloc);
            names.push(WarnName::Undecoded)?;
            Ok(names)
        }
    }
}
