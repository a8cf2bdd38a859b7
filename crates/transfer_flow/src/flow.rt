//! Where control goes from a node, and with which abstract states.

ghost use Rattle.std.specs.Prelude.{◌≡◌, ◌<◌, ◌++◌, [], true, length, map, IfOk, OnOk};
ghost use Rattle.image_map.specs.CallModel.{AreSettings};
ghost use Rattle.ia32_types.specs.Operands.{IsInstruction};
ghost use Rattle.ia32_semantics.specs.Rows.{next_place as next_place_spec};
ghost use Rattle.abs_steps.specs.Successors.{at_node, moved_to as moved_to_spec, if_goes, branched as branched_spec, branched_to as branched_to_spec, jumped as jumped_spec, callee_node as callee_node_spec, slot_below as slot_below_spec, called_each as called_each_spec, entered_from as entered_from_spec, returned_from as returned_from_spec, next_to as next_to_spec, instruction_successors as instruction_successors_spec, successors_by as successors_by_spec, successors as successors_spec};
ghost use Rattle.abs_state.specs.Views.{seen};
ghost use Rattle.transfer_flow.specs.Contents.{meant, IsContent};
ghost use Rattle.transfer_flow.specs.States.{state_in};
ghost use Rattle.transfer_flow.specs.Successors.{all_placed, is_control as is_control_spec, states_of, view_at};

use crate::branches::side;
use crate::contents::{Content, content_at};
use crate::externs::extern_successors;
use crate::returning::returned_each;
use crate::site::{Placed, Site, moved_to, next_place};
use crate::stack::{extra_of, is_at_slot, stack_offset, takes_too_much};
use crate::target_lists::{followed, number_at};
use abs_state::AbsState;
use call_states::{Call, called};
use call_strings::Node;
use ia32_types::{Cond, Instr, Op, Operand};
use std::alloc::{AllocError, Global};
use strided::Si;
use transfer::post;

/// Puts a side of a branch behind others, if control may go there.
fn put_side(
    out: &mut Placed,
    at: u32,
    node: &Node,
    state: Option<AbsState>,
) -> Result<(), AllocError>
    ensures { OnOk result (all_placed out.new.items ≡ all_placed out.old.items ++ if_goes at node.now (state_in state)) }
{
    if let Some(state) = state {
        out.push((moved_to(at, node)?, state))?;
    }
    Ok(())
}

/// The two sides of a branch to an address, the one that is taken first.
fn branched_to(
    alloc: Global,
    site: &Site<'_>,
    cond: Cond,
    target: u32,
    i: &Instr,
) -> Result<Placed, AllocError>
    ensures { IfOk result (λ v. all_placed v.items ≡ branched_to_spec cond target i.now site.now.node.now (seen site.now.state.now)) }
{
    let taken = side(alloc, site.state, cond, true)?;
    let passed = side(alloc, site.state, cond, false)?;
    let mut out = Vec::new(alloc);
    put_side(&mut out, target, site.node, taken)?;
    put_side(&mut out, next_place(i), site.node, passed)?;
    Ok(out)
}

/// The two sides of a branch.
#[tactic(auto, unfolding(abs_steps::specs::Successors::branched))]
fn branched(alloc: Global, site: &Site<'_>, cond: Cond, i: &Instr) -> Result<Placed, AllocError>
    ensures { IfOk result (λ v. all_placed v.items ≡ branched_spec cond i.now.dst i.now site.now.node.now (seen site.now.state.now)) }
{
    match &i.dst {
        Some(Operand::Imm(target)) => branched_to(alloc, site, cond, *target, i),
        _ => Ok(Vec::new(alloc)),
    }
}

/// Some addresses in the context of a node, all with its own state.
fn jumped_each(alloc: Global, site: &Site<'_>, targets: &[u32]) -> Result<Placed, AllocError>
    ensures { IfOk result (λ v. all_placed v.items ≡ map (λ t. at_node (moved_to_spec t site.now.node.now) (seen site.now.state.now)) targets.now) }
{
    let mut out = Vec::new(alloc);
    for at in 0..targets.len() {
        let target = number_at(targets, at);
        let node = moved_to(target, site.node)?;
        let state = site.state.clone()?;
        out.push((node, state))?;
    }
    Ok(out)
}

/// The targets of a jump, all with its own state.
fn jumped(alloc: Global, site: &Site<'_>, i: &Instr) -> Result<Placed, AllocError>
    ensures { IfOk result (λ v. all_placed v.items ≡ jumped_spec site.now.program.now.image.now (view_at site.now) i.now site.now.node.now) }
{
    let targets = followed(alloc, site.program.image, &site.view(), &i.dst)?;
    jumped_each(alloc, site, targets.as_slice())
}

fn callee_node(lane: u32, site: u32, callee: u32, node: &Node) -> Result<Node, AllocError>
    ensures { IfOk result (λ n. n ≡ callee_node_spec lane site callee node.now) }
{
    Ok(Node {
        context: node.context.push(lane, site, callee)?,
        at: callee,
    })
}

/// Where a return slot lies below a stack pointer.
fn slot_below(offset: i32) -> i32
    ensures { result ≡ slot_below_spec offset }
{
    Si::one(offset).sub(&Si::one(4)).lo()
}

/// A call at a stack pointer.
#[derive(Drop)]
struct Entering<'a> {
    i: &'a Instr,
    offset: i32,
}

/// The call of a callee.
fn call_to(caller: u32, entering: &Entering<'_>, callee: u32) -> Call
    ensures procedures { (result.caller ≡ caller) × (result.callee ≡ callee) }
    ensures offset { result.offset ≡ slot_below_spec entering.now.offset }
    ensures next { result.next ≡ next_place_spec entering.now.i.now }
{
    Call {
        caller,
        callee,
        offset: slot_below(entering.offset),
        next: next_place(entering.i),
    }
}

/// The callees of a call at a stack pointer, each with its state.
fn called_each(
    alloc: Global,
    site: &Site<'_>,
    entering: &Entering<'_>,
    targets: &[u32],
) -> Result<Placed, AllocError>
    ensures { IfOk result (λ v. all_placed v.items ≡ called_each_spec site.now.program.now.lane (view_at site.now) entering.now.i.now site.now.node.now entering.now.offset targets.now) }
{
    let mut out = Vec::new(alloc);
    let i = entering.i;
    for at in 0..targets.len() {
        let target = number_at(targets, at);
        let call = call_to(site.node.context.proc, entering, target);
        let callee = callee_node(site.program.lane, i.at, target, site.node)?;
        let state = called(alloc, site.program.cells, &call, site.state)?;
        out.push((callee, state))?;
    }
    Ok(out)
}

/// A call goes to its callees where the stack pointer isn't above the return slot of the activation.
fn entered_from(alloc: Global, site: &Site<'_>, i: &Instr) -> Result<Placed, AllocError>
    ensures { IfOk result (λ v. all_placed v.items ≡ entered_from_spec site.now.program.now.image.now site.now.program.now.lane (view_at site.now) i.now site.now.node.now) }
{
    match stack_offset(site.node.context.proc, site.state) {
        Some(offset) if offset <= 0 => {
            let targets = followed(alloc, site.program.image, &site.view(), &i.dst)?;
            called_each(alloc, site, &Entering { i, offset }, targets.as_slice())
        }
        _ => Ok(Vec::new(alloc)),
    }
}

/// Where a ret goes back to, unless the stack pointer is lost.
fn returned_from(
    alloc: Global,
    site: &Site<'_>,
    others: &[(&Node, &AbsState)],
    extra: u32,
) -> Result<Placed, AllocError>
    requires settings { AreSettings (length site.now.program.now.image.now.externs) site.now.program.now.settings.now }
    requires few { extra < 65536 }
    ensures { IfOk result (λ v. all_placed v.items ≡ returned_from_spec site.now.program.now.image.now site.now.program.now.settings.now (states_of site.now.program.now others.now) site.now.node.now extra (seen site.now.state.now)) }
{
    let procedure = site.node.context.proc;
    if is_at_slot(procedure, site.state) && !takes_too_much(procedure, extra, site.state) {
        returned_each(alloc, site, others, extra, site.state)
    } else {
        Ok(Vec::new(alloc))
    }
}

/// Whether control doesn't simply go on to the next instruction.
fn is_control(op: &Op) -> bool
    ensures { result ≡ is_control_spec op.now }
{
    matches!(
        op,
        Op::Jcc(_) | Op::Jmp | Op::Call | Op::Ret | Op::Hlt | Op::Int3 | Op::Ud2
    )
}

/// Where control goes from an instruction that doesn't simply go on: a branch, a jump, a call, a return, or one that ends or fails.
#[tactic(auto, unfolding(abs_steps::specs::Successors::instruction_successors))]
fn control_successors(
    alloc: Global,
    site: &Site<'_>,
    others: &[(&Node, &AbsState)],
    i: &Instr,
) -> Result<Placed, AllocError>
    requires settings { AreSettings (length site.now.program.now.image.now.externs) site.now.program.now.settings.now }
    requires instruction { IsInstruction i.now }
    requires control { is_control_spec i.now.op ≡ true }
    ensures { IfOk result (λ v. all_placed v.items ≡ instruction_successors_spec i.now.op site.now.program.now.image.now site.now.program.now.settings.now (states_of site.now.program.now others.now) site.now.node.now i.now (seen site.now.state.now)) }
{
    match i.op {
        Op::Jcc(cond) => branched(alloc, site, cond, i),
        Op::Jmp => jumped(alloc, site, i),
        Op::Call => entered_from(alloc, site, i),
        Op::Ret => returned_from(alloc, site, others, extra_of(&i.dst)),
        _ => Ok(Vec::new(alloc)),
    }
}

/// The next instruction, in the same context.
fn next_to(alloc: Global, site: &Site<'_>, i: &Instr) -> Result<Placed, AllocError>
    ensures { IfOk result (λ v. all_placed v.items ≡ next_to_spec site.now.program.now.image.now (states_of site.now.program.now []) site.now.node.now i.now (seen site.now.state.now)) }
{
    let node = moved_to(next_place(i), site.node)?;
    let state = post(alloc, site.state, i, &site.memory())?;
    let mut out = Vec::new(alloc);
    out.push((node, state))?;
    Ok(out)
}

/// Where control goes from an instruction.
fn instruction_successors(
    alloc: Global,
    site: &Site<'_>,
    others: &[(&Node, &AbsState)],
    i: &Instr,
) -> Result<Placed, AllocError>
    requires settings { AreSettings (length site.now.program.now.image.now.externs) site.now.program.now.settings.now }
    requires instruction { IsInstruction i.now }
    ensures { IfOk result (λ v. all_placed v.items ≡ instruction_successors_spec i.now.op site.now.program.now.image.now site.now.program.now.settings.now (states_of site.now.program.now others.now) site.now.node.now i.now (seen site.now.state.now)) }
{
    if is_control(&i.op) {
        return control_successors(alloc, site, others, i);
    }
    let placed = next_to(alloc, site, i)?;
    Ok(placed)
}

/// Where control goes from a node where this stands.
#[tactic(auto, unfolding(abs_steps::specs::Successors::successors_by))]
fn successors_by(
    alloc: Global,
    site: &Site<'_>,
    others: &[(&Node, &AbsState)],
    content: &Content,
) -> Result<Placed, AllocError>
    requires settings { AreSettings (length site.now.program.now.image.now.externs) site.now.program.now.settings.now }
    requires content { IsContent (meant content.now) }
    ensures { IfOk result (λ v. all_placed v.items ≡ successors_by_spec (meant content.now) site.now.program.now.image.now site.now.program.now.settings.now (states_of site.now.program.now others.now) site.now.node.now (seen site.now.state.now)) }
{
    match content {
        Content::Extern(kind) => extern_successors(alloc, site, others, kind),
        Content::Instruction(i) => instruction_successors(alloc, site, others, i),
        Content::Nothing => Ok(Vec::new(alloc)),
    }
}

/// The nodes to which control goes from a node, each with its state: of a branch the side that is taken first, targets as they rise, returns
/// by link and then by the node of the call. The others are nodes with their states; a return looks at the calls among them.
pub fn successors(
    alloc: Global,
    site: &Site<'_>,
    others: &[(&Node, &AbsState)],
) -> Result<Placed, AllocError>
    requires { AreSettings (length site.now.program.now.image.now.externs) site.now.program.now.settings.now }
    ensures { IfOk result (λ v. all_placed v.items ≡ successors_spec site.now.program.now.image.now site.now.program.now.settings.now (states_of site.now.program.now others.now) site.now.node.now (seen site.now.state.now)) }
{
    let program = site.program;
    let content = content_at(program.image, program.settings, site.node.at);
    let placed = successors_by(alloc, site, others, &content)?;
    Ok(placed)
}
