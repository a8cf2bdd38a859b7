//! Branches, and the ends of runs.
ghost use Rattle.std.specs.Prelude.{◌≡◌};
ghost use Rattle.abs_steps.specs.Places.{is_indirect as is_indirect_spec};
ghost use Rattle.transfer_flow.specs.Contents.{meant};
ghost use Rattle.access_facts.specs.Flow.{extern_ends as extern_ends_spec, is_branch as is_branch_spec, is_end as is_end_spec, may_be_last as may_be_last_spec, op_branches as op_branches_spec, op_ends as op_ends_spec};

use call_strings::Node;
use ia32_types::{Op, Operand};
use image_map::{Kind, Settings};
use transfer_flow::Content;

fn is_indirect(operand: &Option<Operand>) -> bool
    ensures { result ≡ is_indirect_spec operand.now }
{
    match operand {
        Some(Operand::Imm(_)) => false,
        _ => true,
    }
}

// Whether where control goes depends on what an instruction reads.
#[tactic(auto, unfolding(crate::specs::Flow::op_branches))]
fn op_branches(op: &Op, operand: &Option<Operand>) -> bool
    ensures { result ≡ op_branches_spec op.now operand.now }
{
    match op {
        Op::Jcc(_) => true,
        Op::Jmp => is_indirect(operand),
        Op::Call => is_indirect(operand),
        _ => false,
    }
}

fn may_be_last(settings: &Settings, node: &Node) -> bool
    ensures { result ≡ may_be_last_spec settings.now node.now }
{
    if node.context.proc != settings.entry {
        return false;
    }
    match node.context.sites.as_slice() {
        [] => true,
        [_, ..] => false,
    }
}

// Whether a run may be complete after an instruction.
#[tactic(auto, unfolding(crate::specs::Flow::op_ends))]
fn op_ends(op: &Op, settings: &Settings, node: &Node) -> bool
    ensures { result ≡ op_ends_spec op.now settings.now node.now }
{
    match op {
        Op::Ret => may_be_last(settings, node),
        Op::Hlt => true,
        _ => false,
    }
}

// Whether a run may be complete after an extern.
#[tactic(auto, unfolding(crate::specs::Flow::extern_ends))]
fn extern_ends(kind: &Kind, settings: &Settings, node: &Node) -> bool
    ensures { result ≡ extern_ends_spec kind.now settings.now node.now }
{
    match kind {
        Kind::Stop => true,
        _ => may_be_last(settings, node),
    }
}

/// Whether where control goes from a node depends on what is read there.
#[tactic(auto, unfolding(crate::specs::Flow::is_branch))]
pub(crate) fn is_branch(content: &Content) -> bool
    ensures { result ≡ is_branch_spec (meant content.now) }
{
    match content {
        Content::Instruction(instr) => op_branches(&instr.op, &instr.dst),
        Content::Extern(_) | Content::Nothing => false,
    }
}

/// Whether a run may be complete after a node.
#[tactic(auto, unfolding(crate::specs::Flow::is_end))]
pub(crate) fn is_end(content: &Content, settings: &Settings, node: &Node) -> bool
    ensures { result ≡ is_end_spec (meant content.now) settings.now node.now }
{
    match content {
        Content::Extern(kind) => extern_ends(kind, settings, node),
        Content::Instruction(instr) => op_ends(&instr.op, settings, node),
        Content::Nothing => false,
    }
}
