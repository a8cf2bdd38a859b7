//! Which steps of a map's graph are calls and returns, and where calls come back.
ghost use Rattle.std.specs.Prelude.{◌≡◌, ◌++◌, [], length, map, IfOk, OnOk, if◌then◌else◌};
ghost use Rattle.image_map.specs.CallModel.{AreSettings};
ghost use Rattle.abs_state.specs.Views.{seen};
ghost use Rattle.abs_steps.specs.Successors.{at_node, moved_to as moved_to_spec, place_behind as place_behind_spec};
ghost use Rattle.transfer_flow.specs.Contents.{meant};
ghost use Rattle.transfer_flow.specs.Successors.{placed_of, states_of};
ghost use Rattle.access_facts.specs.Flow.{next_of};
ghost use Rattle.access_facts.specs.Sets.{calls as calls_spec};
ghost use Rattle.access_facts.specs.Kinds.{paired, returns as returns_spec, step_kinds as step_kinds_spec, tells};
ghost use Rattle.access_facts.specs.Maps.{IsOfImage, all_of};
ghost use Rattle.access_facts.specs.Next.{numbers_of as numbers_of_spec};

use crate::next::{after, next_numbers, numbers_of};
use abs_state::AbsState;
use call_strings::Node;
use ia32_types::Op;
use item_list::Items;
use matched_calls::StepKinds;
use std::alloc::{AllocError, Global};
use transfer_flow::{Content, Program, Site, content_at};

/// What a node tells of matched walks.
#[derive(Clone, Copy)]
pub(crate) enum Told {
    /// Where a call goes.
    Callees,
    /// Where a return goes.
    Returned,
    /// The place after a call.
    Behind,
}

fn calls(content: &Content) -> bool
    ensures { result ≡ calls_spec (meant content.now) }
{
    match content {
        Content::Instruction(instr) => matches!(instr.op, Op::Call),
        Content::Extern(_) | Content::Nothing => false,
    }
}

fn returns(content: &Content) -> bool
    ensures { result ≡ returns_spec (meant content.now) }
{
    match content {
        Content::Extern(_) => true,
        Content::Instruction(instr) => matches!(instr.op, Op::Ret),
        Content::Nothing => false,
    }
}

fn place_behind(content: &Content) -> u32
    ensures { result ≡ place_behind_spec (meant content.now) }
{
    match content {
        Content::Instruction(instr) => instr.at.wrapping_add(u32::from(instr.len)),
        Content::Extern(_) | Content::Nothing => 0,
    }
}

// Where control may go from a node, if that is wanted.
fn next_if(
    alloc: Global,
    site: &Site<'_>,
    placed: &[(&Node, &AbsState)],
    wanted: bool,
) -> Result<Items<u32>, AllocError>
    requires { AreSettings (length site.now.program.now.image.now.externs) site.now.program.now.settings.now }
    ensures { IfOk result (λ v. v ≡ (if wanted then next_of site.now.program.now.image.now site.now.program.now.settings.now (states_of site.now.program.now placed.now) (at_node site.now.node.now (seen site.now.state.now)) else [])) }
{
    if wanted {
        next_numbers(alloc, site, placed)
    } else {
        Ok(Items::new(alloc))
    }
}

// The number of a node's place after a call, where the map has that place.
fn behind_if(
    alloc: Global,
    node: &Node,
    placed: &[(&Node, &AbsState)],
    content: &Content,
) -> Result<Items<u32>, AllocError>
    ensures { IfOk result (λ v. v ≡ (if calls_spec (meant content.now) then numbers_of_spec (moved_to_spec (place_behind_spec (meant content.now)) node.now) (all_of placed.now) else [])) }
{
    if !calls(content) {
        return Ok(Items::new(alloc));
    }
    let behind = Node {
        context: node.context.copied()?,
        at: place_behind(content),
    };
    numbers_of(alloc, placed, &behind)
}

// What a node tells, as numbers of nodes.
#[tactic(auto, unfolding(crate::specs::Kinds::callees_of, crate::specs::Kinds::returned_to, crate::specs::Kinds::place_after))]
fn told_by(
    alloc: Global,
    program: &Program<'_>,
    placed: &[(&Node, &AbsState)],
    other: (&Node, &AbsState),
    told: Told,
) -> Result<Items<u32>, AllocError>
    requires { AreSettings (length program.now.image.now.externs) program.now.settings.now }
    ensures { IfOk result (λ v. v ≡ tells told program.now.image.now program.now.settings.now (states_of program.now placed.now) (placed_of other.entry)) }
{
    let (node, state) = other;
    let site = Site {
        program,
        node,
        state,
    };
    let content = content_at(program.image, program.settings, node.at);
    match told {
        Told::Callees => next_if(alloc, &site, placed, calls(&content)),
        Told::Returned => next_if(alloc, &site, placed, returns(&content)),
        Told::Behind => behind_if(alloc, node, placed, &content),
    }
}

fn push_pairs(pairs: &mut Vec<(u32, u32)>, from: u32, to: &[u32]) -> Result<(), AllocError>
    ensures { OnOk result (pairs.new.items ≡ pairs.old.items ++ map (λ n. (from, n)) to.now) }
{
    for number in to {
        pairs.push((from, *number))?;
    }
    Ok(())
}

// What all nodes tell, each with its own number.
fn pairs_by(
    alloc: Global,
    program: &Program<'_>,
    placed: &[(&Node, &AbsState)],
    told: Told,
) -> Result<Items<(u32, u32)>, AllocError>
    requires { AreSettings (length program.now.image.now.externs) program.now.settings.now }
    ensures { IfOk result (λ v. v ≡ paired (tells told program.now.image.now program.now.settings.now (states_of program.now placed.now)) 0 (all_of placed.now)) }
{
    let mut pairs = Vec::new(alloc);
    let mut number = 0;
    for other in placed {
        let numbers = told_by(alloc, program, placed, *other, told)?;
        push_pairs(&mut pairs, number, numbers.as_slice())?;
        number = after(number)?;
    }
    Ok(Items::from_vec(pairs))
}

/// The call steps and the return steps of the graph of a map, and the places after calls, by the numbers of nodes.
#[tactic(auto, unfolding(crate::specs::Kinds::step_kinds))]
pub fn step_kinds(
    alloc: Global,
    program: &Program<'_>,
    placed: &[(&Node, &AbsState)],
) -> Result<StepKinds, AllocError>
    requires { IsOfImage program.now }
    ensures { IfOk result (λ kinds. kinds ≡ step_kinds_spec program.now.image.now program.now.settings.now (states_of program.now placed.now)) }
{
    let calls = pairs_by(alloc, program, placed, Told::Callees)?;
    let returns = pairs_by(alloc, program, placed, Told::Returned)?;
    let after = pairs_by(alloc, program, placed, Told::Behind)?;
    Ok(StepKinds {
        calls,
        returns,
        after,
    })
}
