//! What the accesses of a map say of the cuts of regions, and which lists of cuts are kept behind it.
ghost use Rattle.std.specs.Prelude.{◌≡◌, ◌++◌, [], IfOk, OnOk};
ghost use Rattle.image_map.specs.CallModel.{IsKind};
ghost use Rattle.abs_steps.specs.Places.{Extern, Instruction};
ghost use Rattle.transfer.specs.Views.{view_by};
ghost use Rattle.transfer_flow.specs.Successors.{placed_of, states_of};
ghost use Rattle.access_facts.specs.Facts.{constraints as constraints_spec, facts_at, facts_of_placed};
ghost use Rattle.access_facts.specs.Kept.{kept_lists as kept_lists_spec};
ghost use Rattle.access_facts.specs.Maps.{IsOfImage};

use crate::facts::{push_extern, push_instruction};
use crate::kept::lists_after;
use crate::numbers::names_in;
use crate::reach::reaches;
use abs_state::AbsState;
use alocs::CutList;
use asi_cuts::Constraint;
use call_strings::Node;
use ia32_types::Instr;
use image_map::Kind;
use std::alloc::{AllocError, Global};
use transfer::{View, extern_reads, extern_writes, reads, writes};
use transfer_flow::{Content, Program, content_at};

fn push_facts_of_extern(
    alloc: Global,
    facts: &mut Vec<Constraint>,
    view: &View<'_>,
    kind: &Kind,
) -> Result<(), AllocError>
    requires { IsKind kind.now }
    ensures { OnOk result (facts.new.items ≡ facts.old.items ++ facts_at (view_by view.now) (Extern kind.now)) }
{
    let words = extern_reads(alloc, view.state, kind)?;
    let filled = extern_writes(alloc, view, kind)?;
    let reads = reaches(alloc, view.state, view.procedure, words.as_slice())?;
    let writes = reaches(alloc, view.state, view.procedure, filled.as_slice())?;
    push_extern(facts, reads.as_slice(), writes.as_slice())
}

fn push_facts_of_instruction(
    alloc: Global,
    facts: &mut Vec<Constraint>,
    view: &View<'_>,
    instr: &Instr,
) -> Result<(), AllocError>
    ensures { OnOk result (facts.new.items ≡ facts.old.items ++ facts_at (view_by view.now) (Instruction instr.now)) }
{
    let read = reads(alloc, view.state, instr)?;
    let written = writes(alloc, view.state, instr)?;
    let reads = reaches(alloc, view.state, view.procedure, read.as_slice())?;
    let writes = reaches(alloc, view.state, view.procedure, written.as_slice())?;
    push_instruction(
        facts,
        view.state,
        instr,
        reads.as_slice(),
        writes.as_slice(),
    )
}

// What the accesses of a node say, at the end of other facts.
#[tactic(auto, unfolding(crate::specs::Facts::facts_at))]
fn push_node(
    alloc: Global,
    facts: &mut Vec<Constraint>,
    program: &Program<'_>,
    other: (&Node, &AbsState),
) -> Result<(), AllocError>
    requires { IsOfImage program.now }
    ensures { OnOk result (facts.new.items ≡ facts.old.items ++ facts_of_placed program.now.image.now program.now.settings.now (states_of program.now []) (placed_of other.entry)) }
{
    let (node, state) = other;
    let view = View {
        state,
        cells: program.cells,
        procedure: node.context.proc,
    };
    match content_at(program.image, program.settings, node.at) {
        Content::Extern(kind) => push_facts_of_extern(alloc, facts, &view, &kind),
        Content::Instruction(instr) => push_facts_of_instruction(alloc, facts, &view, &instr),
        Content::Nothing => Ok(()),
    }
}

/// What the accesses of all nodes of a map say of the cuts of regions.
#[tactic(auto, unfolding(crate::specs::Facts::constraints))]
pub fn constraints(
    alloc: Global,
    program: &Program<'_>,
    placed: &[(&Node, &AbsState)],
) -> Result<Vec<Constraint>, AllocError>
    requires { IsOfImage program.now }
    ensures { IfOk result (λ v. v.items ≡ constraints_spec program.now.image.now program.now.settings.now (states_of program.now placed.now)) }
{
    let mut facts = Vec::new(alloc);
    for other in placed {
        push_node(alloc, &mut facts, program, *other)?;
    }
    Ok(facts)
}

/// The lists of cuts that the round behind that of a number keeps, where the round of the number has this map.
#[tactic(auto, unfolding(crate::specs::Kept::kept_lists))]
pub fn kept_lists(
    alloc: Global,
    program: &Program<'_>,
    placed: &[(&Node, &AbsState)],
    number: u32,
) -> Result<Vec<CutList>, AllocError>
    requires { IsOfImage program.now }
    ensures { IfOk result (λ v. v.items ≡ kept_lists_spec program.now.image.now number (states_of program.now placed.now)) }
{
    let names = names_in(alloc, placed)?;
    lists_after(alloc, program.image, &names, number, program.cells)
}
