//! How far what a node reads and writes may reach, by what stands there.
ghost use Rattle.std.specs.Prelude.{◌≡◌, ◌&&◌, ◌++◌, ◌∷◌, [], Bool, IfOk, cond, false, true};
ghost use Rattle.image_map.specs.CallModel.{IsKind};
ghost use Rattle.image_map.specs.declared.image.Image.{Image};
ghost use Rattle.abs_steps.specs.Accesses.{extern_reads as extern_reads_spec, extern_writes as extern_writes_spec};
ghost use Rattle.abs_steps.specs.Places.{Extern, Instruction, Nothing};
ghost use Rattle.abs_steps.specs.Successors.{is_call as is_call_spec};
ghost use Rattle.abs_steps.specs.Views.{View as SeenView};
ghost use Rattle.abs_state.specs.Views.{seen};
ghost use Rattle.transfer.specs.Views.{view_by};
ghost use Rattle.transfer_flow.specs.Contents.{IsContent, meant};
ghost use Rattle.access_facts.specs.declared.reach.Reach.TheVariants.{Anywhere};
ghost use Rattle.access_facts.specs.NodeSets.{AreAccesses};
ghost use Rattle.access_facts.specs.Reach.{reaches as reaches_spec};
ghost use Rattle.access_facts.specs.Sets.{reads_anything as reads_anything_spec};

use crate::node::NodeAccesses;
use crate::reach::{Reach, reaches};
use crate::visits::{Listed, call_accesses, plain_accesses};
use abs_state::AbsState;
use abs_steps::Access;
use ia32_types::{Instr, Op};
use image_map::{Image, Kind};
use std::alloc::{AllocError, Global};
use transfer::{View, extern_reads, extern_writes, reads, writes};
use transfer_flow::{Content, followed, targets};

fn reads_anything(kind: &Kind) -> bool
    ensures { result ≡ reads_anything_spec (Extern kind.now) }
{
    match kind {
        Kind::Reader(_) | Kind::Unknown => true,
        _ => false,
    }
}

// From anywhere, if so, and then how far some reads may reach.
fn behind_anywhere(
    alloc: Global,
    anywhere: bool,
    reads: Vec<Reach>,
) -> Result<Vec<Reach>, AllocError>
    ensures { IfOk result (λ v. v.items ≡ cond anywhere (Anywhere ∷ []) [] ++ reads.items) }
{
    if !anywhere {
        return Ok(reads);
    }
    let mut more = reads;
    let mut found = Vec::new(alloc);
    found.push(Reach::Anywhere)?;
    found.append(&mut more)?;
    Ok(found)
}

// How far the accesses of a list may reach.
fn reached(alloc: Global, view: &View<'_>, list: &[Access]) -> Result<Vec<Reach>, AllocError>
    ensures { IfOk result (λ v. v.items ≡ reaches_spec (view_by view.now) list.now) }
{
    reaches(alloc, view.state, view.procedure, list)
}

fn older_of(alloc: Global, state: &AbsState) -> Result<Vec<u32>, AllocError>
    ensures { IfOk result (λ v. v.items ≡ (seen state.now).older) }
{
    let older = Vec::from_slice(alloc, state.older.as_slice())?;
    Ok(older)
}

fn of_extern(alloc: Global, view: &View<'_>, kind: &Kind) -> Result<NodeAccesses, AllocError>
    requires { IsKind kind.now }
    ensures { (image : Image) (goes_on : Bool) → IfOk result (AreAccesses image (view_by view.now) (Extern kind.now) goes_on) }
{
    let words = extern_reads(alloc, view.state, kind)?;
    let filled = extern_writes(alloc, view, kind)?;
    let read = reached(alloc, view, words.as_slice())?;
    let reads = behind_anywhere(alloc, reads_anything(kind), read)?;
    let writes = reached(alloc, view, filled.as_slice())?;
    let older = older_of(alloc, view.state)?;
    Ok(NodeAccesses {
        reads,
        writes,
        is_sure: false,
        older,
    })
}

fn of_nothing(alloc: Global, state: &AbsState) -> Result<NodeAccesses, AllocError>
    ensures { (image : Image) (v : SeenView) (goes_on : Bool) → v.state ≡ seen state.now → IfOk result (AreAccesses image v Nothing goes_on) }
{
    let older = older_of(alloc, state)?;
    Ok(NodeAccesses {
        reads: Vec::new(alloc),
        writes: Vec::new(alloc),
        is_sure: false,
        older,
    })
}

// Whether an instruction is a call that has a successor.
fn goes_to_callees(op: &Op, goes_on: bool) -> bool
    ensures { result ≡ (is_call_spec op.now && goes_on) }
{
    match op {
        Op::Call => goes_on,
        _ => false,
    }
}

fn of_plain(alloc: Global, view: &View<'_>, instr: &Instr) -> Result<NodeAccesses, AllocError>
    ensures { (image : Image) (goes_on : Bool) → (is_call_spec instr.now.op && goes_on) ≡ false → IfOk result (AreAccesses image (view_by view.now) (Instruction instr.now) goes_on) }
{
    let reads = reads(alloc, view.state, instr)?;
    let writes = writes(alloc, view.state, instr)?;
    let listed = Listed {
        reads: reads.as_slice(),
        writes: writes.as_slice(),
    };
    plain_accesses(alloc, view.state, view.procedure, instr, &listed)
}

fn of_call(
    alloc: Global,
    view: &View<'_>,
    image: &Image,
    instr: &Instr,
) -> Result<NodeAccesses, AllocError>
    ensures { (goes_on : Bool) → (is_call_spec instr.now.op && goes_on) ≡ true → IfOk result (AreAccesses image.now (view_by view.now) (Instruction instr.now) goes_on) }
{
    let listed = reads(alloc, view.state, instr)?;
    let reads = reached(alloc, view, listed.as_slice())?;
    let targets = targets(alloc, view, &instr.dst)?;
    let followed = followed(alloc, image, view, &instr.dst)?;
    call_accesses(
        alloc,
        view.state,
        reads,
        targets.as_slice(),
        followed.as_slice(),
    )
}

fn of_instruction(
    alloc: Global,
    view: &View<'_>,
    image: &Image,
    instr: &Instr,
    goes_on: bool,
) -> Result<NodeAccesses, AllocError>
    ensures { IfOk result (AreAccesses image.now (view_by view.now) (Instruction instr.now) goes_on) }
{
    if goes_to_callees(&instr.op, goes_on) {
        of_call(alloc, view, image, instr)
    } else {
        of_plain(alloc, view, instr)
    }
}

/// How far the accesses of a node may reach, by what stands there and whether it has a successor.
pub(crate) fn node_accesses(
    alloc: Global,
    view: &View<'_>,
    image: &Image,
    content: &Content,
    goes_on: bool,
) -> Result<NodeAccesses, AllocError>
    requires { IsContent (meant content.now) }
    ensures { IfOk result (AreAccesses image.now (view_by view.now) (meant content.now) goes_on) }
{
    match content {
        Content::Extern(kind) => of_extern(alloc, view, kind),
        Content::Instruction(instr) => of_instruction(alloc, view, image, instr, goes_on),
        Content::Nothing => of_nothing(alloc, view.state),
    }
}
