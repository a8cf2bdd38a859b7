//! The accesses of a node, by what stands there and by lists of accesses that are handed in.
ghost use Rattle.std.specs.Prelude.{◌≡◌, ◌&&◌, Bool, IfOk, false, true};
ghost use Rattle.image_map.specs.declared.image.Image.{Image};
ghost use Rattle.abs_state.specs.Views.{seen};
ghost use Rattle.abs_steps.specs.Accesses.{reads as reads_spec, writes as writes_spec};
ghost use Rattle.abs_steps.specs.Places.{Instruction, followed as followed_spec, targets as targets_spec};
ghost use Rattle.abs_steps.specs.Successors.{is_call};
ghost use Rattle.abs_steps.specs.Views.{View};
ghost use Rattle.access_facts.specs.NodeSets.{AreAccesses, IsOf};
ghost use Rattle.access_facts.specs.Reach.{reaches as reaches_spec};
ghost use Rattle.ia32_types.specs.declared.Instr.{Instr};

use crate::calls::{older_after, slots};
use crate::counts::writes_a_known_count;
use crate::node::NodeAccesses;
use crate::reach::{Reach, reaches};
use abs_state::AbsState;
use abs_steps::Access;
use ia32_types::Instr;
use std::alloc::{AllocError, Global};

/// What is read at a node, and what is written.
#[derive(Drop)]
pub(crate) struct Listed<'a> {
    pub reads: &'a [Access],
    pub writes: &'a [Access],
}

/// Of an instruction that is no call, or of a call that goes nowhere.
pub(crate) fn plain_accesses(
    alloc: Global,
    state: &AbsState,
    procedure: u32,
    instr: &Instr,
    listed: &Listed<'_>,
) -> Result<NodeAccesses, AllocError>
    ensures { (image : Image) (v : View) (goes_on : Bool) → IsOf v (seen state.now) procedure → listed.now.reads.now ≡ reads_spec instr.now.op v.state instr.now → listed.now.writes.now ≡ writes_spec instr.now.op v.state instr.now → (is_call instr.now.op && goes_on) ≡ false → IfOk result (AreAccesses image v (Instruction instr.now) goes_on) }
{
    let reads = reaches(alloc, state, procedure, listed.reads)?;
    let writes = reaches(alloc, state, procedure, listed.writes)?;
    let older = Vec::from_slice(alloc, state.older.as_slice())?;
    let is_sure = writes_a_known_count(state, instr);
    Ok(NodeAccesses {
        reads,
        writes,
        is_sure,
        older,
    })
}

/// Of a call that goes on: its targets, and those that are followed.
pub(crate) fn call_accesses(
    alloc: Global,
    state: &AbsState,
    reads: Vec<Reach>,
    targets: &[u32],
    followed: &[u32],
) -> Result<NodeAccesses, AllocError>
    ensures { (image : Image) (v : View) (i : Instr) (goes_on : Bool) → v.state ≡ seen state.now → (is_call i.op && goes_on) ≡ true → reads.items ≡ reaches_spec v (reads_spec i.op v.state i) → targets.now ≡ targets_spec v i.dst → followed.now ≡ followed_spec image v i.dst → IfOk result (AreAccesses image v (Instruction i) goes_on) }
{
    let writes = slots(alloc, followed)?;
    let older = older_after(alloc, state, targets)?;
    let is_sure = targets.len() == 1;
    Ok(NodeAccesses {
        reads,
        writes,
        is_sure,
        older,
    })
}
