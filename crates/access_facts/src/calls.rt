//! What a call writes: the return slots of its targets, and which procedures have older activations behind it.
ghost use Rattle.std.specs.Prelude.{◌≡◌, IfOk, map, slice_get, if◌then◌else◌};
ghost use Rattle.abs_semantics.specs.Joins.{with_number};
ghost use Rattle.abs_semantics.specs.States.{has_procedure as has_procedure_spec};
ghost use Rattle.abs_state.specs.Views.{seen};
ghost use Rattle.access_facts.specs.Sets.{older_after as older_after_spec, slot_reach as slot_reach_spec};

use crate::reach::Reach;
use abs_state::{AbsState, put_number};
use cell_map::has_number;
use image_map::RegionId;
use item_list::Items;
use std::alloc::{AllocError, Global};
use strided::Si;
use vset::Part;

fn slot_reach(alloc: Global, target: u32) -> Result<Reach, AllocError>
    ensures { IfOk result (λ r. r ≡ slot_reach_spec target) }
{
    let mut parts = Items::new(alloc);
    parts.push(Part {
        region: RegionId::Frame(target),
        si: Si::one(0),
    })?;
    Ok(Reach::Within(4, parts))
}

/// The return slots of some targets.
pub(crate) fn slots(alloc: Global, targets: &[u32]) -> Result<Vec<Reach>, AllocError>
    ensures { IfOk result (λ v. v.items ≡ map slot_reach_spec targets.now) }
{
    let mut found = Vec::new(alloc);
    for target in targets {
        let slot = slot_reach(alloc, *target)?;
        found.push(slot)?;
    }
    Ok(found)
}

fn first_of(targets: &[u32]) -> Option<u32>
    ensures { result ≡ slice_get targets.now 0 }
{
    targets.get(0).copied()
}

fn copy_of(alloc: Global, numbers: &[u32]) -> Result<Vec<u32>, AllocError>
    ensures { IfOk result (λ v. v.items ≡ numbers.now) }
{
    let copy = Vec::from_slice(alloc, numbers)?;
    Ok(copy)
}

// The procedures that have an older activation behind a call of one.
fn with_target(alloc: Global, state: &AbsState, target: u32) -> Result<Vec<u32>, AllocError>
    ensures { IfOk result (λ v. v.items ≡ (if has_procedure_spec target state.now.live then with_number target state.now.older else state.now.older)) }
{
    let mut older = copy_of(alloc, state.older.as_slice())?;
    if !has_number(state.live.as_slice(), target) {
        return Ok(older);
    }
    put_number(&mut older, target)?;
    Ok(older)
}

/// The procedures that have an older activation behind a call of some targets, of which the first counts.
pub(crate) fn older_after(
    alloc: Global,
    state: &AbsState,
    targets: &[u32],
) -> Result<Vec<u32>, AllocError>
    ensures { IfOk result (λ v. v.items ≡ older_after_spec (seen state.now) targets.now) }
{
    match first_of(targets) {
        None => copy_of(alloc, state.older.as_slice()),
        Some(target) => with_target(alloc, state, target),
    }
}
