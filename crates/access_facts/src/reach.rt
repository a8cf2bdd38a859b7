//! How far accesses to memory may reach.
ghost use Rattle.std.specs.Prelude.{◌≡◌, IfOk, Some, map};
ghost use Rattle.abs_state.specs.Views.{seen};
ghost use Rattle.access_facts.specs.Reach.{reach as reach_spec, reach_of};

use abs_state::AbsState;
use abs_steps::Access;
use item_list::Items;
use std::alloc::{AllocError, Global};
use vset::{Part, ValueSet};

/// How far an access may reach: anywhere, or within so many bytes from the members of some parts.
#[derive(Drop)]
pub enum Reach {
    Anywhere,
    Within(u32, Items<Part>),
}

fn reach_within(
    alloc: Global,
    state: &AbsState,
    procedure: u32,
    address: &ValueSet,
    len: u32,
) -> Result<Reach, AllocError>
    ensures { IfOk result (λ r. r ≡ reach_of (seen state.now) procedure address.now (Some len)) }
{
    let places = state.resolve(alloc, procedure, address, len)?;
    match places.reasons.as_slice() {
        [] => Ok(Reach::Within(len, Items::from_vec(places.entries))),
        [_, ..] => Ok(Reach::Anywhere),
    }
}

// At a node of a procedure.
#[tactic(auto, unfolding(crate::specs::Reach::reach))]
fn reached(
    alloc: Global,
    state: &AbsState,
    procedure: u32,
    access: &Access,
) -> Result<Reach, AllocError>
    ensures { IfOk result (λ r. r ≡ reach_spec (seen state.now) procedure access.now) }
{
    match access.len {
        None => Ok(Reach::Anywhere),
        Some(len) => reach_within(alloc, state, procedure, &access.addr, len),
    }
}

/// How far each of some accesses may reach, at a node of a procedure.
pub fn reaches(
    alloc: Global,
    state: &AbsState,
    procedure: u32,
    accesses: &[Access],
) -> Result<Vec<Reach>, AllocError>
    ensures { IfOk result (λ v. v.items ≡ map (reach_spec (seen state.now) procedure) accesses.now) }
{
    let mut found = Vec::new(alloc);
    for access in accesses {
        found.push(reached(alloc, state, procedure, access)?)?;
    }
    Ok(found)
}
