//! Numbers, rising, each once.
ghost use Rattle.std.specs.Prelude.{◌≡◌, ◌++◌, [], IfOk, OnOk, map};
ghost use Rattle.abs_semantics.specs.declared.parts.Known.{Known};
ghost use Rattle.image_map.specs.Regions.{number};
ghost use Rattle.abs_semantics.specs.Joins.{numbers_of};
ghost use Rattle.abs_steps.specs.Successors.{Placed};
ghost use Rattle.std.specs.List.{flat_map};
ghost use Rattle.transfer_flow.specs.Successors.{placed_of};
ghost use Rattle.access_facts.specs.Maps.{all_of};
ghost use Rattle.access_facts.specs.Places.{keys as keys_spec, keys_in, procedures as procedures_spec};

use abs_semantics::Known;
use abs_state::{AbsState, put_number};
use call_strings::Node;
use image_map::RegionId;
use std::alloc::{AllocError, Global};

/// The procedures and the keys of a map, rising.
#[derive(Drop)]
pub(crate) struct Names {
    pub procedures: Vec<u32>,
    pub keys: Vec<u32>,
}

// Some numbers, rising, each once.
fn rising(alloc: Global, numbers: &[u32]) -> Result<Vec<u32>, AllocError>
    ensures { IfOk result (λ v. v.items ≡ numbers_of numbers.now []) }
{
    let mut found = Vec::new(alloc);
    let mut rest = numbers;
    while let Some((number, before)) = rest.split_last() {
        put_number(&mut found, *number)?;
        rest = before;
    }
    Ok(found)
}

// The procedures of all nodes.
fn all_procedures(alloc: Global, placed: &[(&Node, &AbsState)]) -> Result<Vec<u32>, AllocError>
    ensures { IfOk result (λ v. v.items ≡ map (λ o. (placed_of o).node.context.proc) placed.now) }
{
    let mut found = Vec::new(alloc);
    for other in placed {
        found.push(other.0.context.proc)?;
    }
    Ok(found)
}

fn key_of(known: &Known) -> u32
    ensures { result ≡ number known.now.region }
{
    match known.region {
        RegionId::Global => 0,
        RegionId::Frame(n) | RegionId::OldFrame(n) | RegionId::Heap(n) | RegionId::OldHeap(n) => n,
    }
}

// Puts the keys of a state's blocks behind others.
fn push_keys(found: &mut Vec<u32>, blocks: &[Known]) -> Result<(), AllocError>
    ensures { OnOk result (found.new.items ≡ found.old.items ++ map (λ (k : Known). number k.region) blocks.now) }
{
    for block in blocks {
        found.push(key_of(block))?;
    }
    Ok(())
}

// The keys of the blocks of all states.
fn all_keys(alloc: Global, placed: &[(&Node, &AbsState)]) -> Result<Vec<u32>, AllocError>
    ensures { IfOk result (λ v. v.items ≡ flat_map (λ o. keys_in (placed_of o).state) placed.now) }
{
    let mut found = Vec::new(alloc);
    for other in placed {
        push_keys(&mut found, other.1.blocks.as_slice())?;
    }
    Ok(found)
}

/// The procedures that have a node, and the keys of the blocks that states have.
pub(crate) fn names_in(alloc: Global, placed: &[(&Node, &AbsState)]) -> Result<Names, AllocError>
    ensures procedures { IfOk result (λ names. names.procedures.items ≡ procedures_spec (map (λ (p : Placed). p.node) (all_of placed.now))) }
    ensures keys { IfOk result (λ names. names.keys.items ≡ keys_spec (map (λ (p : Placed). p.state) (all_of placed.now))) }
{
    let told = all_procedures(alloc, placed)?;
    let procedures = rising(alloc, told.as_slice())?;
    let found = all_keys(alloc, placed)?;
    let keys = rising(alloc, found.as_slice())?;
    Ok(Names { procedures, keys })
}
