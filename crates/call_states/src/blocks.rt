//! What an allocation does to an abstract state.

ghost use Rattle.std.specs.Prelude.{◌≡◌, IfOk, OnOk};
ghost use Rattle.abs_semantics.specs.Joins.{lesser as lesser_spec};
ghost use Rattle.vset.specs.Values.{only_number};
ghost use Rattle.abs_steps.specs.Calls.{older_size as older_size_spec, with_older_block as with_older_block_spec, size_of as size_of_spec, sizes_after as sizes_after_spec, block_or_none as block_or_none_spec, allocated as allocated_spec};
ghost use Rattle.ia32_semantics.specs.Effects.{Whole};
ghost use Rattle.abs_semantics.specs.Operands.{with_register};
ghost use Rattle.abs_state.specs.Views.{seen};
ghost use Rattle.call_states.specs.Lists.{taken_by_blocks};

use crate::lists::with_only;
use crate::moving::{Move, Taking, move_cells};
use crate::values::{Lost, Renaming, clear, rename};
use abs_semantics::Known;
use abs_state::AbsState;
use cell_map::known_number;
use ia32_types::Reg;
use image_map::RegionId;
use item_list::Items;
use std::alloc::{AllocError, Global};
use strided::Si;
use vset::{Part, ValueSet};

fn lesser(n: u32, other: Option<u32>) -> u32
    ensures { result ≡ lesser_spec n other }
{
    match other {
        Some(m) if m < n => m,
        _ => n,
    }
}

/// A size that all older blocks have, where the newest becomes one of them.
fn older_size(newest: Option<u32>, older: Option<u32>) -> Option<u32>
    ensures { result ≡ older_size_spec newest older }
{
    match newest {
        None => older,
        Some(m) => Some(lesser(m, older)),
    }
}

/// What the older blocks' cells hold afterwards.
fn taking(newest: Option<u32>, older: Option<u32>) -> Taking
    ensures { result ≡ taken_by_blocks newest older }
{
    match (newest, older) {
        (None, _) => Taking::Kept,
        (Some(_), None) => Taking::Replaced,
        (Some(_), Some(_)) => Taking::Joined,
    }
}

/// The newest block of a key becomes one of the older ones.
fn grow_old(alloc: Global, key: u32, a: &mut AbsState) -> Result<(), AllocError>
    ensures { OnOk result (seen a.new ≡ with_older_block_spec key (seen a.old)) }
{
    let (young, old) = (RegionId::Heap(key), RegionId::OldHeap(key));
    let blocks = a.blocks.as_slice();
    let change = Move {
        to: old,
        from: young,
        taking: taking(known_number(blocks, &young), known_number(blocks, &old)),
    };
    move_cells(alloc, a, &change)?;
    Ok(())
}

/// The least size of what is asked for.
fn size_of(asked: Option<Si>) -> u32
    ensures { result ≡ size_of_spec asked }
{
    match asked {
        Some(si) if si.lo() >= 0 => si.lo().unsigned_abs(),
        _ => 0,
    }
}

fn sizes_after(
    alloc: Global,
    key: u32,
    size: u32,
    blocks: &[Known],
) -> Result<Vec<Known>, AllocError>
    ensures { IfOk result (λ v. v.items ≡ sizes_after_spec key size blocks.now) }
{
    let (young, old) = (RegionId::Heap(key), RegionId::OldHeap(key));
    let older = older_size(known_number(blocks, &young), known_number(blocks, &old));
    let others = with_only(alloc, old, older, blocks)?;
    with_only(alloc, young, Some(size), others.as_slice())
}

/// 0, or the base of the new block.
#[tactic(auto, unfolding(vset::specs::Values::settled))]
fn block_or_none(alloc: Global, key: u32) -> Result<ValueSet, AllocError>
    ensures { IfOk result (λ v. v ≡ block_or_none_spec key) }
{
    let mut parts = Vec::new(alloc);
    parts.push(Part {
        region: RegionId::Global,
        si: Si::one(0),
    })?;
    parts.push(Part {
        region: RegionId::Heap(key),
        si: Si::one(0),
    })?;
    Ok(ValueSet::from_parts(parts))
}

/// An allocation at a key, of as many bytes as a value says.
#[tactic(auto, unfolding(abs_steps::specs::Calls::allocated))]
pub fn allocate(
    alloc: Global,
    key: u32,
    asked: &ValueSet,
    a: &mut AbsState,
) -> Result<(), AllocError>
    ensures { OnOk result (seen a.new ≡ allocated_spec key asked.now (seen a.old)) }
{
    let (young, old) = (RegionId::Heap(key), RegionId::OldHeap(key));
    let blocks = sizes_after(
        alloc,
        key,
        size_of(asked.only_number()),
        a.blocks.as_slice(),
    )?;
    rename(alloc, a, &Renaming::Aged(young, old))?;
    grow_old(alloc, key, a)?;
    clear(alloc, a, &Lost::All(young))?;
    a.blocks = Items::from_vec(blocks);
    Ok(())
}

/// Puts the new block into EAX, or 0.
pub fn give_block(
    alloc: Global,
    key: u32,
    asked: &ValueSet,
    a: &mut AbsState,
) -> Result<(), AllocError>
    ensures { OnOk result (seen a.new ≡ with_register (allocated_spec key asked.now (seen a.old)) Whole 0 (block_or_none_spec key)) }
{
    allocate(alloc, key, asked, a)?;
    let block = block_or_none(alloc, key)?;
    a.put_register(Reg::Eax, block);
    Ok(())
}
