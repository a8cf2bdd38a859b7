//! What a call does to an abstract state.

ghost use Rattle.std.specs.Prelude.{◌≡◌, ◌+ℤ◌, ◌∷◌, [], pos, false, true, is_some, IfOk, OnOk};
ghost use Rattle.image_map.specs.declared.region.RegionId.TheVariants.{Frame, OldFrame};
ghost use Rattle.strided.specs.Interval.{one};
ghost use Rattle.vset.specs.Values.{Top, Parts};
ghost use Rattle.vset.specs.Operations.{part, age};
ghost use Rattle.abs_semantics.specs.Joins.{agreed as agreed_spec, links_of, with_link};
ghost use Rattle.abs_semantics.specs.States.{rebuilt};
ghost use Rattle.abs_semantics.specs.Touching.{cell_at as cell_at_spec};
ghost use Rattle.abs_steps.specs.Calls.{with_values, with_older_cells, links_as as links_as_spec, without_young as without_young_spec, cut_off as cut_off_spec, older_align as older_align_spec, grown_old as grown_old_spec, grown_old_if_live as grown_old_if_live_spec, moved_align as moved_align_spec, return_slot as return_slot_spec, new_link as new_link_spec, remainder as remainder_spec, entered_value, entered as entered_spec, called as called_spec};
ghost use Rattle.abs_state.specs.Views.{seen};
ghost use Rattle.call_states.specs.Lists.{with_aged_lists, with_entered_lists, taken_by_older as taken_by_older_spec};

use crate::lists::{links_as, with_number, with_only, without_young};
use crate::moving::{Move, Taking, move_cells};
use crate::values::{Lost, Renaming, clear, rename};
use abs_results::word_number;
use abs_semantics::Link;
use abs_state::{AbsState, cell_at, put_link, put_links};
use alocs::Cells;
use cell_map::{has_number, known_number};
use ia32_types::Reg;
use image_map::{Cell, RegionId};
use item_list::Items;
use std::alloc::{AllocError, Global};
use strided::Si;
use vset::{Part, ValueSet};

/// A call: from which procedure to which, how far the new return slot lies from the caller's base, and the place after the call.
#[derive(Clone, Copy)]
pub struct Call {
    pub caller: u32,
    pub callee: u32,
    pub offset: i32,
    pub next: u32,
}

fn agreed(m: Option<u32>, n: Option<u32>) -> Option<u32>
    ensures { result ≡ agreed_spec m n }
{
    match (m, n) {
        (Some(m), Some(n)) if m == n => Some(m),
        _ => None,
    }
}

/// What is known of older activations, where the newest one of a procedure becomes one of them.
fn older_align(a: &AbsState, callee: u32) -> Option<u32>
    ensures { result ≡ older_align_spec (seen a.now) callee }
{
    let aligns = a.aligns.as_slice();
    let newest = known_number(aligns, &RegionId::Frame(callee));
    if has_number(a.older.as_slice(), callee) {
        agreed(newest, known_number(aligns, &RegionId::OldFrame(callee)))
    } else {
        newest
    }
}

/// The links of a procedure whose newest activation grows old.
fn aged_links(alloc: Global, callee: u32, links: &[Link]) -> Result<Vec<Link>, AllocError>
    ensures { IfOk result (λ v. v.items ≡ links_of (links_as_spec callee false true links.now) (without_young_spec callee links.now)) }
{
    let aged = links_as(alloc, callee, false, true, links)?;
    let mut out = without_young(alloc, callee, links)?;
    put_links(&mut out, aged.as_slice())?;
    Ok(out)
}

/// What older activations take over from the newest.
fn taken_by_older(older: &[u32], callee: u32) -> Taking
    ensures { result ≡ taken_by_older_spec callee older.now }
{
    if has_number(older, callee) {
        Taking::Joined
    } else {
        Taking::Replaced
    }
}

/// Older activations of a procedure hold what its newest does.
fn age_values(alloc: Global, callee: u32, a: &mut AbsState) -> Result<(), AllocError>
    ensures { OnOk result (seen a.new ≡ with_older_cells callee (with_values (age (Frame callee) (OldFrame callee)) (seen a.old))) }
{
    let taking = taken_by_older(a.older.as_slice(), callee);
    let renaming = Renaming::Aged(RegionId::Frame(callee), RegionId::OldFrame(callee));
    rename(alloc, a, &renaming)?;
    let change = Move {
        to: RegionId::OldFrame(callee),
        from: RegionId::Frame(callee),
        taking,
    };
    move_cells(alloc, a, &change)?;
    Ok(())
}

fn age_lists(
    alloc: Global,
    callee: u32,
    align: Option<u32>,
    a: &mut AbsState,
) -> Result<(), AllocError>
    ensures { OnOk result (seen a.new ≡ with_aged_lists callee align (seen a.old)) }
{
    let older = with_number(alloc, callee, a.older.as_slice())?;
    let links = aged_links(alloc, callee, a.links.as_slice())?;
    let old = RegionId::OldFrame(callee);
    let aligns = with_only(alloc, old, align, a.aligns.as_slice())?;
    a.older = Items::from_vec(older);
    a.links = Items::from_vec(links);
    a.aligns = Items::from_vec(aligns);
    Ok(())
}

/// The newest activation of a procedure grows old.
fn grow_old(alloc: Global, callee: u32, a: &mut AbsState) -> Result<(), AllocError>
    ensures { OnOk result (seen a.new ≡ grown_old_spec callee (seen a.old)) }
{
    let align = older_align(a, callee);
    age_values(alloc, callee, a)?;
    age_lists(alloc, callee, align, a)?;
    Ok(())
}

fn grow_old_if_live(alloc: Global, callee: u32, a: &mut AbsState) -> Result<(), AllocError>
    ensures { OnOk result (seen a.new ≡ grown_old_if_live_spec callee (seen a.old)) }
{
    if has_number(a.live.as_slice(), callee) {
        grow_old(alloc, callee, a)
    } else {
        Ok(())
    }
}

/// The remainder of a base and an offset modulo 16.
fn remainder(base: u32, offset: i32) -> u32
    ensures { result ≡ remainder_spec (pos base +ℤ offset) 16 }
{
    (i64::from(base) + i64::from(offset)).rem_euclid(16) as u32
}

/// What the base of an activation leaves modulo 16, by what its caller's leaves.
fn moved_align(offset: i32, align: Option<u32>) -> Option<u32>
    ensures { result ≡ moved_align_spec offset align }
{
    match align {
        None => None,
        Some(base) => Some(remainder(base, offset)),
    }
}

/// Whether the return slot of an activation is a cell.
fn is_slot_cell(cells: &Cells, callee: u32) -> bool
    ensures { result ≡ is_some (cell_at_spec cells.now (Frame callee) (pos 0) 4) }
{
    cell_at(cells, RegionId::Frame(callee), 0, 4).is_some()
}

fn return_slot(callee: u32) -> Cell
    ensures { result ≡ return_slot_spec callee }
{
    Cell {
        region: RegionId::Frame(callee),
        start: 0,
        end: 4,
    }
}

/// The cells of the callee may hold every value, but that its return slot, where this is a cell, holds the place after the call.
fn enter_cells(
    alloc: Global,
    cells: &Cells,
    call: &Call,
    a: &mut AbsState,
) -> Result<(), AllocError>
    ensures { OnOk result (seen a.new ≡ record (seen a.old) { cells = rebuilt (entered_value cells.now call.now.callee call.now.next (seen a.old)) (record { cell = return_slot_spec call.now.callee; value = Top } ∷ (seen a.old).cells) }) }
{
    clear(alloc, a, &Lost::All(RegionId::Frame(call.callee)))?;
    if !is_slot_cell(cells, call.callee) {
        return Ok(());
    }
    a.cells
        .put(&return_slot(call.callee), word_number(call.next))?;
    Ok(())
}

fn new_link(call: &Call) -> Link
    ensures { result ≡ new_link_spec call.now.callee call.now.caller call.now.offset }
{
    Link {
        child: call.callee,
        aged: false,
        parent: call.caller,
        off: Si::one(call.offset),
    }
}

/// The links of a procedure that is entered: that of this call is the only one that isn't old.
fn entered_links(alloc: Global, call: &Call, links: &[Link]) -> Result<Vec<Link>, AllocError>
    ensures { IfOk result (λ v. v.items ≡ with_link (new_link_spec call.now.callee call.now.caller call.now.offset) (without_young_spec call.now.callee links.now)) }
{
    let mut out = without_young(alloc, call.callee, links)?;
    put_link(&mut out, &new_link(call))?;
    Ok(out)
}

fn enter_lists(
    alloc: Global,
    call: &Call,
    align: Option<u32>,
    a: &mut AbsState,
) -> Result<(), AllocError>
    ensures { OnOk result (seen a.new ≡ with_entered_lists call.now align (seen a.old)) }
{
    let live = with_number(alloc, call.callee, a.live.as_slice())?;
    let links = entered_links(alloc, call, a.links.as_slice())?;
    let moved = moved_align(call.offset, align);
    let callee = RegionId::Frame(call.callee);
    let aligns = with_only(alloc, callee, moved, a.aligns.as_slice())?;
    a.live = Items::from_vec(live);
    a.links = Items::from_vec(links);
    a.aligns = Items::from_vec(aligns);
    Ok(())
}

/// The start of an activation.
#[tactic(auto, unfolding(vset::specs::Values::settled))]
fn start_of(callee: u32) -> ValueSet
    ensures { result ≡ Parts (part (Frame callee) (one (pos 0)) ∷ []) }
{
    ValueSet::one(Part {
        region: RegionId::Frame(callee),
        si: Si::one(0),
    })
}

/// The callee's newest activation begins, where the caller's base leaves `align`.
fn enter(
    alloc: Global,
    cells: &Cells,
    call: &Call,
    align: Option<u32>,
    a: &mut AbsState,
) -> Result<(), AllocError>
    ensures { OnOk result (seen a.new ≡ entered_spec cells.now call.now.callee call.now.caller call.now.offset call.now.next align (seen a.old)) }
{
    enter_cells(alloc, cells, call, a)?;
    enter_lists(alloc, call, align, a)?;
    a.registers.set(Reg::Esp, start_of(call.callee));
    a.fact = None;
    Ok(())
}

/// The caller's bytes below the end of the new return slot are lost.
fn cut_off(alloc: Global, call: &Call, a: &mut AbsState) -> Result<(), AllocError>
    ensures { OnOk result (seen a.new ≡ cut_off_spec call.now.caller (call.now.offset +ℤ pos 4) (seen a.old)) }
{
    let end = i64::from(call.offset) + 4;
    clear(alloc, a, &Lost::Below(RegionId::Frame(call.caller), end))?;
    Ok(())
}

/// The state after a call.
#[tactic(auto, unfolding(abs_steps::specs::Calls::called))]
pub fn called(
    alloc: Global,
    cells: &Cells,
    call: &Call,
    a: &AbsState,
) -> Result<AbsState, AllocError>
    ensures { IfOk result (λ r. seen r ≡ called_spec cells.now call.now.caller call.now.offset call.now.callee call.now.next (seen a.now)) }
{
    let align = known_number(a.aligns.as_slice(), &RegionId::Frame(call.caller));
    let mut out = a.clone()?;
    cut_off(alloc, call, &mut out)?;
    grow_old_if_live(alloc, call.callee, &mut out)?;
    enter(alloc, cells, call, align, &mut out)?;
    Ok(out)
}
