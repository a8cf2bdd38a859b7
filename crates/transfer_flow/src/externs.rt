//! Where externs go back to, and with which states.

ghost use Rattle.std.specs.Prelude.{◌≡◌, ℕ, length, IfOk, OnOk};
ghost use Rattle.image_map.specs.CallModel.{IsKind, AreSettings};
ghost use Rattle.image_map.specs.declared.image.Image.{Image as ImageSpec};
ghost use Rattle.alocs.specs.Cells.{Division};
ghost use Rattle.abs_steps.specs.Accesses.{argument};
ghost use Rattle.abs_steps.specs.Effects.{all_done};
ghost use Rattle.abs_steps.specs.Externs.{result_effects, extern_row, newest_of as newest_of_spec, block_key as block_key_spec, with_block, answered as answered_spec};
ghost use Rattle.abs_steps.specs.Successors.{answered_from as answered_from_spec, extern_successors as extern_successors_spec};
ghost use Rattle.abs_state.specs.Views.{seen};
ghost use Rattle.transfer_flow.specs.Externs.{fills_of, comes_back as comes_back_spec, gives_block as gives_block_spec, left_by, IsOfBytes};
ghost use Rattle.transfer_flow.specs.Successors.{all_placed, states_of, view_at};

use crate::returning::returned_each;
use crate::site::{Placed, Site};
use crate::stack::is_at_slot;
use abs_semantics::RangeValue;
use abs_state::{AbsState, Memory};
use abs_steps::Access;
use call_states::give_block;
use call_strings::Node;
use ia32_types::Reg;
use image_map::Kind;
use std::alloc::{AllocError, Global};
use transfer::extern_writes;
use vset::ValueSet;

/// Where an extern writes, any bytes are left.
fn fill(
    alloc: Global,
    memory: &Memory<'_>,
    written: &[Access],
    a: &mut AbsState,
) -> Result<(), AllocError>
    requires { IsOfBytes written.now }
    ensures { OnOk result (seen a.new ≡ all_done memory.now.cells.now memory.now.image.now memory.now.procedure (fills_of written.now) (seen a.old)) }
{
    match written {
        [access] => a.write_range(alloc, memory, &access.addr, access.len, &RangeValue::Any),
        _ => Ok(()),
    }
}

/// Whether an extern may return.
fn comes_back(kind: &Kind) -> bool
    ensures { result ≡ comes_back_spec kind.now }
{
    !matches!(kind, Kind::Stop)
}

/// EAX, ECX, EDX and the flags of arithmetic may be anything.
fn free_results(a: &mut AbsState)
    ensures { (cells : Division) (image : ImageSpec) (procedure : ℕ) → seen a.new ≡ all_done cells image procedure result_effects (seen a.old) }
{
    a.put_register(Reg::Eax, ValueSet::top());
    a.put_register(Reg::Ecx, ValueSet::top());
    a.put_register(Reg::Edx, ValueSet::top());
    a.free_five();
}

/// What an extern leaves in registers and flags.
fn leave_results(kind: &Kind, a: &mut AbsState)
    ensures { (cells : Division) (image : ImageSpec) (procedure : ℕ) → seen a.new ≡ all_done cells image procedure (left_by kind.now) (seen a.old) }
{
    if !comes_back(kind) {
        return;
    }
    free_results(a);
}

/// The state after an extern's row.
fn acted(alloc: Global, site: &Site<'_>, kind: &Kind) -> Result<AbsState, AllocError>
    requires { IsKind kind.now }
    ensures { IfOk result (λ s. seen s ≡ all_done site.now.program.now.cells.now site.now.program.now.image.now site.now.node.now.context.proc (extern_row kind.now (view_at site.now)) (seen site.now.state.now)) }
{
    let written = extern_writes(alloc, &site.view(), kind)?;
    let mut out = site.state.clone()?;
    fill(alloc, &site.memory(), written.as_slice(), &mut out)?;
    leave_results(kind, &mut out);
    Ok(out)
}

fn newest_of(sites: &[u32]) -> u32
    ensures { result ≡ newest_of_spec sites.now }
{
    match sites {
        [] => 0,
        [newest, ..] => *newest,
    }
}

/// The key of what is allocated at a node: the newest call's site, or the extern's address where no sites are kept.
fn block_key(lane: u32, node: &Node) -> u32
    ensures { result ≡ block_key_spec lane node.now }
{
    if lane == 0 {
        node.at
    } else {
        newest_of(node.context.sites.as_slice())
    }
}

fn gives_block(kind: &Kind) -> bool
    ensures { result ≡ gives_block_spec kind.now }
{
    matches!(kind, Kind::Alloc)
}

/// The block that an extern gives, or 0, where it gives one: its size is asked of the state before.
fn give(alloc: Global, site: &Site<'_>, kind: &Kind, a: &mut AbsState) -> Result<(), AllocError>
    ensures { OnOk result (seen a.new ≡ with_block kind.now (block_key_spec site.now.program.now.lane site.now.node.now) (argument (view_at site.now) 1) (seen a.old)) }
{
    if !gives_block(kind) {
        return Ok(());
    }
    let key = block_key(site.program.lane, site.node);
    let asked = site.view().argument(alloc, 1)?;
    give_block(alloc, key, &asked, a)?;
    Ok(())
}

/// The state in which an extern returns.
fn answered(alloc: Global, site: &Site<'_>, kind: &Kind) -> Result<AbsState, AllocError>
    requires { IsKind kind.now }
    ensures { IfOk result (λ s. seen s ≡ answered_spec (view_at site.now) site.now.program.now.image.now (block_key_spec site.now.program.now.lane site.now.node.now) kind.now) }
{
    let mut out = acted(alloc, site, kind)?;
    give(alloc, site, kind, &mut out)?;
    Ok(out)
}

/// Where an extern goes back to, unless the stack pointer is lost.
fn answered_from(
    alloc: Global,
    site: &Site<'_>,
    others: &[(&Node, &AbsState)],
    kind: &Kind,
) -> Result<Placed, AllocError>
    requires settings { AreSettings (length site.now.program.now.image.now.externs) site.now.program.now.settings.now }
    requires kind { IsKind kind.now }
    ensures { IfOk result (λ v. all_placed v.items ≡ answered_from_spec site.now.program.now.image.now site.now.program.now.settings.now (states_of site.now.program.now others.now) site.now.node.now kind.now (seen site.now.state.now)) }
{
    if !is_at_slot(site.node.context.proc, site.state) {
        return Ok(Vec::new(alloc));
    }
    let after = answered(alloc, site, kind)?;
    let placed = returned_each(alloc, site, others, 0, &after)?;
    Ok(placed)
}

/// Where control goes from an extern.
pub(crate) fn extern_successors(
    alloc: Global,
    site: &Site<'_>,
    others: &[(&Node, &AbsState)],
    kind: &Kind,
) -> Result<Placed, AllocError>
    requires settings { AreSettings (length site.now.program.now.image.now.externs) site.now.program.now.settings.now }
    requires kind { IsKind kind.now }
    ensures { IfOk result (λ v. all_placed v.items ≡ extern_successors_spec site.now.program.now.image.now site.now.program.now.settings.now (states_of site.now.program.now others.now) site.now.node.now kind.now (seen site.now.state.now)) }
{
    if !comes_back(kind) {
        return Ok(Vec::new(alloc));
    }
    let placed = answered_from(alloc, site, others, kind)?;
    Ok(placed)
}
