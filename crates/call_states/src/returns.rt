//! What a return does to an abstract state.

ghost use Rattle.std.specs.Prelude.{◌≡◌, ◌<◌, ◌+ℤ◌, pos, false, true, IfOk, OnOk};
ghost use Rattle.image_map.specs.declared.region.RegionId.TheVariants.{Frame, OldFrame};
ghost use Rattle.vset.specs.Operations.{also};
ghost use Rattle.abs_semantics.specs.Joins.{links_of};
ghost use Rattle.abs_steps.specs.Calls.{with_values, links_as as links_as_spec, without_young as without_young_spec, with_revived_cells, ended as ended_spec, revived as revived_spec, ended_or_revived as ended_or_revived_spec, esp_after as esp_after_spec, gone_back as gone_back_spec, returned as returned_spec};
ghost use Rattle.abs_state.specs.Views.{seen};
ghost use Rattle.call_states.specs.Lists.{with_ended_lists, with_revived_lists};

use crate::lists::{links_as, with_only, without_child, without_number, without_young};
use crate::moving::{Move, Taking, move_cells};
use crate::values::{Lost, Renaming, clear, rename};
use abs_semantics::Link;
use abs_state::{AbsState, put_links};
use cell_map::{has_number, known_number};
use ia32_types::Reg;
use image_map::RegionId;
use item_list::Items;
use std::alloc::{AllocError, Global};
use strided::Si;
use vset::{Part, ValueSet};

fn end_lists(alloc: Global, procedure: u32, a: &mut AbsState) -> Result<(), AllocError>
    ensures { OnOk result (seen a.new ≡ with_ended_lists procedure (seen a.old)) }
{
    let live = without_number(alloc, procedure, a.live.as_slice())?;
    let links = without_child(alloc, procedure, a.links.as_slice())?;
    let region = RegionId::Frame(procedure);
    let aligns = with_only(alloc, region, None, a.aligns.as_slice())?;
    a.live = Items::from_vec(live);
    a.links = Items::from_vec(links);
    a.aligns = Items::from_vec(aligns);
    Ok(())
}

/// The activation of a procedure that ends was the only one.
fn end(alloc: Global, procedure: u32, a: &mut AbsState) -> Result<(), AllocError>
    ensures { OnOk result (seen a.new ≡ ended_spec procedure (seen a.old)) }
{
    clear(alloc, a, &Lost::All(RegionId::Frame(procedure)))?;
    end_lists(alloc, procedure, a)?;
    Ok(())
}

/// The links of a procedure of which an older activation is the newest again.
fn revived_links(alloc: Global, procedure: u32, links: &[Link]) -> Result<Vec<Link>, AllocError>
    ensures { IfOk result (λ v. v.items ≡ links_of (links_as_spec procedure true false links.now) (without_young_spec procedure links.now)) }
{
    let young = links_as(alloc, procedure, true, false, links)?;
    let mut out = without_young(alloc, procedure, links)?;
    put_links(&mut out, young.as_slice())?;
    Ok(out)
}

fn revive_lists(
    alloc: Global,
    procedure: u32,
    align: Option<u32>,
    a: &mut AbsState,
) -> Result<(), AllocError>
    ensures { OnOk result (seen a.new ≡ with_revived_lists procedure align (seen a.old)) }
{
    let links = revived_links(alloc, procedure, a.links.as_slice())?;
    let region = RegionId::Frame(procedure);
    let aligns = with_only(alloc, region, align, a.aligns.as_slice())?;
    a.links = Items::from_vec(links);
    a.aligns = Items::from_vec(aligns);
    Ok(())
}

/// The newest activation of a procedure holds what its older ones do.
fn revive_values(alloc: Global, procedure: u32, a: &mut AbsState) -> Result<(), AllocError>
    ensures { OnOk result (seen a.new ≡ with_revived_cells procedure (with_values (also (OldFrame procedure) (Frame procedure)) (seen a.old))) }
{
    let renaming = Renaming::Also(RegionId::OldFrame(procedure), RegionId::Frame(procedure));
    rename(alloc, a, &renaming)?;
    let change = Move {
        to: RegionId::Frame(procedure),
        from: RegionId::OldFrame(procedure),
        taking: Taking::Replaced,
    };
    move_cells(alloc, a, &change)?;
    Ok(())
}

/// One of the older activations of a procedure is the newest now.
fn revive(alloc: Global, procedure: u32, a: &mut AbsState) -> Result<(), AllocError>
    ensures { OnOk result (seen a.new ≡ revived_spec procedure (seen a.old)) }
{
    let align = known_number(a.aligns.as_slice(), &RegionId::OldFrame(procedure));
    revive_values(alloc, procedure, a)?;
    revive_lists(alloc, procedure, align, a)?;
    Ok(())
}

fn end_or_revive(alloc: Global, procedure: u32, a: &mut AbsState) -> Result<(), AllocError>
    ensures { OnOk result (seen a.new ≡ ended_or_revived_spec procedure (seen a.old)) }
{
    if has_number(a.older.as_slice(), procedure) {
        revive(alloc, procedure, a)
    } else {
        end(alloc, procedure, a)
    }
}

/// The stack pointer behind the return slot and some further bytes, as an offset in the caller's activation.
fn stack_after(parent: u32, off: &Si, extra: u32) -> ValueSet
    requires { extra < 65536 }
    ensures { result ≡ esp_after_spec parent off.now extra }
{
    let behind_slot = off.add(&Si::one(4));
    ValueSet::one(Part {
        region: RegionId::Frame(parent),
        si: behind_slot.add(&Si::one(extra as i32)),
    })
}

/// The end of what is lost in the caller's activation.
fn end_of_lost(off: &Si, extra: u32) -> i64
    ensures { result ≡ off.now.hi +ℤ pos 4 +ℤ pos extra }
{
    i64::from(off.hi()) + 4 + i64::from(extra)
}

/// The caller goes on: its bytes below the stack pointer are lost.
fn go_back(alloc: Global, link: &Link, extra: u32, a: &mut AbsState) -> Result<(), AllocError>
    requires { extra < 65536 }
    ensures { OnOk result (seen a.new ≡ gone_back_spec link.now.parent link.now.off extra (seen a.old)) }
{
    let limit = end_of_lost(&link.off, extra);
    let lost = Lost::Below(RegionId::Frame(link.parent), limit);
    clear(alloc, a, &lost)?;
    let sp = stack_after(link.parent, &link.off, extra);
    a.registers.set(Reg::Esp, sp);
    a.fact = None;
    Ok(())
}

/// The state after a return that takes some bytes more, by a link of the activation that ends.
#[tactic(auto, unfolding(abs_steps::specs::Calls::returned))]
pub fn returned(
    alloc: Global,
    link: &Link,
    extra: u32,
    a: &AbsState,
) -> Result<AbsState, AllocError>
    requires { extra < 65536 }
    ensures { IfOk result (λ r. seen r ≡ returned_spec link.now.child link.now.parent link.now.off extra (seen a.now)) }
{
    let mut out = a.clone()?;
    let renaming = Renaming::Dropped(RegionId::Frame(link.child));
    rename(alloc, &mut out, &renaming)?;
    end_or_revive(alloc, link.child, &mut out)?;
    go_back(alloc, link, extra, &mut out)?;
    Ok(out)
}
