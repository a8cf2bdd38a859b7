//! How two abstract states become one.

ghost use Rattle.std.specs.Prelude.{◌≡◌, ◌++◌, ◌||◌, map, IfOk, OnOk};
ghost use Rattle.abs_semantics.specs.Joins.{agreed as agreed_spec, joined_align as joined_align_spec, with_known, known_anew, widened_link as widened_link_spec, joined_state, widened_state};
ghost use Rattle.abs_state.specs.Puts.{folded, known_by};
ghost use Rattle.abs_state.specs.Views.{flag_in, seen};

use crate::facts::fact_of;
use crate::puts::{links, numbers, put_known, sizes};
use crate::state::AbsState;
use abs_semantics::{Known, Link};
use cell_map::{Rule, is_same_link, known_number};
use image_map::RegionId;
use item_list::Items;
use std::alloc::{AllocError, Global};
use vset::{AbsFlags, Both};

/// What either allows.
#[tactic(auto, using(crate::proofs::ViewLemmas::flags_of_both))]
fn flags_of_both(a: &AbsFlags, b: &AbsFlags) -> AbsFlags
    ensures { flag_in result ≡ (λ n t. flag_in a.now n t || flag_in b.now n t) }
{
    AbsFlags {
        zero: a.zero.with(b.zero),
        one: a.one.with(b.one),
    }
}

fn agreed(m: Option<u32>, n: Option<u32>) -> Option<u32>
    ensures { result ≡ agreed_spec m n }
{
    match (m, n) {
        (Some(m), Some(n)) if m == n => Some(m),
        _ => None,
    }
}

/// The alignment of a region in both: where one state alone has the region, as that one knows it.
fn joined_align(a: &AbsState, b: &AbsState, region: &RegionId) -> Option<u32>
    ensures { result ≡ joined_align_spec (seen a.now) (seen b.now) region.now }
{
    let first = known_number(a.aligns.as_slice(), region);
    let second = known_number(b.aligns.as_slice(), region);
    match (a.has_region(region), b.has_region(region)) {
        (true, false) => first,
        (false, true) => second,
        _ => agreed(first, second),
    }
}

fn put_align(out: &mut Vec<Known>, region: RegionId, number: Option<u32>) -> Result<(), AllocError>
    ensures { OnOk result (out.new.items ≡ with_known region number out.old.items) }
{
    match number {
        None => Ok(()),
        Some(number) => put_known(out, Known { region, number }),
    }
}

fn put_aligns(
    into: Vec<Known>,
    a: &AbsState,
    b: &AbsState,
    more: &[Known],
) -> Result<Vec<Known>, AllocError>
    ensures { IfOk result (λ v. v.items ≡ folded (known_by (joined_align_spec (seen a.now) (seen b.now))) more.now into.items) }
{
    let mut out = into;
    let mut rest = more;
    while let Some((k, before)) = rest.split_last() {
        put_align(&mut out, k.region, joined_align(a, b, &k.region))?;
        rest = before;
    }
    Ok(out)
}

fn aligns(alloc: Global, a: &AbsState, b: &AbsState) -> Result<Items<Known>, AllocError>
    ensures { IfOk result (λ v. v ≡ known_anew (joined_align_spec (seen a.now) (seen b.now)) (a.now.aligns ++ b.now.aligns)) }
{
    let second = put_aligns(Vec::new(alloc), a, b, b.aligns.as_slice())?;
    let all = put_aligns(second, a, b, a.aligns.as_slice())?;
    Ok(Items::from_vec(all))
}

/// The offsets of a link widen those that it had, if it was there.
fn widened_link(old: &[Link], l: &Link) -> Link
    ensures { result ≡ widened_link_spec old.now l.now }
{
    for m in old {
        if is_same_link(m, l) {
            return Link {
                child: m.child,
                aged: m.aged,
                parent: m.parent,
                off: m.off.widen(&l.off),
            };
        }
    }
    *l
}

fn widened_links(alloc: Global, old: &[Link], new: &[Link]) -> Result<Vec<Link>, AllocError>
    ensures { IfOk result (λ v. v.items ≡ map (widened_link_spec old.now) new.now) }
{
    let mut out = Vec::new(alloc);
    for l in new {
        out.push(widened_link(old, l))?;
    }
    Ok(out)
}

impl AbsState {
    /// What either state tells of a run: each stands for no state that the result doesn't stand for.
    pub fn join(&self, alloc: Global, other: &AbsState) -> Result<AbsState, AllocError>
        ensures { IfOk result (λ s. seen s ≡ joined_state (seen self.now) (seen other.now)) }
    {
        let rule = Rule {
            both: Both::Joined,
            first: self.regions(),
            second: other.regions(),
        };
        let registers = self
            .registers
            .of_both(alloc, Both::Joined, &other.registers)?;
        let cells = self.cells.merge(alloc, &rule, &other.cells)?;
        let live = numbers(alloc, other.live.as_slice(), self.live.as_slice())?;
        let older = numbers(alloc, other.older.as_slice(), self.older.as_slice())?;
        let links = links(alloc, other.links.as_slice(), self.links.as_slice())?;
        let aligns = aligns(alloc, self, other)?;
        let blocks = sizes(alloc, other.blocks.as_slice(), self.blocks.as_slice())?;
        Ok(AbsState {
            registers,
            flags: flags_of_both(&self.flags, &other.flags),
            cells,
            live: Items::from_vec(live),
            older: Items::from_vec(older),
            links: Items::from_vec(links),
            aligns,
            blocks: Items::from_vec(blocks),
            fact: fact_of(&self.fact, &other.fact),
            root: self.root,
        })
    }

    /// What the other state tells, where registers, cells and the offsets of links go as far as words do at ends that grow.
    pub fn widen(&self, alloc: Global, other: &AbsState) -> Result<AbsState, AllocError>
        ensures { IfOk result (λ s. seen s ≡ widened_state (seen self.now) (seen other.now)) }
    {
        let rule = Rule {
            both: Both::Widened,
            first: self.regions(),
            second: other.regions(),
        };
        let registers = self
            .registers
            .of_both(alloc, Both::Widened, &other.registers)?;
        let cells = self.cells.merge(alloc, &rule, &other.cells)?;
        let links = widened_links(alloc, self.links.as_slice(), other.links.as_slice())?;
        let live = Items::from_slice(alloc, other.live.as_slice())?;
        let older = Items::from_slice(alloc, other.older.as_slice())?;
        let aligns = Items::from_slice(alloc, other.aligns.as_slice())?;
        let blocks = Items::from_slice(alloc, other.blocks.as_slice())?;
        Ok(AbsState {
            registers,
            flags: other.flags,
            cells,
            live,
            older,
            links: Items::from_vec(links),
            aligns,
            blocks,
            fact: other.fact,
            root: other.root,
        })
    }
}
