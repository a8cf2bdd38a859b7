//! A state after many changes: whatever differs from what it was becomes everything.

ghost use Rattle.std.specs.Prelude.{◌≡◌, ◌&&◌, ◌||◌, not, filter, length, map, IfOk};
ghost use Rattle.ia32_types.specs.declared.Flag.{Flag};
ghost use Rattle.ia32_types.specs.Numbers.{is_same_flag as is_flag};
ghost use Rattle.ia32_types.specs.Sets.{has_flag};
ghost use Rattle.abs_state.specs.Registers.{register_in};
ghost use Rattle.abs_state.specs.Same.{same_flag_of};
ghost use Rattle.abs_state.specs.Views.{flag_in, seen};
ghost use Rattle.sweeps.specs.Kept.{zip_with};
ghost use Rattle.vsa.specs.Topped.{topped_value as topped_value_spec, is_flag_kept, has_link as has_link_spec, topped_link as topped_link_spec, has_known as has_known_spec, topped_size as topped_size_spec, topped as topped_spec};

use abs_semantics::{CellValue, Known, Link};
use abs_state::{AbsState, Registers, fact_of};
use cell_map::{CellMap, Change, Same, known_number};
use ia32_types::{Flag, FlagSet};
use item_list::Items;
use std::alloc::{AllocError, Global};
use strided::Si;
use vset::{AbsFlags, ValueSet};

/// Every value, if it differs from what it was.
fn topped_value(old: &ValueSet, new: &ValueSet) -> Result<ValueSet, AllocError>
    ensures { IfOk result (λ v. v ≡ topped_value_spec old.now new.now) }
{
    if old.equals(new) {
        new.clone()
    } else {
        Ok(ValueSet::top())
    }
}

fn topped_values(
    alloc: Global,
    old: &[ValueSet],
    new: &[ValueSet],
) -> Result<Vec<ValueSet>, AllocError>
    requires { length old.now ≡ length new.now }
    ensures { IfOk result (λ v. v.items ≡ zip_with topped_value_spec old.now new.now) }
{
    let mut out = Vec::new(alloc);
    for i in 0..new.len() {
        let value = topped_value(&old[i], &new[i])?;
        out.push(value)?;
    }
    Ok(out)
}

fn registers(alloc: Global, old: &Registers, new: &Registers) -> Result<Registers, AllocError>
    ensures { IfOk result (λ r. register_in r ≡ (λ n. topped_value_spec (register_in old.now n) (register_in new.now n))) }
{
    let values = topped_values(alloc, old.values(), new.values())?;
    Ok(Registers::new(values))
}

/// Whether a flag may be the same in both.
fn is_kept(old: &AbsFlags, new: &AbsFlags, flag: Flag) -> bool
    ensures { result ≡ is_flag_kept old.now new.now flag }
{
    old.one.has(flag) == new.one.has(flag) && old.zero.has(flag) == new.zero.has(flag)
}

/// A flag, if it differs.
fn only_changed(old: &AbsFlags, new: &AbsFlags, flag: Flag) -> FlagSet
    ensures { (x : Flag) → has_flag result x ≡ (is_flag x flag && not (is_flag_kept old.now new.now flag)) }
{
    FlagSet::only_if(!is_kept(old, new, flag), flag)
}

/// The flags that differ.
fn changed_flags(old: &AbsFlags, new: &AbsFlags) -> FlagSet
    ensures { (x : Flag) → has_flag result x ≡ not (is_flag_kept old.now new.now x) }
{
    let high = only_changed(old, new, Flag::Of).with(only_changed(old, new, Flag::Df));
    let signs = only_changed(old, new, Flag::Zf).with(only_changed(old, new, Flag::Sf));
    let low = only_changed(old, new, Flag::Cf).with(only_changed(old, new, Flag::Pf));
    low.with(signs.with(high))
}

#[tactic(auto, using(crate::proofs::ToppedLemmas::flags_topped))]
fn flags(old: &AbsFlags, new: &AbsFlags) -> AbsFlags
    ensures { flag_in result ≡ (λ n t. flag_in new.now n t || not (same_flag_of old.now new.now n)) }
{
    let changed = changed_flags(old, new);
    AbsFlags {
        zero: new.zero.with(changed),
        one: new.one.with(changed),
    }
}

/// Cells as they were.
#[derive(Drop)]
struct Before<'a> {
    cells: &'a CellMap,
}

impl Change for Before<'_> {
    ghost use Rattle.abs_semantics.specs.States.{value_in};
    ghost use Rattle.vsa.specs.Topped.{topped_value as topped_value_spec};

    ghost given = { λ x c v. topped_value_spec (value_in c x.cells.now) v };

    fn value(&self, _: Global, entry: &CellValue) -> Result<Option<ValueSet>, AllocError> {
        let old = self.cells.value(&entry.cell)?;
        Ok(if old.equals(&entry.value) {
            None
        } else {
            Some(ValueSet::top())
        })
    }
}

/// Whether a link is among some, with the same offsets.
fn has_link(links: &[Link], link: &Link) -> bool
    ensures { result ≡ has_link_spec links.now link.now }
{
    links.iter().any(|other| other.is_same(link))
}

fn topped_link(old: &[Link], link: &Link) -> Link
    ensures { result ≡ topped_link_spec old.now link.now }
{
    if has_link(old, link) {
        *link
    } else {
        Link {
            child: link.child,
            aged: link.aged,
            parent: link.parent,
            off: Si::full(),
        }
    }
}

fn links(alloc: Global, old: &[Link], new: &[Link]) -> Result<Vec<Link>, AllocError>
    ensures { IfOk result (λ v. v.items ≡ map (topped_link_spec old.now) new.now) }
{
    let mut out = Vec::from_slice(alloc, new)?;
    for i in 0..new.len() {
        out[i] = topped_link(old, &out[i]);
    }
    Ok(out)
}

/// Whether the number of a region is known, and is this one.
fn has_known(old: &[Known], known: &Known) -> bool
    ensures { result ≡ has_known_spec old.now known.now }
{
    match known_number(old, &known.region) {
        None => false,
        Some(number) => number == known.number,
    }
}

fn aligns(alloc: Global, old: &[Known], new: &[Known]) -> Result<Vec<Known>, AllocError>
    ensures { IfOk result (λ v. v.items ≡ filter (has_known_spec old.now) new.now) }
{
    let mut out = Vec::from_slice(alloc, new)?;
    out.retain(|known| has_known(old, known));
    Ok(out)
}

/// A size that every block has, if it differs.
fn topped_size(old: &[Known], known: &Known) -> Known
    ensures { result ≡ topped_size_spec old.now known.now }
{
    Known {
        region: known.region,
        number: if has_known(old, known) {
            known.number
        } else {
            0
        },
    }
}

fn sizes(alloc: Global, old: &[Known], new: &[Known]) -> Result<Vec<Known>, AllocError>
    ensures { IfOk result (λ v. v.items ≡ map (topped_size_spec old.now) new.now) }
{
    let mut out = Vec::from_slice(alloc, new)?;
    for i in 0..new.len() {
        out[i] = topped_size(old, &out[i]);
    }
    Ok(out)
}

/// A new state, in which everything is allowed wherever it differs from the old one.
pub(crate) fn topped(alloc: Global, old: &AbsState, new: &AbsState) -> Result<AbsState, AllocError>
    ensures { IfOk result (λ s. seen s ≡ topped_spec (seen old.now) (seen new.now)) }
{
    let registers = registers(alloc, &old.registers, &new.registers)?;
    let mut cells = new.cells.clone()?;
    cells.change(alloc, &Before { cells: &old.cells })?;
    let links = links(alloc, old.links.as_slice(), new.links.as_slice())?;
    let aligns = aligns(alloc, old.aligns.as_slice(), new.aligns.as_slice())?;
    let blocks = sizes(alloc, old.blocks.as_slice(), new.blocks.as_slice())?;
    Ok(AbsState {
        registers,
        flags: flags(&old.flags, &new.flags),
        cells,
        live: new.live.clone()?,
        older: new.older.clone()?,
        links: Items::from_vec(links),
        aligns: Items::from_vec(aligns),
        blocks: Items::from_vec(blocks),
        fact: fact_of(&old.fact, &new.fact),
        root: new.root,
    })
}
