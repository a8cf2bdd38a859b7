//! A set of cuts that knows again most of those that are there already.
ghost use Rattle.std.specs.Prelude.{◌≡◌, ◌≤◌, ◌⊎◌, [], Contains, IfOk, IsTrue, Some, length, slice_get};
ghost use Rattle.std.specs.List.Sorted.{IsPermutation};
ghost use Rattle.asi_cuts.specs.declared.set.Cut.{Cut};
ghost use Rattle.asi_cuts.specs.Adding.{Adds};
ghost use Rattle.asi_cuts.specs.Closed.{AreDifferent};

use crate::set::{Cut, CutSet, Halt};
use std::alloc::{AllocError, Global};
use std::marker::Model;

/// How many slots there are: a power of 2.
const SLOTS: u32 = 4096;

/// Different cuts. Nearly all cuts that are added are there already, so each stands once more in a slot, where it is found without a
/// search until another takes its place.
#[derive(Drop)]
pub(crate) struct KnownCuts {
    set: CutSet,
    recent: Vec<Option<Cut>>,
}

impl Model for KnownCuts {
    ghost use Rattle.std.specs.Prelude.{List};
    ghost use Rattle.asi_cuts.specs.declared.set.Cut.{Cut};
    ghost use Rattle.asi_cuts.specs.Adding.{AreKnown};

    ghost Value = { List Cut };

    ghost view = { λ k. k.set };

    ghost invariant = { λ k. AreKnown k.recent.items k.set };
}

// The slot of a cut.
fn slot_of(cut: &Cut) -> usize {
    let mixed = cut.region.number().wrapping_mul(0x9E37_79B1) >> 16;
    ((mixed ^ cut.offset.cast_unsigned()) % SLOTS) as usize
}

// Whether a cut stands in its slot.
fn is_recent(recent: &[Option<Cut>], cut: &Cut) -> bool
    ensures { IsTrue result → Contains recent.now (Some cut.now) }
{
    match recent.get(slot_of(cut)) {
        Some(Some(x)) => x.is(cut),
        _ => false,
    }
}

// Puts a cut into its slot.
fn remember(recent: &mut Vec<Option<Cut>>, cut: Cut)
    ensures { (x : Cut) → Contains recent.new.items (Some x) → Contains recent.old.items (Some x) ⊎ (x ≡ cut) }
{
    let slot = slot_of(&cut);
    if slot < recent.len() {
        recent[slot] = Some(cut);
    }
}

impl KnownCuts {
    /// No cut.
    pub(crate) fn new(alloc: Global) -> Result<KnownCuts, AllocError>
        ensures { IfOk result (λ set. set ≡ []) }
    {
        let recent = vec![in alloc; None; SLOTS as usize]?;
        Ok(KnownCuts {
            set: CutSet::new(alloc),
            recent,
        })
    }

    /// The cut with a number, in the order in which they were added.
    pub(crate) fn nth(&self, number: usize) -> Option<Cut>
        ensures { result ≡ slice_get self.now number }
    {
        self.set.nth(number)
    }

    /// The cuts in their own order.
    pub(crate) fn sorted(&self) -> &[Cut]
        ensures different { AreDifferent result.now }
        ensures same { IsPermutation self.now result.now }
    {
        self.set.sorted()
    }

    /// Adds a cut, unless it is there; and says so where there are then too many.
    pub(crate) fn add(&mut self, cut: Cut) -> Result<(), Halt>
        requires { length self.old ≤ 1024 }
        ensures { Adds (λ x. x ≡ cut) self.old self.new result }
    {
        if is_recent(self.recent.as_slice(), &cut) {
            return Ok(());
        }
        match self.set.add(cut) {
            Ok(()) => {}
            Err(halt) => {
                self.recent.clear();
                return Err(halt);
            }
        }
        remember(&mut self.recent, cut);
        Ok(())
    }
}
