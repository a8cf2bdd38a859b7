//! Which calls come back, for 64 facts of nodes at once: bit k of a node's word says that the k-th fact holds there.
ghost use Rattle.std.specs.Prelude.{◌≡◌, ◌↔◌, ℕ, ◌+◌, ◌<◌, Bool, false, length, slice_index};
ghost use Rattle.flow_graph.specs.Rows.{HasBit};
ghost use Rattle.matched_calls.specs.Extended.{IsPlan};
ghost use Rattle.matched_calls.specs.Summaries.{IsExit, IsSeated, IsSummary, IsTight, Raises};

use crate::kinds::StepKinds;
use crate::sites::Plan;
use flow_graph::{FlowNode, grow, met, word_at};

/// A graph, its kinds of steps, and the plan of both.
#[derive(Clone, Copy)]
pub(crate) struct Ground<'a> {
    pub nodes: &'a [FlowNode],
    pub kinds: &'a StepKinds,
    pub plan: &'a Plan,
}

// Gives a node its word; a number past the rows has none.
fn seat(rows: &mut [u64], node: u32, word: u64)
    ensures len { length rows.new ≡ length rows.old }
    ensures bits { (n k : ℕ) → HasBit rows.new n k ↔ IsSeated rows.old node word n k }
{
    let place = node as usize;
    if place < rows.len() {
        rows[place] = word;
    }
}

// Begins with what these nodes keep.
fn seat_exits(exits: &[u32], kept: &[u64], rows: &mut [u64])
    requires { length rows.old ≡ length kept.now }
    ensures len { length rows.new ≡ length rows.old }
    ensures begins { (n k : ℕ) → HasBit rows.new n k ↔ IsExit exits.now kept.now n k }
{
    rows.fill(0);
    for exit in exits {
        seat(rows, *exit, word_at(kept, *exit as usize));
    }
}

// Notes for which facts this call comes back, and says whether that is new.
fn come_back(ground: &Ground, kept: &mut [u64], rows: &mut [u64], j: usize) -> bool
    requires plan { IsPlan ground.now.nodes.now ground.now.kinds.now ground.now.plan.now }
    requires within { j < length ground.now.kinds.now.after }
    requires room { length kept.old ≡ length ground.now.nodes.now + length ground.now.kinds.now.after }
    requires rows { length rows.old ≡ length kept.old }
    ensures raises { Raises ground.now.nodes.now ground.now.kinds.now kept.old kept.new result }
    ensures tight { result ≡ false → IsTight ground.now.nodes.now ground.now.kinds.now ground.now.plan.now kept.new j }
    ensures rows { length rows.new ≡ length rows.old }
{
    let site = &ground.plan.sites.as_slice()[j];
    let level = &ground.plan.level;
    seat_exits(site.exits.as_slice(), kept, rows);
    grow(level.nodes.as_slice(), level.order.as_slice(), kept, rows);
    let place = ground.nodes.len() + j;
    let old = kept[place];
    let new = old | met(rows, site.entries.as_slice());
    if new == old {
        return false;
    }
    kept[place] = new;
    true
}

// Notes for which facts the call of this number comes back, if there is one.
fn try_back(ground: &Ground, kept: &mut [u64], rows: &mut [u64], j: u32)
    requires plan { IsPlan ground.now.nodes.now ground.now.kinds.now ground.now.plan.now }
    requires room { length kept.old ≡ length ground.now.nodes.now + length ground.now.kinds.now.after }
    requires rows { length rows.old ≡ length kept.old }
    ensures raises { (changed : Bool) × Raises ground.now.nodes.now ground.now.kinds.now kept.old kept.new changed }
    ensures rows { length rows.new ≡ length rows.old }
{
    let place = j as usize;
    if place < ground.kinds.after.len() {
        come_back(ground, kept, rows, place);
    }
}

// One pass over the calls in an order. The order may leave calls out: it only saves passes.
fn pass_in_order(ground: &Ground, kept: &mut [u64], rows: &mut [u64])
    requires plan { IsPlan ground.now.nodes.now ground.now.kinds.now ground.now.plan.now }
    requires room { length kept.old ≡ length ground.now.nodes.now + length ground.now.kinds.now.after }
    requires rows { length rows.old ≡ length kept.old }
    ensures raises { (changed : Bool) × Raises ground.now.nodes.now ground.now.kinds.now kept.old kept.new changed }
    ensures rows { length rows.new ≡ length rows.old }
{
    for j in ground.plan.turns.as_slice() {
        try_back(ground, kept, rows, *j);
    }
}

// One pass over all calls by number, and whether something was new.
fn pass(ground: &Ground, kept: &mut [u64], rows: &mut [u64]) -> bool
    requires plan { IsPlan ground.now.nodes.now ground.now.kinds.now ground.now.plan.now }
    requires room { length kept.old ≡ length ground.now.nodes.now + length ground.now.kinds.now.after }
    requires rows { length rows.old ≡ length kept.old }
    ensures raises { Raises ground.now.nodes.now ground.now.kinds.now kept.old kept.new result }
    ensures tight { result ≡ false → (j : ℕ) → j < length ground.now.kinds.now.after → IsTight ground.now.nodes.now ground.now.kinds.now ground.now.plan.now kept.new j }
    ensures rows { length rows.new ≡ length rows.old }
{
    let mut changed = false;
    for j in 0..ground.kinds.after.len() {
        changed |= come_back(ground, kept, rows, j);
    }
    changed
}

/// Notes behind the words of the nodes, for each call that may come back, for which facts it does: on some matched walk from its entry
/// to the place after it over nodes of which the fact holds.
pub(crate) fn summarize(ground: &Ground, kept: &mut [u64], rows: &mut [u64])
    requires plan { IsPlan ground.now.nodes.now ground.now.kinds.now ground.now.plan.now }
    requires room { length kept.old ≡ length ground.now.nodes.now + length ground.now.kinds.now.after }
    requires rows { length rows.old ≡ length kept.old }
    requires none { (j k : ℕ) → j < length ground.now.kinds.now.after → ¬ HasBit kept.old (length ground.now.nodes.now + j) k }
    ensures len { length kept.new ≡ length ground.now.nodes.now + length ground.now.kinds.now.after }
    ensures rows { length rows.new ≡ length rows.old }
    ensures same { (n : ℕ) → n < length ground.now.nodes.now → slice_index kept.new n ≡ slice_index kept.old n }
    ensures summary { IsSummary ground.now.nodes.now ground.now.kinds.now kept.new }
{
    loop {
        pass_in_order(ground, kept, rows);
        if !pass(ground, kept, rows) {
            return;
        }
    }
}
