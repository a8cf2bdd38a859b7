//! Matched edges, place by place.
ghost use Rattle.std.specs.Prelude.{◌≡◌, ◌↔◌, ℕ, ◌+◌, ◌<◌, ◌≤◌, ◌^◌, Contains, IfOk, OnOk, length, slice_index};
ghost use Rattle.flow_graph.specs.FlowGraph.{MayDefine};
ghost use Rattle.flow_graph.specs.Rows.{HasBit, IsBit};
ghost use Rattle.flow_graph.specs.Walks.{IsOn};
ghost use Rattle.dep_graph.specs.Edges.{Adds, IsSquare, ListsPairs};
ghost use Rattle.matched_calls.specs.Matched.{MatchedEdge};
ghost use Rattle.matched_calls.specs.Extended.{IsPlan};
ghost use Rattle.matched_calls.specs.Places.{IsChunk, KeepsPlaces, MatchedBy};

use crate::search::{Search, add_walks};
use crate::summary::{Ground, summarize};
use control_walks::with_bit;
use dep_graph::pairs::{has_bit, list_pairs, no_pairs};
use dep_graph::{all_unless, may_define, must_define, users};
use flow_graph::FlowNode;
use item_list::Items;
use std::alloc::{AllocError, Global};

/// Up to 64 places, and the words that say which of them the nodes keep and for which calls come back.
#[derive(Clone, Copy)]
pub(crate) struct Chunk<'a> {
    pub ground: Ground<'a>,
    pub places: &'a [u32],
    pub kept: &'a [u64],
}

// Which of up to 64 places a node keeps, one bit each.
fn kept_places(node: &FlowNode, places: &[u32]) -> u64
    requires { length places.now ≤ 64 }
    ensures { (k : ℕ) → k < length places.now → IsBit result k ↔ (¬ Contains node.now.must_def (slice_index places.now k)) }
{
    let mut word = 0;
    for (k, place) in places.iter().enumerate() {
        word = with_bit(word, k, !must_define(node, *place));
    }
    word
}

// Gives each node the bits of the places that it keeps, and nothing to what stands behind the nodes.
fn seat_places(nodes: &[FlowNode], places: &[u32], kept: &mut [u64])
    requires few { length places.now ≤ 64 }
    requires room { length nodes.now ≤ length kept.old }
    ensures len { length kept.new ≡ length kept.old }
    ensures keeps { KeepsPlaces nodes.now places.now kept.new }
    ensures none { (n k : ℕ) → length nodes.now ≤ n → ¬ HasBit kept.new n k }
{
    kept.fill(0);
    for (n, node) in nodes.iter().enumerate() {
        kept[n] = kept_places(node, places);
    }
}

// Gives all 64 bits of each word to the one bit of another.
fn widen(kept: &[u64], k: usize, wide: &mut [u64])
    requires bit { k < 64 }
    requires room { length wide.old ≡ length kept.now }
    ensures len { length wide.new ≡ length kept.now }
    ensures bits { (n j : ℕ) → j < 64 → HasBit wide.new n j ↔ HasBit kept.now n k }
{
    for (n, word) in kept.iter().enumerate() {
        wide[n] = all_unless(!has_bit(*word, k));
    }
}

// Marks the nodes that may define a place.
fn mark_definers(nodes: &[FlowNode], place: u32, marks: &mut [bool])
    requires { length marks.old ≡ length nodes.now }
    ensures len { length marks.new ≡ length nodes.now }
    ensures marks { (m : ℕ) → m < length nodes.now → IsOn marks.new m ↔ MayDefine nodes.now place m }
{
    for (m, node) in nodes.iter().enumerate() {
        marks[m] = may_define(node, place);
    }
}

// Marks the edges by one of the places.
fn add_place(
    alloc: Global,
    chunk: &Chunk,
    k: usize,
    pairs: &mut [Items<bool>],
) -> Result<(), AllocError>
    requires plan { IsPlan chunk.now.ground.nodes.now chunk.now.ground.kinds.now chunk.now.ground.plan.now }
    requires chunk { IsChunk chunk.now.ground.nodes.now chunk.now.ground.kinds.now chunk.now.places.now chunk.now.kept.now }
    requires few { length chunk.now.places.now ≤ 64 }
    requires within { k < length chunk.now.places.now }
    requires numbers { length chunk.now.ground.nodes.now < 2 ^ 32 }
    requires square { IsSquare (length chunk.now.ground.nodes.now) pairs.old }
    ensures square { OnOk result (IsSquare (length chunk.now.ground.nodes.now) pairs.new) }
    ensures adds { OnOk result (Adds (MatchedEdge chunk.now.ground.nodes.now chunk.now.ground.kinds.now (slice_index chunk.now.places.now k)) pairs.old pairs.new) }
{
    let nodes = chunk.ground.nodes;
    let place = chunk.places[k];
    let mut wide = vec![in alloc; 0; chunk.kept.len()]?;
    let mut rows = vec![in alloc; 0; chunk.kept.len()]?;
    let mut sources = vec![in alloc; false; nodes.len()]?;
    widen(chunk.kept, k, &mut wide);
    mark_definers(nodes, place, &mut sources);
    let targets = users(alloc, nodes, place)?;
    let search = Search {
        ground: chunk.ground,
        kept: &wide,
        sources: &sources,
    };
    add_walks(&search, &mut rows, targets.as_slice(), pairs);
    Ok(())
}

// Marks the edges by each of the places.
fn add_each(alloc: Global, chunk: &Chunk, pairs: &mut [Items<bool>]) -> Result<(), AllocError>
    requires plan { IsPlan chunk.now.ground.nodes.now chunk.now.ground.kinds.now chunk.now.ground.plan.now }
    requires chunk { IsChunk chunk.now.ground.nodes.now chunk.now.ground.kinds.now chunk.now.places.now chunk.now.kept.now }
    requires few { length chunk.now.places.now ≤ 64 }
    requires numbers { length chunk.now.ground.nodes.now < 2 ^ 32 }
    requires square { IsSquare (length chunk.now.ground.nodes.now) pairs.old }
    ensures square { OnOk result (IsSquare (length chunk.now.ground.nodes.now) pairs.new) }
    ensures adds { OnOk result (Adds (MatchedBy chunk.now.ground.nodes.now chunk.now.ground.kinds.now chunk.now.places.now) pairs.old pairs.new) }
{
    for k in 0..chunk.places.len() {
        add_place(alloc, chunk, k, pairs)?;
    }
    Ok(())
}

// Works out which of the places the nodes keep, and for which calls come back.
fn fill_chunk(ground: &Ground, places: &[u32], kept: &mut [u64], rows: &mut [u64])
    requires plan { IsPlan ground.now.nodes.now ground.now.kinds.now ground.now.plan.now }
    requires few { length places.now ≤ 64 }
    requires room { length kept.old ≡ length ground.now.nodes.now + length ground.now.kinds.now.after }
    requires rows { length rows.old ≡ length kept.old }
    ensures { IsChunk ground.now.nodes.now ground.now.kinds.now places.now kept.new }
{
    seat_places(ground.nodes, places, kept);
    summarize(ground, kept, rows);
}

// Marks the edges by up to 64 places.
fn add_some(
    alloc: Global,
    ground: &Ground,
    places: &[u32],
    pairs: &mut [Items<bool>],
) -> Result<(), AllocError>
    requires plan { IsPlan ground.now.nodes.now ground.now.kinds.now ground.now.plan.now }
    requires few { length places.now ≤ 64 }
    requires numbers { length ground.now.nodes.now + length ground.now.kinds.now.after < 2 ^ 32 }
    requires square { IsSquare (length ground.now.nodes.now) pairs.old }
    ensures square { OnOk result (IsSquare (length ground.now.nodes.now) pairs.new) }
    ensures adds { OnOk result (Adds (MatchedBy ground.now.nodes.now ground.now.kinds.now places.now) pairs.old pairs.new) }
{
    let count = ground.nodes.len() + ground.kinds.after.len();
    let mut kept = vec![in alloc; 0; count]?;
    let mut rows = vec![in alloc; 0; count]?;
    fill_chunk(ground, places, &mut kept, &mut rows);
    let chunk = Chunk {
        ground: *ground,
        places,
        kept: &kept,
    };
    add_each(alloc, &chunk, pairs)?;
    Ok(())
}

// Marks the edges by each of these places.
fn add_places(
    alloc: Global,
    ground: &Ground,
    places: &[u32],
    pairs: &mut [Items<bool>],
) -> Result<(), AllocError>
    requires plan { IsPlan ground.now.nodes.now ground.now.kinds.now ground.now.plan.now }
    requires numbers { length ground.now.nodes.now + length ground.now.kinds.now.after < 2 ^ 32 }
    requires square { IsSquare (length ground.now.nodes.now) pairs.old }
    ensures square { OnOk result (IsSquare (length ground.now.nodes.now) pairs.new) }
    ensures adds { OnOk result (Adds (MatchedBy ground.now.nodes.now ground.now.kinds.now places.now) pairs.old pairs.new) }
{
    let mut rest = places;
    while !rest.is_empty() {
        let (some, others) = rest.split_at(rest.len().min(64));
        add_some(alloc, ground, some, pairs)?;
        rest = others;
    }
    Ok(())
}

/// The edges by these places, rising.
pub(crate) fn edges_by(
    alloc: Global,
    ground: &Ground,
    places: &[u32],
) -> Result<Vec<(u32, u32)>, AllocError>
    requires plan { IsPlan ground.now.nodes.now ground.now.kinds.now ground.now.plan.now }
    requires numbers { length ground.now.nodes.now + length ground.now.kinds.now.after < 2 ^ 32 }
    ensures { IfOk result (λ edges. ListsPairs (MatchedBy ground.now.nodes.now ground.now.kinds.now places.now) edges.items) }
{
    let mut pairs = no_pairs(alloc, ground.nodes.len())?;
    add_places(alloc, ground, places, pairs.as_mut_slice())?;
    let edges = list_pairs(alloc, pairs.as_slice())?;
    Ok(edges)
}
