// Floods: back from nodes along the steps of control.
ghost use Rattle.std.specs.Prelude.{◌≡◌, ◌≢◌, ◌⊎◌, ℕ, ◌+◌, ◌<◌, ◌≤◌, ◌^◌, ◌↔◌, All, length, replicate, IsTrue, slice_index};
ghost use Rattle.flow_graph.specs.FlowGraph.{IsAt, IsEnd, Avoids, Reaches, Escapes};
ghost use Rattle.flow_graph.specs.Rows.{IsBit, HasBit};
ghost use Rattle.control_walks.specs.Floods.{IsTarget, ShowsReaches, ShowsEscapes, ShowsApart};

use flow_graph::{FlowNode, begin, grow};

// Whether a node stands at this address; a number past the nodes stands nowhere.
fn is_at(nodes: &[FlowNode], node: u32, at: u32) -> bool
    ensures { IsTrue result ↔ IsAt nodes.now at node }
{
    match nodes.get(node as usize) {
        Some(here) => here.at == at,
        None => false,
    }
}

/// A word with bit k set as well, where it is wished.
pub fn with_bit(word: u64, k: usize, is_set: bool) -> u64
    requires { k < 64 }
    ensures { (j : ℕ) → IsBit result j ↔ (IsBit word j ⊎ (IsTrue is_set × (j ≡ k))) }
{
    if !is_set {
        return word;
    }
    word | (1 << k)
}

// Which of these nodes don't stand at an address, one bit each.
fn apart(nodes: &[FlowNode], targets: &[u32], at: u32) -> u64
    requires { length targets.now ≤ 64 }
    ensures { ShowsApart nodes.now targets.now at result }
{
    let mut word = 0;
    for (k, target) in targets.iter().enumerate() {
        word = with_bit(word, k, !is_at(nodes, *target, at));
    }
    word
}

// A word, or 0 where it isn't wished.
fn word_if(word: u64, is_wished: bool) -> u64
    ensures { (k : ℕ) → IsBit result k ↔ (IsTrue is_wished × IsBit word k) }
{
    if !is_wished {
        return 0;
    }
    word
}

// Each node keeps the bits of the nodes that stand elsewhere, and each end begins with what it keeps.
fn seat_ends(nodes: &[FlowNode], targets: &[u32], kept: &mut [u64], rows: &mut [u64])
    requires few { length targets.now ≤ 64 }
    requires kept_room { length nodes.now ≤ length kept.old }
    requires rows_room { length nodes.now ≤ length rows.old }
    ensures keeps { (m k at : ℕ) → m < length nodes.now → IsTarget nodes.now targets.now k at → HasBit kept.new m k ↔ Avoids nodes.now at m }
    ensures ends { (m k at : ℕ) → IsTarget nodes.now targets.now k at → HasBit rows.new m k ↔ (IsEnd nodes.now m × Avoids nodes.now at m) }
{
    rows.fill(0);
    for (place, node) in nodes.iter().enumerate() {
        let word = apart(nodes, targets, node.at);
        kept[place] = word;
        rows[place] = word_if(word, node.end);
    }
}

/// Fills the rows that say which nodes reach which of these.
pub fn flood_reaching(
    nodes: &[FlowNode],
    order: &[u32],
    targets: &[u32],
    kept: &mut [u64],
    rows: &mut [u64],
)
    requires few { length targets.now ≤ 64 }
    requires kept_room { length nodes.now ≤ length kept.old }
    requires rows_room { length nodes.now ≤ length rows.old }
    requires inside { All (λ n. n < length nodes.now) targets.now }
    ensures { ShowsReaches nodes.now targets.now rows.new }
{
    kept.fill(u64::MAX);
    begin(rows, targets);
    grow(nodes, order, kept, rows);
}

/// Fills the rows that say from which nodes an end is reached round which of these nodes' addresses.
pub fn flood_escaping(
    nodes: &[FlowNode],
    order: &[u32],
    targets: &[u32],
    kept: &mut [u64],
    rows: &mut [u64],
)
    requires few { length targets.now ≤ 64 }
    requires kept_room { length nodes.now ≤ length kept.old }
    requires rows_room { length nodes.now ≤ length rows.old }
    ensures { ShowsEscapes nodes.now targets.now rows.new }
{
    seat_ends(nodes, targets, kept, rows);
    grow(nodes, order, kept, rows);
}
