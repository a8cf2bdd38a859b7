//! Which of up to 64 flooded nodes branches control, one bit each.
ghost use Rattle.std.specs.Prelude.{◌≡◌, ◌↔◌, ℕ, Contains, IsTrue, slice_get};
ghost use Rattle.std.specs.Option.{option_copied};
ghost use Rattle.flow_graph.specs.Rows.{IsBit};
ghost use Rattle.chops.specs.Masks.{IsShared, IsSplit, ShowsSome};

use control_walks::at_of;
use flow_graph::{FlowNode, word_at};

/// A graph's nodes, and the rows of a flood.
#[derive(Clone, Copy)]
pub(crate) struct Rows<'a> {
    pub nodes: &'a [FlowNode],
    pub reaching: &'a [u64],
    pub escaping: &'a [u64],
}

// The common bits of two words, or none.
fn both_if(a: u64, b: u64, is_wished: bool) -> u64
    ensures { (k : ℕ) → IsBit result k ↔ (IsTrue is_wished × IsBit a k × IsBit b k) }
{
    if !is_wished {
        return 0;
    }
    a & b
}

// The bits that x has in the one row and y in the other, where they stand at different addresses.
fn shared(rows: &Rows, x: u32, y: u32) -> u64
    ensures { (k : ℕ) → IsBit result k ↔ IsShared rows.now.nodes.now rows.now.reaching.now rows.now.escaping.now x y k }
{
    match at_of(rows.nodes, x) {
        None => 0,
        Some(x_at) => match at_of(rows.nodes, y) {
            None => 0,
            Some(y_at) => both_if(
                word_at(rows.reaching, x as usize),
                word_at(rows.escaping, y as usize),
                x_at != y_at,
            ),
        },
    }
}

// The bits that x shares with some of these nodes.
fn shared_from(rows: &Rows, x: u32, others: &[u32]) -> u64
    ensures { ShowsSome (IsShared rows.now.nodes.now rows.now.reaching.now rows.now.escaping.now x) others.now result }
{
    let mut word = 0;
    for y in others {
        word |= shared(rows, x, *y);
    }
    word
}

// The bits that some of these nodes share.
fn shared_among(rows: &Rows, next: &[u32]) -> u64
    ensures { ShowsSome (λ x k. (y : ℕ) × Contains next.now y × IsShared rows.now.nodes.now rows.now.reaching.now rows.now.escaping.now x y k) next.now result }
{
    let mut word = 0;
    for x in next {
        word |= shared_from(rows, *x, next);
    }
    word
}

fn node_at(nodes: &[FlowNode], node: u32) -> Option<&FlowNode>
    ensures { option_copied result ≡ slice_get nodes.now node }
{
    nodes.get(node as usize)
}

/// The bits of the flooded nodes that a branch controls.
pub(crate) fn split(rows: &Rows, branch: u32) -> u64
    ensures { (k : ℕ) → IsBit result k ↔ IsSplit rows.now.nodes.now rows.now.reaching.now rows.now.escaping.now branch k }
{
    match node_at(rows.nodes, branch) {
        None => 0,
        Some(node) => {
            if !node.branch {
                return 0;
            }
            shared_among(rows, node.next.as_slice())
        }
    }
}

/// The bits of the flooded nodes that some of these branches control.
pub(crate) fn split_by(rows: &Rows, branches: &[u32]) -> u64
    ensures { ShowsSome (IsSplit rows.now.nodes.now rows.now.reaching.now rows.now.escaping.now) branches.now result }
{
    let mut word = 0;
    for branch in branches {
        word |= split(rows, *branch);
    }
    word
}
