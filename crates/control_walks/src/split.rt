// Branches between the two rows of a flood.
ghost use Rattle.std.specs.Prelude.{◌≡◌, ℕ, ◌+◌, ◌<◌, ◌≤◌, ◌^◌, ◌↔◌, ◌∷◌, [], ◌++◌, if◌then◌else◌, Contains, length, take, IsTrue, MatchOption};
ghost use Rattle.std.specs.List.Sorted.{IsStrictlyIncreasing};
ghost use Rattle.flow_graph.specs.FlowGraph.{IsAt};
ghost use Rattle.flow_graph.specs.Rows.{IsBit};
ghost use Rattle.control_walks.specs.Floods.{Splits, SplitsBy};

use flow_graph::{FlowNode, word_at};

/// The address of a node, if there is such a node.
pub fn at_of(nodes: &[FlowNode], node: u32) -> Option<u32>
    ensures { MatchOption result ((at : ℕ) → ¬ IsAt nodes.now at node) (λ at. IsAt nodes.now at node) }
{
    match nodes.get(node as usize) {
        Some(here) => Some(here.at),
        None => None,
    }
}

// Whether two words have a bit in common.
fn share(a: u64, b: u64) -> bool
    ensures { IsTrue result ↔ ((k : ℕ) × IsBit a k × IsBit b k) }
{
    a & b != 0
}

// Whether two nodes stand at different addresses and share a bit, x in the one row and y in the other.
fn splits_by(nodes: &[FlowNode], reaching: &[u64], escaping: &[u64], x: u32, y: u32) -> bool
    ensures { IsTrue result ↔ SplitsBy nodes.now reaching.now escaping.now x y }
{
    match (at_of(nodes, x), at_of(nodes, y)) {
        (Some(x_at), Some(y_at)) => x_at != y_at
            && share(word_at(reaching, x as usize), word_at(escaping, y as usize)),
        _ => false,
    }
}

// Whether that holds of x and one of these nodes.
fn splits_from(
    nodes: &[FlowNode],
    reaching: &[u64],
    escaping: &[u64],
    x: u32,
    others: &[u32],
) -> bool
    ensures { IsTrue result ↔ ((y : ℕ) × Contains others.now y × SplitsBy nodes.now reaching.now escaping.now x y) }
{
    for y in others {
        if splits_by(nodes, reaching, escaping, x, *y) {
            return true;
        }
    }
    false
}

// Whether that holds of two of these nodes.
fn splits_among(nodes: &[FlowNode], reaching: &[u64], escaping: &[u64], next: &[u32]) -> bool
    ensures { IsTrue result ↔ ((x : ℕ) × Contains next.now x × ((y : ℕ) × Contains next.now y × SplitsBy nodes.now reaching.now escaping.now x y)) }
{
    for x in next {
        if splits_from(nodes, reaching, escaping, *x, next) {
            return true;
        }
    }
    false
}

/// Whether this branch goes to two nodes at different addresses that share a bit.
pub fn splits(nodes: &[FlowNode], reaching: &[u64], escaping: &[u64], branch: u32) -> bool
    ensures { IsTrue result ↔ Splits nodes.now reaching.now escaping.now branch }
{
    match nodes.get(branch as usize) {
        Some(node) => node.branch && splits_among(nodes, reaching, escaping, node.next.as_slice()),
        None => false,
    }
}

// Puts a number at the end of a list that is a part of this slice, where it is wished, and gives the list's length.
fn put_if(list: &mut [u32], count: usize, item: u32, is_wished: bool) -> usize
    requires { count < length list.old }
    ensures within { result ≤ count + 1 }
    ensures list { take result list.new ≡ (if is_wished then take count list.old ++ item ∷ [] else take count list.old) }
{
    if !is_wished {
        return count;
    }
    list[count] = item;
    count + 1
}

/// Lists the branches that split the rows, rising, at the front of a slice with a place for each node, and gives their number.
pub fn list_splits(
    nodes: &[FlowNode],
    reaching: &[u64],
    escaping: &[u64],
    list: &mut [u32],
) -> usize
    requires room { length nodes.now ≤ length list.old }
    requires numbers { length nodes.now < 2 ^ 32 }
    ensures within { result ≤ length nodes.now }
    ensures rising { IsStrictlyIncreasing (take result list.new) }
    ensures listed { (b : ℕ) → Contains (take result list.new) b ↔ Splits nodes.now reaching.now escaping.now b }
{
    let mut count = 0;
    for branch in 0..nodes.len() as u32 {
        let is_listed = splits(nodes, reaching, escaping, branch);
        count = put_if(list, count, branch, is_listed);
    }
    count
}
