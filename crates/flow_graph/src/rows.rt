// Rows of bits: 64 searches at once, against the steps of control.
ghost use Rattle.std.specs.Prelude.{◌≡◌, ◌≢◌, ◌⊎◌, ℕ, ◌<◌, ◌≤◌, ◌↔◌, false, List, length, IsTrue, slice_index};
ghost use Rattle.flow_graph.specs.Rows.{HasBit, IsBit, Comes, SomeHasBit, Grows, GrowsBy, IsSettledAt, IsSetAt, BeginsAt, room};

use super::graph::FlowNode;

/// The word of a node's row, and 0 past the rows.
pub fn word_at(rows: &[u64], node: usize) -> u64
    ensures { result ≡ slice_index rows.now node }
{
    rows.get(node).copied().unwrap_or(0)
}

/// The bits that some of these nodes have in their rows.
pub fn met(rows: &[u64], nodes: &[u32]) -> u64
    ensures { (k : ℕ) → IsBit result k ↔ SomeHasBit rows.now nodes.now k }
{
    let mut word = 0;
    for node in nodes {
        word |= word_at(rows, *node as usize);
    }
    word
}

// Gives a node what it keeps of its successors' bits, and says whether that changed its row.
fn raise(nodes: &[FlowNode], kept: &[u64], rows: &mut [u64], node: usize) -> bool
    requires node_in_range { node < length nodes.now }
    requires row_in_range { node < length rows.old }
    ensures grows { GrowsBy nodes.now kept.now rows.old rows.new result }
    ensures settled { result ≡ false → IsSettledAt nodes.now kept.now rows.new node }
{
    let old = rows[node];
    let new = old | (word_at(kept, node) & met(rows, nodes[node].next.as_slice()));
    if new == old {
        return false;
    }
    rows[node] = new;
    true
}

// One pass over all nodes by number, and whether a row changed.
fn sweep(nodes: &[FlowNode], kept: &[u64], rows: &mut [u64]) -> bool
    requires { length nodes.now ≤ length rows.old }
    ensures grows { GrowsBy nodes.now kept.now rows.old rows.new result }
    ensures settled { result ≡ false → (n : ℕ) → n < length nodes.now → IsSettledAt nodes.now kept.now rows.new n }
{
    let mut changed = false;
    for node in 0..nodes.len() {
        changed |= raise(nodes, kept, rows, node);
    }
    changed
}

// One pass over nodes in this order. The order may leave nodes out: it only saves passes.
fn sweep_in_order(nodes: &[FlowNode], order: &[u32], kept: &[u64], rows: &mut [u64])
    requires { length nodes.now ≤ length rows.old }
    ensures grows { (begun : List ℕ) → Grows nodes.now kept.now begun rows.old → Grows nodes.now kept.now begun rows.new }
    ensures room_left { room rows.new ≤ room rows.old }
{
    for node in order {
        if (*node as usize) < nodes.len() {
            raise(nodes, kept, rows, *node as usize);
        }
    }
}

/// Lets each bit that a row begins with come to the nodes from which control may go to it, as far as each node on the way keeps it.
/// The passes go by `order`, and then by number until nothing changes: a good order saves passes, and no result hangs on it.
pub fn grow(nodes: &[FlowNode], order: &[u32], kept: &[u64], rows: &mut [u64])
    requires { length nodes.now ≤ length rows.old }
    ensures { (n k : ℕ) → HasBit rows.new n k ↔ Comes nodes.now kept.now rows.old k n }
{
    loop {
        sweep_in_order(nodes, order, kept, rows);
        if !sweep(nodes, kept, rows) {
            return;
        }
    }
}

// Sets one bit of a node's row; a number past the rows has none.
fn set_bit(rows: &mut [u64], node: usize, k: usize)
    requires { k < 64 }
    ensures { (n j : ℕ) → HasBit rows.new n j ↔ (HasBit rows.old n j ⊎ IsSetAt (length rows.old) node k n j) }
{
    if node >= rows.len() {
        return;
    }
    rows[node] |= 1 << k;
}

/// Begins a search with each of at most 64 nodes: bit k is set at the k-th of them, and no other bit is.
pub fn begin(rows: &mut [u64], nodes: &[u32])
    requires { length nodes.now ≤ 64 }
    ensures { (n k : ℕ) → HasBit rows.new n k ↔ BeginsAt nodes.now (length rows.old) (length nodes.now) n k }
{
    rows.fill(0);
    for (k, node) in nodes.iter().enumerate() {
        set_bit(rows, *node as usize, k);
    }
}
