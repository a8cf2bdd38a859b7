// Addresses of nodes, rising, each once.
ghost use Rattle.std.specs.Prelude.{◌≡◌, ℕ, ◌+◌, ◌<◌, ◌≤◌, ◌↔◌, ◌∷◌, [], ◌++◌, All, Contains, length, slice_index, take, IsTrue};
ghost use Rattle.std.specs.List.Sorted.{IsStrictlyIncreasing, IsNonDecreasing};
ghost use Rattle.flow_graph.specs.FlowGraph.{IsAt};
ghost use Rattle.slicer.specs.Search.{IsFirst};

use flow_graph::FlowNode;

// Lists the addresses of these nodes, in their order, at the front of a list.
fn list_addresses(nodes: &[FlowNode], met: &[u32], list: &mut [u32])
    requires inside { All (λ n. n < length nodes.now) met.now }
    requires room { length met.now ≤ length list.old }
    ensures { (a : ℕ) → Contains (take (length met.now) list.new) a ↔ ((n : ℕ) × Contains met.now n × IsAt nodes.now a n) }
{
    for (place, node) in met.iter().enumerate() {
        list[place] = nodes[*node as usize].at;
    }
}

// Whether the item at this place isn't the one before it.
fn is_first(items: &[u32], place: usize) -> bool
    requires { place < length items.now }
    ensures { IsTrue result ↔ IsFirst items.now place }
{
    if place == 0 {
        return true;
    }
    items[place - 1] != items[place]
}

// Puts the item at this place at the end of a list that is a part of `list`, unless it is the one before it, and gives the
// list's length.
fn put_first(items: &[u32], place: usize, list: &mut [u32], count: usize) -> usize
    requires place { place < length items.now }
    requires room { count < length list.old }
    ensures within { result ≤ count + 1 }
    ensures first { IsFirst items.now place → take result list.new ≡ take count list.old ++ slice_index items.now place ∷ [] }
    ensures again { ¬ IsFirst items.now place → take result list.new ≡ take count list.old }
{
    if !is_first(items, place) {
        return count;
    }
    list[count] = items[place];
    count + 1
}

// Puts the items of a sorted list at the front of another, each once, and gives their number.
fn list_once(sorted: &[u32], list: &mut [u32]) -> usize
    requires sorted { IsNonDecreasing sorted.now }
    requires room { length sorted.now ≤ length list.old }
    ensures within { result ≤ length sorted.now }
    ensures rising { IsStrictlyIncreasing (take result list.new) }
    ensures listed { (a : ℕ) → Contains (take result list.new) a ↔ Contains sorted.now a }
{
    let mut count = 0;
    for place in 0..sorted.len() {
        count = put_first(sorted, place, list, count);
    }
    count
}

/// Lists the addresses of these nodes, rising, each once, at the front of `list`, and gives their number. `found` is room to
/// work in.
pub fn list_slice(nodes: &[FlowNode], met: &[u32], found: &mut [u32], list: &mut [u32]) -> usize
    requires inside { All (λ n. n < length nodes.now) met.now }
    requires found_room { length met.now ≤ length found.old }
    requires list_room { length met.now ≤ length list.old }
    ensures within { result ≤ length met.now }
    ensures rising { IsStrictlyIncreasing (take result list.new) }
    ensures listed { (a : ℕ) → Contains (take result list.new) a ↔ ((n : ℕ) × Contains met.now n × IsAt nodes.now a n) }
{
    list_addresses(nodes, met, found);
    let part = &mut found[..met.len()];
    part.sort_unstable();
    list_once(part, list)
}
