//! Pairs of nodes: rows of marks while they are found, and then a rising list.
ghost use Rattle.std.specs.Prelude.{◌≡◌, ◌⊎◌, ℕ, ◌<◌, ◌≤◌, ◌^◌, ◌↔◌, ◌∷◌, [], ◌++◌, false, if◌then◌else◌, length, replicate, IsTrue, IfOk, OnOk, slice_index};
ghost use Rattle.flow_graph.specs.Walks.{IsOn};
ghost use Rattle.flow_graph.specs.Rows.{IsBit};
ghost use Rattle.dep_graph.specs.Edges.{HasPair, IsSquare, ListsPairs, IsHit, AddsRow};

use item_list::Items;
use std::alloc::{AllocError, Global};

/// No pair of so many nodes.
pub fn no_pairs(alloc: Global, count: usize) -> Result<Vec<Items<bool>>, AllocError>
    ensures { IfOk result (λ pairs. pairs.items ≡ replicate count (replicate count false)) }
{
    let mut pairs = Vec::new(alloc);
    for _ in 0..count {
        let marks = vec![in alloc; false; count]?;
        pairs.push(Items::from_vec(marks))?;
    }
    Ok(pairs)
}

/// Whether bit k is set.
pub fn has_bit(word: u64, k: usize) -> bool
    requires { k < 64 }
    ensures { IsTrue result ↔ IsBit word k }
{
    (word >> k) % 2 == 1
}

/// Sets one mark, where it is wished and there.
pub fn set_if(row: &mut Items<bool>, node: usize, is_wished: bool)
    ensures len { length row.new ≡ length row.old }
    ensures marks { (n : ℕ) → n < length row.old → IsOn row.new n ↔ (IsOn row.old n ⊎ (IsTrue is_wished × (n ≡ node))) }
{
    if !is_wished {
        return;
    }
    if node >= row.len() {
        return;
    }
    row.set(node, true);
}

/// Marks those of at most 64 nodes whose bit is set, the k-th by bit k.
pub fn scatter(word: u64, targets: &[u32], row: &mut Items<bool>)
    requires { length targets.now ≤ 64 }
    ensures len { length row.new ≡ length row.old }
    ensures marks { (n : ℕ) → n < length row.old → IsOn row.new n ↔ (IsOn row.old n ⊎ IsHit word targets.now (length targets.now) n) }
{
    for (k, target) in targets.iter().enumerate() {
        let is_set = has_bit(word, k);
        set_if(row, *target as usize, is_set);
    }
}

/// Puts a pair at the end, where it is wished.
pub fn push_if(
    list: &mut Vec<(u32, u32)>,
    m: u32,
    n: u32,
    is_wished: bool,
) -> Result<(), AllocError>
    ensures { OnOk result (list.new.items ≡ (if is_wished then list.old.items ++ (m, n) ∷ [] else list.old.items)) }
{
    if is_wished {
        list.push((m, n))?;
    }
    Ok(())
}

// Puts the marked pairs of one row at the end.
fn list_row(list: &mut Vec<(u32, u32)>, m: u32, row: &[bool]) -> Result<(), AllocError>
    requires { length row.now < 2 ^ 32 }
    ensures { OnOk result (AddsRow list.old.items list.new.items m row.now) }
{
    for n in 0..row.len() as u32 {
        push_if(list, m, n, row[n as usize])?;
    }
    Ok(())
}

/// The marked pairs, rising.
pub fn list_pairs(alloc: Global, pairs: &[Items<bool>]) -> Result<Vec<(u32, u32)>, AllocError>
    requires square { IsSquare (length pairs.now) pairs.now }
    requires numbers { length pairs.now < 2 ^ 32 }
    ensures { IfOk result (λ list. ListsPairs (HasPair pairs.now) list.items) }
{
    let mut list = Vec::new(alloc);
    for m in 0..pairs.len() as u32 {
        list_row(&mut list, m, pairs[m as usize].as_slice())?;
    }
    Ok(list)
}
