// The rows of one place.
ghost use Rattle.std.specs.Prelude.{◌≡◌, ℕ, ◌+◌, ◌<◌, ◌^◌, ◌↔◌, Contains, length, IsTrue, IfOk};
ghost use Rattle.dep_graph.specs.Edges.{HasPair, ReachesFrom};

use super::pairs::no_pairs;
use super::spread::{Ground, add_targets};
use flow_graph::{FlowGraph, is_on, sweep_order};
use item_list::Items;
use std::alloc::{AllocError, Global};
use std::marker::Model;

/// For one place, which nodes what a node may define arrives at.
#[derive(Debug, Drop)]
pub struct DefRows {
    pairs: Vec<Items<bool>>,
}

impl Model for DefRows {
    ghost use Rattle.std.specs.Prelude.{List, Bool};

    ghost Value = { List (List Bool) };

    ghost view = { λ s. s.pairs.items };
}

impl DefRows {
    /// Whether `from` may define the place, and some walk of one or more steps from it to `node` has no inner node that must
    /// define it.
    pub fn has(&self, node: u32, from: u32) -> bool
        ensures { IsTrue result ↔ HasPair self.now from node }
    {
        match self.pairs.get(from as usize) {
            Some(row) => is_on(row.as_slice(), node as usize),
            None => false,
        }
    }
}

/// All numbers below this one.
pub fn numbers(alloc: Global, count: u32) -> Result<Vec<u32>, AllocError>
    ensures { IfOk result (λ list. (n : ℕ) → Contains list.items n ↔ (n < count)) }
{
    let mut list = Vec::new(alloc);
    for n in 0..count {
        list.push(n)?;
    }
    Ok(list)
}

/// The rows of one place. A graph with more nodes than there are numbers is answered by want of memory.
pub fn reaching(alloc: Global, graph: &FlowGraph, place: u32) -> Result<DefRows, AllocError>
    ensures { IfOk result (λ rows. (node from : ℕ) → HasPair rows from node ↔ ReachesFrom graph.now.nodes place from node) }
{
    let nodes = graph.nodes.as_slice();
    if nodes.len() >= 1 << 32 {
        return Err(AllocError);
    }
    let order = sweep_order(alloc, nodes)?;
    let targets = numbers(alloc, nodes.len() as u32)?;
    let ground = Ground {
        nodes,
        order: order.as_slice(),
        place,
    };
    let mut pairs = no_pairs(alloc, nodes.len())?;
    add_targets(alloc, &ground, targets.as_slice(), pairs.as_mut_slice())?;
    Ok(DefRows { pairs })
}
