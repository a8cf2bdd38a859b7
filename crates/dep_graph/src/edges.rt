// The edges of a graph, place by place.
ghost use Rattle.std.specs.Prelude.{◌≡◌, ◌≢◌, ◌⊎◌, ℕ, ◌<◌, ◌≤◌, ◌^◌, ◌↔◌, ◌∷◌, [], ◌++◌, if◌then◌else◌, All, Contains, length, IsTrue, IfOk, OnOk};
ghost use Rattle.flow_graph.specs.FlowGraph.{MayUse, MayDefine, esp_place};
ghost use Rattle.dep_graph.specs.DepGraph.{Arrives, DataEdge};
ghost use Rattle.dep_graph.specs.Edges.{HasPair, IsSquare, Adds, EdgeBy, OrdinaryEdge, ListsPairs, HasEdges, IsUsed};

use super::pairs::{list_pairs, no_pairs};
use super::spread::{Ground, add_targets, may_use};
use flow_graph::{FlowGraph, FlowNode, sweep_order};
use item_list::Items;
use std::alloc::{AllocError, Global};

/// ESP's place.
pub const ESP: u32 = 4;

/// The data edges of a graph, as pairs of node numbers, each from what defines to what uses.
#[derive(Debug, Drop)]
pub struct Edges {
    /// Those by a place other than ESP.
    pub ordinary: Items<(u32, u32)>,
    /// Those by ESP.
    pub sp: Items<(u32, u32)>,
}

/// Puts a number at the end, where it is wished.
pub fn push_if(list: &mut Vec<u32>, item: u32, is_wished: bool) -> Result<(), AllocError>
    ensures { OnOk result (list.new.items ≡ (if is_wished then list.old.items ++ item ∷ [] else list.old.items)) }
{
    if is_wished {
        list.push(item)?;
    }
    Ok(())
}

/// The nodes that may use a place, rising.
pub fn users(alloc: Global, nodes: &[FlowNode], place: u32) -> Result<Vec<u32>, AllocError>
    requires { length nodes.now < 2 ^ 32 }
    ensures { IfOk result (λ list. (n : ℕ) → Contains list.items n ↔ MayUse nodes.now place n) }
{
    let mut list = Vec::new(alloc);
    for n in 0..nodes.len() as u32 {
        let is_listed = may_use(&nodes[n as usize], place);
        push_if(&mut list, n, is_listed)?;
    }
    Ok(list)
}

// Marks the edges by one place.
fn add_place(alloc: Global, ground: &Ground, pairs: &mut [Items<bool>]) -> Result<(), AllocError>
    requires numbers { length ground.now.nodes.now < 2 ^ 32 }
    requires square { IsSquare (length ground.now.nodes.now) pairs.old }
    ensures square { OnOk result (IsSquare (length ground.now.nodes.now) pairs.new) }
    ensures adds { OnOk result (Adds (DataEdge ground.now.nodes.now ground.now.place) pairs.old pairs.new) }
{
    let targets = users(alloc, ground.nodes, ground.place)?;
    add_targets(alloc, ground, targets.as_slice(), pairs)?;
    Ok(())
}

// Marks the edges by each of these places.
fn add_places(
    alloc: Global,
    nodes: &[FlowNode],
    order: &[u32],
    places: &[u32],
    pairs: &mut [Items<bool>],
) -> Result<(), AllocError>
    requires numbers { length nodes.now < 2 ^ 32 }
    requires square { IsSquare (length nodes.now) pairs.old }
    ensures square { OnOk result (IsSquare (length nodes.now) pairs.new) }
    ensures adds { OnOk result (Adds (EdgeBy nodes.now places.now) pairs.old pairs.new) }
{
    for place in places {
        let ground = Ground {
            nodes,
            order,
            place: *place,
        };
        add_place(alloc, &ground, pairs)?;
    }
    Ok(())
}

// The edges by these places, rising.
fn edges_by(
    alloc: Global,
    nodes: &[FlowNode],
    order: &[u32],
    places: &[u32],
) -> Result<Vec<(u32, u32)>, AllocError>
    requires { length nodes.now < 2 ^ 32 }
    ensures { IfOk result (λ edges. ListsPairs (EdgeBy nodes.now places.now) edges.items) }
{
    let mut pairs = no_pairs(alloc, nodes.len())?;
    add_places(alloc, nodes, order, places, pairs.as_mut_slice())?;
    let edges = list_pairs(alloc, pairs.as_slice())?;
    Ok(edges)
}

/// The places other than ESP that some node may use, each once.
pub fn used_places(alloc: Global, nodes: &[FlowNode]) -> Result<Vec<u32>, AllocError>
    ensures { IfOk result (λ places. (place : ℕ) → Contains places.items place ↔ IsUsed nodes.now place) }
{
    let mut places = Vec::new(alloc);
    for node in nodes {
        add_uses(&mut places, node.may_use.as_slice())?;
    }
    places.sort_unstable();
    places.dedup();
    Ok(places)
}

// Puts those of these places other than ESP at the end.
fn add_uses(places: &mut Vec<u32>, uses: &[u32]) -> Result<(), AllocError>
    ensures { OnOk result ((place : ℕ) → Contains places.new.items place ↔ (Contains places.old.items place ⊎ ((place ≢ 4) × Contains uses.now place))) }
{
    for place in uses {
        push_if(places, *place, *place != ESP)?;
    }
    Ok(())
}

/// The data edges of a graph. A graph with more nodes than there are numbers is answered by want of memory.
pub fn data_edges(alloc: Global, graph: &FlowGraph) -> Result<Edges, AllocError>
    ensures { IfOk result (λ edges. HasEdges graph.now.nodes edges.ordinary edges.sp) }
{
    let nodes = graph.nodes.as_slice();
    if nodes.len() >= 1 << 32 {
        return Err(AllocError);
    }
    let order = sweep_order(alloc, nodes)?;
    let places = used_places(alloc, nodes)?;
    let ordinary = edges_by(alloc, nodes, order.as_slice(), places.as_slice())?;
    let sp = edges_by(alloc, nodes, order.as_slice(), &[ESP])?;
    Ok(Edges {
        ordinary: Items::from_vec(ordinary),
        sp: Items::from_vec(sp),
    })
}
