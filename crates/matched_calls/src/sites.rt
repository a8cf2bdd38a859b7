//! What is made once of a graph and its kinds of steps.
ghost use Rattle.std.specs.Prelude.{◌↔◌, ℕ, ◌+◌, ◌<◌, ◌^◌, Contains, IfOk, IsTrue, length};
ghost use Rattle.matched_calls.specs.Matched.{HasKinds};
ghost use Rattle.matched_calls.specs.Extended.{AreSites, IsExtended, IsPlan};
ghost use Rattle.matched_calls.specs.Phases.{IsCall, IsReturn};

use crate::extend::extend;
use crate::kinds::{Phase, StepKinds, has_pair, is_step};
use dep_graph::push_if;
use flow_graph::{FlowNode, sweep_order};
use item_list::Items;
use std::alloc::{AllocError, Global};

/// Where a call that may come back goes, and from where control returns behind it.
#[derive(Debug, Drop)]
pub(crate) struct Site {
    pub entries: Items<u32>,
    pub exits: Items<u32>,
}

/// The graph of a phase, with an order of sweeps, which no result hangs on.
#[derive(Debug, Drop)]
pub(crate) struct PhaseGraph {
    pub nodes: Items<FlowNode>,
    pub order: Items<u32>,
}

/// The graphs of the phases, and the calls that may come back, with an order of these, which no result hangs on.
#[derive(Debug, Drop)]
pub(crate) struct Plan {
    pub level: PhaseGraph,
    pub up: PhaseGraph,
    pub down: PhaseGraph,
    pub sites: Items<Site>,
    pub turns: Items<u32>,
}

// Whether a step is a call.
fn is_call(nodes: &[FlowNode], kinds: &StepKinds, from: u32, to: u32) -> bool
    ensures { IsTrue result ↔ IsCall nodes.now kinds.now from to }
{
    if !is_step(nodes, from, to) {
        return false;
    }
    has_pair(kinds.calls.as_slice(), from, to)
}

// Whether a step is a return.
fn is_return(nodes: &[FlowNode], kinds: &StepKinds, from: u32, to: u32) -> bool
    ensures { IsTrue result ↔ IsReturn nodes.now kinds.now from to }
{
    if !is_step(nodes, from, to) {
        return false;
    }
    has_pair(kinds.returns.as_slice(), from, to)
}

// The entries to which a call goes.
fn entries(
    alloc: Global,
    nodes: &[FlowNode],
    kinds: &StepKinds,
    call: u32,
) -> Result<Vec<u32>, AllocError>
    requires { length nodes.now < 2 ^ 32 }
    ensures { IfOk result (λ list. (e : ℕ) → Contains list.items e ↔ ((e < length nodes.now) × IsCall nodes.now kinds.now call e)) }
{
    let mut list = Vec::new(alloc);
    for entry in 0..nodes.len() as u32 {
        let is_listed = is_call(nodes, kinds, call, entry);
        push_if(&mut list, entry, is_listed)?;
    }
    Ok(list)
}

// The nodes from which control returns to a place.
fn exits(
    alloc: Global,
    nodes: &[FlowNode],
    kinds: &StepKinds,
    back: u32,
) -> Result<Vec<u32>, AllocError>
    requires { length nodes.now < 2 ^ 32 }
    ensures { IfOk result (λ list. (x : ℕ) → Contains list.items x ↔ ((x < length nodes.now) × IsReturn nodes.now kinds.now x back)) }
{
    let mut list = Vec::new(alloc);
    for exit in 0..nodes.len() as u32 {
        let is_listed = is_return(nodes, kinds, exit, back);
        push_if(&mut list, exit, is_listed)?;
    }
    Ok(list)
}

// The calls that may come back.
fn list_sites(alloc: Global, nodes: &[FlowNode], kinds: &StepKinds) -> Result<Vec<Site>, AllocError>
    requires { length nodes.now < 2 ^ 32 }
    ensures { IfOk result (λ sites. AreSites nodes.now kinds.now (length kinds.now.after) sites.items) }
{
    let mut sites = Vec::new(alloc);
    for pair in kinds.after.as_slice() {
        let entries = entries(alloc, nodes, kinds, pair.0)?;
        let exits = exits(alloc, nodes, kinds, pair.1)?;
        sites.push(Site {
            entries: Items::from_vec(entries),
            exits: Items::from_vec(exits),
        })?;
    }
    Ok(sites)
}

// An order of the calls that may come back: inner calls first.
fn list_turns(alloc: Global, order: &[u32], after: &[(u32, u32)]) -> Result<Vec<u32>, AllocError> {
    let mut turns = Vec::new(alloc);
    for node in order {
        add_turns(*node, after, &mut turns)?;
    }
    Ok(turns)
}

// Puts the numbers of a node's calls that may come back at the end.
fn add_turns(node: u32, after: &[(u32, u32)], turns: &mut Vec<u32>) -> Result<(), AllocError> {
    for (j, pair) in after.iter().enumerate() {
        push_if(turns, u32::try_from(j).unwrap_or(u32::MAX), pair.0 == node)?;
    }
    Ok(())
}

// The graph of a phase with its order.
fn phase_graph(
    alloc: Global,
    nodes: &[FlowNode],
    kinds: &StepKinds,
    phase: Phase,
) -> Result<PhaseGraph, AllocError>
    requires { length nodes.now + length kinds.now.after < 2 ^ 32 }
    ensures { IfOk result (λ graph. IsExtended nodes.now kinds.now phase graph.nodes) }
{
    let extended = extend(alloc, nodes, kinds, phase)?;
    let order = sweep_order(alloc, extended.as_slice())?;
    Ok(PhaseGraph {
        nodes: Items::from_vec(extended),
        order: Items::from_vec(order),
    })
}

/// The plan of a graph and its kinds of steps. Where there are more nodes and calls that may come back than there are numbers, it is
/// answered by want of memory.
pub(crate) fn make_plan(
    alloc: Global,
    nodes: &[FlowNode],
    kinds: &StepKinds,
) -> Result<Plan, AllocError>
    requires { HasKinds nodes.now kinds.now }
    ensures plan { IfOk result (λ plan. IsPlan nodes.now kinds.now plan) }
    ensures numbers { IfOk result (λ plan. length nodes.now + length kinds.now.after < 2 ^ 32) }
{
    if nodes.len() >= 1 << 31 {
        return Err(AllocError);
    }
    if kinds.after.len() >= 1 << 31 {
        return Err(AllocError);
    }
    let level = phase_graph(alloc, nodes, kinds, Phase::Level)?;
    let up = phase_graph(alloc, nodes, kinds, Phase::Up)?;
    let down = phase_graph(alloc, nodes, kinds, Phase::Down)?;
    let sites = list_sites(alloc, nodes, kinds)?;
    let turns = list_turns(alloc, down.order.as_slice(), kinds.after.as_slice())?;
    Ok(Plan {
        level,
        up,
        down,
        sites: Items::from_vec(sites),
        turns: Items::from_vec(turns),
    })
}
