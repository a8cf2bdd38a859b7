//! The graph of a round as JSON.
ghost use Rattle.std.specs.Prelude.{◌≡◌, ℕ, List, reverse, codes, IfOk, OnOk};
ghost use Rattle.serde_json.specs.Data.{Data};
ghost use Rattle.serde_json.specs.Events.{SendsValue};
ghost use Rattle.serde_json.specs.Written.{compact_text};
ghost use Rattle.dep_graph.specs.Edges.{ListsPairs};
ghost use Rattle.control_walks.specs.ControlWalks.{Controls};
ghost use Rattle.round_texts.specs.Graph.{IsGraphReply, SendsMember, graph_data, list_data, node_data, number_data, pair_data};

use call_strings::Node;
use chops::control_pairs;
use flow_graph::FlowGraph;
use rounds::Round;
use serde::{Described, Serialize, Serializer};
use std::alloc::{AllocError, Global};

/// A round, and which branches control which nodes.
#[derive(Drop)]
struct Graph<'a> {
    round: &'a Round,
    control: &'a [(u32, u32)],
}

impl Described for Graph<'_> {
    ghost use Rattle.serde_json.specs.Events.{SendsValue};
    ghost use Rattle.round_texts.specs.Graph.{graph_data};

    ghost writes = { λ g. SendsValue (graph_data g.round.now g.control.now) };
}

impl Serialize for Graph<'_> {
    fn serialize<S: Serializer>(&self, out: &mut S) -> Result<(), S::Error> {
        send_graph(self.round, self.control, out)
    }
}

fn send_number<S: Serializer>(number: u32, out: &mut S) -> Result<(), S::Error>
    ensures { OnOk result (SendsValue (number_data number) (S.written out.old) (S.written out.new)) }
{
    out.u64(u64::from(number))
}

fn send_number_at<S: Serializer>(key: &str, number: u32, out: &mut S) -> Result<(), S::Error>
    ensures { OnOk result (SendsMember key.now (number_data number) (S.written out.old) (S.written out.new)) }
{
    out.key(key)?;
    send_number(number, out)
}

fn send_pair<S: Serializer>(pair: (u32, u32), out: &mut S) -> Result<(), S::Error>
    ensures { OnOk result (SendsValue (pair_data pair) (S.written out.old) (S.written out.new)) }
{
    out.begin_seq(Some(2))?;
    send_number(pair.0, out)?;
    send_number(pair.1, out)?;
    out.end_seq()
}

fn send_pairs<S: Serializer>(pairs: &[(u32, u32)], out: &mut S) -> Result<(), S::Error>
    ensures { OnOk result (SendsValue (list_data pair_data pairs.now) (S.written out.old) (S.written out.new)) }
{
    out.begin_seq(Some(pairs.len()))?;
    let mut rest = pairs;
    'pairs_left: while let Some((pair, after)) = rest.split_first() {
        send_pair(*pair, out)?;
        rest = after;
    }
    out.end_seq()
}

fn send_pairs_at<S: Serializer>(
    key: &str,
    pairs: &[(u32, u32)],
    out: &mut S,
) -> Result<(), S::Error>
    ensures { OnOk result (SendsMember key.now (list_data pair_data pairs.now) (S.written out.old) (S.written out.new)) }
{
    out.key(key)?;
    send_pairs(pairs, out)
}

// Sends call sites, of which the newest is the first, from the oldest on.
fn send_sites_at<S: Serializer>(key: &str, sites: &[u32], out: &mut S) -> Result<(), S::Error>
    ensures { OnOk result (SendsMember key.now (list_data number_data (reverse sites.now)) (S.written out.old) (S.written out.new)) }
{
    out.key(key)?;
    out.begin_seq(Some(sites.len()))?;
    let mut rest = sites;
    'sites_left: while let Some((site, newer)) = rest.split_last() {
        send_number(*site, out)?;
        rest = newer;
    }
    out.end_seq()
}

fn send_node<S: Serializer>(node: &Node, out: &mut S) -> Result<(), S::Error>
    ensures { OnOk result (SendsValue (node_data node.now) (S.written out.old) (S.written out.new)) }
{
    out.begin_map(Some(3))?;
    send_number_at("at", node.at, out)?;
    send_number_at("proc", node.context.proc, out)?;
    send_sites_at("sites", node.context.sites.as_slice(), out)?;
    out.end_map()
}

fn send_nodes_at<S: Serializer>(key: &str, nodes: &[Node], out: &mut S) -> Result<(), S::Error>
    ensures { OnOk result (SendsMember key.now (list_data node_data nodes.now) (S.written out.old) (S.written out.new)) }
{
    out.key(key)?;
    out.begin_seq(Some(nodes.len()))?;
    let mut rest = nodes;
    'nodes_left: while let Some((node, after)) = rest.split_first() {
        send_node(node, out)?;
        rest = after;
    }
    out.end_seq()
}

fn send_graph<S: Serializer>(
    round: &Round,
    control: &[(u32, u32)],
    out: &mut S,
) -> Result<(), S::Error>
    ensures { OnOk result (SendsValue (graph_data round.now control.now) (S.written out.old) (S.written out.new)) }
{
    let edges = &round.graph.edges;
    out.begin_map(Some(6))?;
    send_pairs_at("control", control, out)?;
    send_pairs_at("edges", edges.ordinary.as_slice(), out)?;
    send_number_at("lane", round.lane, out)?;
    send_nodes_at("nodes", &round.states.nodes, out)?;
    send_number_at("round", round.number, out)?;
    send_pairs_at("sp", edges.sp.as_slice(), out)?;
    out.end_map()
}

// The pairs of a branch and a node that it controls, rising.
fn control_of(alloc: Global, flow: &FlowGraph) -> Result<Vec<(u32, u32)>, AllocError>
    ensures { IfOk result (λ pairs. ListsPairs (Controls flow.now.nodes) pairs.items) }
{
    let mut pairs = control_pairs(alloc, flow)?;
    pairs.sort_unstable();
    pairs.dedup();
    Ok(pairs)
}

// The JSON of a round's graph.
fn json_of(alloc: Global, round: &Round, control: &[(u32, u32)]) -> Result<Vec<u8>, AllocError>
    ensures { IfOk result (λ text. text.items ≡ compact_text (graph_data round.now control.now)) }
{
    // Memory is all that a writer of numbers, lists and objects may lack.
    match serde_json::to_vec(alloc, &Graph { round, control }) {
        Ok(text) => Ok(text),
        Err(_) => Err(AllocError),
    }
}

/// The graph of a round, as one line of compact JSON: its nodes, which branches control which nodes, and along which pairs of nodes data
/// goes.
///
/// # Errors
/// Where memory is wanting.
pub fn graph_json(alloc: Global, round: &Round) -> Result<Vec<u8>, AllocError>
    ensures { IfOk result (λ text. IsGraphReply round.now text.items) }
{
    let control = control_of(alloc, &round.graph.flow)?;
    let mut text = json_of(alloc, round, &control)?;
    text.push(b'\n')?;
    Ok(text)
}
