//! The reply that lists the slice along matched calls.
ghost use Rattle.std.specs.Prelude.{◌≡◌, ◌∷◌, [], codes, length, map, IfOk};
ghost use Rattle.image_map.specs.CallModel.{AreSettings};
ghost use Rattle.image_map.specs.Whole.{IsImage};
ghost use Rattle.chops.specs.Answers.{IsPresent};
ghost use Rattle.matched_calls.specs.Matched.{HasKinds};
ghost use Rattle.access_facts.specs.Kinds.{step_kinds as step_kinds_spec};
ghost use Rattle.transfer_flow.specs.Successors.{placed_of};
ghost use Rattle.vsa.specs.Views.{placed_with, told};
ghost use Rattle.rounds.specs.Rounds.{IsRound};
ghost use Rattle.round_answers.specs.Replies.{IsMatchedSlice, Lists};

use crate::lists::listed_text;
use abs_state::AbsState;
use access_facts::step_kinds;
use call_strings::Node;
use image_map::{Image, Settings};
use matched_calls::{MatchedError, StepKinds, matched_backward, matched_graph};
use rounds::Round;
use std::alloc::{AllocError, Global};
use transfer_flow::Program;

// Nodes, each beside its state.
fn placed<'a>(
    alloc: Global,
    nodes: &'a [Node],
    values: &'a [AbsState],
) -> Result<Vec<(&'a Node, &'a AbsState)>, AllocError>
    requires { length nodes.now ≡ length values.now }
    ensures { IfOk result (λ v. map placed_of v.items ≡ placed_with nodes.now values.now) }
{
    let mut out = Vec::new(alloc);
    for i in 0..nodes.len() {
        out.push((&nodes[i], &values[i]))?;
    }
    Ok(out)
}

/// Which steps of a round's graph are calls and returns.
pub(crate) fn kinds_of(
    alloc: Global,
    image: &Image,
    settings: &Settings,
    round: &Round,
) -> Result<StepKinds, AllocError>
    requires image { IsImage image.now }
    requires settings { AreSettings (length image.now.externs) settings.now }
    requires round { IsRound image.now settings.now round.now }
    ensures kinds { IfOk result (λ kinds. kinds ≡ step_kinds_spec image.now settings.now (told round.now.states)) }
    ensures nodes { IfOk result (HasKinds round.now.graph.flow.nodes) }
{
    let program = Program {
        image,
        settings,
        cells: &round.states.cells,
        lane: round.states.lane,
    };
    let placed = placed(
        alloc,
        round.states.nodes.as_slice(),
        round.states.values.as_slice(),
    )?;
    step_kinds(alloc, &program, placed.as_slice())
}

// The slice of an address along matched calls.
fn matched_slice(
    alloc: Global,
    round: &Round,
    kinds: &StepKinds,
    at: u32,
    skip_sp: bool,
) -> Result<Vec<u32>, AllocError>
    requires kinds { HasKinds round.now.graph.flow.nodes kinds.now }
    requires present { IsPresent round.now.graph.flow.nodes at }
    ensures { IfOk result (λ list. IsMatchedSlice kinds.now round.now at skip_sp list.items) }
{
    let matched = matched_graph(alloc, &round.graph, kinds)?;
    match matched_backward(alloc, &round.graph, &matched, at, skip_sp) {
        Err(MatchedError::Memory) => Err(AllocError),
        Err(MatchedError::Absent) => unreachable!(),
        Ok(list) => Ok(list),
    }
}

/// The reply that lists the slice of an address, at which a node stands, along calls that match their returns.
pub(crate) fn matched_text(
    alloc: Global,
    round: &Round,
    kinds: &StepKinds,
    at: u32,
    skip_sp: bool,
) -> Result<Vec<u8>, AllocError>
    requires kinds { HasKinds round.now.graph.flow.nodes kinds.now }
    requires present { IsPresent round.now.graph.flow.nodes at }
    ensures { IfOk result (λ text. Lists round.now (codes "matched") (at ∷ []) (IsMatchedSlice kinds.now round.now at skip_sp) text.items) }
{
    let list = matched_slice(alloc, round, kinds, at, skip_sp)?;
    listed_text(alloc, round, b"matched", &[at], &list)
}
