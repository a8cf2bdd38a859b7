//! Replies that list addresses.
ghost use Rattle.std.specs.Prelude.{◌≡◌, ◌∷◌, [], codes, IfOk};
ghost use Rattle.dep_graph.specs.Edges.{HasEdges};
ghost use Rattle.slicer.specs.Slicer.{IsSlice};
ghost use Rattle.chops.specs.Answers.{IsPresent};
ghost use Rattle.chops.specs.Chops.{IsChop, IsForwardSlice};
ghost use Rattle.requests.specs.Texts.{listed};
ghost use Rattle.round_texts.specs.Warnings.{warning_count};
ghost use Rattle.round_answers.specs.Replies.{EdgeOf, Lists};

use chops::{ChopScratch, chop, forward};
use round_texts::{Place, push_addresses, push_first_line, push_last_line};
use rounds::Round;
use slicer::{Scratch, backward};
use std::alloc::{AllocError, Global};

/// Of which round a reply is.
pub(crate) fn place_of(round: &Round) -> Place
    ensures { (result.round ≡ round.now.number) × (result.lane ≡ round.now.lane) }
{
    Place {
        round: round.number,
        lane: round.lane,
    }
}

/// The reply of a word that lists addresses.
pub(crate) fn listed_text(
    alloc: Global,
    round: &Round,
    word: &[u8],
    asked: &[u32],
    addresses: &[u32],
) -> Result<Vec<u8>, AllocError>
    ensures { IfOk result (λ text. text.items ≡ listed word.now asked.now round.now.number round.now.lane addresses.now (warning_count round.now)) }
{
    let mut text = Vec::new(alloc);
    push_first_line(&mut text, word, asked, place_of(round))?;
    push_addresses(&mut text, addresses)?;
    push_last_line(
        &mut text,
        addresses.len(),
        b" addresses ",
        round.warnings.len(),
    )?;
    Ok(text)
}

/// The reply that lists the slice of an address at which a node stands.
pub(crate) fn slice_text(
    alloc: Global,
    round: &Round,
    at: u32,
    skip_sp: bool,
) -> Result<Vec<u8>, AllocError>
    requires edges { HasEdges round.now.graph.flow.nodes round.now.graph.edges.ordinary round.now.graph.edges.sp }
    requires present { IsPresent round.now.graph.flow.nodes at }
    ensures { IfOk result (λ text. Lists round.now (codes "slice") (at ∷ []) (IsSlice (EdgeOf round.now skip_sp) round.now.graph.flow.nodes at) text.items) }
{
    let mut scratch = Scratch::new(alloc, &round.graph)?;
    match backward(&round.graph, at, skip_sp, &mut scratch) {
        Err(_) => unreachable!(),
        Ok(()) => listed_text(alloc, round, b"slice", &[at], scratch.addresses()),
    }
}

/// The reply that lists the forward slice of an address at which a node stands.
pub(crate) fn forward_text(
    alloc: Global,
    round: &Round,
    at: u32,
    skip_sp: bool,
) -> Result<Vec<u8>, AllocError>
    requires edges { HasEdges round.now.graph.flow.nodes round.now.graph.edges.ordinary round.now.graph.edges.sp }
    requires present { IsPresent round.now.graph.flow.nodes at }
    ensures { IfOk result (λ text. Lists round.now (codes "forward") (at ∷ []) (IsForwardSlice (EdgeOf round.now skip_sp) round.now.graph.flow.nodes at) text.items) }
{
    let mut scratch = ChopScratch::new(alloc, &round.graph)?;
    match forward(&round.graph, at, skip_sp, &mut scratch) {
        Err(_) => unreachable!(),
        Ok(()) => listed_text(alloc, round, b"forward", &[at], scratch.addresses()),
    }
}

/// The reply that lists the chop between two addresses at which nodes stand.
pub(crate) fn chop_text(
    alloc: Global,
    round: &Round,
    from: u32,
    at: u32,
    skip_sp: bool,
) -> Result<Vec<u8>, AllocError>
    requires edges { HasEdges round.now.graph.flow.nodes round.now.graph.edges.ordinary round.now.graph.edges.sp }
    requires from { IsPresent round.now.graph.flow.nodes from }
    requires at { IsPresent round.now.graph.flow.nodes at }
    ensures { IfOk result (λ text. Lists round.now (codes "chop") (from ∷ at ∷ []) (IsChop (EdgeOf round.now skip_sp) round.now.graph.flow.nodes from at) text.items) }
{
    let mut scratch = ChopScratch::new(alloc, &round.graph)?;
    match chop(&round.graph, from, at, skip_sp, &mut scratch) {
        Err(_) => unreachable!(),
        Ok(()) => listed_text(alloc, round, b"chop", &[from, at], scratch.addresses()),
    }
}
