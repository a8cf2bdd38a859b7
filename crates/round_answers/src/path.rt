//! The reply that tells a path.
ghost use Rattle.std.specs.Prelude.{◌≡◌, ◌++◌, ◌∷◌, [], codes, if◌then◌else◌, length, map, IfOk, OnOk};
ghost use Rattle.std.specs.List.{flat_map};
ghost use Rattle.std.specs.Fmt.{decimal};
ghost use Rattle.dep_graph.specs.Edges.{HasEdges};
ghost use Rattle.chops.specs.Answers.{IsPresent};
ghost use Rattle.requests.specs.Texts.{address_line, arrow_line, last_line, why_text};
ghost use Rattle.round_texts.specs.Warnings.{warning_count};
ghost use Rattle.round_answers.specs.Replies.{TellsPath, arrow_to, arrows_of, is_by_place};

use crate::lists::place_of;
use chops::{Hop, HopKind, WhyError, why};
use round_texts::{push_addresses, push_first_line, push_last_line, push_number};
use rounds::Round;
use std::alloc::{AllocError, Global};

// The word of an arrow.
fn arrow_word<'a>(kind: HopKind) -> &'a [u8]
    ensures { result.now ≡ (if is_by_place kind then codes "data " else codes "control ") }
{
    match kind {
        HopKind::ByPlace => b"data ",
        HopKind::ByBranch | HopKind::First => b"control ",
    }
}

// Puts the line of the arrow that leads to a hop behind a text.
fn push_arrow(text: &mut Vec<u8>, hop: Hop) -> Result<(), AllocError>
    ensures { OnOk result (text.new.items ≡ text.old.items ++ arrow_line (arrow_to hop)) }
{
    text.extend_from_slice(arrow_word(hop.kind))?;
    push_addresses(text, &[hop.at])
}

fn push_arrows(text: &mut Vec<u8>, hops: &[Hop]) -> Result<(), AllocError>
    ensures { OnOk result (text.new.items ≡ text.old.items ++ flat_map arrow_line (map arrow_to hops.now)) }
{
    let mut rest = hops;
    'hops_left: while let Some((hop, after)) = rest.split_first() {
        push_arrow(text, *hop)?;
        rest = after;
    }
    Ok(())
}

// Puts the lines of a path behind a text: its first address, and then its arrows.
fn push_path(text: &mut Vec<u8>, from: u32, hops: &[Hop], warnings: usize) -> Result<(), AllocError>
    ensures { OnOk result (text.new.items ≡ text.old.items ++ (address_line from ++ (flat_map arrow_line (map arrow_to hops.now) ++ last_line (decimal (length (map arrow_to hops.now))) (codes " steps ") warnings))) }
{
    push_addresses(text, &[from])?;
    push_arrows(text, hops)?;
    push_last_line(text, hops.len(), b" steps ", warnings)
}

// Puts the line behind a text that says that there is no path.
fn push_no_path(text: &mut Vec<u8>, warnings: usize) -> Result<(), AllocError>
    ensures { OnOk result (text.new.items ≡ text.old.items ++ last_line (codes "none") (codes " ") warnings) }
{
    text.extend_from_slice(b"end none ")?;
    push_number(text, warnings as u64)?;
    text.extend_from_slice(b" warnings\n")
}

// The reply that tells these hops.
fn hops_text(
    alloc: Global,
    round: &Round,
    from: u32,
    at: u32,
    hops: &[Hop],
) -> Result<Vec<u8>, AllocError>
    ensures { IfOk result (λ text. text.items ≡ why_text from at round.now.number round.now.lane (arrows_of hops.now) (warning_count round.now)) }
{
    let mut text = Vec::new(alloc);
    push_first_line(&mut text, b"why", &[from, at], place_of(round))?;
    match hops.split_first() {
        None => push_no_path(&mut text, round.warnings.len())?,
        Some((_, others)) => push_path(&mut text, from, others, round.warnings.len())?,
    }
    Ok(text)
}

/// The reply that tells the shortest path between two addresses at which nodes stand.
pub(crate) fn why_text(
    alloc: Global,
    round: &Round,
    from: u32,
    at: u32,
    skip_sp: bool,
) -> Result<Vec<u8>, AllocError>
    requires edges { HasEdges round.now.graph.flow.nodes round.now.graph.edges.ordinary round.now.graph.edges.sp }
    requires from { IsPresent round.now.graph.flow.nodes from }
    requires at { IsPresent round.now.graph.flow.nodes at }
    ensures { IfOk result (λ text. TellsPath round.now from at skip_sp text.items) }
{
    match why(alloc, &round.graph, from, at, skip_sp) {
        Err(WhyError::Memory) => Err(AllocError),
        Err(WhyError::From | WhyError::To) => unreachable!(),
        Ok(hops) => hops_text(alloc, round, from, at, &hops),
    }
}
