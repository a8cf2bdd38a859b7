//! Which cuts the round behind another has, and whether there is one.
ghost use Rattle.std.specs.Prelude.{◌≡◌, ◌+◌, ◌≤◌, ◌⊎◌, ◌↔◌, List, IfOk, IsTrue};
ghost use Rattle.image_map.specs.declared.image.Segment.{Segment};
ghost use Rattle.alocs.specs.declared.cells.CutList.{CutList};
ghost use Rattle.asi_cuts.specs.declared.facts.Constraint.{Constraint};
ghost use Rattle.asi_cuts.specs.Closed.{Answers, AreLeast, AreTooMany};
ghost use Rattle.access_facts.specs.Facts.{constraints as constraints_spec};
ghost use Rattle.access_facts.specs.Kept.{kept_lists as kept_lists_spec};
ghost use Rattle.access_facts.specs.Maps.{IsOfImage};
ghost use Rattle.transfer_flow.specs.Successors.{states_of};
ghost use Rattle.rounds.specs.Next.{IsLast};

use crate::same::are_same;
use abs_state::AbsState;
use access_facts::{constraints, kept_lists};
use alocs::CutList;
use asi_cuts::{CutResult, close};
use call_strings::Node;
use std::alloc::{AllocError, Global};
use transfer_flow::Program;

/// The lists of cuts of the round behind that of a number, which has this map.
pub(crate) fn next_lists(
    alloc: Global,
    program: &Program<'_>,
    placed: &[(&Node, &AbsState)],
    number: u32,
) -> Result<CutResult, AllocError>
    requires { IsOfImage program.now }
    ensures { IfOk result (Answers (kept_lists_spec program.now.image.now number (states_of program.now placed.now)) (constraints_spec program.now.image.now program.now.settings.now (states_of program.now placed.now)) program.now.image.now.segments) }
{
    let kept = kept_lists(alloc, program, placed, number)?;
    let facts = constraints(alloc, program, placed)?;
    close(alloc, kept.as_slice(), facts.as_slice(), program.image)
}

/// Whether a round that has these lists is the last, by what the one behind it would have.
fn ends(lists: &[CutList], next: &CutResult) -> bool
    ensures { (kept : List CutList) (facts : List Constraint) (segments : List Segment) → Answers kept facts segments next.now → IsTrue result ↔ (AreLeast kept facts segments lists.now ⊎ AreTooMany kept facts segments) }
{
    match next {
        CutResult::TooMany => true,
        CutResult::Cuts(next) => are_same(lists, next.as_slice()),
    }
}

/// Whether the round of a number, which has this map, is the last.
pub(crate) fn is_last(
    alloc: Global,
    program: &Program<'_>,
    placed: &[(&Node, &AbsState)],
    number: u32,
) -> Result<bool, AllocError>
    requires program { IsOfImage program.now }
    requires number { number + 1 ≤ program.now.settings.now.rounds }
    ensures { IfOk result (λ last. IsTrue last ↔ IsLast program.now.image.now program.now.settings.now number (states_of program.now placed.now)) }
{
    if number + 1 == program.settings.rounds {
        return Ok(true);
    }
    let next = next_lists(alloc, program, placed, number)?;
    Ok(ends(program.cells.lists(), &next))
}
