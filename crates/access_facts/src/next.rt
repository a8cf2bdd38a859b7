//! The nodes of a map to which control may go.
ghost use Rattle.std.specs.Prelude.{◌≡◌, ◌+◌, length, IfOk};
ghost use Rattle.image_map.specs.CallModel.{AreSettings};
ghost use Rattle.abs_state.specs.Views.{seen};
ghost use Rattle.abs_steps.specs.Successors.{at_node};
ghost use Rattle.transfer_flow.specs.Successors.{all_placed, states_of};
ghost use Rattle.call_strings.specs.Nodes.{same_node};
ghost use Rattle.access_facts.specs.Flow.{next_of};
ghost use Rattle.access_facts.specs.Maps.{all_of};
ghost use Rattle.access_facts.specs.Next.{has_target, numbers_of as numbers_of_spec, numbers_of_targets};

use crate::rows::push_if;
use abs_state::AbsState;
use call_strings::Node;
use item_list::Items;
use std::alloc::{AllocError, Global};
use transfer_flow::{Site, successors};

fn has_node(targets: &[(Node, AbsState)], node: &Node) -> bool
    ensures { result ≡ has_target targets.now node.now }
{
    targets.iter().any(|target| target.0 == *node)
}

/// The number after another. There are no more nodes than numbers: they can't be had.
pub(crate) fn after(number: u32) -> Result<u32, AllocError>
    ensures { IfOk result (λ next. next ≡ number + 1) }
{
    match number.checked_add(1) {
        None => Err(AllocError),
        Some(next) => Ok(next),
    }
}

// The numbers of the nodes of a map that are among some targets, rising.
fn target_numbers(
    alloc: Global,
    placed: &[(&Node, &AbsState)],
    targets: &[(Node, AbsState)],
) -> Result<Items<u32>, AllocError>
    ensures { IfOk result (λ numbers. numbers ≡ numbers_of_targets (all_placed targets.now) (all_of placed.now)) }
{
    let mut numbers = Vec::new(alloc);
    let mut number = 0;
    for other in placed {
        push_if(&mut numbers, has_node(targets, other.0), number)?;
        number = after(number)?;
    }
    Ok(Items::from_vec(numbers))
}

fn is_node(node: &Node, other: &Node) -> bool
    ensures { result ≡ same_node node.now other.now }
{
    *node == *other
}

/// The numbers of a node in a map.
pub(crate) fn numbers_of(
    alloc: Global,
    placed: &[(&Node, &AbsState)],
    node: &Node,
) -> Result<Items<u32>, AllocError>
    ensures { IfOk result (λ numbers. numbers ≡ numbers_of_spec node.now (all_of placed.now)) }
{
    let mut numbers = Vec::new(alloc);
    let mut number = 0;
    for other in placed {
        push_if(&mut numbers, is_node(node, other.0), number)?;
        number = after(number)?;
    }
    Ok(Items::from_vec(numbers))
}

/// The numbers of the nodes to which control may go from a node of a map, rising.
pub(crate) fn next_numbers(
    alloc: Global,
    site: &Site<'_>,
    placed: &[(&Node, &AbsState)],
) -> Result<Items<u32>, AllocError>
    requires { AreSettings (length site.now.program.now.image.now.externs) site.now.program.now.settings.now }
    ensures { IfOk result (λ next. next ≡ next_of site.now.program.now.image.now site.now.program.now.settings.now (states_of site.now.program.now placed.now) (at_node site.now.node.now (seen site.now.state.now))) }
{
    let targets = successors(alloc, site, placed)?;
    let numbers = target_numbers(alloc, placed, targets.as_slice())?;
    Ok(numbers)
}
