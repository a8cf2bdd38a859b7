//! The reply that tells what registers may hold.
ghost use Rattle.std.specs.Prelude.{◌≡◌, IfOk};
ghost use Rattle.std.specs.Option.{option_map};
ghost use Rattle.round_texts.specs.Values.{values_reply};

use crate::lines::{Place, push_first_line, push_last_line};
use crate::nodes::push_nodes;
use rounds::Round;
use std::alloc::{AllocError, Global};

/// The reply that tells what registers may hold at the nodes of a round at an address, or `None` exactly where no node stands there.
///
/// # Errors
/// Where memory is wanting.
pub fn values_text(alloc: Global, round: &Round, at: u32) -> Result<Option<Vec<u8>>, AllocError>
    ensures { IfOk result (λ text. option_map (λ t. t.items) text ≡ values_reply round.now at) }
{
    let mut text = Vec::new(alloc);
    let place = Place {
        round: round.number,
        lane: round.lane,
    };
    push_first_line(&mut text, b"values", &[at], place)?;
    let count = push_nodes(&mut text, &round.states.nodes, &round.states.values, at)?;
    if count == 0 {
        return Ok(None);
    }
    push_last_line(&mut text, count, b" nodes ", round.warnings.len())?;
    Ok(Some(text))
}
