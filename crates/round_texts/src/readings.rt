//! Replies to requests that read a round.
ghost use Rattle.std.specs.Prelude.{◌≡◌, IfOk};
ghost use Rattle.std.specs.Option.{option_map};
ghost use Rattle.access_facts.specs.Rows.{AreInside};
ghost use Rattle.round_texts.specs.Readings.{reading_reply};

use crate::locations::locations_text;
use crate::values::values_text;
use crate::warnings::warnings_text;
use requests::Request;
use rounds::Round;
use std::alloc::{AllocError, Global};

/// The reply to a request for values, warnings or locations. `None` where no node stands at the address of a request for values, and
/// for other requests.
///
/// # Errors
/// Where memory is wanting.
pub fn reading(
    alloc: Global,
    round: &Round,
    request: &Request,
) -> Result<Option<Vec<u8>>, AllocError>
    requires inside { AreInside round.now.cells.image }
    ensures { IfOk result (λ text. option_map (λ t. t.items) text ≡ reading_reply round.now request.now) }
{
    match request {
        Request::Values(at) => values_text(alloc, round, *at),
        Request::Warnings => Ok(Some(warnings_text(alloc, round)?)),
        Request::Locations => Ok(Some(locations_text(alloc, round)?)),
        _ => Ok(None),
    }
}
