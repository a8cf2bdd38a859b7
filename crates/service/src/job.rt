//! What a thread is given.

use crate::session::Session;
use crate::shop::Seat;

/// One who works beside others.
#[derive(Drop)]
pub(crate) enum Job {
    /// It answers the session's requests.
    Asks(Session),
    /// It makes rounds with this seat.
    Refines(Seat),
}
