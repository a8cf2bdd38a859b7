//! Abstract states: what is known of a machine's state at a place of a program, how two become one, and which tell less.
#![tactic(auto)]

mod addresses;
mod below;
mod changes;
mod facts;
mod initial;
mod joins;
mod laws;
mod parts;
mod puts;
mod ranges;
mod reads;
mod registers;
mod same;
mod state;
mod touching;
mod writes;

pub use facts::fact_of;
pub use laws::{joins_keep_form, joins_keep_rising, widenings_keep_form};
pub use parts::{with_part, with_second_byte};
pub use puts::{numbers, put_known, put_link, put_links, put_number};
pub use ranges::Piece;
pub use reads::{cell_at, read_as};
pub use registers::Registers;
pub use state::AbsState;
pub use touching::{may_change, touches};
pub use writes::Memory;
