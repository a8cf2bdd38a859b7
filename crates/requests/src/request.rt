//! What a script asks for, and why it is refused.
ghost use Rattle.std.specs.Prelude.{◌≡◌};
ghost use Rattle.requests.specs.declared.request.ScriptError.TheVariants.{Memory};

use item_list::Items;
use std::alloc::AllocError;

/// What a session asks for. An address is a number of 32 bits.
#[derive(Clone, Copy, Debug, PartialEq, Eq)]
pub enum Request {
    /// The backward slice at an address.
    Slice { at: u32, skip_sp: bool },
    /// The values of the registers at an address.
    Values(u32),
    /// The warnings of the round.
    Warnings,
    /// The cells of memory.
    Locations,
    /// The next round.
    Step,
    /// Another length of call strings.
    Lane(u32),
    /// What an address may have an effect on.
    Forward { at: u32, skip_sp: bool },
    /// What lies between two addresses.
    Chop { from: u32, to: u32, skip_sp: bool },
    /// A path between two addresses.
    Why { from: u32, to: u32, skip_sp: bool },
    /// The backward slice at an address, along calls that match their returns.
    Matched { at: u32, skip_sp: bool },
    /// Another program.
    Program(u32),
}

/// The requests of a script in order, each with its session.
#[derive(Drop)]
pub struct Script {
    pub lines: Items<(u32, Request)>,
}

/// Why a line is no request, the first that holds in this order.
#[derive(Clone, Copy, Debug, PartialEq, Eq)]
pub enum LineCause {
    /// It isn't ASCII.
    NotText,
    /// It doesn't begin with the digit of a session and a space.
    Session,
    /// The word isn't one of a request, or something follows a word that stands alone.
    Word,
    /// The word isn't followed by as many addresses as it takes.
    Address,
    /// `lane` isn't followed by a digit from 0 to 3.
    Lane,
    /// `program` isn't followed by the digit of a program.
    Program,
}

/// Why bytes are no script.
#[derive(Clone, Copy, Debug, PartialEq, Eq)]
pub enum ScriptError {
    /// The first line that isn't of the grammar, counted from 1.
    Line(u32, LineCause),
    /// There are more requests than this.
    TooLong(u32),
    /// Want of memory.
    Memory,
}

impl From<AllocError> for ScriptError {
    ghost from_gives = { λ _ e. e ≡ Memory };

    fn from(_: AllocError) -> Self {
        ScriptError::Memory
    }
}
