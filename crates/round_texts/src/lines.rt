//! Lines that all replies have.
ghost use Rattle.std.specs.Prelude.{◌≡◌, ◌++◌, ◌∷◌, OnOk};
ghost use Rattle.std.specs.List.{flat_map};
ghost use Rattle.std.specs.Fmt.{decimal};
ghost use Rattle.surf_base.specs.Hex.{hex8_text};
ghost use Rattle.requests.specs.Texts.{address_line, first_line, last_line, round_and_lane};

use crate::push::{push_digits, push_number};
use std::alloc::AllocError;

/// Which round a reply is of: its number, and how many call sites its nodes keep.
#[derive(Clone, Copy, Debug)]
pub struct Place {
    pub round: u32,
    pub lane: u32,
}

/// Puts the line of an address behind a text.
pub(crate) fn push_address(text: &mut Vec<u8>, address: u32) -> Result<(), AllocError>
    ensures { OnOk result (text.new.items ≡ text.old.items ++ address_line address) }
{
    push_digits(text, address)?;
    text.extend_from_slice(b"\n")
}

/// Puts a line for each address behind a text.
pub fn push_addresses(text: &mut Vec<u8>, addresses: &[u32]) -> Result<(), AllocError>
    ensures { OnOk result (text.new.items ≡ text.old.items ++ flat_map address_line addresses.now) }
{
    let mut rest = addresses;
    'addresses_left: while let Some((address, after)) = rest.split_first() {
        push_address(text, *address)?;
        rest = after;
    }
    Ok(())
}

// Puts addresses, each after a space, behind a text.
fn push_asked(text: &mut Vec<u8>, asked: &[u32]) -> Result<(), AllocError>
    ensures { OnOk result (text.new.items ≡ text.old.items ++ flat_map (λ at. 32 ∷ hex8_text at) asked.now) }
{
    let mut rest = asked;
    'asked_left: while let Some((address, after)) = rest.split_first() {
        text.extend_from_slice(b" ")?;
        push_digits(text, *address)?;
        rest = after;
    }
    Ok(())
}

fn push_place(text: &mut Vec<u8>, place: Place) -> Result<(), AllocError>
    ensures { OnOk result (text.new.items ≡ text.old.items ++ round_and_lane place.round place.lane) }
{
    text.extend_from_slice(b" round ")?;
    push_number(text, u64::from(place.round))?;
    text.extend_from_slice(b" lane ")?;
    push_number(text, u64::from(place.lane))?;
    text.extend_from_slice(b"\n")
}

/// Puts a reply's first line behind a text: its word, the addresses that were asked about, and the round.
pub fn push_first_line(
    text: &mut Vec<u8>,
    word: &[u8],
    asked: &[u32],
    place: Place,
) -> Result<(), AllocError>
    ensures { OnOk result (text.new.items ≡ text.old.items ++ first_line word.now asked.now place.round place.lane) }
{
    text.extend_from_slice(word)?;
    push_asked(text, asked)?;
    push_place(text, place)
}

/// Puts a reply's last line behind a text: how many things were listed, what they are, between two spaces, and how many warnings the
/// round has.
pub fn push_last_line(
    text: &mut Vec<u8>,
    count: usize,
    things: &[u8],
    warnings: usize,
) -> Result<(), AllocError>
    ensures { OnOk result (text.new.items ≡ text.old.items ++ last_line (decimal count) things.now warnings) }
{
    text.extend_from_slice(b"end ")?;
    push_number(text, count as u64)?;
    text.extend_from_slice(things)?;
    push_number(text, warnings as u64)?;
    text.extend_from_slice(b" warnings\n")
}
