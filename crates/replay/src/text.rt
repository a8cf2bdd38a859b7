//! What is told of a run beside a slice.
ghost use Rattle.std.specs.Prelude.{◌≡◌, ◌+◌, ◌++◌, ◌≤◌, ◌<◌, ◌^◌, length, IfOk, OnOk};
ghost use Rattle.std.specs.List.{flat_map};
ghost use Rattle.std.specs.Fmt.{decimal};
ghost use Rattle.replay.specs.Texts as spec;

use std::alloc::{AllocError, Global};
use surf_base::hex8;

/// What a reply is about: the criterion, the round and the lane of the slice, the steps of the run, and the round's warnings.
#[derive(Clone, Copy)]
pub struct Asked {
    pub at: u32,
    pub round: u32,
    pub lane: u32,
    pub steps: u32,
    pub warnings: u32,
}

fn push_number(alloc: Global, text: &mut Vec<u8>, number: u32) -> Result<(), AllocError>
    ensures { OnOk result (text.new.items ≡ text.old.items ++ decimal number) }
{
    text.extend_from_slice(number.to_string(alloc)?.as_bytes())
}

fn push_header(alloc: Global, text: &mut Vec<u8>, asked: Asked) -> Result<(), AllocError>
    ensures { OnOk result (text.new.items ≡ text.old.items ++ spec.header asked.at asked.round asked.lane) }
{
    text.extend_from_slice(b"replay ")?;
    text.extend_from_slice(&hex8(asked.at))?;
    text.extend_from_slice(b" round ")?;
    push_number(alloc, text, asked.round)?;
    text.extend_from_slice(b" lane ")?;
    push_number(alloc, text, asked.lane)?;
    text.extend_from_slice(b"\n")
}

/// Whether a slice lists an address.
fn lists(slice: &[u32], address: u32) -> bool
    ensures { result ≡ spec.lists slice.now address }
{
    slice.iter().any(|listed| *listed == address)
}

fn verdict<'a>(listed: bool) -> &'a [u8]
    ensures { result.now ≡ spec.verdict listed }
{
    if listed { b" listed" } else { b" missing" }
}

fn push_verdict(text: &mut Vec<u8>, slice: &[u32], address: u32) -> Result<(), AllocError>
    ensures { OnOk result (text.new.items ≡ text.old.items ++ spec.verdict_line slice.now address) }
{
    text.extend_from_slice(&hex8(address))?;
    text.extend_from_slice(verdict(lists(slice, address)))?;
    text.extend_from_slice(b"\n")
}

/// Puts a line for each address behind a text.
fn push_verdicts(text: &mut Vec<u8>, slice: &[u32], addresses: &[u32]) -> Result<(), AllocError>
    ensures { OnOk result (text.new.items ≡ text.old.items ++ flat_map (spec.verdict_line slice.now) addresses.now) }
{
    let mut rest = addresses;
    'addresses_left: while let Some((address, after)) = rest.split_first() {
        push_verdict(text, slice, *address)?;
        rest = after;
    }
    Ok(())
}

fn is_missing(slice: &[u32], address: u32) -> u32
    ensures value { result ≡ spec.is_missing slice.now address }
    ensures few { result ≤ 1 }
{
    if lists(slice, address) { 0 } else { 1 }
}

/// How many of some addresses a slice doesn't list.
fn missing(slice: &[u32], addresses: &[u32]) -> u32
    requires { length addresses.now < 2 ^ 32 }
    ensures { result ≡ spec.missing slice.now addresses.now }
{
    let mut count = 0;
    let mut rest = addresses;
    'addresses_left: while let Some((address, after)) = rest.split_first() {
        count += is_missing(slice, *address);
        rest = after;
    }
    count
}

fn push_end(alloc: Global, text: &mut Vec<u8>, asked: Asked, gone: u32) -> Result<(), AllocError>
    ensures { OnOk result (text.new.items ≡ text.old.items ++ spec.end_line asked.steps gone asked.warnings) }
{
    text.extend_from_slice(b"end ")?;
    push_number(alloc, text, asked.steps)?;
    text.extend_from_slice(b" steps ")?;
    push_number(alloc, text, gone)?;
    text.extend_from_slice(b" missing ")?;
    push_number(alloc, text, asked.warnings)?;
    text.extend_from_slice(b" warnings\n")
}

/// The text of a reply: each address of a dynamic slice with whether a slice lists it.
pub fn replay_text(
    alloc: Global,
    asked: Asked,
    addresses: &[u32],
    slice: &[u32],
) -> Result<Vec<u8>, AllocError>
    requires { length addresses.now < 2 ^ 32 }
    ensures { IfOk result (λ text. text.items ≡ spec.replay_text asked.at asked.round asked.lane addresses.now slice.now asked.steps asked.warnings) }
{
    let mut text = Vec::new(alloc);
    push_header(alloc, &mut text, asked)?;
    push_verdicts(&mut text, slice, addresses)?;
    push_end(alloc, &mut text, asked, missing(slice, addresses))?;
    Ok(text)
}
