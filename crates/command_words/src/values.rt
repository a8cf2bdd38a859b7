//! The values of options.
ghost use Rattle.std.specs.Prelude.{◌≡◌, ◌≤◌, ◌<◌, ◌^◌, ◌∷◌, length, IfSome, option_map};
ghost use Rattle.std.specs.List.{slice_split};
ghost use Rattle.command_words.specs.Reading.{Tells};
ghost use Rattle.command_words.specs.Values.{numeral as numeral_spec, number as number_spec, after as after_spec, address as address_spec, entry as entry_spec, place as place_spec, places as places_spec, kind as kind_spec, extern_kind as extern_kind_spec, externs as externs_spec, is_comma, parts, parts_left};

use crate::line::{Entry, ExternKind, WordsError};
use crate::text::Text;
use image_map::Kind;
use item_list::Items;
use std::alloc::Global;

// What 1 to `most` digits of a base write.
fn numeral(digits: &str, base: u32, most: usize) -> Option<u64>
    requires low { 2 ≤ base }
    requires high { base ≤ 16 }
    requires most { most ≤ 10 }
    ensures value { result ≡ numeral_spec base most digits.now }
    ensures below { IfSome result (λ value. value < 16 ^ most) }
{
    if digits.len() > most || digits.starts_with('+') {
        return None;
    }
    u64::from_str_radix(digits, base).ok()
}

/// A number of 1 to 10 decimal digits that lies between two numbers.
pub fn number(text: &str, least: u32, greatest: u32) -> Option<u32>
    ensures { result ≡ number_spec least greatest text.now }
{
    let value = numeral(text, 10, 10)?;
    if value < u64::from(least) || value > u64::from(greatest) {
        return None;
    }
    Some(value as u32)
}

// What follows some text at the front.
fn after<'a>(text: &'a str, front: &str) -> Option<&'a str>
    ensures { option_map (λ rest. rest.now) result ≡ after_spec front.now text.now }
{
    text.strip_prefix(front)
}

/// An address: `0x` and 1 to 8 hexadecimal digits.
pub fn address(text: &str) -> Option<u32>
    ensures { result ≡ address_spec text.now }
{
    match after(text, "0x") {
        Some(digits) => Some(numeral(digits, 16, 8)? as u32),
        None => None,
    }
}

/// An address where it begins as one, else a symbol's name.
pub fn entry_of(alloc: Global, text: &str) -> Result<Entry, WordsError>
    ensures { Tells result (entry_spec text.now) }
{
    if text.starts_with("0x") {
        match address(text) {
            Some(at) => Ok(Entry::Address(at)),
            None => Err(WordsError::Refused),
        }
    } else {
        Ok(Entry::Symbol(Text::copy_of(alloc, text)?))
    }
}

// A digit from 1 to 8.
fn place(digit: u8) -> Option<u32>
    ensures { result ≡ place_spec digit }
{
    match digit {
        b'1'..=b'8' => Some(u32::from(digit - b'0')),
        _ => None,
    }
}

// The places of the buffer and of its length among the arguments.
fn places(text: &str) -> Option<Kind>
    ensures { result ≡ places_spec text.now }
{
    match text.as_bytes() {
        [buffer, len] => Some(Kind::Fills(place(*buffer)?, place(*len)?)),
        _ => None,
    }
}

// `pureN`, `readerN` or `fillsIL`, `alloc` or `stop`.
#[tactic(auto, unfolding(crate::specs::Values::kind))]
fn kind_of(text: &str) -> Option<Kind>
    ensures { result ≡ kind_spec text.now }
{
    if text == "alloc" {
        return Some(Kind::Alloc);
    }
    if text == "stop" {
        return Some(Kind::Stop);
    }
    if let Some(words) = after(text, "pure") {
        return Some(Kind::Pure(number(words, 0, 8)?));
    }
    if let Some(words) = after(text, "reader") {
        return Some(Kind::Reader(number(words, 0, 8)?));
    }
    match after(text, "fills") {
        Some(at) => places(at),
        None => None,
    }
}

// `NAME:KIND`, with a name of one character or more.
fn extern_kind(alloc: Global, text: &str) -> Result<ExternKind, WordsError>
    ensures { Tells result (extern_kind_spec text.now) }
{
    match text.split_once(':') {
        None => Err(WordsError::Refused),
        Some((name, kind)) => {
            if name.is_empty() {
                return Err(WordsError::Refused);
            }
            match kind_of(kind) {
                None => Err(WordsError::Refused),
                Some(kind) => {
                    let name = Text::copy_of(alloc, name)?;
                    Ok(ExternKind { name, kind })
                }
            }
        }
    }
}

// The first of the parts between commas, and the text of the others.
fn first_part(text: &str) -> (&str, Option<&str>)
    ensures parts { slice_split is_comma text.now ≡ result.0.now ∷ parts_left result.1 }
    ensures shorter { IfSome result.1 (λ others. length others.now < length text.now) }
{
    match text.split_once(',') {
        None => (text, None),
        Some((part, others)) => (part, Some(others)),
    }
}

// The text, unless it is empty.
fn unless_empty(text: &str) -> Option<&str>
    ensures { parts_left result ≡ parts text.now }
{
    if text.is_empty() { None } else { Some(text) }
}

/// The kinds of externs: parts joined by commas, and none in empty text.
pub fn externs_of(alloc: Global, text: &str) -> Result<Items<ExternKind>, WordsError>
    ensures { Tells result (externs_spec text.now) }
{
    let mut kinds = Items::new(alloc);
    let mut left = unless_empty(text);
    'parts: while let Some(rest) = left {
        let (part, others) = first_part(rest);
        kinds.push(extern_kind(alloc, part)?)?;
        left = others;
    }
    Ok(kinds)
}
