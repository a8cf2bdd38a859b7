// What is settled of a program before it is looked at.
ghost use Rattle.std.specs.Prelude.{◌≡◌, if◌then◌else◌, Some, map, IfOk};
ghost use Rattle.std.specs.Str.{bytes_eq};
ghost use Rattle.surf_prog.specs.Settings as spec;

use command_words::ExternKind;
use image_map::{Extern, Image, Kind, Name, Settings};
use item_list::Items;
use std::alloc::{AllocError, Global};

fn ends_program(name: &Name) -> bool
    ensures { result ≡ spec.ends_program name.now }
{
    name.is(b"exit") || name.is(b"_exit") || name.is(b"abort") || name.is(b"__stack_chk_fail")
}

fn reads_one_word(name: &Name) -> bool
    ensures { result ≡ spec.reads_one_word name.now }
{
    name.is(b"free") || name.is(b"putchar") || name.is(b"srand")
}

fn reads_no_word(name: &Name) -> bool
    ensures { result ≡ spec.reads_no_word name.now }
{
    name.is(b"getchar") || name.is(b"rand")
}

fn reads_text(name: &Name) -> bool
    ensures { result ≡ spec.reads_text name.now }
{
    name.is(b"puts")
        || name.is(b"printf")
        || name.is(b"perror")
        || name.is(b"strlen")
        || name.is(b"atoi")
}

fn reads_two_texts(name: &Name) -> bool
    ensures { result ≡ spec.reads_two_texts name.now }
{
    name.is(b"strcmp") || name.is(b"fputs")
}

// The kind of an extern with a name that isn't told.
#[tactic(auto, unfolding(crate::specs::Settings::known_kind))]
fn known_kind(name: &Name) -> Kind
    ensures { result ≡ spec.known_kind name.now }
{
    if ends_program(name) {
        Kind::Stop
    } else if name.is(b"malloc") {
        Kind::Alloc
    } else if reads_one_word(name) {
        Kind::Pure(1)
    } else if reads_no_word(name) {
        Kind::Pure(0)
    } else if reads_text(name) {
        Kind::Reader(1)
    } else if reads_two_texts(name) {
        Kind::Reader(2)
    } else if name.is(b"write") {
        Kind::Reader(3)
    } else if name.is(b"memset") {
        Kind::Fills(1, 3)
    } else if name.is(b"read") {
        Kind::Fills(2, 3)
    } else {
        Kind::Unknown
    }
}

// The kind of a part, where it has the name, and else the one before.
fn kind_by(name: &Name, part: &ExternKind, found: Option<Kind>) -> Option<Kind>
    ensures { result ≡ (if bytes_eq name.now part.now.name then Some part.now.kind else found) }
{
    if name.is(part.name.as_str().as_bytes()) {
        Some(part.kind)
    } else {
        found
    }
}

// The kind that the last part with a name gives.
fn kind_named(name: &Name, parts: &[ExternKind]) -> Option<Kind>
    ensures { result ≡ spec.kind_named name.now parts.now }
{
    let mut found = None;
    let mut rest = parts;
    'parts_left: while let Some((part, after)) = rest.split_first() {
        found = kind_by(name, part, found);
        rest = after;
    }
    found
}

fn is_kind(kind: &Kind) -> bool
    ensures { result ≡ spec.is_kind kind.now }
{
    match kind {
        Kind::Pure(words) => *words <= 8,
        Kind::Reader(words) => *words <= 8,
        Kind::Alloc | Kind::Stop | Kind::Unknown => true,
        Kind::Fills(buffer, len) => 1 <= *buffer && *buffer <= 8 && 1 <= *len && *len <= 8,
    }
}

// The kind of an extern, by these parts or else by its name alone.
fn kind_of(parts: &[ExternKind], named: &Extern) -> Kind
    ensures { result ≡ spec.kind_of parts.now named.now }
{
    match kind_named(&named.name, parts) {
        None => known_kind(&named.name),
        Some(kind) => { if is_kind(&kind) { kind } else { Kind::Unknown } }
    }
}

fn kinds_of(
    alloc: Global,
    parts: &[ExternKind],
    externs: &[Extern],
) -> Result<Items<Kind>, AllocError>
    ensures { IfOk result (λ kinds. kinds ≡ map (spec.kind_of parts.now) externs.now) }
{
    let mut kinds = Items::new(alloc);
    for named in externs {
        kinds.push(kind_of(parts, named))?;
    }
    Ok(kinds)
}

// The greatest number of rounds, from 1 to 8.
fn bounded_rounds(rounds: u32) -> u32
    ensures { result ≡ spec.bounded_rounds rounds }
{
    rounds.max(1).min(8)
}

/// What is settled of an image that is entered at a place.
pub fn settings_of(
    alloc: Global,
    image: &Image,
    place: u32,
    rounds: u32,
    parts: &[ExternKind],
) -> Result<Settings, AllocError>
    ensures { IfOk result (λ settings. settings ≡ spec.settings_of image.now place rounds parts.now) }
{
    Ok(Settings {
        entry: place,
        rounds: bounded_rounds(rounds),
        kinds: kinds_of(alloc, parts, image.externs.as_slice())?,
    })
}
