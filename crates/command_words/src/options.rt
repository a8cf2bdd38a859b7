//! The options, from the matches of the command.
ghost use Rattle.std.specs.Prelude.{◌≡◌, [], option_map, codes};
ghost use Rattle.clap.specs.Matches.{found_of};
ghost use Rattle.clap.specs.Walk.{first_of, rows_of};
ghost use Rattle.command_words.specs.Reading.{Tells, optional as optional_spec, with_default};
ghost use Rattle.command_words.specs.Values.{number as number_spec, address as address_spec, entry as entry_spec, externs as externs_spec};
ghost use Rattle.command_words.specs.Said.{is_set as is_set_spec, options_in};

use crate::line::{Entry, ExternKind, Options, WordsError};
use crate::values::{address, entry_of, externs_of, number};
use clap::ArgMatches;
use item_list::Items;
use std::alloc::Global;

/// The text of an argument.
pub fn text_of<'a>(matches: &ArgMatches<'a>, name: &str) -> Option<&'a str>
    ensures { option_map (λ text. text.now) result ≡ first_of name.now (rows_of (found_of matches.now)) }
{
    matches.get_str(name)
}

// A flag was given.
fn is_set(matches: &ArgMatches<'_>, name: &str) -> bool
    ensures { result ≡ is_set_spec name.now (rows_of (found_of matches.now)) }
{
    match text_of(matches, name) {
        Some(text) => text == "true",
        None => false,
    }
}

// The number of an option, if it is there.
fn number_in(
    matches: &ArgMatches<'_>,
    name: &str,
    least: u32,
    greatest: u32,
) -> Result<Option<u32>, WordsError>
    ensures { Tells result (optional_spec (number_spec least greatest) (first_of name.now (rows_of (found_of matches.now)))) }
{
    match text_of(matches, name) {
        None => Ok(None),
        Some(text) => match number(text, least, greatest) {
            None => Err(WordsError::Refused),
            Some(number) => Ok(Some(number)),
        },
    }
}

// The number of an option, or its usual one.
fn number_or(
    matches: &ArgMatches<'_>,
    name: &str,
    usual: u32,
    least: u32,
    greatest: u32,
) -> Result<u32, WordsError>
    ensures { Tells result (with_default usual (number_spec least greatest) (first_of name.now (rows_of (found_of matches.now)))) }
{
    match number_in(matches, name, least, greatest)? {
        None => Ok(usual),
        Some(number) => Ok(number),
    }
}

/// The address of an option, if it is there.
pub fn address_in(matches: &ArgMatches<'_>, name: &str) -> Result<Option<u32>, WordsError>
    ensures { Tells result (optional_spec address_spec (first_of name.now (rows_of (found_of matches.now)))) }
{
    match text_of(matches, name) {
        None => Ok(None),
        Some(text) => match address(text) {
            None => Err(WordsError::Refused),
            Some(at) => Ok(Some(at)),
        },
    }
}

// Where the program is entered, if it is said.
fn entry_in(alloc: Global, matches: &ArgMatches<'_>) -> Result<Option<Entry>, WordsError>
    ensures { Tells result (optional_spec entry_spec (first_of (codes "entry") (rows_of (found_of matches.now)))) }
{
    match text_of(matches, "entry") {
        None => Ok(None),
        Some(text) => Ok(Some(entry_of(alloc, text)?)),
    }
}

// The kinds of externs.
fn externs_in(alloc: Global, matches: &ArgMatches<'_>) -> Result<Items<ExternKind>, WordsError>
    ensures { Tells result (with_default [] externs_spec (first_of (codes "extern") (rows_of (found_of matches.now)))) }
{
    match text_of(matches, "extern") {
        None => Ok(Items::new(alloc)),
        Some(text) => externs_of(alloc, text),
    }
}

/// The options that count for more than one task.
pub fn options_of(alloc: Global, matches: &ArgMatches<'_>) -> Result<Options, WordsError>
    ensures { Tells result (options_in (rows_of (found_of matches.now))) }
{
    let entry = entry_in(alloc, matches)?;
    let lane = number_or(matches, "lane", 2, 0, 3)?;
    let round = number_in(matches, "round", 0, 7)?;
    let rounds = number_or(matches, "rounds", 4, 1, 8)?;
    let sessions = number_or(matches, "sessions", 1, 1, 8)?;
    let refiners = number_or(matches, "refiners", 1, 0, 4)?;
    let steps = number_or(matches, "steps", 1000, 1, 65_536)?;
    let seed = number_or(matches, "seed", 1, 0, u32::MAX)?;
    let externs = externs_in(alloc, matches)?;
    Ok(Options {
        entry,
        lane,
        round,
        rounds,
        skip_sp: is_set(matches, "skip-sp"),
        sessions,
        refiners,
        steps,
        seed,
        externs,
    })
}
