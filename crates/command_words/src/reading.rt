//! The words of the command line as what they ask for.
ghost use Rattle.std.specs.Prelude.{◌≡◌, map, codes, option_map};
ghost use Rattle.std.specs.String.{string_bytes};
ghost use Rattle.clap.specs.Matches.{found_of};
ghost use Rattle.clap.specs.Walk.{first_of, rows_of};
ghost use Rattle.clap.specs.Values.{kind_of};
ghost use Rattle.command_words.specs.Reading.{Tells};
ghost use Rattle.command_words.specs.Said.{task_in, said_in, said, reason_of};

use crate::grammar::surf;
use crate::line::{CommandLine, Task, WordsError};
use crate::options::{address_in, options_of, text_of};
use crate::task::{op_of, task_of};
use crate::text::Text;
use clap::error::ErrorKind;
use clap::{ArgMatches, Error};
use std::alloc::Global;

// A copy of an argument's text, if it is there.
fn copy_in(alloc: Global, matches: &ArgMatches<'_>, name: &str) -> Result<Option<Text>, WordsError>
    ensures { Tells result (Some (first_of name.now (rows_of (found_of matches.now)))) }
{
    match text_of(matches, name) {
        None => Ok(None),
        Some(text) => Ok(Some(Text::copy_of(alloc, text)?)),
    }
}

// The task, by the positionals and the two addresses.
fn task_from(alloc: Global, matches: &ArgMatches<'_>) -> Result<Task, WordsError>
    ensures { Tells result (task_in (rows_of (found_of matches.now))) }
{
    let at = address_in(matches, "at")?;
    let from = address_in(matches, "from")?;
    let first = copy_in(alloc, matches, "first")?;
    let second = copy_in(alloc, matches, "second")?;
    match text_of(matches, "op") {
        None => Err(WordsError::Refused),
        Some(word) => match op_of(word) {
            None => Err(WordsError::Refused),
            Some(op) => match task_of(op, first, second, at, from) {
                None => Err(WordsError::Refused),
                Some(task) => Ok(task),
            },
        },
    }
}

// What the matches of the command say.
fn line_from(alloc: Global, matches: &ArgMatches<'_>) -> Result<CommandLine, WordsError>
    ensures { Tells result (said_in (rows_of (found_of matches.now))) }
{
    let options = options_of(alloc, matches)?;
    let task = task_from(alloc, matches)?;
    Ok(CommandLine { task, options })
}

// Why clap refuses words.
fn reason(error: &Error) -> WordsError
    ensures { result ≡ reason_of (kind_of error.now) }
{
    match error.kind() {
        ErrorKind::OutOfMemory => WordsError::Memory,
        _ => WordsError::Refused,
    }
}

/// What the words say, without the program's own name: a task and its options.
pub fn parse(alloc: Global, words: &[String]) -> Result<CommandLine, WordsError>
    // They are refused only where they are outside the grammar; where they are, memory may want first.
    ensures { Tells result (said (map string_bytes words.now)) }
{
    let command = surf(alloc)?;
    match command.try_get_matches_from(words) {
        Ok(matches) => line_from(alloc, &matches),
        Err(error) => Err(reason(&error)),
    }
}
