//! Lists of files.
ghost use Rattle.std.specs.Prelude.{◌≡◌, ◌≤◌, ◌<◌, ◌^◌, ◌∷◌, ◌++◌, [], length, IfOk, OnOk};
ghost use Rattle.std.specs.String.{string_bytes};
ghost use Rattle.program_shelf.specs.Listed.{
  is_name_length as is_name_length_spec,
  is_ascii as is_ascii_spec,
  is_name as is_name_spec,
  name_in,
  TellsLine,
  Tells,
};
ghost use Rattle.std.specs.Option.{option_map};

use requests::{content, first_line_len};
use std::alloc::{AllocError, Global};

/// As many programs as a run serves.
const MOST_PROGRAMS: u32 = 4;

/// Why bytes are no list of files.
#[derive(Clone, Copy, Debug, PartialEq, Eq)]
pub enum ListError {
    /// The first line that is no name or stands behind the fourth, counted from 1; 1 where there is no line.
    Line(u32),
    /// Want of memory.
    Memory,
}

fn is_name_length(len: usize) -> bool
    ensures { result ≡ is_name_length_spec len }
{
    1 <= len && len <= 255
}

fn is_ascii(line: &[u8]) -> bool
    ensures { result ≡ is_ascii_spec line.now }
{
    line.iter().all(|byte| *byte < 128)
}

// A name has 1 to 255 bytes of ASCII.
fn is_name(line: &[u8]) -> bool
    ensures { result ≡ is_name_spec line.now }
{
    is_name_length(line.len()) && is_ascii(line)
}

// The name that a line is, if it is one.
fn name_of(alloc: Global, line: &[u8]) -> Result<Option<String>, AllocError>
    ensures { IfOk result (λ name. option_map string_bytes name ≡ name_in line.now) }
{
    if !is_name(line) {
        return Ok(None);
    }
    match str::from_utf8(line) {
        Ok(name) => Ok(Some(String::from_str(alloc, name)?)),
        Err(_) => Ok(None),
    }
}

// The name on a line with this number.
fn listed_name(alloc: Global, number: u32, line: &[u8]) -> Result<String, ListError>
    ensures { TellsLine number line.now result }
{
    if number > MOST_PROGRAMS {
        return Err(ListError::Line(number));
    }
    match name_of(alloc, content(line)) {
        Err(_) => Err(ListError::Memory),
        Ok(None) => Err(ListError::Line(number)),
        Ok(Some(name)) => Ok(name),
    }
}

// Puts a name at the end.
fn add(names: &mut Vec<String>, name: String) -> Result<(), AllocError>
    ensures { OnOk result (names.new.items ≡ names.old.items ++ name ∷ []) }
{
    match names.push(name) {
        Ok(()) => Ok(()),
        Err(failed) => Err(AllocError::from(failed)),
    }
}

/// The names that the bytes list, one a line, in order; from 1 to 4 of them. The bytes are fewer than 2^32.
///
/// # Errors
///
/// `Line` exactly where they are no such list, unless memory wanted first.
pub fn read_list(alloc: Global, bytes: &[u8]) -> Result<Vec<String>, ListError>
    requires short { length bytes.now < 2 ^ 32 }
    ensures told { Tells bytes.now result }
{
    let mut names = Vec::new(alloc);
    let mut rest = bytes;
    let mut number = 0;
    'lines: while !rest.is_empty() {
        let (line, after) = rest.split_at(first_line_len(rest));
        number += 1;
        let name = match listed_name(alloc, number, line) {
            Err(error) => return Err(error),
            Ok(name) => name,
        };
        match add(&mut names, name) {
            Err(_) => return Err(ListError::Memory),
            Ok(()) => {}
        }
        rest = after;
    }
    if number == 0 {
        return Err(ListError::Line(1));
    }
    Ok(names)
}
