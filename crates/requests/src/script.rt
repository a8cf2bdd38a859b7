//! Scripts.
ghost use Rattle.std.specs.Prelude.{◌≡◌, ◌≤◌, ◌<◌, ◌+◌, ◌^◌, None, Some, length, min, IfSome, ◌==◌};
ghost use Rattle.std.specs.List.{position, position_or_len};
ghost use Rattle.requests.specs.Script.{script, Tells};

use crate::line::{content, read_line};
use crate::request::{Script, ScriptError};
use item_list::Items;
use std::alloc::Global;

/// How many requests a script may have.
const MOST_REQUESTS: usize = 1024;

fn line_end(text: &[u8]) -> Option<usize>
    ensures { result ≡ position (λ byte. byte == 10) text.now }
{
    text.iter().position(|byte| *byte == b'\n')
}

/// How many bytes the first line has, with its LF, which the last line may lack.
pub fn first_line_len(text: &[u8]) -> usize
    requires { 0 < length text.now }
    ensures { result ≡ min (position_or_len (λ byte. byte == 10) text.now + 1) (length text.now) }
{
    match line_end(text) {
        Some(at) => at + 1,
        None => text.len(),
    }
}

// The script of so many sessions, and of so many programs or of one program alone.
fn read(
    alloc: Global,
    bytes: &[u8],
    sessions: u8,
    programs: Option<u8>,
) -> Result<Script, ScriptError>
    requires short { length bytes.now < 2 ^ 32 }
    requires few { sessions ≤ 9 }
    requires digit { IfSome programs (λ count. count ≤ 9) }
    ensures { Tells (script sessions programs bytes.now) result }
{
    let mut lines = Items::new(alloc);
    let mut rest = bytes;
    let mut number = 0;
    'lines: while !rest.is_empty() {
        let (line, after) = rest.split_at(first_line_len(rest));
        number += 1;
        match read_line(sessions, programs, content(line)) {
            Err(cause) => return Err(ScriptError::Line(number, cause)),
            Ok(None) => {}
            Ok(Some(asked)) => {
                if lines.len() == MOST_REQUESTS {
                    return Err(ScriptError::TooLong(1024));
                }
                lines.push(asked)?;
            }
        }
        rest = after;
    }
    Ok(Script { lines })
}

/// The script of so many sessions, from 1 to 9, of bytes that are fewer than 2^32; or why they are none.
pub fn read_script(alloc: Global, bytes: &[u8], sessions: u32) -> Result<Script, ScriptError>
    requires short { length bytes.now < 2 ^ 32 }
    requires few { sessions ≤ 9 }
    ensures { Tells (script sessions None bytes.now) result }
{
    read(alloc, bytes, sessions as u8, None)
}

/// The script of so many sessions and so many programs, from 1 to 9 of each; or why the bytes are none.
pub fn read_programs_script(
    alloc: Global,
    bytes: &[u8],
    sessions: u32,
    programs: u32,
) -> Result<Script, ScriptError>
    requires short { length bytes.now < 2 ^ 32 }
    requires few { sessions ≤ 9 }
    requires digit { programs ≤ 9 }
    ensures { Tells (script sessions (Some programs) bytes.now) result }
{
    read(alloc, bytes, sessions as u8, Some(programs as u8))
}
