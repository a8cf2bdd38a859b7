//! A line of a script.
ghost use Rattle.std.specs.Prelude.{◌≡◌, ◌≤◌, IfSome, Some, None};
ghost use Rattle.std.specs.Option.{option_map};
ghost use Rattle.requests.specs.Lines.{
  content as content_spec,
  has_other_byte as has_other_byte_spec,
  asks_nothing as asks_nothing_spec,
  session as session_spec,
  request_of as request_of_spec,
  line_request,
};
ghost use Rattle.requests.specs.Words.{word_of as word_spec, front};

use crate::request::{LineCause, Request};
use crate::words::{cut, request, word_of};

/// The line without its LF, and without a CR before that.
pub fn content(line: &[u8]) -> &[u8]
    ensures { result.now ≡ content_spec line.now }
{
    if line.ends_with(b"\r\n") {
        &line[..line.len() - 2]
    } else if line.ends_with(b"\n") {
        &line[..line.len() - 1]
    } else {
        line
    }
}

fn has_other_byte(line: &[u8]) -> bool
    ensures { result ≡ has_other_byte_spec line.now }
{
    line.iter().any(|byte| 128 <= *byte)
}

// An empty line or a comment.
fn asks_nothing(line: &[u8]) -> bool
    ensures { result ≡ asks_nothing_spec line.now }
{
    match line {
        [] => true,
        [byte, ..] => *byte == b'#',
    }
}

// The session, one digit and a space, and what stands behind them.
fn session(sessions: u8, line: &[u8]) -> Option<(u32, &[u8])>
    requires { sessions ≤ 9 }
    ensures { option_map (λ begun. (begun.0, begun.1.now)) result ≡ session_spec sessions line.now }
{
    match line {
        [digit, space, rest @ ..] => {
            if b'1' <= *digit && *digit <= b'0' + sessions && *space == b' ' {
                Some((u32::from(*digit - b'0'), rest))
            } else {
                None
            }
        }
        _ => None,
    }
}

// The request of a text that begins with a word.
fn request_of(programs: Option<u8>, text: &[u8]) -> Result<Request, LineCause>
    requires { IfSome programs (λ count. count ≤ 9) }
    ensures { result ≡ request_of_spec programs text.now (word_spec (front text.now)) }
{
    let (front, behind) = cut(text);
    match word_of(front) {
        None => Err(LineCause::Word),
        Some(word) => request(programs, word, behind),
    }
}

/// What a line asks for, if it asks for anything.
#[tactic(auto, unfolding(crate::specs::Lines::line_request))]
pub fn read_line(
    sessions: u8,
    programs: Option<u8>,
    line: &[u8],
) -> Result<Option<(u32, Request)>, LineCause>
    requires few { sessions ≤ 9 }
    requires short { IfSome programs (λ count. count ≤ 9) }
    ensures { result ≡ line_request sessions programs line.now }
{
    if has_other_byte(line) {
        return Err(LineCause::NotText);
    }
    if asks_nothing(line) {
        return Ok(None);
    }
    match session(sessions, line) {
        None => Err(LineCause::Session),
        Some((number, text)) => match request_of(programs, text) {
            Err(cause) => Err(cause),
            Ok(request) => Ok(Some((number, request))),
        },
    }
}
