//! The words of requests.
ghost use Rattle.std.specs.Prelude.{◌≡◌, ◌≤◌, IfSome};
ghost use Rattle.std.specs.List.{position};
ghost use Rattle.std.specs.Option.{option_map};
ghost use Rattle.std.specs.Str.{bytes_eq};
ghost use Rattle.requests.specs.Words.{
  is_space,
  front,
  behind,
  word_of as word_spec,
  one_address as one_address_spec,
  two_addresses as two_addresses_spec,
  one_digit as one_digit_spec,
  addressed as addressed_spec,
  alone as alone_spec,
  lane as lane_spec,
  program as program_spec,
  request as request_spec,
};

use crate::digits::address;
use crate::request::{LineCause, Request};

/// The first word of a request.
#[derive(Clone, Copy)]
pub enum Word {
    Slice,
    SliceSkip,
    Values,
    Warnings,
    Locations,
    Step,
    Lane,
    Forward,
    ForwardSkip,
    Chop,
    ChopSkip,
    Why,
    WhySkip,
    Matched,
    MatchedSkip,
    Program,
}

fn space(text: &[u8]) -> Option<usize>
    ensures { result ≡ position is_space text.now }
{
    text.iter().position(|byte| *byte == b' ')
}

/// What stands before the first space, and what stands behind it.
pub fn cut(text: &[u8]) -> (&[u8], Option<&[u8]>)
    ensures front { result.0.now ≡ front text.now }
    ensures behind { option_map (λ rest. rest.now) result.1 ≡ behind text.now }
{
    match space(text) {
        None => (text, None),
        Some(at) => (&text[..at], Some(&text[at + 1..])),
    }
}

fn is(text: &[u8], word: &str) -> bool
    ensures { result ≡ bytes_eq text.now word.now }
{
    text == word.as_bytes()
}

/// The word that a text is.
pub fn word_of(text: &[u8]) -> Option<Word>
    ensures { result ≡ word_spec text.now }
{
    if is(text, "slice") {
        Some(Word::Slice)
    } else if is(text, "slice-skip") {
        Some(Word::SliceSkip)
    } else if is(text, "values") {
        Some(Word::Values)
    } else if is(text, "warnings") {
        Some(Word::Warnings)
    } else if is(text, "locations") {
        Some(Word::Locations)
    } else if is(text, "step") {
        Some(Word::Step)
    } else if is(text, "lane") {
        Some(Word::Lane)
    } else if is(text, "forward") {
        Some(Word::Forward)
    } else if is(text, "forward-skip") {
        Some(Word::ForwardSkip)
    } else if is(text, "chop") {
        Some(Word::Chop)
    } else if is(text, "chop-skip") {
        Some(Word::ChopSkip)
    } else if is(text, "why") {
        Some(Word::Why)
    } else if is(text, "why-skip") {
        Some(Word::WhySkip)
    } else if is(text, "matched") {
        Some(Word::Matched)
    } else if is(text, "matched-skip") {
        Some(Word::MatchedSkip)
    } else if is(text, "program") {
        Some(Word::Program)
    } else {
        None
    }
}

fn one_address(rest: Option<&[u8]>) -> Option<u32>
    ensures { result ≡ one_address_spec (option_map (λ text. text.now) rest.entry) }
{
    address(rest?)
}

fn two_addresses(rest: Option<&[u8]>) -> Option<(u32, u32)>
    ensures { result ≡ two_addresses_spec (option_map (λ text. text.now) rest.entry) }
{
    let (front, behind) = cut(rest?);
    let from = address(front)?;
    let to = one_address(behind)?;
    Some((from, to))
}

// The one digit that follows, where it lies between two numbers.
fn one_digit(least: u8, greatest: u8, rest: Option<&[u8]>) -> Option<u32>
    requires low { least ≤ 9 }
    requires high { greatest ≤ 9 }
    ensures { result ≡ one_digit_spec least greatest (option_map (λ text. text.now) rest.entry) }
{
    match rest {
        Some([digit]) => {
            if b'0' + least <= *digit && *digit <= b'0' + greatest {
                Some(u32::from(*digit - b'0'))
            } else {
                None
            }
        }
        _ => None,
    }
}

// The requests of the words that take addresses.
fn addressed(word: Word, rest: Option<&[u8]>) -> Option<Request>
    ensures { result ≡ addressed_spec word (option_map (λ text. text.now) rest.entry) }
{
    match word {
        Word::Slice => Some(Request::Slice {
            at: one_address(rest)?,
            skip_sp: false,
        }),
        Word::SliceSkip => Some(Request::Slice {
            at: one_address(rest)?,
            skip_sp: true,
        }),
        Word::Values => Some(Request::Values(one_address(rest)?)),
        Word::Forward => Some(Request::Forward {
            at: one_address(rest)?,
            skip_sp: false,
        }),
        Word::ForwardSkip => Some(Request::Forward {
            at: one_address(rest)?,
            skip_sp: true,
        }),
        Word::Matched => Some(Request::Matched {
            at: one_address(rest)?,
            skip_sp: false,
        }),
        Word::MatchedSkip => Some(Request::Matched {
            at: one_address(rest)?,
            skip_sp: true,
        }),
        Word::Chop => two_addresses(rest).map(|(from, to)| Request::Chop {
            from,
            to,
            skip_sp: false,
        }),
        Word::ChopSkip => two_addresses(rest).map(|(from, to)| Request::Chop {
            from,
            to,
            skip_sp: true,
        }),
        Word::Why => two_addresses(rest).map(|(from, to)| Request::Why {
            from,
            to,
            skip_sp: false,
        }),
        Word::WhySkip => two_addresses(rest).map(|(from, to)| Request::Why {
            from,
            to,
            skip_sp: true,
        }),
        _ => None,
    }
}

// A word that stands alone.
fn alone(request: Request, rest: Option<&[u8]>) -> Result<Request, LineCause>
    ensures { result ≡ alone_spec request (option_map (λ text. text.now) rest.entry) }
{
    match rest {
        None => Ok(request),
        Some(_) => Err(LineCause::Word),
    }
}

fn lane(rest: Option<&[u8]>) -> Result<Request, LineCause>
    ensures { result ≡ lane_spec (option_map (λ text. text.now) rest.entry) }
{
    match one_digit(0, 3, rest) {
        Some(lane) => Ok(Request::Lane(lane)),
        None => Err(LineCause::Lane),
    }
}

// The program that follows, where the script is one of several programs.
fn program(programs: Option<u8>, rest: Option<&[u8]>) -> Result<Request, LineCause>
    requires { IfSome programs (λ count. count ≤ 9) }
    ensures { result ≡ program_spec programs (option_map (λ text. text.now) rest.entry) }
{
    match programs {
        None => Err(LineCause::Word),
        Some(count) => match one_digit(1, count, rest) {
            Some(program) => Ok(Request::Program(program)),
            None => Err(LineCause::Program),
        },
    }
}

/// The request of a word and what follows it, in a script of so many programs or of one program alone.
pub fn request(programs: Option<u8>, word: Word, rest: Option<&[u8]>) -> Result<Request, LineCause>
    requires { IfSome programs (λ count. count ≤ 9) }
    ensures { result ≡ request_spec programs word (option_map (λ text. text.now) rest.entry) }
{
    match word {
        Word::Warnings => alone(Request::Warnings, rest),
        Word::Locations => alone(Request::Locations, rest),
        Word::Step => alone(Request::Step, rest),
        Word::Lane => lane(rest),
        Word::Program => program(programs, rest),
        _ => match addressed(word, rest) {
            Some(request) => Ok(request),
            None => Err(LineCause::Address),
        },
    }
}
