//! The lines of a file that tells a run.
ghost use Rattle.std.specs.Prelude.{◌≡◌, ℕ, List, take, drop, length, IfOk, MatchOption};
ghost use Rattle.replay.specs.Lines.{AreWords, IsStartLine, IsStepLine};

use crate::digits::{spaced_word, word_of};
use requests::content;
use std::alloc::{AllocError, Global};

/// The first bytes of a text, and the others. A text that is too short is cut at its end.
fn cut(text: &[u8], at: usize) -> (&[u8], &[u8])
    ensures front { result.0.now ≡ take at text.now }
    ensures rest { result.1.now ≡ drop at text.now }
{
    if at < text.len() {
        text.split_at(at)
    } else {
        (text, &[])
    }
}

/// The words that a text is, each behind a space, if it is some.
fn words_of(alloc: Global, text: &[u8]) -> Result<Option<Vec<u32>>, AllocError>
    ensures { IfOk result (λ found. MatchOption found ((words : List ℕ) → ¬ AreWords text.now words) (λ words. AreWords text.now words.items)) }
{
    let mut words = Vec::new(alloc);
    let mut rest = text;
    'words_left: while !rest.is_empty() {
        let (front, after) = cut(rest, 9);
        match spaced_word(front) {
            None => return Ok(None),
            Some(word) => words.push(word)?,
        }
        rest = after;
    }
    Ok(Some(words))
}

/// Twelve words, if a text is these, each behind a space.
fn twelve_words(alloc: Global, text: &[u8]) -> Result<Option<Vec<u32>>, AllocError>
    ensures { IfOk result (λ found. MatchOption found ((words : List ℕ) → AreWords text.now words → ¬ (length words ≡ 12)) (λ words. AreWords text.now words.items × (length words.items ≡ 12))) }
{
    match words_of(alloc, text)? {
        None => Ok(None),
        Some(words) => {
            if words.len() != 12 {
                return Ok(None);
            }
            Ok(Some(words))
        }
    }
}

/// The twelve words of a start, if a line tells them.
pub(crate) fn read_start(alloc: Global, line: &[u8]) -> Result<Option<Vec<u32>>, AllocError>
    ensures { IfOk result (λ found. MatchOption found ((words : List ℕ) → ¬ IsStartLine line.now words) (λ words. IsStartLine line.now words.items)) }
{
    let (front, rest) = cut(content(line), 5);
    if front != b"start".as_slice() {
        return Ok(None);
    }
    twelve_words(alloc, rest)
}

/// The words of a step at an address, if a line tells them.
pub(crate) fn step_words(
    alloc: Global,
    line: &[u8],
    at: u32,
) -> Result<Option<Vec<u32>>, AllocError>
    ensures { IfOk result (λ found. MatchOption found ((words : List ℕ) → ¬ IsStepLine line.now at words) (λ words. IsStepLine line.now at words.items)) }
{
    let (front, rest) = cut(content(line), 8);
    match word_of(front) {
        Some(address) if address == at => words_of(alloc, rest),
        _ => Ok(None),
    }
}
