//! The run that a file tells.
ghost use Rattle.std.specs.Prelude.{◌≡◌, ◌+◌, ◌<◌, ◌^◌, ℕ, List, ◌∷◌, length, Err, Some, None, IfOk};
ghost use Rattle.surf_base.specs.Sink.{lines_of};
ghost use Rattle.image_map.specs.Whole.{IsImage};
ghost use Rattle.ia32_run.specs.Acts.{AreKnown};
ghost use Rattle.replay.specs.Lines.{IsStartLine};
ghost use Rattle.replay.specs.Replayed.{IsReplay, FailsAt, finish_or_limit as finish_spec};

use crate::lines::read_start;
use crate::steps::step_by;
use ia32_machine::{Machine, StepError};
use ia32_run::{Finish, RunLog, Writers, start_words, told_of};
use image_map::{Image, Settings};
use item_list::Items;
use requests::first_line_len;
use std::alloc::{AllocError, Global};

/// Why a file tells no run.
#[derive(Clone, Copy, Debug, PartialEq, Eq)]
pub enum ReplayError {
    /// The first line that fails, counted from 1; 1 where there is no line.
    Line(u32),
    /// Want of memory.
    Memory,
}

impl From<AllocError> for ReplayError {
    ghost use Rattle.std.specs.Prelude.{◌≡◌};
    ghost use Rattle.replay.specs.declared.file.ReplayError.TheVariants.{Memory};

    ghost from_gives = { λ _ e. e ≡ Memory };

    fn from(_: AllocError) -> Self {
        ReplayError::Memory
    }
}

/// How a run ended, or that it has come to its limit.
fn finish_or_limit(finish: Option<Finish>) -> Finish
    ensures { result ≡ finish_spec finish }
{
    match finish {
        None => Finish::Limit,
        Some(finish) => finish,
    }
}

/// The run of a file whose first line has these words, and whose other lines are these.
fn replay_lines(
    alloc: Global,
    image: &Image,
    settings: &Settings,
    words: &[u32],
    lines: &[u8],
) -> Result<RunLog, ReplayError>
    requires image { IsImage image.now }
    requires known { AreKnown settings.now }
    requires short { length lines.now + 1 < 2 ^ 32 }
    ensures log { IfOk result (λ log. (first bytes : List ℕ) → IsStartLine first words.now → lines_of bytes ≡ first ∷ lines_of lines.now → IsReplay image.now settings.now bytes log) }
    ensures line { (number : ℕ) → result ≡ Err (ReplayError.Line number) → (first bytes : List ℕ) → IsStartLine first words.now → lines_of bytes ≡ first ∷ lines_of lines.now → FailsAt image.now settings.now (lines_of bytes) number }
{
    let mut machine = Machine::start(alloc, image, settings, &start_words(words))?;
    let mut writers = Writers::new(alloc);
    let mut told = Items::new(alloc);
    let mut finish = None;
    let mut count = 0;
    let mut rest = lines;
    'lines_left: while !rest.is_empty() {
        if finish.is_some() {
            return Err(ReplayError::Line(count + 2));
        }
        let (line, after) = rest.split_at(first_line_len(rest));
        let made = match step_by(&mut machine, alloc, image, settings, line) {
            Err(StepError::Fault) => return Err(ReplayError::Line(count + 2)),
            Err(StepError::Memory) => return Err(ReplayError::Memory),
            Ok(made) => made,
        };
        told.push(told_of(alloc, &writers, &made)?)?;
        writers.note(alloc, &made.out, machine.slot, count)?;
        count += 1;
        finish = made.finish;
        rest = after;
    }
    Ok(RunLog {
        steps: told,
        finish: finish_or_limit(finish),
    })
}

/// The run that a file tells: its first line says how it starts, and each further line is a step of the machine, with its address and just
/// the words that it takes. The bytes are fewer than 2^32.
///
/// # Errors
///
/// `Line` exactly where they tell no run, unless memory wanted first.
pub fn replay(
    alloc: Global,
    image: &Image,
    settings: &Settings,
    bytes: &[u8],
) -> Result<RunLog, ReplayError>
    requires image { IsImage image.now }
    requires known { AreKnown settings.now }
    requires short { length bytes.now < 2 ^ 32 }
    ensures log { IfOk result (λ log. IsReplay image.now settings.now bytes.now log) }
    ensures line { (number : ℕ) → result ≡ Err (ReplayError.Line number) → FailsAt image.now settings.now (lines_of bytes.now) number }
{
    if bytes.is_empty() {
        return Err(ReplayError::Line(1));
    }
    let (first, others) = bytes.split_at(first_line_len(bytes));
    match read_start(alloc, first)? {
        None => Err(ReplayError::Line(1)),
        Some(words) => replay_lines(alloc, image, settings, &words, others),
    }
}
