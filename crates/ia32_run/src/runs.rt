//! Runs with given words of choice.

ghost use Rattle.std.specs.Prelude.{◌≡◌, ◌<◌, ◌≤◌, ◌+◌, ◌*◌, ◌^◌, List, length, slice_index, IfOk};
ghost use Rattle.image_map.specs.declared.image.Image.{Image as ImageSpec};
ghost use Rattle.image_map.specs.declared.region.Settings.{Settings as SettingsSpec};
ghost use Rattle.image_map.specs.Whole.{IsImage};
ghost use Rattle.ia32_semantics.specs.Machine.{Occurrence as OccurrenceSpec};
ghost use Rattle.ia32_semantics.specs.Runs.{stands_at};
ghost use Rattle.ia32_semantics.specs.Step.{Act, reads};
ghost use Rattle.ia32_machine.specs.Machines.{start_state};
ghost use Rattle.ia32_machine.specs.Touches.{IsTouched};
ghost use Rattle.ia32_run.specs.Acts.{AreKnown};
ghost use Rattle.ia32_run.specs.Writers.{KnowsWriters};
ghost use Rattle.ia32_run.specs.Traces.{eight_words, IsTrace, TellsSources};

use crate::log::{Finish, Made, Occurrence, RunLog};
use crate::stepping::advance;
use crate::writers::Writers;
use ia32_machine::{Machine, StepError};
use image_map::{Image, Settings};
use item_list::Items;
use std::alloc::{AllocError, Global};

/// A word at a place; 0 behind the last.
fn word(words: &[u32], at: usize) -> u32
    ensures { result ≡ slice_index words.now at }
{
    match words.get(at) {
        None => 0,
        Some(word) => *word,
    }
}

/// Eight words from one on; 0 behind the last.
pub fn eight_from(words: &[u32], at: usize) -> [u32; 8]
    requires { at < 2 ^ 40 }
    ensures { result ≡ eight_words words.now at }
{
    [
        word(words, at),
        word(words, at + 1),
        word(words, at + 2),
        word(words, at + 3),
        word(words, at + 4),
        word(words, at + 5),
        word(words, at + 6),
        word(words, at + 7),
    ]
}

/// The first twelve words.
pub fn start_words(words: &[u32]) -> [u32; 12]
    ensures { (image : ImageSpec) (settings : SettingsSpec) → start_state image settings result ≡ start_state image settings words.now }
{
    [
        word(words, 0),
        word(words, 1),
        word(words, 2),
        word(words, 3),
        word(words, 4),
        word(words, 5),
        word(words, 6),
        word(words, 7),
        word(words, 8),
        word(words, 9),
        word(words, 10),
        word(words, 11),
    ]
}

/// What is told of a step that was made, by the last writers before it.
pub fn told_of(alloc: Global, writers: &Writers, made: &Made) -> Result<Occurrence, AllocError>
    ensures { IfOk result (λ told. (run : List (OccurrenceSpec Act)) (o : OccurrenceSpec Act) → IsTouched made.now.out.reads (reads o) → made.now.at ≡ stands_at o → KnowsWriters writers.now run → TellsSources run o told) }
{
    let depends = writers.sources(alloc, &made.out.reads, false)?;
    let depends_skip = writers.sources(alloc, &made.out.reads, true)?;
    Ok(Occurrence {
        at: made.at,
        depends: Items::from_vec(depends),
        depends_skip: Items::from_vec(depends_skip),
    })
}

/// Runs the program of an image, at most so many steps. The words of choice are taken one after another: twelve by the start, and
/// eight at most by each step.
pub fn trace(
    alloc: Global,
    image: &Image,
    settings: &Settings,
    words: &[u32],
    steps: u32,
) -> Result<RunLog, AllocError>
    requires image { IsImage image.now }
    requires known { AreKnown settings.now }
    requires enough { 8 * (steps + 2) ≤ length words.now }
    ensures { IfOk result (λ log. IsTrace image.now settings.now words.now steps log) }
{
    let mut machine = Machine::start(alloc, image, settings, &start_words(words))?;
    let mut writers = Writers::new(alloc);
    let mut told = Items::new(alloc);
    let mut used = 12;
    let mut count = 0;
    'run: while count < steps {
        let eight = eight_from(words, used);
        let made = match advance(&mut machine, alloc, image, settings, &eight) {
            Err(StepError::Fault) => {
                return Ok(RunLog {
                    steps: told,
                    finish: Finish::Fault,
                });
            }
            Err(StepError::Memory) => return Err(AllocError),
            Ok(made) => made,
        };
        told.push(told_of(alloc, &writers, &made)?)?;
        writers.note(alloc, &made.out, machine.slot, count)?;
        used += made.out.used as usize;
        count += 1;
        if let Some(finish) = made.finish {
            return Ok(RunLog {
                steps: told,
                finish,
            });
        }
    }
    Ok(RunLog {
        steps: told,
        finish: Finish::Limit,
    })
}
