// The text of a run with the choices of a seed.
ghost use Rattle.std.specs.Prelude.{◌≡◌, ◌<◌, ◌^◌, ◌++◌, length, IfOk, OnOk};
ghost use Rattle.image_map.specs.Whole.{IsImage};
ghost use Rattle.surf_prog.specs.Tracing as spec;

use crate::dynamic::{Traced, dynamic_lines, push_number};
use crate::settings::settings_of;
use crate::words::RunOptions;
use dynamic_slices::depends_of;
use ia32_run::{Finish, Occurrence, RunLog, trace};
use image_map::Image;
use std::alloc::{AllocError, Global};
use surf_base::hex8;

// The word of choice behind another.
fn next_word(word: u32) -> u32
    ensures { result ≡ spec.next_word word }
{
    ((1_664_525 * u64::from(word) + 1_013_904_223) % (1 << 32)) as u32
}

// So many words of choice of a seed.
fn seed_words(alloc: Global, count: usize, seed: u32) -> Result<Vec<u32>, AllocError>
    ensures { IfOk result (λ words. words.items ≡ spec.seed_words count seed) }
{
    let mut words = Vec::new(alloc);
    let mut word = seed;
    for _ in 0..count {
        word = next_word(word);
        words.push(word)?;
    }
    Ok(words)
}

fn finish_name<'a>(finish: Finish) -> &'a [u8]
    ensures { result.now ≡ spec.finish_name finish }
{
    match finish {
        Finish::Return => b"return",
        Finish::Halt => b"halt",
        Finish::Stop => b"stop",
        Finish::Fault => b"fault",
        Finish::Limit => b"limit",
    }
}

// Puts numbers, each after a space, behind a text.
fn push_spaced(alloc: Global, text: &mut Vec<u8>, numbers: &[u32]) -> Result<(), AllocError>
    ensures { OnOk result (text.new.items ≡ text.old.items ++ spec.spaced numbers.now) }
{
    let mut rest = numbers;
    'numbers_left: while let Some((number, after)) = rest.split_first() {
        text.extend_from_slice(b" ")?;
        push_number(alloc, text, *number)?;
        rest = after;
    }
    Ok(())
}

fn push_step(
    alloc: Global,
    text: &mut Vec<u8>,
    skip_sp: bool,
    number: u32,
    step: &Occurrence,
) -> Result<(), AllocError>
    ensures { OnOk result (text.new.items ≡ text.old.items ++ spec.step_line skip_sp number step.now) }
{
    push_number(alloc, text, number)?;
    text.extend_from_slice(b" ")?;
    text.extend_from_slice(&hex8(step.at))?;
    push_spaced(alloc, text, depends_of(step, skip_sp))?;
    text.extend_from_slice(b"\n")
}

fn push_steps(
    alloc: Global,
    text: &mut Vec<u8>,
    skip_sp: bool,
    steps: &[Occurrence],
) -> Result<(), AllocError>
    requires { length steps.now < 2 ^ 32 }
    ensures { OnOk result (text.new.items ≡ text.old.items ++ spec.step_lines skip_sp 0 steps.now) }
{
    let mut number = 0;
    let mut rest = steps;
    'steps_left: while let Some((step, after)) = rest.split_first() {
        push_step(alloc, text, skip_sp, number, step)?;
        number += 1;
        rest = after;
    }
    Ok(())
}

fn push_end(alloc: Global, text: &mut Vec<u8>, log: &RunLog) -> Result<(), AllocError>
    requires { length log.now.steps < 2 ^ 32 }
    ensures { OnOk result (text.new.items ≡ text.old.items ++ spec.end_line log.now) }
{
    text.extend_from_slice(b"end ")?;
    text.extend_from_slice(finish_name(log.finish))?;
    text.extend_from_slice(b" ")?;
    push_number(alloc, text, log.steps.len() as u32)?;
    text.extend_from_slice(b" steps\n")
}

// The text of a run, with these lines before the last one.
fn trace_text(
    alloc: Global,
    skip_sp: bool,
    place: u32,
    log: &RunLog,
    between: &[u8],
) -> Result<Vec<u8>, AllocError>
    requires { length log.now.steps < 2 ^ 32 }
    ensures { IfOk result (λ text. text.items ≡ spec.trace_text skip_sp place log.now between.now) }
{
    let mut text = Vec::new(alloc);
    text.extend_from_slice(b"trace ")?;
    text.extend_from_slice(&hex8(place))?;
    text.extend_from_slice(b"\n")?;
    push_steps(alloc, &mut text, skip_sp, log.steps.as_slice())?;
    text.extend_from_slice(between)?;
    push_end(alloc, &mut text, log)?;
    Ok(text)
}

/// The text of a run of an image from a place on: at most so many steps, with the choices of a seed. Where an address is named, the
/// dynamic slice of its last step is told too, or that the run never comes to it.
pub fn tracing(
    alloc: Global,
    image: &Image,
    place: u32,
    options: &RunOptions,
) -> Result<Traced, AllocError>
    requires { IsImage image.now }
    ensures { IfOk result (λ traced. spec.Tells image.now place options.now traced) }
{
    let settings = settings_of(alloc, image, place, 1, options.externs.as_slice())?;
    let count = 8 * (options.steps as usize + 2);
    let words = seed_words(alloc, count, options.seed)?;
    let log = trace(alloc, image, &settings, &words, options.steps)?;
    match dynamic_lines(alloc, log.steps.as_slice(), options.at, options.skip_sp)? {
        Traced::Never(at) => Ok(Traced::Never(at)),
        Traced::Text(between) => {
            let text = trace_text(alloc, options.skip_sp, place, &log, &between)?;
            Ok(Traced::Text(text))
        }
    }
}
