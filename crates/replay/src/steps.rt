//! A step by its line.
ghost use Rattle.std.specs.Prelude.{◌≡◌, ℕ, ◌≤◌, Err, IfOk, OnOk, length};
ghost use Rattle.image_map.specs.Whole.{IsImage};
ghost use Rattle.ia32_semantics.specs.Machine.{Occurrence as OccurrenceSpec};
ghost use Rattle.ia32_semantics.specs.Step.{Act};
ghost use Rattle.ia32_machine.specs.Machines.{state_of, entry_slot, RunsImage};
ghost use Rattle.ia32_run.specs.Acts.{AreKnown};
ghost use Rattle.replay.specs.Replayed.{TellsStep};
ghost use Rattle.replay.specs.Steps.{IsMadeBy, NoStepBy};

use crate::lines::step_words;
use ia32_machine::{Machine, StepError};
use ia32_run::{Made, advance, eight_from};
use image_map::{Image, Settings};
use std::alloc::{AllocError, Global};

/// Makes the step that a line tells. It is a fault where the line tells none. After an error the machine is of no use.
pub(crate) fn step_by(
    machine: &mut Machine,
    alloc: Global,
    image: &Image,
    settings: &Settings,
    line: &[u8],
) -> Result<Made, StepError>
    requires image { IsImage image.now }
    requires known { AreKnown settings.now }
    requires runs { RunsImage image.now machine.old }
    requires slot { machine.old.slot ≡ entry_slot }
    ensures made { IfOk result (λ made. IsMadeBy image.now settings.now line.now made (state_of machine.old) (state_of machine.new)) }
    ensures runs { OnOk result (RunsImage image.now machine.new) }
    ensures slot { OnOk result (machine.new.slot ≡ entry_slot) }
    ensures fault { result ≡ Err StepError.Fault → NoStepBy image.now settings.now line.now (state_of machine.old) }
{
    let words = match step_words(alloc, line, machine.core.eip) {
        Err(_) => return Err(StepError::Memory),
        Ok(None) => return Err(StepError::Fault),
        Ok(Some(words)) => words,
    };
    let eight = eight_from(&words, 0);
    let made = match advance(machine, alloc, image, settings, &eight) {
        Err(error) => return Err(error),
        Ok(made) => made,
    };
    if made.out.used as usize != words.len() {
        return Err(StepError::Fault);
    }
    Ok(made)
}
