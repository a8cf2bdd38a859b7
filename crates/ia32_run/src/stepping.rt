//! One step of a run.

ghost use Rattle.std.specs.Prelude.{◌≡◌, ◌==◌, ◌&&◌, ◌≤◌, ℕ, List, ◌++◌, drop, Err, IfOk, OnOk};
ghost use Rattle.image_map.specs.declared.image.Image.{Image as ImageSpec};
ghost use Rattle.image_map.specs.Whole.{IsImage};
ghost use Rattle.ia32_machine.specs.Machines.{state_of, entry_slot, RunsImage};
ghost use Rattle.ia32_run.specs.Acts.{act_of, IsKnown, AreKnown};
ghost use Rattle.ia32_run.specs.Steps.{IsDone, CantBeDone};
ghost use Rattle.ia32_run.specs.Traces.{IsMade, NoStep};

use crate::acts::{Act, act_at};
use crate::answers::are_eight;
use crate::externs::answer;
use crate::finish::finish_after;
use crate::log::Made;
use ia32_machine::{Choice, Machine, StepError, StepOut};
use image_map::{Image, Settings};
use std::alloc::Global;

/// The address to which the entry returns. Nothing stands there.
const HALT: u32 = 0xFFFF_0000;

/// Whether control went from the last of so many activations to HALT.
fn returns(calls: usize, next: u32) -> bool
    ensures { result ≡ (calls == 1 && next == 0xFFFF0000) }
{
    calls == 1 && next == HALT
}

/// Does an act where the machine stands. After an error for want of memory the machine is of no use.
fn perform_act(
    machine: &mut Machine,
    alloc: Global,
    act: &Act,
    words: &[u32; 8],
) -> Result<StepOut, StepError>
    requires known { IsKnown act.now }
    requires slot { machine.old.slot ≡ entry_slot }
    ensures done { (image : ImageSpec) → IsImage image → RunsImage image machine.old → IfOk result (λ out. IsDone image (act_of machine.old.core.eip act.now) words.now out (state_of machine.old) (state_of machine.new)) }
    ensures runs { (image : ImageSpec) → IsImage image → RunsImage image machine.old → OnOk result (RunsImage image machine.new) }
    ensures fault { (image : ImageSpec) → IsImage image → RunsImage image machine.old → result ≡ Err StepError.Fault → CantBeDone image (act_of machine.old.core.eip act.now) words.now (state_of machine.old) }
{
    are_eight(words);
    match act {
        Act::Executes(i) => machine.step(alloc, i, &Choice { words: *words }),
        Act::Answers(kind) => answer(machine, alloc, kind, words),
    }
}

/// Makes the next step of a run with the first of eight words. After an error for want of memory the machine is of no use.
pub fn advance(
    machine: &mut Machine,
    alloc: Global,
    image: &Image,
    settings: &Settings,
    words: &[u32; 8],
) -> Result<Made, StepError>
    requires image { IsImage image.now }
    requires known { AreKnown settings.now }
    requires runs { RunsImage image.now machine.old }
    requires slot { machine.old.slot ≡ entry_slot }
    ensures made { IfOk result (λ made. (rest : List ℕ) → IsMade image.now settings.now (words.now ++ rest) (drop made.out.used words.now ++ rest) made (state_of machine.old) (state_of machine.new)) }
    ensures few { IfOk result (λ made. made.out.used ≤ 8) }
    ensures runs { OnOk result (RunsImage image.now machine.new) }
    ensures slot { OnOk result (machine.new.slot ≡ entry_slot) }
    ensures fault { result ≡ Err StepError.Fault → (rest : List ℕ) → NoStep image.now settings.now (state_of machine.old) (words.now ++ rest) }
{
    are_eight(words);
    let at = machine.core.eip;
    let calls = machine.frames.len();
    let act = match act_at(image, settings, at) {
        None => return Err(StepError::Fault),
        Some(act) => act,
    };
    let out = match perform_act(machine, alloc, &act, words) {
        Err(error) => return Err(error),
        Ok(out) => out,
    };
    let finish = finish_after(&act, returns(calls, out.next));
    Ok(Made { at, out, finish })
}
