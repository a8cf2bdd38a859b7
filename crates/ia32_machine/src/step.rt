//! One step of the machine: an instruction is planned, and what it will do is done where all of it can be.

ghost use Rattle.std.specs.Prelude.{◌≡◌, Err, IfOk, OnOk, OnErr, length, reverse};
ghost use Rattle.image_map.specs.declared.image.Image.{Image};
ghost use Rattle.image_map.specs.Whole.{IsImage};
ghost use Rattle.image_map.specs.Shapes.{shapes};
ghost use Rattle.ia32_semantics.specs.Outcome.{can_move as can_move_spec, moved};
ghost use Rattle.ia32_memory.specs.Mapped.{is_in_first};
ghost use Rattle.ia32_plan.specs.Plans.{move_of};
ghost use Rattle.ia32_plan.specs.Views as views;
ghost use Rattle.ia32_machine.specs.Machines.{state_of, RunsImage};
ghost use Rattle.ia32_machine.specs.Steps.{IsExecuted, Faults, gone_on};

use crate::apply::perform_all;
use crate::fits::all_fit;
use crate::machine::Machine;
use crate::touched::{StepOut, places};
use ia32_plan::{Calls, Core, Words, plan};
use ia32_types::Instr;
use image_map::Activation;
use std::alloc::{AllocError, Global};

/// Words that stand for all that may be any in a step.
#[derive(Clone, Copy, Debug)]
pub struct Choice {
    pub words: [u32; 8],
}

/// Why no step was made.
#[derive(Clone, Copy, Debug, PartialEq, Eq)]
pub enum StepError {
    /// The instruction faults.
    Fault,
    /// Memory for the machine itself lacks.
    Memory,
}

/// A choice has eight words.
fn are_eight(words: &[u32; 8])
    ensures { length words.now ≡ 8 }
{}

/// Whether an activation is there that ends, where one does.
pub fn can_move(calls: &Calls, frames: &[Activation]) -> bool
    ensures { result ≡ can_move_spec (move_of calls.now) (reverse frames.now) }
{
    match calls {
        Calls::Kept | Calls::Entered(_) => true,
        Calls::Left => !frames.is_empty(),
    }
}

/// Lets an activation begin, or the newest one end.
pub fn move_calls(calls: &Calls, frames: &mut Vec<Activation>) -> Result<(), AllocError>
    ensures ok { OnOk result (reverse frames.new.items ≡ moved (move_of calls.now) (reverse frames.old.items)) }
    ensures err { OnErr result (frames.new.items ≡ frames.old.items) }
{
    match calls {
        Calls::Kept => Ok(()),
        Calls::Entered(activation) => {
            frames.push(*activation)?;
            Ok(())
        }
        Calls::Left => {
            frames.pop();
            Ok(())
        }
    }
}

/// Goes to a place, and forgets the bytes of the stack below an address where there is one.
pub fn go_on(core: &mut Core, place: u32, forgets: Option<u32>)
    ensures state { views.state_of core.new ≡ gone_on place forgets (is_in_first core.old.memory) (views.state_of core.old) }
    ensures shapes { shapes core.new.memory ≡ shapes core.old.memory }
{
    core.eip = place;
    match forgets {
        None => {}
        Some(below) => core.memory.forget(below),
    }
}

impl Machine {
    /// Executes an instruction, with words of choice for what may be any in it. On an error nothing has changed.
    pub fn step(&mut self, alloc: Global, i: &Instr, choice: &Choice) -> Result<StepOut, StepError>
        ensures executed { (image : Image) → IsImage image → RunsImage image self.old → IfOk result (λ out. IsExecuted image i.now choice.now.words out (state_of self.old) (state_of self.new)) }
        ensures runs { (image : Image) → RunsImage image self.old → RunsImage image self.new }
        ensures fault { (image : Image) → RunsImage image self.old → result ≡ Err StepError.Fault → Faults image i.now choice.now.words (state_of self.old) }
        ensures unchanged { OnErr result ((self.new.core ≡ self.old.core) × (state_of self.new ≡ state_of self.old)) }
    {
        are_eight(&choice.words);
        let mut words = Words::new(choice.words);
        let plan = match plan(&self.core, i, &mut words) {
            None => return Err(StepError::Fault),
            Some(plan) => plan,
        };
        if !all_fit(&self.core.memory, &plan.effects) {
            return Err(StepError::Fault);
        }
        if !can_move(&plan.calls, self.frames.as_slice()) {
            return Err(StepError::Fault);
        }
        let out = match places(alloc, &self.core, i, &words, &plan) {
            Err(_) => return Err(StepError::Memory),
            Ok(out) => out,
        };
        match move_calls(&plan.calls, &mut self.frames) {
            Err(_) => return Err(StepError::Memory),
            Ok(()) => {}
        }
        perform_all(&mut self.core, &plan.effects);
        go_on(&mut self.core, plan.place, plan.forgets);
        Ok(out)
    }
}
