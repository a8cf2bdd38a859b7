//! How an extern returns.

ghost use Rattle.std.specs.Prelude.{◌≡◌, ℕ, length, OnOk, [], ◌∷◌, ◌++◌};
ghost use Rattle.image_map.specs.declared.image.Image.{Image};
ghost use Rattle.image_map.specs.Shapes.{shapes};
ghost use Rattle.ia32_semantics.specs.Effects.{Whole, sets, all_changed};
ghost use Rattle.ia32_semantics.specs.Operands.{is_set as is_set_spec};
ghost use Rattle.ia32_semantics.specs.Outcome.{is_in_stack};
ghost use Rattle.ia32_semantics.specs.Rows.{risen};
ghost use Rattle.ia32_semantics.specs.Externs.{result_effects, answered};
ghost use Rattle.ia32_memory.specs.Mapped.{is_in_first};
ghost use Rattle.ia32_plan.specs.Views.{state_of};
ghost use Rattle.ia32_machine.specs.Machines as machines;
ghost use Rattle.ia32_machine.specs.Steps.{performed};
ghost use Rattle.ia32_run.specs.Answers.{results_of};

use ia32_machine::{Machine, go_on, move_calls, perform};
use ia32_plan::{Calls, Core, Entry};
use ia32_semantics::{FlagOut, FlagsOut};
use ia32_types::{Reg, Width};
use std::alloc::AllocError;

/// A step has eight words.
pub(crate) fn are_eight(words: &[u32; 8])
    ensures { length words.now ≡ 8 }
{}

/// A flag by bit 16 of a word.
fn flag_by(word: u32) -> FlagOut
    ensures { result ≡ FlagOut.Set (is_set_spec word) }
{
    FlagOut::Set(word / 65_536 % 2 == 1)
}

/// The five flags by the last of eight words.
fn flags_by(words: &[u32; 8]) -> FlagsOut
    ensures { result ≡ (results_of words.now).flags }
{
    FlagsOut {
        cf: flag_by(words[3]),
        pf: flag_by(words[4]),
        zf: flag_by(words[5]),
        sf: flag_by(words[6]),
        of: flag_by(words[7]),
    }
}

/// Puts what eight words say into EAX, ECX, EDX and the five flags.
fn give_results(core: &mut Core, words: &[u32; 8])
    ensures state { (image : Image) → state_of core.new ≡ all_changed (result_effects (results_of words.now)) (state_of core.old) }
    ensures shapes { shapes core.new.memory ≡ shapes core.old.memory }
{
    perform(core, &Entry::Set(Width::D32, Reg::Eax, words[0]));
    perform(core, &Entry::Set(Width::D32, Reg::Ecx, words[1]));
    perform(core, &Entry::Set(Width::D32, Reg::Edx, words[2]));
    perform(core, &Entry::Flags(flags_by(words)));
}

/// An extern has left what eight words say, and returns to a place: ESP rises by 4, and the newest activation ends.
pub fn return_with(
    machine: &mut Machine,
    words: &[u32; 8],
    sp: u32,
    place: u32,
) -> Result<(), AllocError>
    ensures state { OnOk result ((image : Image) → ((a : ℕ) → is_in_first machine.old.core.memory a ≡ is_in_stack machine.old.slot a) → machines.state_of machine.new ≡ performed (answered (results_of words.now) sp place) (machines.state_of machine.old)) }
    ensures shapes { OnOk result (shapes machine.new.core.memory ≡ shapes machine.old.core.memory) }
    ensures kept { OnOk result ((machine.new.slot ≡ machine.old.slot) × (machine.new.blocks.items ≡ machine.old.blocks.items)) }
{
    move_calls(&Calls::Left, &mut machine.frames)?;
    let risen = sp.wrapping_add(4);
    give_results(&mut machine.core, words);
    perform(&mut machine.core, &Entry::Set(Width::D32, Reg::Esp, risen));
    go_on(&mut machine.core, place, Some(risen));
    Ok(())
}
