//! What the machine does at an address.

ghost use Rattle.std.specs.Prelude.{◌≡◌, ◌↔◌, Some, slice_get, IfSome};
ghost use Rattle.image_map.specs.Whole.{IsImage};
ghost use Rattle.ia32_semantics.specs.Step.{Act as ActSpec, IsActAt};
ghost use Rattle.ia32_run.specs.Acts.{act_meant, IsKnown, AreKnown};

use ia32_fetch::fetched;
use ia32_types::Instr;
use image_map::{Image, Kind, Settings};

/// What the machine does in a step.
#[derive(Clone, Copy)]
pub enum Act {
    /// It executes an instruction.
    Executes(Instr),
    /// An extern of this kind answers.
    Answers(Kind),
}

/// The kind of the extern with a number.
fn kind_of(settings: &Settings, number: u32) -> Option<Kind>
    ensures { result ≡ slice_get settings.now.kinds number }
{
    settings.kinds.as_slice().get(number as usize).copied()
}

/// What the machine does at an address: the extern that stands there answers, or the instruction there is executed.
/// Where there is neither, the step is a fault.
pub fn act_at(image: &Image, settings: &Settings, at: u32) -> Option<Act>
    requires { IsImage image.now }
    ensures act { (act : ActSpec) → (act_meant at result ≡ Some act) ↔ IsActAt image.now settings.now at act }
    ensures known { AreKnown settings.now → IfSome result (λ act. IsKnown act) }
{
    match image.extern_at(at) {
        None => match fetched(image, at) {
            None => None,
            Some(i) => Some(Act::Executes(i)),
        },
        Some(number) => match kind_of(settings, number) {
            None => None,
            Some(kind) => Some(Act::Answers(kind)),
        },
    }
}
