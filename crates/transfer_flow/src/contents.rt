//! What stands at an address.

ghost use Rattle.std.specs.Prelude.{◌≡◌, length, slice_get, IfSome};
ghost use Rattle.image_map.specs.CallModel.{IsKind, AreSettings};
ghost use Rattle.abs_steps.specs.Places.{kind_at as kind_at_spec, content_at as content_at_spec, is_place as is_place_spec};
ghost use Rattle.transfer_flow.specs.Contents.{meant, IsContent};

use ia32_fetch::fetched;
use ia32_types::Instr;
use image_map::{Image, Kind, Settings};

/// What stands at an address: an extern, or code that begins with an instruction, or neither.
#[derive(Clone, Copy)]
pub enum Content {
    Extern(Kind),
    Instruction(Instr),
    Nothing,
}

fn kind_of(settings: &Settings, number: u32) -> Option<Kind>
    ensures { result ≡ slice_get settings.now.kinds number }
{
    settings.kinds.as_slice().get(number as usize).copied()
}

/// The kind of the extern that stands at an address.
#[tactic(auto, unfolding(abs_steps::specs::Places::kind_at))]
fn kind_at(image: &Image, settings: &Settings, at: u32) -> Option<Kind>
    requires { AreSettings (length image.now.externs) settings.now }
    ensures value { result ≡ kind_at_spec image.now settings.now at }
    ensures kind { IfSome result IsKind }
{
    let number = image.extern_at(at)?;
    kind_of(settings, number)
}

/// What stands at an address.
#[tactic(auto, unfolding(abs_steps::specs::Places::content_at))]
pub fn content_at(image: &Image, settings: &Settings, at: u32) -> Content
    requires { AreSettings (length image.now.externs) settings.now }
    ensures value { meant result ≡ content_at_spec image.now settings.now at }
    ensures sound { IsContent (meant result) }
{
    match kind_at(image, settings, at) {
        Some(kind) => Content::Extern(kind),
        None => match fetched(image, at) {
            Some(i) => Content::Instruction(i),
            None => Content::Nothing,
        },
    }
}

/// Whether control may go on at an address.
pub fn is_place(image: &Image, at: u32) -> bool
    ensures { result ≡ is_place_spec image.now at }
{
    image.is_code(at) || image.extern_at(at).is_some()
}
