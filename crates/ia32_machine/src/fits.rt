//! Whether what a plan says can be done.

ghost use Rattle.std.specs.Prelude.{◌≡◌};
ghost use Rattle.image_map.specs.declared.image.Image.{Image};
ghost use Rattle.ia32_semantics.specs.Effects.{effects_fit};
ghost use Rattle.ia32_memory.specs.Mapped.{bytes_of};
ghost use Rattle.ia32_machine.specs.Opens.{KnowsOpen};
ghost use Rattle.ia32_plan.specs.Plans.{entry_effects, all_effects};

use ia32_memory::{Elements, Memory};
use ia32_plan::{Effects, Entry};

/// Whether each byte that an entry changes may be written, and each that it copies is mapped.
pub fn entry_fits(memory: &Memory, entry: &Entry) -> bool
    ensures { (image : Image) → KnowsOpen image memory.now → result ≡ effects_fit image (bytes_of memory.now) (entry_effects entry.now) }
{
    match entry {
        Entry::Set(..)
        | Entry::High(..)
        | Entry::Turn(..)
        | Entry::Flags(_)
        | Entry::Halves { .. }
        | Entry::Quotient { .. } => true,
        Entry::Store { at, width, .. } => memory.is_open(*at, width.bytes()),
        Entry::Copied {
            down,
            width,
            count,
            from,
            to,
        } => {
            let elements = Elements {
                down: *down,
                width: *width,
                count: *count,
            };
            memory.are_mapped(elements, *from) && memory.are_open(elements, *to)
        }
        Entry::Filled {
            down,
            width,
            count,
            to,
            ..
        } => {
            let elements = Elements {
                down: *down,
                width: *width,
                count: *count,
            };
            memory.are_open(elements, *to)
        }
    }
}

/// The same of all entries. No entry changes what is mapped, so that all can be looked at before.
pub fn all_fit(memory: &Memory, effects: &Effects) -> bool
    ensures { (image : Image) → KnowsOpen image memory.now → result ≡ effects_fit image (bytes_of memory.now) (all_effects effects.now) }
{
    match effects {
        Effects::Nothing => true,
        Effects::One(first) => entry_fits(memory, first),
        Effects::Two(first, second) => entry_fits(memory, first) && entry_fits(memory, second),
    }
}
