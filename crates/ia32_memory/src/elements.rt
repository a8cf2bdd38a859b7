ghost use Rattle.std.specs.Prelude.{◌≡◌};
ghost use Rattle.ia32_semantics.specs.Effects.{is_mapped};
ghost use Rattle.ia32_types.specs.Numbers.{size};
ghost use Rattle.ia32_semantics.specs.Strings.{stepped};
ghost use Rattle.ia32_memory.specs.Mapped.{bytes_of, is_open_at};
ghost use Rattle.ia32_memory.specs.Changes.{all_in_elements};

use crate::memory::Memory;
use ia32_types::Width;

/// How a string instruction goes over memory: so many elements of a width, downwards or upwards.
#[derive(Clone, Copy, Debug)]
pub struct Elements {
    pub down: bool,
    pub width: Width,
    pub count: u32,
}

/// The address of the next element.
pub(crate) fn next(down: bool, width: Width, address: u32) -> u32
    ensures { result ≡ stepped down (size width) 1 address }
{
    let size = width.bytes();
    if down {
        address.wrapping_sub(size)
    } else {
        address.wrapping_add(size)
    }
}

impl Memory {
    /// Whether each byte of some elements, from the one at an address on, is mapped.
    pub fn are_mapped(&self, elements: Elements, address: u32) -> bool
        ensures { result ≡ all_in_elements (is_mapped (bytes_of self.now)) elements.down (size elements.width) elements.count address }
    {
        let size = elements.width.bytes();
        let mut at = address;
        for _ in 0..elements.count {
            if !self.is_mapped(at, size) {
                return false;
            }
            at = next(elements.down, elements.width, at);
        }
        true
    }

    /// Whether each byte of some elements, from the one at an address on, is mapped and may be written.
    pub fn are_open(&self, elements: Elements, address: u32) -> bool
        ensures { result ≡ all_in_elements (is_open_at self.now) elements.down (size elements.width) elements.count address }
    {
        let size = elements.width.bytes();
        let mut at = address;
        for _ in 0..elements.count {
            if !self.is_open(at, size) {
                return false;
            }
            at = next(elements.down, elements.width, at);
        }
        true
    }
}
