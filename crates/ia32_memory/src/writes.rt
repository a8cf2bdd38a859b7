ghost use Rattle.std.specs.Prelude.{◌≡◌, ℕ, ◌+◌, ◌<◌, [], ◌∷◌};
ghost use Rattle.image_map.specs.Shapes.{shapes};
ghost use Rattle.ia32_semantics.specs.Effects.{byte_or_zero, bytes_from};
ghost use Rattle.ia32_types.specs.Numbers.{size};
ghost use Rattle.ia32_semantics.specs.Operands.{number_bytes};
ghost use Rattle.ia32_memory.specs.Mapped.{bytes_of};
ghost use Rattle.ia32_memory.specs.Changes.{with_byte, with_bytes, filled_over, copied_over};

use crate::elements::{Elements, next};
use crate::memory::Memory;
use ia32_types::Width;

impl Memory {
    /// Stores a byte some addresses above another, where one is mapped.
    fn put_above(&mut self, address: u32, distance: u32, byte: u8)
        ensures bytes { bytes_of self.new ≡ with_byte (bytes_of self.old) (address + distance) byte }
        ensures shapes { shapes self.new ≡ shapes self.old }
    {
        self.ends();
        match address.checked_add(distance) {
            None => {}
            Some(above) => self.put(above, byte),
        }
    }

    /// Stores two bytes, the first one some addresses above another.
    fn put_two(&mut self, address: u32, distance: u32, low: u8, high: u8)
        requires { distance < 1000 }
        ensures bytes { bytes_of self.new ≡ with_bytes (bytes_of self.old) (address + distance) (low ∷ high ∷ []) }
        ensures shapes { shapes self.new ≡ shapes self.old }
    {
        self.put_above(address, distance + 1, high);
        self.put_above(address, distance, low);
    }

    /// Stores the low 16 bits of a number some addresses above another.
    fn put_half(&mut self, address: u32, distance: u32, half: u32)
        requires { distance < 1000 }
        ensures bytes { bytes_of self.new ≡ with_bytes (bytes_of self.old) (address + distance) (number_bytes 2 half) }
        ensures shapes { shapes self.new ≡ shapes self.old }
    {
        self.put_two(
            address,
            distance,
            (half % 256) as u8,
            (half / 256 % 256) as u8,
        );
    }

    /// Stores the low bytes of a value from an address on, the lowest first and where they are mapped: 1, 2 or 4
    /// bytes by the width.
    pub fn write(&mut self, width: Width, address: u32, value: u32)
        ensures bytes { bytes_of self.new ≡ with_bytes (bytes_of self.old) address (number_bytes (size width) value) }
        ensures shapes { shapes self.new ≡ shapes self.old }
    {
        match width {
            Width::B8 => self.put(address, (value % 256) as u8),
            Width::W16 => self.put_half(address, 0, value),
            Width::D32 => {
                self.put_half(address, 2, value / 65_536);
                self.put_half(address, 0, value);
            }
        }
    }

    /// The byte some addresses above another, or 0 where none is mapped.
    fn byte_or_zero(&self, address: u32, distance: u32) -> u8
        ensures { result ≡ byte_or_zero (bytes_of self.now (address + distance)) }
    {
        self.byte_above(address, distance).unwrap_or(0)
    }

    /// Copies one element of a width; all of its bytes are read before one is stored.
    fn copy_element(&mut self, width: Width, from: u32, to: u32)
        ensures bytes { bytes_of self.new ≡ with_bytes (bytes_of self.old) to (bytes_from (bytes_of self.old) from (size width)) }
        ensures shapes { shapes self.new ≡ shapes self.old }
    {
        let b0 = self.byte_or_zero(from, 0);
        match width {
            Width::B8 => self.put(to, b0),
            Width::W16 => {
                let b1 = self.byte_or_zero(from, 1);
                self.put_two(to, 0, b0, b1);
            }
            Width::D32 => {
                let b1 = self.byte_or_zero(from, 1);
                let b2 = self.byte_or_zero(from, 2);
                let b3 = self.byte_or_zero(from, 3);
                self.put_two(to, 2, b2, b3);
                self.put_two(to, 0, b0, b1);
            }
        }
    }

    /// Stores a value in each of some elements, from the one at an address on, where they are mapped.
    pub fn fill(&mut self, elements: Elements, to: u32, value: u32)
        ensures bytes { bytes_of self.new ≡ filled_over elements.down (size elements.width) value elements.count to (bytes_of self.old) }
        ensures shapes { shapes self.new ≡ shapes self.old }
    {
        let mut at = to;
        for _ in 0..elements.count {
            self.write(elements.width, at, value);
            at = next(elements.down, elements.width, at);
        }
    }

    /// Copies elements one after the other, each as memory is by then: where the ranges overlap, an element that
    /// was copied may be copied again. A byte that isn't mapped is read as 0.
    pub fn copy(&mut self, elements: Elements, from: u32, to: u32)
        ensures bytes { bytes_of self.new ≡ copied_over elements.down (size elements.width) elements.count from to (bytes_of self.old) }
        ensures shapes { shapes self.new ≡ shapes self.old }
    {
        let mut source = from;
        let mut target = to;
        for _ in 0..elements.count {
            self.copy_element(elements.width, source, target);
            source = next(elements.down, elements.width, source);
            target = next(elements.down, elements.width, target);
        }
    }
}
