ghost use Rattle.std.specs.Prelude.{◌≡◌, ◌+◌, ◌<◌, ◌^◌, IfSome};
ghost use Rattle.ia32_semantics.specs.State.{word_at};
ghost use Rattle.ia32_types.specs.Numbers.{size};
ghost use Rattle.ia32_semantics.specs.Operands.{bits};
ghost use Rattle.ia32_semantics.specs.Effects.{all_among, is_mapped};
ghost use Rattle.ia32_memory.specs.Mapped.{bytes_of, is_open_at, number_at, two, four};

use crate::memory::Memory;
use ia32_types::Width;

/// A byte as a number, where it is there.
fn one_byte(byte: Option<u8>) -> Option<u32>
    ensures value { result ≡ byte }
    ensures below { IfSome result (λ v. v < 2 ^ 8) }
{
    match byte {
        None => None,
        Some(byte) => Some(u32::from(byte)),
    }
}

/// The number of two bytes, where both are there.
fn both_bytes(low: Option<u8>, high: Option<u8>) -> Option<u32>
    ensures value { result ≡ two low high }
    ensures below { IfSome result (λ v. v < 2 ^ 16) }
{
    match (low, high) {
        (Some(low), Some(high)) => Some(u32::from(low) + 256 * u32::from(high)),
        _ => None,
    }
}

/// The number of two halves of 16 bits, where both are there.
fn both_halves(low: Option<u32>, high: Option<u32>) -> Option<u32>
    requires low { IfSome low (λ v. v < 2 ^ 16) }
    requires high { IfSome high (λ v. v < 2 ^ 16) }
    ensures { result ≡ four low high }
{
    match (low, high) {
        (Some(low), Some(high)) => Some(low + 65_536 * high),
        _ => None,
    }
}

impl Memory {
    /// The byte some addresses above another, or `None` where none is mapped.
    pub(crate) fn byte_above(&self, address: u32, distance: u32) -> Option<u8>
        ensures { result ≡ bytes_of self.now (address + distance) }
    {
        self.ends();
        match address.checked_add(distance) {
            None => None,
            Some(above) => self.byte(above),
        }
    }

    /// The number of two bytes some addresses above another.
    fn half(&self, address: u32, distance: u32) -> Option<u32>
        requires { distance < 1000 }
        ensures value { result ≡ number_at (bytes_of self.now) 2 (address + distance) }
        ensures below { IfSome result (λ v. v < 2 ^ 16) }
    {
        let low = self.byte_above(address, distance);
        let high = self.byte_above(address, distance + 1);
        both_bytes(low, high)
    }

    /// The number that the bytes from an address on hold, the lowest first: 1, 2 or 4 bytes by the width. It is
    /// `None` where one of them isn't mapped; they don't go on at address 0 past the last address.
    pub fn number(&self, width: Width, address: u32) -> Option<u32>
        ensures value { result ≡ number_at (bytes_of self.now) (size width) address }
        ensures below { IfSome result (λ v. v < 2 ^ bits width) }
    {
        match width {
            Width::B8 => one_byte(self.byte(address)),
            Width::W16 => self.half(address, 0),
            Width::D32 => self.word(address),
        }
    }

    /// The 32-bit word at an address.
    pub fn word(&self, address: u32) -> Option<u32>
        ensures { result ≡ word_at (bytes_of self.now) address }
    {
        let low = self.half(address, 0);
        let high = self.half(address, 2);
        both_halves(low, high)
    }

    fn is_mapped_above(&self, address: u32, distance: u32) -> bool
        ensures { result ≡ is_mapped (bytes_of self.now) (address + distance) }
    {
        self.byte_above(address, distance).is_some()
    }

    /// Whether each of so many bytes from an address on is mapped.
    pub fn is_mapped(&self, address: u32, count: u32) -> bool
        ensures { result ≡ all_among (is_mapped (bytes_of self.now)) address count }
    {
        for distance in 0..count {
            if !self.is_mapped_above(address, distance) {
                return false;
            }
        }
        true
    }

    /// Whether each of so many bytes from an address on is mapped and may be written.
    pub fn is_open(&self, address: u32, count: u32) -> bool
        ensures { result ≡ all_among (is_open_at self.now) address count }
    {
        for distance in 0..count {
            if !self.may_write_above(address, distance) {
                return false;
            }
        }
        true
    }

    fn may_write_above(&self, address: u32, distance: u32) -> bool
        ensures { result ≡ is_open_at self.now (address + distance) }
    {
        self.ends();
        match address.checked_add(distance) {
            None => false,
            Some(above) => self.may_write(above),
        }
    }
}
