ghost use Rattle.std.specs.Prelude.{◌≡◌, ℕ, ◌<◌, ◌≤◌, Some, length, IfSome};
ghost use Rattle.std.specs.Option.{option_copied};
ghost use Rattle.image_map.specs.Memory.{holds, has_flag, segment_at, byte_of};
ghost use Rattle.image_map.specs.Queries.{byte_at as byte_there, is_code as code_there, is_writable as writable_there};
ghost use Rattle.image_map.specs.Names.{extern_address as extern_address_spec, extern_number, value_of};

use crate::name::Name;
use crate::spans::Spans;
use crate::symbols::Symbols;
use item_list::Items;
use std::alloc::AllocError;

/// The flag of a segment whose bytes are code (System V ABI, ELF: `PF_X`).
pub const PF_X: u32 = 1;

/// The flag of a segment that may be written (System V ABI, ELF: `PF_W`).
pub const PF_W: u32 = 2;

/// The flag of a segment that may be read (System V ABI, ELF: `PF_R`).
pub const PF_R: u32 = 4;

/// The address at which the first extern stands.
const EXTERN_BASE: u32 = 0xF000_0000;

/// How far two neighbouring externs stand apart.
const EXTERN_STEP: u32 = 16;

/// A run of memory of the image: its first address, its bytes, and its `PF_` flags.
#[derive(Drop)]
pub struct Segment {
    pub start: u32,
    pub bytes: Items<u8>,
    pub flags: u32,
}

/// A function or a variable that the image uses and doesn't have.
#[derive(Drop)]
pub struct Extern {
    pub name: Name,
}

/// An executable as it stands in memory before its first instruction.
///
/// Extern number i stands at `extern_address(i)`. The bytes in `any_bytes` may have any
/// content. `words` lists the places of the words that relocations wrote, in their order.
#[derive(Drop)]
pub struct Image {
    pub segments: Items<Segment>,
    pub externs: Items<Extern>,
    pub symbols: Symbols,
    pub any_bytes: Spans,
    pub words: Items<u32>,
    pub entry: u32,
    pub bias: u32,
}

impl Segment {
    /// Whether an address lies in this segment.
    pub fn holds(&self, address: u32) -> bool
        ensures { result ≡ holds address self.now }
    {
        self.start <= address && ((address - self.start) as usize) < self.bytes.len()
    }
}

/// The first of the segments that holds an address.
pub fn segment_holding(segments: &[Segment], address: u32) -> Option<&Segment>
    ensures { option_copied result ≡ segment_at segments.now address }
{
    segments.iter().find(|s| s.holds(address))
}

/// The byte that segments have at an address, or `None` where none has it or it may be any byte.
pub fn memory_byte(segments: &[Segment], any_bytes: &Spans, address: u32) -> Option<u8>
    ensures { result ≡ byte_of segments.now any_bytes.now address }
{
    if any_bytes.contains(address as u64) {
        return None;
    }
    let segment = segment_holding(segments, address)?;
    segment
        .bytes
        .get(address.saturating_sub(segment.start) as usize)
        .copied()
}

/// The address at which the extern with a number stands. An image has at most 1,024 externs.
pub fn extern_address(number: u32) -> u32
    requires { number < 1024 }
    ensures { result ≡ extern_address_spec number }
{
    EXTERN_BASE + EXTERN_STEP * number
}

impl Image {
    /// The byte at an address, or `None` where no segment has it or it may be any byte.
    pub fn byte_at(&self, address: u32) -> Option<u8>
        ensures { result ≡ byte_there self.now address }
    {
        memory_byte(self.segments.as_slice(), &self.any_bytes, address)
    }

    /// Whether an address lies in a segment whose bytes are code.
    pub fn is_code(&self, address: u32) -> bool
        ensures { result ≡ code_there self.now address }
    {
        match segment_holding(self.segments.as_slice(), address) {
            Some(segment) => segment.flags & PF_X == PF_X,
            None => false,
        }
    }

    /// Whether an address lies in a segment that may be written.
    pub fn is_writable(&self, address: u32) -> bool
        ensures { result ≡ writable_there self.now address }
    {
        match segment_holding(self.segments.as_slice(), address) {
            Some(segment) => segment.flags & PF_W == PF_W,
            None => false,
        }
    }

    /// The number of the extern that stands at an address.
    #[tactic(auto, unfolding(crate::specs::Names::extern_number))]
    pub fn extern_at(&self, address: u32) -> Option<u32>
        ensures number { result ≡ extern_number (length self.now.externs) address }
        // The extern stands at the address.
        ensures there { IfSome result (λ i. (i < length self.now.externs) × (extern_address_spec i ≡ address)) }
        // Each extern is found at its address.
        ensures found { (i : ℕ) → i < length self.now.externs → extern_address_spec i ≡ address → result ≡ Some i }
    {
        if address < EXTERN_BASE {
            return None;
        }
        let offset = address - EXTERN_BASE;
        if offset % EXTERN_STEP != 0 {
            return None;
        }
        let number = offset / EXTERN_STEP;
        if (number as usize) < self.externs.len() {
            Some(number)
        } else {
            None
        }
    }

    /// The value of the first symbol with a name.
    pub fn symbol(&self, name: &[u8]) -> Option<u32>
        ensures { result ≡ value_of self.now.symbols name.now }
    {
        self.symbols.value(name)
    }
}

impl Clone for Segment {
    ghost is_clone = { λ s clone. clone ≡ s };

    fn clone(&self) -> Result<Segment, AllocError> {
        Ok(Segment {
            start: self.start,
            bytes: self.bytes.clone()?,
            flags: self.flags,
        })
    }
}

impl Clone for Extern {
    ghost is_clone = { λ e clone. clone ≡ e };

    fn clone(&self) -> Result<Extern, AllocError> {
        Ok(Extern {
            name: self.name.clone()?,
        })
    }
}

impl Clone for Image {
    ghost is_clone = { λ i clone. clone ≡ i };

    fn clone(&self) -> Result<Image, AllocError> {
        Ok(Image {
            segments: self.segments.clone()?,
            externs: self.externs.clone()?,
            symbols: self.symbols.clone()?,
            any_bytes: self.any_bytes.clone()?,
            words: self.words.clone()?,
            entry: self.entry,
            bias: self.bias,
        })
    }
}
