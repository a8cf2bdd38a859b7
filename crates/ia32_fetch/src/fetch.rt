ghost use Rattle.std.specs.Prelude.{◌≡◌, ◌≤◌, ◌↔◌, Some, IfSome, take};
ghost use Rattle.std.specs.Option.{option_copied};
ghost use Rattle.image_map.specs.Memory.{holds, segment_at};
ghost use Rattle.ia32_types.specs.declared.Instr.{Instr};
ghost use Rattle.ia32_types.specs.Operands.{IsInstruction};
ghost use Rattle.ia32_semantics.specs.Fetch.{code_byte, fetch_window, IsFetched};
ghost use Rattle.ia32_fetch.specs.Fetched.{instruction_at};

use ia32_decode::decode;
use ia32_types::Instr;
use image_map::{Image, PF_X, Segment};

/// No instruction is longer (Intel SDM, volume 2), in bytes.
pub const LONGEST_INSTRUCTION: usize = 15;

// The code at an address, as far as an instruction may reach.
#[derive(Clone, Copy)]
struct Window {
    bytes: [u8; LONGEST_INSTRUCTION],
    len: usize,
}

// It takes an address of 64 bits, so that the one behind the last of 32 bits has an answer too.
fn is_held(segment: &Segment, address: u64) -> bool
    ensures { result ≡ holds address segment.now }
{
    u64::from(segment.start) <= address
        && address - u64::from(segment.start) < segment.bytes.len() as u64
}

fn segment_holding(segments: &[Segment], address: u64) -> Option<&Segment>
    ensures { option_copied result ≡ segment_at segments.now address }
{
    segments.iter().find(|s| is_held(s, address))
}

/// The byte at an address, where it is code and known.
pub fn code_byte(image: &Image, address: u64) -> Option<u8>
    ensures { result ≡ code_byte image.now address }
{
    let segment = segment_holding(image.segments.as_slice(), address)?;
    if segment.flags & PF_X != PF_X || image.any_bytes.contains(address) {
        return None;
    }
    let offset = address.saturating_sub(u64::from(segment.start));
    segment.bytes.get(offset as usize).copied()
}

// The longest run of known code from an address on, up to the longest instruction.
fn read_window(image: &Image, at: u32) -> Window
    ensures within { result.len ≤ 15 }
    ensures run { take result.len result.bytes ≡ fetch_window image.now at }
{
    let mut bytes = [0; LONGEST_INSTRUCTION];
    let mut len = 0;
    'bytes: while len < LONGEST_INSTRUCTION {
        match code_byte(image, u64::from(at) + len as u64) {
            None => return Window { bytes, len },
            Some(byte) => {
                bytes[len] = byte;
                len += 1;
            }
        }
    }
    Window { bytes, len }
}

/// The instruction that is fetched at an address, if there is one: the longest run of at most 15
/// bytes from there on that are all code and all known begins with it.
pub fn fetched(image: &Image, at: u32) -> Option<Instr>
    ensures value { result ≡ instruction_at image.now at }
    ensures exact { (i : Instr) → (result ≡ Some i) ↔ IsFetched image.now at i }
    ensures spelled { IfSome result IsInstruction }
{
    let window = read_window(image, at);
    match decode(&window.bytes[..window.len], at) {
        Err(_) => None,
        Ok(instr) => Some(instr),
    }
}
