//! Bytes and numbers of an instruction, of at most 15 bytes in all.

ghost use Rattle.std.specs.Prelude.{◌≡◌, ◌+◌, ◌<◌, ◌^◌, IfOk};
ghost use Rattle.ia32_types.specs.Readers.{byte as byte_reader, word as word_reader, dword as dword_reader, number as number_reader};
ghost use Rattle.ia32_decode.specs.Reading.{next_byte_of, run};

use crate::NotDecoded;

/// The most bytes of an instruction.
const MAX_LEN: u32 = 15;

/// The byte after the first `read`, and how many are read then. At least `least` bytes, this one
/// included, complete the instruction.
pub fn next_byte(bytes: &[u8], read: u8, least: u8) -> Result<(u8, u8), NotDecoded>
    ensures gives { result ≡ next_byte_of bytes.now read least }
    ensures byte { IfOk result (λ x. x.0 < 256) }
{
    if u32::from(read) + u32::from(least) > MAX_LEN {
        return Err(NotDecoded::Unknown);
    }
    match bytes.get(usize::from(read)) {
        None => Err(NotDecoded::Short),
        Some(byte) => Ok((*byte, read + 1)),
    }
}

/// A number of one byte, where at least `extra` bytes follow it.
pub fn byte(bytes: &[u8], read: u8, extra: u8) -> Result<(u8, u8), NotDecoded>
    requires { extra < 100 }
    ensures gives { result ≡ run extra byte_reader bytes.now read }
    ensures byte { IfOk result (λ x. x.0 < 256) }
{
    next_byte(bytes, read, 1 + extra)
}

/// A number of two bytes, the low one first.
pub fn word(bytes: &[u8], read: u8, extra: u8) -> Result<(u16, u8), NotDecoded>
    requires { extra < 90 }
    ensures gives { result ≡ run extra word_reader bytes.now read }
    ensures word { IfOk result (λ x. x.0 < 65536) }
{
    let (low, read) = byte(bytes, read, 1 + extra)?;
    let (high, read) = byte(bytes, read, extra)?;
    Ok((u16::from(low) + 256 * u16::from(high), read))
}

/// A number of four bytes, the low one first.
pub fn dword(bytes: &[u8], read: u8, extra: u8) -> Result<(u32, u8), NotDecoded>
    requires { extra < 80 }
    ensures gives { result ≡ run extra dword_reader bytes.now read }
    ensures long { IfOk result (λ x. x.0 < 2 ^ 32) }
{
    let (low, read) = word(bytes, read, 2 + extra)?;
    let (high, read) = word(bytes, read, extra)?;
    Ok((u32::from(low) + 65536 * u32::from(high), read))
}

/// A number of 0, 1, 2 or 4 bytes at the end of an instruction.
pub fn number(bytes: &[u8], read: u8, count: u8) -> Result<(u32, u8), NotDecoded>
    ensures gives { result ≡ run 0 (number_reader count) bytes.now read }
    ensures long { IfOk result (λ x. x.0 < 2 ^ 32) }
{
    match count {
        0 => Ok((0, read)),
        1 => {
            let (n, read) = byte(bytes, read, 0)?;
            Ok((u32::from(n), read))
        }
        2 => {
            let (n, read) = word(bytes, read, 0)?;
            Ok((u32::from(n), read))
        }
        _ => dword(bytes, read, 0),
    }
}
