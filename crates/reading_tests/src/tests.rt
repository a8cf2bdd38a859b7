//! Rows of what is read, and what it is read as.

mod files;
mod instructions;
mod words;

use std::alloc::{AllocError, Global};

/// Puts a byte at a place of some bytes, or behind them.
fn put(bytes: &mut Vec<u8>, at: usize, byte: u8) -> Result<(), AllocError> {
    match bytes.get_mut(at) {
        Some(old) => *old = byte,
        None => bytes.push(byte)?,
    }
    Ok(())
}

/// Writes hexadecimal numbers behind some bytes, and behind `@N` from the place N on: two digits are a byte, and eight are
/// four, the low byte first. Words that are no numbers are remarks.
fn write(bytes: &mut Vec<u8>, text: &str) -> Result<(), AllocError> {
    let mut at = bytes.len();
    for word in text.split_whitespace() {
        if let Some(place) = word.strip_prefix('@') {
            at = place.parse().unwrap_or(0);
        } else if let Ok(number) = u32::from_str_radix(word, 16) {
            let size = if word.len() == 2 { 1 } else { 4 };
            for byte in &number.to_le_bytes()[..size] {
                put(bytes, at, *byte)?;
                at = at.wrapping_add(1);
            }
        }
    }
    Ok(())
}

/// The bytes of a text of hexadecimal numbers.
fn bytes_of(alloc: Global, text: &str) -> Result<Vec<u8>, AllocError> {
    let mut bytes = Vec::new(alloc);
    write(&mut bytes, text)?;
    Ok(bytes)
}
