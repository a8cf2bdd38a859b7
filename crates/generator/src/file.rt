//! The file of a made program.
ghost use Rattle.std.specs.Prelude.{◌≡◌, ◌≤◌, ◌++◌, None, OnOk, IfOk};
ghost use Rattle.elf32.specs.Loading.{failure};
ghost use Rattle.generator.specs.Files.{file_header, halves as halves_spec, made_image, program_header, words as words_spec};

use crate::items::code;
use std::alloc::{AllocError, Global};

// Where the code is loaded.
const BASE: u32 = 0x0804_9000;

// Puts half words behind some bytes.
fn push_halves(bytes: &mut Vec<u8>, halves: &[u16]) -> Result<(), AllocError>
    ensures { OnOk result (bytes.new.items ≡ bytes.old.items ++ halves_spec halves.now) }
{
    let mut rest = halves;
    'halves_left: while let Some((half, after)) = rest.split_first() {
        bytes.extend_from_slice(&half.to_le_bytes())?;
        rest = after;
    }
    Ok(())
}

// Puts words behind some bytes.
fn push_words(bytes: &mut Vec<u8>, words: &[u32]) -> Result<(), AllocError>
    ensures { OnOk result (bytes.new.items ≡ bytes.old.items ++ words_spec words.now) }
{
    let mut rest = words;
    'words_left: while let Some((word, after)) = rest.split_first() {
        bytes.extend_from_slice(&word.to_le_bytes())?;
        rest = after;
    }
    Ok(())
}

fn header(alloc: Global) -> Result<Vec<u8>, AllocError>
    ensures { IfOk result (λ bytes. bytes.items ≡ file_header) }
{
    let identity = [0x7F, b'E', b'L', b'F', 1, 1, 1, 0, 0, 0, 0, 0, 0, 0, 0, 0];
    let mut bytes = Vec::from_slice(alloc, &identity)?;
    push_halves(&mut bytes, &[2, 3])?;
    push_words(&mut bytes, &[1, BASE, 52, 0, 0])?;
    push_halves(&mut bytes, &[52, 32, 1, 0, 0, 0])?;
    Ok(bytes)
}

fn push_program_header(bytes: &mut Vec<u8>, len: u32) -> Result<(), AllocError>
    ensures { OnOk result (bytes.new.items ≡ bytes.old.items ++ program_header len) }
{
    push_words(bytes, &[1, 84, BASE, BASE, len, len, 5, 1])
}

/// The file of the program that a seed tells, with so many items.
///
/// # Errors
/// Where memory is wanting.
#[tactic(auto, unfolding(crate::specs::Files::made_image))]
pub fn make_image(alloc: Global, seed: u32, items: u32) -> Result<Vec<u8>, AllocError>
    requires few { items ≤ 1000 }
    ensures file { IfOk result (λ bytes. bytes.items ≡ made_image seed items) }
    // It has an image.
    ensures loads { IfOk result (λ bytes. failure bytes.items ≡ None) }
{
    let code = code(alloc, seed, items)?;
    let mut bytes = header(alloc)?;
    push_program_header(&mut bytes, code.len() as u32)?;
    bytes.extend_from_slice(&code)?;
    Ok(bytes)
}
