//! The instructions of a made program.
ghost use Rattle.std.specs.Prelude.{◌≡◌, ◌<◌, ◌+◌, ◌-◌, ◌*◌, ◌++◌, OnOk, IfOk};
ghost use Rattle.generator.specs.Items.{asked_of, code as code_spec, item, item_of, items as items_spec, next_word as next_word_spec};

use std::alloc::{AllocError, Global};

/// The word of chance behind another.
pub fn next_word(word: u32) -> u32
    ensures { result ≡ next_word_spec word }
{
    ((1_664_525 * u64::from(word) + 1_013_904_223) % (1 << 32)) as u32
}

/// What a word of chance asks for: a kind of item below 4, registers below 4, and a number below 16.
#[derive(Clone, Copy)]
pub struct Asked {
    pub kind: u8,
    pub first: u8,
    pub second: u8,
    pub number: u8,
}

fn asked_by(word: u32) -> Asked
    ensures { result ≡ asked_of word }
{
    Asked {
        kind: ((word >> 24) % 4) as u8,
        first: ((word >> 16) % 4) as u8,
        second: ((word >> 18) % 4) as u8,
        number: ((word >> 20) % 16) as u8,
    }
}

// How far below EBP a word of the frame lies, as a byte.
fn below(number: u8) -> u8
    requires { number < 16 }
    ensures { result ≡ 256 - 4 * (1 + number) }
{
    252 - 4 * number
}

// Puts an item behind some code.
#[tactic(auto, unfolding(crate::specs::Items::item_of))]
fn push_asked(code: &mut Vec<u8>, asked: Asked) -> Result<(), AllocError>
    requires first { asked.first < 4 }
    requires second { asked.second < 4 }
    requires number { asked.number < 16 }
    ensures { OnOk result (code.new.items ≡ code.old.items ++ item_of asked) }
{
    let Asked {
        kind,
        first,
        second,
        number,
    } = asked;
    match kind {
        0 => code.extend_from_slice(&[0xB8 + first, number, 0, 0, 0]),
        1 => code.extend_from_slice(&[0x01, 0xC0 + 8 * second + first]),
        2 => code.extend_from_slice(&[0x89, 0x45 + 8 * first, below(number)]),
        _ => code.extend_from_slice(&[0x83, 0xF8 + first, number, 0x7C, 0x01, 0x40 + first]),
    }
}

// Puts the item of a word behind some code.
fn push_item(code: &mut Vec<u8>, word: u32) -> Result<(), AllocError>
    ensures { OnOk result (code.new.items ≡ code.old.items ++ item word) }
{
    push_asked(code, asked_by(word))
}

// Puts so many items behind some code, of the words behind one.
fn push_items(code: &mut Vec<u8>, count: u32, seed: u32) -> Result<(), AllocError>
    ensures { OnOk result (code.new.items ≡ code.old.items ++ items_spec count seed) }
{
    let mut word = seed;
    for _ in 0..count {
        word = next_word(word);
        push_item(code, word)?;
    }
    Ok(())
}

/// The code of a made program: a frame is set up, so many items follow, and the frame is left.
pub(crate) fn code(alloc: Global, seed: u32, count: u32) -> Result<Vec<u8>, AllocError>
    ensures { IfOk result (λ code. code.items ≡ code_spec seed count) }
{
    // push ebp; mov ebp, esp; sub esp, 256
    let setup = [0x55, 0x89, 0xE5, 0x81, 0xEC, 0x00, 0x01, 0x00, 0x00];
    let mut code = Vec::from_slice(alloc, &setup)?;
    push_items(&mut code, count, seed)?;
    // leave; ret
    code.extend_from_slice(&[0xC9, 0xC3])?;
    Ok(code)
}
