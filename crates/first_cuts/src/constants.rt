//! The constants of the code.
ghost use Rattle.std.specs.Prelude.{◌≡◌, ◌<◌, ◌≤◌, ◌+◌, ◌-◌, [], ◌∷◌, OnOk, length, option_to_list, pos, suc};
ghost use Rattle.image_map.specs.Memory.{has_flag};
ghost use Rattle.image_map.specs.Whole.{ArePlaced, IsImage, IsPlaced};
ghost use Rattle.ia32_types.specs.declared.Operand.{Operand};
ghost use Rattle.first_cuts.specs.Constants.{constants as constants_spec, constants_in, displacement as displacement_spec, has_constant as has_constant_spec, immediate as immediate_spec, immediates, is_dword as is_dword_spec, scanned, scanned_segment};
ghost use Rattle.first_cuts.specs.FirstCuts.{taken_onto};
ghost use Rattle.first_cuts.specs.Taking.{taken_from};

use crate::taking::{is_full, take_offset};
use ia32_fetch::fetched;
use ia32_types::{Instr, Op, Operand, Width};
use image_map::{Image, PF_X, Segment, segment_holding};
use std::alloc::AllocError;

// An address of the image as an offset.
fn offset_of(number: u32) -> i32
    requires { number < 0x7FFFFFFF }
    ensures { result ≡ pos number }
{
    number as i32
}

// Takes a number that is an address of the image.
fn take_number(taken: &mut Vec<i32>, image: &Image, number: u32) -> Result<(), AllocError>
    requires { IsImage image.now }
    ensures { OnOk result (taken.new.items ≡ taken_from image.now taken.old.items (number ∷ [])) }
{
    match segment_holding(image.segments.as_slice(), number) {
        None => return Ok(()),
        Some(_) => {
            let offset = offset_of(number);
            take_offset(taken, &offset)?;
        }
    }
    Ok(())
}

fn take_if_some(taken: &mut Vec<i32>, image: &Image, number: Option<u32>) -> Result<(), AllocError>
    requires { IsImage image.now }
    ensures { OnOk result (taken.new.items ≡ taken_from image.now taken.old.items (option_to_list number)) }
{
    match number {
        None => return Ok(()),
        Some(n) => take_number(taken, image, n)?,
    }
    Ok(())
}

fn displacement(operand: &Option<Operand>) -> Option<u32>
    ensures { result ≡ displacement_spec operand.now }
{
    match operand {
        Some(Operand::Mem(m)) => Some(m.disp),
        _ => None,
    }
}

fn immediate(operand: &Option<Operand>) -> Option<u32>
    ensures { result ≡ immediate_spec operand.now }
{
    match operand {
        Some(Operand::Imm(n)) => Some(*n),
        _ => None,
    }
}

#[tactic(auto, unfolding(crate::specs::Constants::has_constant))]
fn has_constant(op: &Op) -> bool
    ensures { result ≡ has_constant_spec op.now }
{
    match op {
        Op::Jmp | Op::Jcc(_) | Op::Call | Op::Ret => false,
        _ => true,
    }
}

fn is_dword(width: &Width) -> bool
    ensures { result ≡ is_dword_spec width.now }
{
    match width {
        Width::B8 | Width::W16 => false,
        Width::D32 => true,
    }
}

fn take_immediates(taken: &mut Vec<i32>, image: &Image, instr: &Instr) -> Result<(), AllocError>
    requires { IsImage image.now }
    ensures { OnOk result (taken.new.items ≡ taken_from image.now taken.old.items (immediates instr.now)) }
{
    if !has_constant(&instr.op) {
        return Ok(());
    }
    if !is_dword(&instr.width) {
        return Ok(());
    }
    take_if_some(taken, image, immediate(&instr.dst))?;
    take_if_some(taken, image, immediate(&instr.src))?;
    take_if_some(taken, image, instr.imm)?;
    Ok(())
}

// Takes the constants of an instruction.
fn take_constants_in(taken: &mut Vec<i32>, image: &Image, instr: &Instr) -> Result<(), AllocError>
    requires { IsImage image.now }
    ensures { OnOk result (taken.new.items ≡ taken_from image.now taken.old.items (constants_in instr.now)) }
{
    take_if_some(taken, image, displacement(&instr.dst))?;
    take_if_some(taken, image, displacement(&instr.src))?;
    take_immediates(taken, image, instr)?;
    Ok(())
}

// How far an instruction reaches; one byte at least.
fn length_of(instr: &Instr) -> usize
    ensures value { result ≡ suc (instr.now.len - 1) }
    ensures few { result ≤ 255 }
{
    usize::from(instr.len).max(1)
}

// Takes the constants of so many bytes of code.
fn take_scanned(
    taken: &mut Vec<i32>,
    image: &Image,
    start: u32,
    count: usize,
) -> Result<(), AllocError>
    requires image { IsImage image.now }
    requires placed { start + count ≤ 0x7FFFFFFF }
    ensures { OnOk result (taken.new.items ≡ taken_from image.now taken.old.items (scanned image.now 0 count start)) }
{
    let mut passed = 0;
    while passed < count {
        if is_full(taken.as_slice()) {
            return Ok(());
        }
        match fetched(image, start + passed as u32) {
            None => passed += 1,
            Some(instr) => {
                take_constants_in(taken, image, &instr)?;
                passed += length_of(&instr);
            }
        }
    }
    Ok(())
}

// Whether a segment has code.
fn has_code(segment: &Segment) -> bool
    ensures { result ≡ has_flag 1 segment.now }
{
    segment.flags & PF_X == PF_X
}

fn take_segment(taken: &mut Vec<i32>, image: &Image, segment: &Segment) -> Result<(), AllocError>
    requires image { IsImage image.now }
    requires placed { IsPlaced segment.now }
    ensures { OnOk result (taken.new.items ≡ taken_from image.now taken.old.items (scanned_segment image.now segment.now)) }
{
    if !has_code(segment) {
        return Ok(());
    }
    take_scanned(taken, image, segment.start, segment.bytes.len())
}

/// Takes the constants of the code that are addresses.
pub(crate) fn take_constants(taken: &mut Vec<i32>, image: &Image) -> Result<(), AllocError>
    requires { IsImage image.now }
    ensures { OnOk result (taken.new.items ≡ taken_onto taken.old.items (constants_spec image.now)) }
{
    for segment in image.segments.as_slice() {
        take_segment(taken, image, segment)?;
    }
    Ok(())
}
