//! Reads an instruction byte by byte.

ghost use Rattle.std.specs.Prelude.{◌≡◌, ◌≤◌, true, false, if◌then◌else◌};
ghost use Rattle.ia32_types.specs.Rows.{row_of as row_of_spec, string_form as string_form_spec};
ghost use Rattle.ia32_types.specs.Spells.{ending as ending_reader, is_read_only as is_read_only_spec, refuses_memory as refuses_memory_spec, in_memory as in_memory_reader, addressed as addressed_reader, is_refused as is_refused_spec, formed as formed_reader, grouped_form as grouped_form_reader, is_group_refused as is_group_refused_spec, group_bytes as group_bytes_spec, grouped as grouped_reader, rowed as rowed_reader, string as string_reader, simple as simple_reader, repeated as repeated_reader, endbr32 as endbr32_reader, two_bytes as two_bytes_reader, opened as opened_reader, prefixed as prefixed_reader, instruction as instruction_reader};
ghost use Rattle.ia32_decode.specs.Reading.{run};

use crate::NotDecoded;
use crate::bytes::{next_byte, number};
use crate::forms::{
    form_bytes, has_modrm, is_dword, is_gs, is_memory, is_offset, plain, stores, width_of,
};
use crate::memory::memory;
use crate::prefixes::{bytes_after, is_prefix, next_prefixes, no_prefixes};
use crate::rows::{group_form, row_0f, row_of, string_form};
use ia32_types::forms::{Count, Form, Group, Parts, Prefixes, Repeat, Row, Segment, Size};
use ia32_types::{Mem, Op};

/// The parts, and how many bytes were read.
type Read = Result<(Parts, u8), NotDecoded>;

/// The number at the end, after all else.
#[tactic(auto, using(crate::proofs::RunLemmas::run_then))]
fn ending(
    bytes: &[u8],
    read: u8,
    prefixes: &Prefixes,
    form: &Form,
    modrm: u8,
    memory: Option<Mem>,
) -> Read
    ensures { result ≡ run 0 (ending_reader prefixes.now form.now modrm memory) bytes.now read }
{
    let width = width_of(form.size, prefixes.operand16);
    let (number, read) = number(bytes, read, form_bytes(width, form))?;
    let parts = Parts {
        form: *form,
        prefixes: *prefixes,
        modrm,
        memory,
        number,
    };
    Ok((parts, read))
}

/// Whether memory may not be written.
fn is_read_only(segment: Segment) -> bool
    ensures { result ≡ is_read_only_spec segment }
{
    match segment {
        Segment::None => false,
        Segment::Cs => true,
        Segment::Ds => false,
        Segment::Gs => true,
    }
}

/// Whether the memory that ModRM names may not be the form's operand.
fn refuses_memory(prefixes: &Prefixes, form: &Form) -> bool
    ensures { result ≡ refuses_memory_spec prefixes.now form.now }
{
    stores(form) && is_read_only(prefixes.segment)
}

/// Memory, and the number at the end.
#[tactic(auto, using(crate::proofs::RunLemmas::run_then))]
fn in_memory(bytes: &[u8], read: u8, prefixes: &Prefixes, form: &Form, modrm: u8) -> Read
    ensures { result ≡ run 0 (in_memory_reader prefixes.now form.now modrm) bytes.now read }
{
    let end = form_bytes(width_of(form.size, prefixes.operand16), form);
    let (memory, read) = memory(bytes, read, end, is_gs(prefixes.segment), modrm)?;
    ending(bytes, read, prefixes, form, modrm, Some(memory))
}

/// What follows ModRM.
#[tactic(auto, unfolding(ia32_types::specs::Spells::addressed))]
fn addressed(bytes: &[u8], read: u8, prefixes: &Prefixes, form: &Form, modrm: u8) -> Read
    ensures { result ≡ run 0 (addressed_reader prefixes.now form.now modrm) bytes.now read }
{
    if modrm / 64 == 3 {
        if is_memory(form.second) {
            Err(NotDecoded::Unknown)
        } else {
            ending(bytes, read, prefixes, form, modrm, None)
        }
    } else if refuses_memory(prefixes, form) {
        Err(NotDecoded::Unknown)
    } else {
        in_memory(bytes, read, prefixes, form, modrm)
    }
}

/// Whether the prefixes don't go with a form.
fn is_refused(prefixes: &Prefixes, form: &Form) -> bool
    ensures { result ≡ is_refused_spec prefixes.now form.now }
{
    prefixes.operand16 && is_dword(form.size)
        || is_offset(form.first) && is_read_only(prefixes.segment)
}

/// What follows an opcode of this form.
#[tactic(auto, unfolding(ia32_types::specs::Spells::formed))]
fn formed(bytes: &[u8], read: u8, prefixes: &Prefixes, form: &Form) -> Read
    ensures { result ≡ run 0 (formed_reader prefixes.now form.now) bytes.now read }
{
    if is_refused(prefixes, form) {
        return Err(NotDecoded::Unknown);
    }
    if has_modrm(form) {
        let width = width_of(form.size, prefixes.operand16);
        let (modrm, read) = next_byte(bytes, read, 1 + form_bytes(width, form))?;
        addressed(bytes, read, prefixes, form, modrm)
    } else {
        ending(bytes, read, prefixes, form, 0, None)
    }
}

/// What follows ModRM of a group.
fn grouped_form(bytes: &[u8], read: u8, prefixes: &Prefixes, modrm: u8, form: &Option<Form>) -> Read
    ensures { result ≡ run 0 (grouped_form_reader prefixes.now modrm form.now) bytes.now read }
{
    match form {
        None => Err(NotDecoded::Unknown),
        Some(form) => {
            if is_refused(prefixes, form) {
                Err(NotDecoded::Unknown)
            } else {
                addressed(bytes, read, prefixes, form, modrm)
            }
        }
    }
}

/// Whether the prefixes go with no form of a group.
fn is_group_refused(prefixes: &Prefixes, group: Group) -> bool
    ensures { result ≡ is_group_refused_spec prefixes.now group }
{
    matches!(group, Group::Pop) && prefixes.operand16
}

/// The bytes of an immediate as wide as the operands, where these have 16 or 32 bits.
fn full_bytes(prefixes: &Prefixes) -> u8
    ensures { result ≡ (if prefixes.now.operand16 then 2 else 4) }
{
    if prefixes.operand16 { 2 } else { 4 }
}

/// The fewest bytes at the end of a group's forms.
fn group_bytes(prefixes: &Prefixes, group: Group) -> u8
    ensures bytes { result ≡ group_bytes_spec prefixes.now group }
    ensures few { result ≤ 4 }
{
    match group {
        Group::Arith8 => 1,
        Group::Arith => full_bytes(prefixes),
        Group::ArithSigned => 1,
        Group::Shift8(Count::Imm8) => 1,
        Group::Shift8(Count::One) => 0,
        Group::Shift8(Count::Cl) => 0,
        Group::Shift(Count::Imm8) => 1,
        Group::Shift(Count::One) => 0,
        Group::Shift(Count::Cl) => 0,
        Group::Mov8 => 1,
        Group::Mov => full_bytes(prefixes),
        Group::Pop => 0,
        Group::Nop => 0,
        Group::Unary8 => 0,
        Group::Unary => 0,
        Group::Step8 => 0,
        Group::Step => 0,
    }
}

/// What follows an opcode of a group.
#[tactic(auto, unfolding(ia32_types::specs::Spells::grouped))]
fn grouped(bytes: &[u8], read: u8, prefixes: &Prefixes, group: Group) -> Read
    ensures { result ≡ run 0 (grouped_reader prefixes.now group) bytes.now read }
{
    if is_group_refused(prefixes, group) {
        return Err(NotDecoded::Unknown);
    }
    let (modrm, read) = next_byte(bytes, read, 1 + group_bytes(prefixes, group))?;
    let form = group_form(group, modrm / 8 % 8);
    grouped_form(bytes, read, prefixes, modrm, &form)
}

/// What follows an opcode.
fn rowed(bytes: &[u8], read: u8, prefixes: &Prefixes, row: &Row) -> Read
    ensures { result ≡ run 0 (rowed_reader prefixes.now row.now) bytes.now read }
{
    match row {
        Row::Missing => Err(NotDecoded::Unknown),
        Row::One(form) => formed(bytes, read, prefixes, form),
        Row::Grouped(group) => grouped(bytes, read, prefixes, *group),
    }
}

/// A string instruction.
fn string(bytes: &[u8], read: u8, prefixes: &Prefixes, form: &Form) -> Read
    ensures { result ≡ run 0 (string_reader prefixes.now form.now) bytes.now read }
{
    if is_gs(prefixes.segment) {
        Err(NotDecoded::Unknown)
    } else {
        ending(bytes, read, prefixes, form, 0, None)
    }
}

/// What follows an opcode of one byte that no F3 stands before.
#[tactic(auto, unfolding(ia32_types::specs::Spells::simple))]
fn simple(bytes: &[u8], read: u8, prefixes: &Prefixes, opcode: u8) -> Read
    ensures { result ≡ run 0 (simple_reader prefixes.now opcode (string_form_spec false opcode)) bytes.now read }
{
    match string_form(false, opcode) {
        None => {
            let row = row_of(opcode);
            rowed(bytes, read, prefixes, &row)
        }
        Some(form) => string(bytes, read, prefixes, &form),
    }
}

/// What follows the opcode of a repeated string instruction.
fn repeated(bytes: &[u8], read: u8, prefixes: &Prefixes, opcode: u8) -> Read
    ensures { result ≡ run 0 (repeated_reader prefixes.now (string_form_spec true opcode)) bytes.now read }
{
    match string_form(true, opcode) {
        None => Err(NotDecoded::Unknown),
        Some(form) => string(bytes, read, prefixes, &form),
    }
}

/// 1E FB, after F3 0F.
fn endbr32(bytes: &[u8], read: u8, prefixes: &Prefixes) -> Read
    ensures { result ≡ run 0 (endbr32_reader prefixes.now) bytes.now read }
{
    let (second, read) = next_byte(bytes, read, 2)?;
    if second != 0x1E {
        return Err(NotDecoded::Unknown);
    }
    let (third, read) = next_byte(bytes, read, 1)?;
    if third != 0xFB {
        return Err(NotDecoded::Unknown);
    }
    let form = plain(Op::Endbr32, Size::Any);
    ending(bytes, read, prefixes, &form, 0, None)
}

/// What follows 0F without F3.
fn two_bytes(bytes: &[u8], read: u8, prefixes: &Prefixes) -> Read
    ensures { result ≡ run 0 (two_bytes_reader prefixes.now) bytes.now read }
{
    let (opcode, read) = next_byte(bytes, read, 1)?;
    let row = row_0f(opcode);
    rowed(bytes, read, prefixes, &row)
}

/// What follows an opcode.
#[tactic(auto, unfolding(ia32_types::specs::Spells::opened))]
fn opened(bytes: &[u8], read: u8, prefixes: &Prefixes, opcode: u8) -> Read
    ensures { result ≡ run 0 (opened_reader prefixes.now prefixes.now.repeat opcode) bytes.now read }
{
    match prefixes.repeat {
        Repeat::Absent => {
            if opcode == 0x0F {
                two_bytes(bytes, read, prefixes)
            } else {
                simple(bytes, read, prefixes, opcode)
            }
        }
        Repeat::Last => match opcode {
            0xC3 => {
                let form = plain(Op::Ret, Size::Dword);
                formed(bytes, read, prefixes, &form)
            }
            0x0F => endbr32(bytes, read, prefixes),
            _ => repeated(bytes, read, prefixes, opcode),
        },
        Repeat::Earlier => repeated(bytes, read, prefixes, opcode),
    }
}

/// At most `left` bytes of prefixes, and the rest.
#[tactic(auto, unfolding(ia32_types::specs::Spells::prefixed))]
fn prefixed(bytes: &[u8], read: u8, prefixes: &Prefixes, left: u8) -> Read
    ensures { result ≡ run 0 (prefixed_reader left prefixes.now) bytes.now read }
{
    if left == 0 {
        return Err(NotDecoded::Unknown);
    }
    let (byte, read) = next_byte(bytes, read, bytes_after(prefixes))?;
    if is_prefix(byte) {
        match next_prefixes(prefixes, byte) {
            None => Err(NotDecoded::Unknown),
            Some(prefixes) => prefixed(bytes, read, &prefixes, left - 1),
        }
    } else {
        opened(bytes, read, prefixes, byte)
    }
}

/// An instruction.
#[tactic(auto, unfolding(ia32_types::specs::Spells::instruction))]
pub fn instruction(bytes: &[u8]) -> Read
    ensures { result ≡ run 0 instruction_reader bytes.now 0 }
{
    let prefixes = no_prefixes();
    prefixed(bytes, 0, &prefixes, 15)
}
