//! What the operands of a form are, given the parts of an instruction.

ghost use Rattle.std.specs.Prelude.{◌≡◌, ◌+◌, ◌-◌, ◌<◌, ◌≤◌, option_map};
ghost use Rattle.ia32_types.specs.Forms.{plain as plain_form, unary as unary_form, binary as binary_form, ternary as ternary_form, width_of as width_spec, reg_operand as reg_operand_spec, sign_extended as sign_extended_spec, slot_bytes as slot_bytes_spec, some_slot_bytes as some_slot_bytes_spec, form_bytes as form_bytes_spec, has_modrm as has_modrm_spec, slot_has_modrm as slot_has_modrm_spec, reg_mem as reg_mem_spec, is_gs as is_gs_spec, operand_of as operand_spec, third_of as third_spec, finished as finished_spec, parts_width as parts_width_spec, width_limit, is_memory as is_memory_spec, is_offset as is_offset_spec, is_dword as is_long_spec, writes_first as writes_first_spec, stores as stores_spec};

use ia32_types::forms::{Form, Parts, Segment, Size, Slot};
use ia32_types::{Instr, Mem, Op, Operand, Reg, Width};

/// A form without operands.
pub fn plain(op: Op, size: Size) -> Form
    ensures { result ≡ plain_form op size }
{
    Form {
        op,
        size,
        first: None,
        second: None,
        third: None,
    }
}

/// A form of one operand.
pub fn unary(op: Op, size: Size, a: Slot) -> Form
    ensures { result ≡ unary_form op size a }
{
    Form {
        op,
        size,
        first: Some(a),
        second: None,
        third: None,
    }
}

/// A form of two operands.
pub fn binary(op: Op, size: Size, a: Slot, b: Slot) -> Form
    ensures { result ≡ binary_form op size a b }
{
    Form {
        op,
        size,
        first: Some(a),
        second: Some(b),
        third: None,
    }
}

/// A form of three operands.
pub fn ternary(op: Op, size: Size, a: Slot, b: Slot, c: Slot) -> Form
    ensures { result ≡ ternary_form op size a b c }
{
    Form {
        op,
        size,
        first: Some(a),
        second: Some(b),
        third: Some(c),
    }
}

/// The width of a form's operands.
pub fn width_of(size: Size, operand16: bool) -> Width
    ensures { result ≡ width_spec size operand16 }
{
    match size {
        Size::Byte => Width::B8,
        Size::Full => { if operand16 { Width::W16 } else { Width::D32 } }
        Size::Dword => Width::D32,
        Size::Any => Width::D32,
    }
}

/// The register of a number below 8, at a width.
fn reg_operand(width: Width, n: u8) -> Operand
    ensures { result ≡ reg_operand_spec width n }
{
    match width {
        Width::B8 => {
            if n < 4 {
                Operand::Reg(Reg::from_number(n))
            } else {
                Operand::High(Reg::from_number(n - 4))
            }
        }
        Width::W16 => Operand::Reg(Reg::from_number(n)),
        Width::D32 => Operand::Reg(Reg::from_number(n)),
    }
}

/// A number of 8 bits with its sign kept.
pub fn sign_extended(width: Width, n: u32) -> u32
    ensures { result ≡ sign_extended_spec width n }
{
    let sign = match width {
        Width::B8 => 0,
        Width::W16 => 0xFF00,
        Width::D32 => 0xFFFF_FF00,
    };
    if n < 128 { n } else { n.wrapping_add(sign) }
}

/// How many bytes at the instruction's end a slot takes.
fn slot_bytes(width: Width, slot: Slot) -> u8
    ensures bytes { result ≡ slot_bytes_spec width slot }
    ensures few { result ≤ 4 }
{
    match slot {
        Slot::RegMem => 0,
        Slot::RegMem8 => 0,
        Slot::Memory => 0,
        Slot::Reg => 0,
        Slot::Fixed(_) => 0,
        Slot::Cl => 0,
        Slot::One => 0,
        Slot::Imm => width.bytes() as u8,
        Slot::Imm8 => 1,
        Slot::SignedImm8 => 1,
        Slot::Imm16 => 2,
        Slot::Rel8 => 1,
        Slot::Rel32 => 4,
        Slot::Offset => 4,
    }
}

/// The same where there may be no operand.
fn some_slot_bytes(width: Width, slot: Option<Slot>) -> u8
    ensures bytes { result ≡ some_slot_bytes_spec width slot }
    ensures few { result ≤ 4 }
{
    match slot {
        None => 0,
        Some(slot) => slot_bytes(width, slot),
    }
}

/// How many bytes at the instruction's end a form takes.
pub fn form_bytes(width: Width, form: &Form) -> u8
    ensures bytes { result ≡ form_bytes_spec width form.now }
    ensures few { result ≤ 12 }
{
    some_slot_bytes(width, form.first)
        + some_slot_bytes(width, form.second)
        + some_slot_bytes(width, form.third)
}

/// Whether a slot speaks of ModRM.
fn slot_has_modrm(slot: Option<Slot>) -> bool
    ensures { result ≡ slot_has_modrm_spec slot }
{
    matches!(
        slot,
        Some(Slot::RegMem | Slot::RegMem8 | Slot::Memory | Slot::Reg)
    )
}

/// Whether a form has ModRM.
pub fn has_modrm(form: &Form) -> bool
    ensures { result ≡ has_modrm_spec form.now }
{
    slot_has_modrm(form.first) || slot_has_modrm(form.second)
}

/// Whether a slot is memory alone.
pub fn is_memory(slot: Option<Slot>) -> bool
    ensures { result ≡ is_memory_spec slot }
{
    matches!(slot, Some(Slot::Memory))
}

/// Whether a slot is memory by an address of 32 bits.
pub fn is_offset(slot: Option<Slot>) -> bool
    ensures { result ≡ is_offset_spec slot }
{
    matches!(slot, Some(Slot::Offset))
}

/// Whether the prefix 66 is refused.
pub fn is_dword(size: Size) -> bool
    ensures { result ≡ is_long_spec size }
{
    matches!(size, Size::Dword)
}

/// Whether an operation writes its first operand.
#[tactic(auto, unfolding(ia32_types::specs::Forms::writes_first))]
fn writes_first(op: Op) -> bool
    ensures { result ≡ writes_first_spec op }
{
    match op {
        Op::Cmp
        | Op::Test
        | Op::Push
        | Op::Call
        | Op::Jmp
        | Op::Nop
        | Op::Mul
        | Op::Imul
        | Op::Div
        | Op::Idiv => false,
        _ => true,
    }
}

/// Whether a form writes the memory that ModRM names.
pub fn stores(form: &Form) -> bool
    ensures { result ≡ stores_spec form.now }
{
    matches!(form.first, Some(Slot::RegMem)) && writes_first(form.op)
}

/// The register or memory that ModRM names.
fn reg_mem(width: Width, modrm: u8, memory: Option<Mem>) -> Operand
    ensures { result ≡ reg_mem_spec width modrm memory }
{
    match memory {
        None => reg_operand(width, modrm % 8),
        Some(memory) => Operand::Mem(memory),
    }
}

/// Whether the address counts from GS.
pub fn is_gs(segment: Segment) -> bool
    ensures { result ≡ is_gs_spec segment }
{
    matches!(segment, Segment::Gs)
}

/// The width of the operands.
fn parts_width(parts: &Parts) -> Width
    ensures { result ≡ parts_width_spec parts.now }
{
    width_of(parts.form.size, parts.prefixes.operand16)
}

/// The operand in a slot, where the next instruction stands at `next`.
fn operand_of(parts: &Parts, next: u32, slot: Slot) -> Operand
    ensures { result ≡ operand_spec parts.now next slot }
{
    let width = parts_width(parts);
    match slot {
        Slot::RegMem => reg_mem(width, parts.modrm, parts.memory),
        Slot::RegMem8 => reg_mem(Width::B8, parts.modrm, parts.memory),
        Slot::Memory => reg_mem(width, parts.modrm, parts.memory),
        Slot::Reg => reg_operand(width, parts.modrm / 8 % 8),
        Slot::Fixed(n) => reg_operand(width, n),
        Slot::Cl => Operand::Reg(Reg::Ecx),
        Slot::One => Operand::Imm(1),
        Slot::Imm => Operand::Imm(parts.number),
        Slot::Imm8 => Operand::Imm(parts.number),
        Slot::SignedImm8 => Operand::Imm(sign_extended(width, parts.number)),
        Slot::Imm16 => Operand::Imm(parts.number),
        Slot::Rel8 => Operand::Imm(next.wrapping_add(sign_extended(Width::D32, parts.number))),
        Slot::Rel32 => Operand::Imm(next.wrapping_add(parts.number)),
        Slot::Offset => Operand::Mem(Mem {
            base: None,
            index: None,
            scale: 1,
            disp: parts.number,
            gs: is_gs(parts.prefixes.segment),
        }),
    }
}

/// The operand in a slot, if there is one.
fn some_operand(parts: &Parts, next: u32, slot: Option<Slot>) -> Option<Operand>
    ensures { result ≡ option_map (operand_spec parts.now next) slot }
{
    match slot {
        None => None,
        Some(slot) => Some(operand_of(parts, next, slot)),
    }
}

/// The number of a third operand.
fn third_of(parts: &Parts, slot: Slot) -> u32
    ensures { result ≡ third_spec parts.now slot }
{
    match slot {
        Slot::SignedImm8 => sign_extended(parts_width(parts), parts.number),
        _ => parts.number,
    }
}

/// The number of a third operand, if there is one.
fn some_third(parts: &Parts, slot: Option<Slot>) -> Option<u32>
    ensures { result ≡ option_map (third_spec parts.now) slot }
{
    match slot {
        None => None,
        Some(slot) => Some(third_of(parts, slot)),
    }
}

/// The instruction at an address, of this length.
pub fn finished(at: u32, len: u8, parts: &Parts) -> Instr
    ensures { result ≡ finished_spec at len parts.now }
{
    let next = at.wrapping_add(u32::from(len));
    Instr {
        at,
        len,
        op: parts.form.op,
        width: parts_width(parts),
        dst: some_operand(parts, next, parts.form.first),
        src: some_operand(parts, next, parts.form.second),
        imm: some_third(parts, parts.form.third),
    }
}
