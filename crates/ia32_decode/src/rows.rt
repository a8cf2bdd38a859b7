//! The opcode map, a line a form (Intel SDM, volume 2, appendix A).

ghost use Rattle.std.specs.Prelude.{◌≡◌, ◌==◌, if◌then◌else◌};
ghost use Rattle.ia32_types.specs.Rows.{arith_op as arith_op_spec, arith_form as arith_form_spec, row_00 as row_00_spec, row_40 as row_40_spec, row_80 as row_80_spec, row_c0 as row_c0_spec, row_of as row_of_spec, row_0f as row_0f_spec, string_form as string_form_spec, shift_op as shift_op_spec, count_slot as count_slot_spec, shift_form as shift_form_spec, unary_op as unary_op_spec, unary_form as unary_form_spec, group_form as group_form_spec};

use crate::forms::{binary, plain, ternary, unary};
use ia32_types::forms::{Count, Form, Group, Row, Size, Slot};
use ia32_types::{Cond, Op, Width};

/// The operations of arithmetic by their number.
fn arith_op(n: u8) -> Op
    ensures { result ≡ arith_op_spec n }
{
    match n {
        0 => Op::Add,
        1 => Op::Or,
        2 => Op::Adc,
        3 => Op::Sbb,
        4 => Op::And,
        5 => Op::Sub,
        6 => Op::Xor,
        _ => Op::Cmp,
    }
}

/// Their six forms.
fn arith_form(op: Op, n: u8) -> Form
    ensures { result ≡ arith_form_spec op n }
{
    match n {
        0 => binary(op, Size::Byte, Slot::RegMem, Slot::Reg),
        1 => binary(op, Size::Full, Slot::RegMem, Slot::Reg),
        2 => binary(op, Size::Byte, Slot::Reg, Slot::RegMem),
        3 => binary(op, Size::Full, Slot::Reg, Slot::RegMem),
        4 => binary(op, Size::Byte, Slot::Fixed(0), Slot::Imm),
        _ => binary(op, Size::Full, Slot::Fixed(0), Slot::Imm),
    }
}

/// Opcodes 00 to 3F.
#[tactic(auto, unfolding(ia32_types::specs::Rows::row_00))]
fn row_00(opcode: u8) -> Row
    ensures { result ≡ row_00_spec opcode }
{
    if opcode % 8 < 6 {
        Row::One(arith_form(arith_op(opcode / 8), opcode % 8))
    } else {
        Row::Missing
    }
}

/// Opcodes 40 to 7F.
#[tactic(auto, unfolding(ia32_types::specs::Rows::row_40))]
fn row_40(opcode: u8) -> Row
    ensures { result ≡ row_40_spec opcode }
{
    match opcode {
        0x40..=0x47 => Row::One(unary(Op::Inc, Size::Full, Slot::Fixed(opcode - 0x40))),
        0x48..=0x4F => Row::One(unary(Op::Dec, Size::Full, Slot::Fixed(opcode - 0x48))),
        0x50..=0x57 => Row::One(unary(Op::Push, Size::Dword, Slot::Fixed(opcode - 0x50))),
        0x58..=0x5F => Row::One(unary(Op::Pop, Size::Dword, Slot::Fixed(opcode - 0x58))),
        0x68 => Row::One(unary(Op::Push, Size::Dword, Slot::Imm)),
        0x69 => Row::One(ternary(Op::Imul, Size::Full, Slot::Reg, Slot::RegMem, Slot::Imm)),
        0x6A => Row::One(unary(Op::Push, Size::Dword, Slot::SignedImm8)),
        0x6B => Row::One(ternary(
            Op::Imul,
            Size::Full,
            Slot::Reg,
            Slot::RegMem,
            Slot::SignedImm8,
        )),
        0x70..=0x7F => Row::One(unary(Op::Jcc(Cond::new(opcode - 0x70)), Size::Dword, Slot::Rel8)),
        _ => Row::Missing,
    }
}

/// Opcodes 80 to BF.
#[tactic(auto, unfolding(ia32_types::specs::Rows::row_80))]
fn row_80(opcode: u8) -> Row
    ensures { result ≡ row_80_spec opcode }
{
    match opcode {
        0x80 => Row::Grouped(Group::Arith8),
        0x81 => Row::Grouped(Group::Arith),
        0x83 => Row::Grouped(Group::ArithSigned),
        0x84 => Row::One(binary(Op::Test, Size::Byte, Slot::RegMem, Slot::Reg)),
        0x85 => Row::One(binary(Op::Test, Size::Full, Slot::RegMem, Slot::Reg)),
        0x86 => Row::One(binary(Op::Xchg, Size::Byte, Slot::RegMem, Slot::Reg)),
        0x87 => Row::One(binary(Op::Xchg, Size::Full, Slot::RegMem, Slot::Reg)),
        0x88 => Row::One(binary(Op::Mov, Size::Byte, Slot::RegMem, Slot::Reg)),
        0x89 => Row::One(binary(Op::Mov, Size::Full, Slot::RegMem, Slot::Reg)),
        0x8A => Row::One(binary(Op::Mov, Size::Byte, Slot::Reg, Slot::RegMem)),
        0x8B => Row::One(binary(Op::Mov, Size::Full, Slot::Reg, Slot::RegMem)),
        0x8D => Row::One(binary(Op::Lea, Size::Dword, Slot::Reg, Slot::Memory)),
        0x8F => Row::Grouped(Group::Pop),
        0x90 => Row::One(plain(Op::Nop, Size::Any)),
        0x91..=0x97 => Row::One(binary(
            Op::Xchg,
            Size::Full,
            Slot::Fixed(0),
            Slot::Fixed(opcode - 0x90),
        )),
        0x98 => Row::One(plain(Op::Cwde, Size::Dword)),
        0x99 => Row::One(plain(Op::Cdq, Size::Dword)),
        0xA0 => Row::One(binary(Op::Mov, Size::Byte, Slot::Fixed(0), Slot::Offset)),
        0xA1 => Row::One(binary(Op::Mov, Size::Full, Slot::Fixed(0), Slot::Offset)),
        0xA2 => Row::One(binary(Op::Mov, Size::Byte, Slot::Offset, Slot::Fixed(0))),
        0xA3 => Row::One(binary(Op::Mov, Size::Full, Slot::Offset, Slot::Fixed(0))),
        0xA8 => Row::One(binary(Op::Test, Size::Byte, Slot::Fixed(0), Slot::Imm)),
        0xA9 => Row::One(binary(Op::Test, Size::Full, Slot::Fixed(0), Slot::Imm)),
        0xB0..=0xB7 => Row::One(binary(Op::Mov, Size::Byte, Slot::Fixed(opcode - 0xB0), Slot::Imm)),
        0xB8..=0xBF => Row::One(binary(Op::Mov, Size::Full, Slot::Fixed(opcode - 0xB8), Slot::Imm)),
        _ => Row::Missing,
    }
}

/// Opcodes C0 to FF.
#[tactic(auto, unfolding(ia32_types::specs::Rows::row_c0))]
fn row_c0(opcode: u8) -> Row
    ensures { result ≡ row_c0_spec opcode }
{
    match opcode {
        0xC0 => Row::Grouped(Group::Shift8(Count::Imm8)),
        0xC1 => Row::Grouped(Group::Shift(Count::Imm8)),
        0xC2 => Row::One(unary(Op::Ret, Size::Dword, Slot::Imm16)),
        0xC3 => Row::One(plain(Op::Ret, Size::Dword)),
        0xC6 => Row::Grouped(Group::Mov8),
        0xC7 => Row::Grouped(Group::Mov),
        0xC9 => Row::One(plain(Op::Leave, Size::Dword)),
        0xCC => Row::One(plain(Op::Int3, Size::Any)),
        0xD0 => Row::Grouped(Group::Shift8(Count::One)),
        0xD1 => Row::Grouped(Group::Shift(Count::One)),
        0xD2 => Row::Grouped(Group::Shift8(Count::Cl)),
        0xD3 => Row::Grouped(Group::Shift(Count::Cl)),
        0xE8 => Row::One(unary(Op::Call, Size::Dword, Slot::Rel32)),
        0xE9 => Row::One(unary(Op::Jmp, Size::Dword, Slot::Rel32)),
        0xEB => Row::One(unary(Op::Jmp, Size::Dword, Slot::Rel8)),
        0xF4 => Row::One(plain(Op::Hlt, Size::Any)),
        0xF6 => Row::Grouped(Group::Unary8),
        0xF7 => Row::Grouped(Group::Unary),
        0xFC => Row::One(plain(Op::Cld, Size::Any)),
        0xFD => Row::One(plain(Op::Std, Size::Any)),
        0xFE => Row::Grouped(Group::Step8),
        0xFF => Row::Grouped(Group::Step),
        _ => Row::Missing,
    }
}

/// Opcodes of one byte.
pub fn row_of(opcode: u8) -> Row
    ensures { result ≡ row_of_spec opcode }
{
    if opcode < 0x40 {
        row_00(opcode)
    } else if opcode < 0x80 {
        row_40(opcode)
    } else if opcode < 0xC0 {
        row_80(opcode)
    } else {
        row_c0(opcode)
    }
}

/// Opcodes of two bytes, 0F and this one.
#[tactic(auto, unfolding(ia32_types::specs::Rows::row_0f))]
pub fn row_0f(opcode: u8) -> Row
    ensures { result ≡ row_0f_spec opcode }
{
    match opcode {
        0x0B => Row::One(plain(Op::Ud2, Size::Any)),
        0x1F => Row::Grouped(Group::Nop),
        0x40..=0x4F => Row::One(binary(
            Op::Cmov(Cond::new(opcode - 0x40)),
            Size::Full,
            Slot::Reg,
            Slot::RegMem,
        )),
        0x80..=0x8F => Row::One(unary(Op::Jcc(Cond::new(opcode - 0x80)), Size::Dword, Slot::Rel32)),
        0x90..=0x9F => Row::One(unary(
            Op::Setcc(Cond::new(opcode - 0x90)),
            Size::Byte,
            Slot::RegMem,
        )),
        0xAF => Row::One(binary(Op::Imul, Size::Full, Slot::Reg, Slot::RegMem)),
        0xB6 => Row::One(binary(Op::Movzx(Width::B8), Size::Full, Slot::Reg, Slot::RegMem8)),
        0xB7 => Row::One(binary(Op::Movzx(Width::W16), Size::Full, Slot::Reg, Slot::RegMem)),
        0xBE => Row::One(binary(Op::Movsx(Width::B8), Size::Full, Slot::Reg, Slot::RegMem8)),
        0xBF => Row::One(binary(Op::Movsx(Width::W16), Size::Full, Slot::Reg, Slot::RegMem)),
        _ => Row::Missing,
    }
}

/// The string instructions, repeated or not.
#[tactic(auto, unfolding(ia32_types::specs::Rows::string_form))]
pub fn string_form(rep: bool, opcode: u8) -> Option<Form>
    ensures { result ≡ string_form_spec rep opcode }
{
    match opcode {
        0xA4 => Some(plain(Op::Movs { rep }, Size::Byte)),
        0xA5 => Some(plain(Op::Movs { rep }, Size::Full)),
        0xAA => Some(plain(Op::Stos { rep }, Size::Byte)),
        0xAB => Some(plain(Op::Stos { rep }, Size::Full)),
        _ => None,
    }
}

/// The shifts and rotates by ModRM's reg field.
fn shift_op(n: u8) -> Option<Op>
    ensures { result ≡ shift_op_spec n }
{
    match n {
        0 => Some(Op::Rol),
        1 => Some(Op::Ror),
        4 => Some(Op::Shl),
        5 => Some(Op::Shr),
        7 => Some(Op::Sar),
        _ => None,
    }
}

/// Where the count stands.
fn count_slot(by: Count) -> Slot
    ensures { result ≡ count_slot_spec by }
{
    match by {
        Count::Imm8 => Slot::Imm8,
        Count::One => Slot::One,
        Count::Cl => Slot::Cl,
    }
}

/// The form of a shift or a rotate.
fn shift_form(size: Size, by: Count, n: u8) -> Option<Form>
    ensures { result ≡ shift_form_spec size by n }
{
    match shift_op(n) {
        None => None,
        Some(op) => Some(binary(op, size, Slot::RegMem, count_slot(by))),
    }
}

/// The operations of one operand by ModRM's reg field.
fn unary_op(n: u8) -> Option<Op>
    ensures { result ≡ unary_op_spec n }
{
    match n {
        2 => Some(Op::Not),
        3 => Some(Op::Neg),
        4 => Some(Op::Mul),
        5 => Some(Op::Imul),
        6 => Some(Op::Div),
        7 => Some(Op::Idiv),
        _ => None,
    }
}

/// The form of such an operation, or of test.
fn unary_form(size: Size, n: u8) -> Option<Form>
    ensures { result ≡ unary_form_spec size n }
{
    if n == 0 {
        return Some(binary(Op::Test, size, Slot::RegMem, Slot::Imm));
    }
    match unary_op(n) {
        None => None,
        Some(op) => Some(unary(op, size, Slot::RegMem)),
    }
}

/// Inc, dec, call, jmp and push by ModRM's reg field.
#[tactic(auto, unfolding(ia32_types::specs::Rows::group_form))]
fn step_form(n: u8) -> Option<Form>
    ensures { result ≡ group_form_spec Group.Step n }
{
    match n {
        0 => Some(unary(Op::Inc, Size::Full, Slot::RegMem)),
        1 => Some(unary(Op::Dec, Size::Full, Slot::RegMem)),
        2 => Some(unary(Op::Call, Size::Dword, Slot::RegMem)),
        4 => Some(unary(Op::Jmp, Size::Dword, Slot::RegMem)),
        6 => Some(unary(Op::Push, Size::Dword, Slot::RegMem)),
        _ => None,
    }
}

/// A form where the reg field is 0.
fn if_zero(n: u8, form: Form) -> Option<Form>
    ensures { result ≡ (if n == 0 then Some form else None) }
{
    if n == 0 { Some(form) } else { None }
}

/// The form that the reg field `n` tells.
#[tactic(auto, unfolding(ia32_types::specs::Rows::group_form))]
pub fn group_form(group: Group, n: u8) -> Option<Form>
    ensures { result ≡ group_form_spec group n }
{
    match group {
        Group::Arith8 => Some(binary(arith_op(n), Size::Byte, Slot::RegMem, Slot::Imm)),
        Group::Arith => Some(binary(arith_op(n), Size::Full, Slot::RegMem, Slot::Imm)),
        Group::ArithSigned => Some(binary(arith_op(n), Size::Full, Slot::RegMem, Slot::SignedImm8)),
        Group::Shift8(by) => shift_form(Size::Byte, by, n),
        Group::Shift(by) => shift_form(Size::Full, by, n),
        Group::Mov8 => if_zero(n, binary(Op::Mov, Size::Byte, Slot::RegMem, Slot::Imm)),
        Group::Mov => if_zero(n, binary(Op::Mov, Size::Full, Slot::RegMem, Slot::Imm)),
        Group::Pop => if_zero(n, unary(Op::Pop, Size::Dword, Slot::RegMem)),
        Group::Nop => if_zero(n, unary(Op::Nop, Size::Full, Slot::RegMem)),
        Group::Unary8 => unary_form(Size::Byte, n),
        Group::Unary => unary_form(Size::Full, n),
        Group::Step8 => match n {
            0 => Some(unary(Op::Inc, Size::Byte, Slot::RegMem)),
            1 => Some(unary(Op::Dec, Size::Byte, Slot::RegMem)),
            _ => None,
        },
        Group::Step => step_form(n),
    }
}
