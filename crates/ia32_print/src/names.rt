// The names of operations, registers and conditions.
ghost use Rattle.std.specs.Prelude.{◌≡◌, ◌≤◌, ◌++◌, length};
ghost use Rattle.ia32_print.specs.Names.{reg8_name, reg16_name, reg32_name, high_name, reg_name, width_name, width_letter, cond_name, mnemonic};

use ia32_types::{Cond, Op, Reg, Width};

fn reg8(reg: Reg) -> &'static [u8]
    ensures name { result.now ≡ reg8_name reg }
    ensures short { length result.now ≤ 3 }
{
    match reg {
        Reg::Eax => b"al",
        Reg::Ecx => b"cl",
        Reg::Edx => b"dl",
        Reg::Ebx => b"bl",
        _ => b"",
    }
}

fn reg16(reg: Reg) -> &'static [u8]
    ensures name { result.now ≡ reg16_name reg }
    ensures short { length result.now ≤ 3 }
{
    match reg {
        Reg::Eax => b"ax",
        Reg::Ecx => b"cx",
        Reg::Edx => b"dx",
        Reg::Ebx => b"bx",
        Reg::Esp => b"sp",
        Reg::Ebp => b"bp",
        Reg::Esi => b"si",
        Reg::Edi => b"di",
    }
}

// A register of 32 bits.
pub fn reg32(reg: Reg) -> &'static [u8]
    ensures name { result.now ≡ reg32_name reg }
    ensures short { length result.now ≤ 3 }
{
    match reg {
        Reg::Eax => b"eax",
        Reg::Ecx => b"ecx",
        Reg::Edx => b"edx",
        Reg::Ebx => b"ebx",
        Reg::Esp => b"esp",
        Reg::Ebp => b"ebp",
        Reg::Esi => b"esi",
        Reg::Edi => b"edi",
    }
}

// The second byte of a register.
pub fn high(reg: Reg) -> &'static [u8]
    ensures name { result.now ≡ high_name reg }
    ensures short { length result.now ≤ 3 }
{
    match reg {
        Reg::Eax => b"ah",
        Reg::Ecx => b"ch",
        Reg::Edx => b"dh",
        Reg::Ebx => b"bh",
        _ => b"",
    }
}

// The part of a register that has this width.
pub fn reg_at(width: Width, reg: Reg) -> &'static [u8]
    ensures name { result.now ≡ reg_name width reg }
    ensures short { length result.now ≤ 3 }
{
    match width {
        Width::B8 => reg8(reg),
        Width::W16 => reg16(reg),
        Width::D32 => reg32(reg),
    }
}

// What stands before memory of a width.
pub fn width(width: Width) -> &'static [u8]
    ensures name { result.now ≡ width_name width }
    ensures short { length result.now ≤ 6 }
{
    match width {
        Width::B8 => b"byte ",
        Width::W16 => b"word ",
        Width::D32 => b"dword ",
    }
}

fn letter(width: Width) -> &'static [u8]
    ensures name { result.now ≡ width_letter width }
    ensures short { length result.now ≤ 2 }
{
    match width {
        Width::B8 => b"b",
        Width::W16 => b"w",
        Width::D32 => b"d",
    }
}

#[tactic(auto, unfolding(crate::specs::Names::cond_name))]
fn condition(cond: Cond) -> &'static [u8]
    ensures name { result.now ≡ cond_name cond }
    ensures short { length result.now ≤ 2 }
{
    match cond.code() {
        0 => b"o",
        1 => b"no",
        2 => b"b",
        3 => b"ae",
        4 => b"e",
        5 => b"ne",
        6 => b"be",
        7 => b"a",
        8 => b"s",
        9 => b"ns",
        10 => b"p",
        11 => b"np",
        12 => b"l",
        13 => b"ge",
        14 => b"le",
        _ => b"g",
    }
}

// An operation's name: its stem, and behind it a condition or a width.
#[derive(Clone, Copy)]
pub struct Mnemonic {
    pub stem: &'static [u8],
    pub ending: &'static [u8],
}

// The name of an operation.
#[tactic(auto, unfolding(crate::specs::Names::mnemonic))]
pub fn name_of(op: Op, width: Width) -> Mnemonic
    ensures name { result.stem.now ++ result.ending.now ≡ mnemonic op width }
    ensures stem_short { length result.stem.now ≤ 8 }
    ensures ending_short { length result.ending.now ≤ 2 }
{
    let (stem, ending): (&'static [u8], &'static [u8]) = match op {
        Op::Add => (b"add", b""),
        Op::Or => (b"or", b""),
        Op::Adc => (b"adc", b""),
        Op::Sbb => (b"sbb", b""),
        Op::And => (b"and", b""),
        Op::Sub => (b"sub", b""),
        Op::Xor => (b"xor", b""),
        Op::Cmp => (b"cmp", b""),
        Op::Mov => (b"mov", b""),
        Op::Lea => (b"lea", b""),
        Op::Push => (b"push", b""),
        Op::Pop => (b"pop", b""),
        Op::Xchg => (b"xchg", b""),
        Op::Test => (b"test", b""),
        Op::Inc => (b"inc", b""),
        Op::Dec => (b"dec", b""),
        Op::Not => (b"not", b""),
        Op::Neg => (b"neg", b""),
        Op::Mul => (b"mul", b""),
        Op::Imul => (b"imul", b""),
        Op::Shl => (b"shl", b""),
        Op::Shr => (b"shr", b""),
        Op::Sar => (b"sar", b""),
        Op::Movzx(_) => (b"movzx", b""),
        Op::Movsx(_) => (b"movsx", b""),
        Op::Cwde => (b"cwde", b""),
        Op::Cdq => (b"cdq", b""),
        Op::Leave => (b"leave", b""),
        Op::Setcc(cond) => (b"set", condition(cond)),
        Op::Call => (b"call", b""),
        Op::Ret => (b"ret", b""),
        Op::Jmp => (b"jmp", b""),
        Op::Jcc(cond) => (b"j", condition(cond)),
        Op::Nop => (b"nop", b""),
        Op::Endbr32 => (b"endbr32", b""),
        Op::Hlt => (b"hlt", b""),
        Op::Int3 => (b"int3", b""),
        Op::Ud2 => (b"ud2", b""),
        Op::Cmov(cond) => (b"cmov", condition(cond)),
        Op::Rol => (b"rol", b""),
        Op::Ror => (b"ror", b""),
        Op::Div => (b"div", b""),
        Op::Idiv => (b"idiv", b""),
        Op::Movs { rep: false } => (b"movs", letter(width)),
        Op::Movs { rep: true } => (b"rep movs", letter(width)),
        Op::Stos { rep: false } => (b"stos", letter(width)),
        Op::Stos { rep: true } => (b"rep stos", letter(width)),
        Op::Cld => (b"cld", b""),
        Op::Std => (b"std", b""),
    };
    Mnemonic { stem, ending }
}
