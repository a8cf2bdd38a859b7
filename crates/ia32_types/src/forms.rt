//! How instructions are encoded: prefixes, and the forms of the opcode map with the operands that
//! each of them takes (Intel SDM, volume 2, chapter 2 and appendix A).

use crate::{Mem, Op};

/// How wide the operands of a form are.
#[derive(Clone, Copy)]
pub enum Size {
    /// 8 bits, with the prefix 66 too.
    Byte,
    /// 32 bits, or 16 with the prefix 66.
    Full,
    /// 32 bits; the prefix 66 is refused.
    Dword,
    /// The form doesn't tell; the prefix 66 changes nothing.
    Any,
}

/// Where an operand of a form stands; in parentheses its letter in the opcode map.
#[derive(Clone, Copy)]
pub enum Slot {
    /// The register or memory that ModRM names (E).
    RegMem,
    /// The same of 8 bits, in a wider form (Eb).
    RegMem8,
    /// The memory that ModRM names, and no register (M).
    Memory,
    /// The register of ModRM's reg field (G).
    Reg,
    /// The register of this number, which the opcode tells (Z).
    Fixed(u8),
    /// The register CL.
    Cl,
    /// The number 1.
    One,
    /// An immediate as wide as the form (Iz).
    Imm,
    /// An immediate of 8 bits (Ib).
    Imm8,
    /// An immediate of 8 bits, sign-extended (Ib).
    SignedImm8,
    /// An immediate of 16 bits (Iw).
    Imm16,
    /// A target relative to the next instruction, of 8 bits (Jb).
    Rel8,
    /// A target relative to the next instruction, of 32 bits (Jz).
    Rel32,
    /// Memory by an address of 32 bits (O).
    Offset,
}

/// A form of an instruction: a line of the opcode map.
#[derive(Clone, Copy)]
pub struct Form {
    pub op: Op,
    pub size: Size,
    pub first: Option<Slot>,
    pub second: Option<Slot>,
    pub third: Option<Slot>,
}

/// Where the count of a shift or a rotate stands.
#[derive(Clone, Copy)]
pub enum Count {
    Imm8,
    One,
    Cl,
}

/// Opcodes whose form ModRM's reg field tells (appendix A.4). A name with 8 has operands of 8 bits.
#[derive(Clone, Copy)]
pub enum Group {
    Arith8,
    Arith,
    /// Arithmetic with an immediate of 8 bits, sign-extended.
    ArithSigned,
    /// Shifts and rotates.
    Shift8(Count),
    Shift(Count),
    Mov8,
    Mov,
    Pop,
    Nop,
    /// Test, not, neg, products and quotients.
    Unary8,
    Unary,
    /// Inc and dec.
    Step8,
    /// Inc, dec, call, jmp and push.
    Step,
}

/// What the opcode map has at an opcode.
#[derive(Clone, Copy)]
pub enum Row {
    Missing,
    One(Form),
    Grouped(Group),
}

/// The segment prefixes of an instruction, as far as they matter.
#[derive(Clone, Copy)]
pub enum Segment {
    None,
    /// 2E, with or without 3E.
    Cs,
    /// 3E alone.
    Ds,
    /// 65.
    Gs,
}

/// Where the prefix F3 stands.
#[derive(Clone, Copy)]
pub enum Repeat {
    Absent,
    /// It is the last byte so far.
    Last,
    /// Other prefixes have followed it.
    Earlier,
}

/// The prefixes of an instruction.
#[derive(Clone, Copy)]
pub struct Prefixes {
    /// 66.
    pub operand16: bool,
    pub segment: Segment,
    pub repeat: Repeat,
}

/// The parts of an instruction, as its bytes give them.
#[derive(Clone, Copy)]
pub struct Parts {
    pub form: Form,
    pub prefixes: Prefixes,
    /// The byte ModRM, or 0 where the form has none.
    pub modrm: u8,
    /// The memory operand that ModRM names.
    pub memory: Option<Mem>,
    /// The displacement, immediate or address at the end, or 0.
    pub number: u32,
}
