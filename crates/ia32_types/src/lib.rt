//! Instructions of the 32-bit Intel architecture: their parts, what bytes spell them, and which
//! registers and flags they read and write.
#![tactic(auto)]

ghost use Rattle.std.specs.Prelude.{ℕ, ◌≡◌, ◌<◌, ◌≤◌};
ghost use Rattle.ia32_types.specs.Numbers.{reg_number, reg_of, flag_number, flag_of, size};

use std::marker::Model;

pub mod forms;
mod laws;
mod places;
mod sets;
#[cfg(test)]
mod tests;

pub use laws::{numbered_members, one_number, one_spelling, spelled_instruction};
pub use places::{flag_reads, flag_writes, reg_reads, reg_writes};
pub use sets::{FlagSet, NumberSet, RegSet};

/// A general register, in the order of its number in an encoding.
#[derive(Clone, Copy, Debug, PartialEq, Eq)]
pub enum Reg {
    Eax,
    Ecx,
    Edx,
    Ebx,
    Esp,
    Ebp,
    Esi,
    Edi,
}

impl Reg {
    /// Its number, below 8.
    #[tactic(auto, using(crate::proofs::NumberLemmas::reg_number_below, crate::proofs::NumberLemmas::reg_of_number))]
    pub fn number(self) -> u8
        ensures value { result ≡ reg_number self }
        ensures below { result < 8 }
        ensures back { reg_of result ≡ self }
    {
        match self {
            Reg::Eax => 0,
            Reg::Ecx => 1,
            Reg::Edx => 2,
            Reg::Ebx => 3,
            Reg::Esp => 4,
            Reg::Ebp => 5,
            Reg::Esi => 6,
            Reg::Edi => 7,
        }
    }

    /// The register of a number below 8.
    #[tactic(auto, using(crate::proofs::NumberLemmas::number_of_reg))]
    pub fn from_number(number: u8) -> Reg
        ensures value { result ≡ reg_of number }
        ensures back { number < 8 → reg_number result ≡ number }
    {
        match number {
            0 => Reg::Eax,
            1 => Reg::Ecx,
            2 => Reg::Edx,
            3 => Reg::Ebx,
            4 => Reg::Esp,
            5 => Reg::Ebp,
            6 => Reg::Esi,
            _ => Reg::Edi,
        }
    }
}

/// A flag of EFLAGS.
#[derive(Clone, Copy, Debug, PartialEq, Eq)]
pub enum Flag {
    /// Carry.
    Cf,
    /// Parity.
    Pf,
    /// Zero.
    Zf,
    /// Sign.
    Sf,
    /// Overflow.
    Of,
    /// Direction.
    Df,
}

impl Flag {
    /// Its number in the order of the variants, below 6.
    #[tactic(auto, using(crate::proofs::NumberLemmas::flag_number_below, crate::proofs::NumberLemmas::flag_of_number))]
    pub fn number(self) -> u8
        ensures value { result ≡ flag_number self }
        ensures below { result < 6 }
        ensures back { flag_of result ≡ self }
    {
        match self {
            Flag::Cf => 0,
            Flag::Pf => 1,
            Flag::Zf => 2,
            Flag::Sf => 3,
            Flag::Of => 4,
            Flag::Df => 5,
        }
    }

    /// The flag of a number below 6.
    #[tactic(auto, using(crate::proofs::NumberLemmas::number_of_flag))]
    pub fn from_number(number: u8) -> Flag
        ensures value { result ≡ flag_of number }
        ensures back { number < 6 → flag_number result ≡ number }
    {
        match number {
            0 => Flag::Cf,
            1 => Flag::Pf,
            2 => Flag::Zf,
            3 => Flag::Sf,
            4 => Flag::Of,
            _ => Flag::Df,
        }
    }
}

/// The width of an operation in bits: 8, 16 or 32.
#[derive(Clone, Copy, Debug, PartialEq, Eq)]
pub enum Width {
    B8,
    W16,
    D32,
}

impl Width {
    /// How many bytes it has.
    pub fn bytes(self) -> u32
        ensures value { result ≡ size self }
        ensures least { 1 ≤ result }
        ensures few { result ≤ 4 }
    {
        match self {
            Width::B8 => 1,
            Width::W16 => 2,
            Width::D32 => 4,
        }
    }
}

/// A condition by its number in an encoding, below 16: o, no, b, ae, e, ne, be, a, s, ns, p, np, l,
/// ge, le, g. Each odd one is the negation of the one before.
#[derive(Clone, Copy, Debug, PartialEq, Eq)]
pub struct Cond(u8);

impl Model for Cond {
    ghost Value = { ℕ };

    ghost view = { λ c. c.0 };

    ghost invariant = { λ c. c.0 < 16 };

    ghost inverse = { λ n. record { 0 = n } };
}

impl Cond {
    /// The condition of this number.
    pub fn new(code: u8) -> Cond
        requires { code < 16 }
        ensures { result ≡ code }
    {
        Cond(code)
    }

    /// Its number.
    pub fn code(&self) -> u8
        ensures value { result ≡ self.now }
        ensures below { result < 16 }
    {
        self.0
    }
}

/// A memory operand: the sum of base, index times scale and displacement, modulo 2^32.
#[derive(Clone, Copy, Debug, PartialEq, Eq)]
pub struct Mem {
    pub base: Option<Reg>,
    pub index: Option<Reg>,
    /// 1, 2, 4 or 8; 1 where there is no index.
    pub scale: u8,
    pub disp: u32,
    /// Whether the address counts from the base of GS.
    pub gs: bool,
}

/// An operand. At width B8 `Reg` is the low byte of a register and `High` the second byte of EAX,
/// ECX, EDX or EBX.
#[derive(Clone, Copy, Debug, PartialEq, Eq)]
pub enum Operand {
    Reg(Reg),
    High(Reg),
    Imm(u32),
    Mem(Mem),
}

/// What an instruction does. The width in `Movzx` and `Movsx` is the source's.
#[derive(Clone, Copy, Debug, PartialEq, Eq)]
pub enum Op {
    Add,
    Or,
    Adc,
    Sbb,
    And,
    Sub,
    Xor,
    Cmp,
    Mov,
    Lea,
    Push,
    Pop,
    Xchg,
    Test,
    Inc,
    Dec,
    Not,
    Neg,
    Mul,
    Imul,
    Shl,
    Shr,
    Sar,
    Movzx(Width),
    Movsx(Width),
    Cwde,
    Cdq,
    Leave,
    Setcc(Cond),
    Call,
    Ret,
    Jmp,
    Jcc(Cond),
    Nop,
    Endbr32,
    Hlt,
    Int3,
    Ud2,
    Cmov(Cond),
    Rol,
    Ror,
    Div,
    Idiv,
    Movs { rep: bool },
    Stos { rep: bool },
    Cld,
    Std,
}

/// An instruction at its address. `dst` is the first operand of its form, `src` the second and `imm`
/// the third, which `Imul` alone has. A relative target is an `Imm` that holds the target's address,
/// the count CL is `Reg(Ecx)`, and the count of a form by 1 is `Imm(1)`. `width` is `D32` for a form
/// whose width the encoding doesn't tell.
#[derive(Clone, Copy, Debug, PartialEq, Eq)]
pub struct Instr {
    pub at: u32,
    /// Its number of bytes.
    pub len: u8,
    pub op: Op,
    pub width: Width,
    pub dst: Option<Operand>,
    pub src: Option<Operand>,
    pub imm: Option<u32>,
}
