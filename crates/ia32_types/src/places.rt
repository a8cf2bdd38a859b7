//! Which registers and flags an instruction reads and may write.

ghost use Rattle.std.specs.Prelude.{◌≡◌, ◌∷◌, [], ◌++◌, option_to_list};
ghost use Rattle.std.specs.Int.RustNames.{bit_or};
ghost use Rattle.ia32_types.specs.Places.{reg_bits, flag_bits, address_of as address_spec, value_of as value_spec, place_of as place_spec, target_of as target_spec, product_reads as product_reads_spec, product_writes as product_writes_spec, quotient_places as quotient_spec, imul_reads as imul_reads_spec, imul_writes as imul_writes_spec, op_reads as op_reads_spec, op_writes as op_writes_spec, cond_flags as cond_flags_spec, is_by_zero as is_by_zero_spec, op_flag_reads as op_flag_reads_spec, op_flag_writes as op_flag_writes_spec, arithmetic_flags, registers_read, registers_written, flags_read, flags_written};
ghost use Rattle.ia32_types.specs.Sets.{HasRegs, HasFlags};

use crate::{Cond, FlagSet, Instr, Mem, Op, Operand, Reg, RegSet, Width};

/// No register.
#[tactic(auto, unfolding(crate::specs::Places::reg_bits))]
fn no_reg() -> RegSet
    ensures { result.0 ≡ reg_bits [] }
{
    RegSet(0)
}

/// One register.
#[tactic(auto, using(crate::proofs::SetLemmas::bits_of_one))]
fn one_reg(reg: Reg) -> RegSet
    ensures { result.0 ≡ reg_bits (reg ∷ []) }
{
    RegSet::only(reg)
}

/// A register and those of a set.
#[tactic(auto, using(crate::proofs::SetLemmas::bits_of_more))]
fn two_regs(a: Reg, b: Reg) -> RegSet
    ensures { result.0 ≡ reg_bits (a ∷ b ∷ []) }
{
    one_reg(a).with(one_reg(b))
}

/// The register that an address names, if it names one.
fn some_reg(reg: Option<Reg>) -> RegSet
    ensures { result.0 ≡ reg_bits (option_to_list reg) }
{
    match reg {
        None => no_reg(),
        Some(reg) => one_reg(reg),
    }
}

/// The registers of an address.
#[tactic(auto, using(crate::proofs::SetLemmas::bits_of_both))]
fn address_of(memory: &Mem) -> RegSet
    ensures { result.0 ≡ reg_bits (address_spec memory.now) }
{
    some_reg(memory.base).with(some_reg(memory.index))
}

/// What is read where the operand's value is.
fn value_of(operand: &Option<Operand>) -> RegSet
    ensures { result.0 ≡ reg_bits (value_spec operand.now) }
{
    match operand {
        None => no_reg(),
        Some(Operand::Reg(reg)) => one_reg(*reg),
        Some(Operand::High(reg)) => one_reg(*reg),
        Some(Operand::Imm(_)) => no_reg(),
        Some(Operand::Mem(memory)) => address_of(memory),
    }
}

/// What is read where the operand is written.
fn place_of(width: Width, operand: &Option<Operand>) -> RegSet
    ensures { result.0 ≡ reg_bits (place_spec width operand.now) }
{
    match operand {
        None => no_reg(),
        Some(Operand::Reg(reg)) => match width {
            Width::B8 => one_reg(*reg),
            Width::W16 => one_reg(*reg),
            Width::D32 => no_reg(),
        },
        Some(Operand::High(reg)) => one_reg(*reg),
        Some(Operand::Imm(_)) => no_reg(),
        Some(Operand::Mem(memory)) => address_of(memory),
    }
}

/// The register that is written where the operand is.
fn target_of(operand: &Option<Operand>) -> RegSet
    ensures { result.0 ≡ reg_bits (target_spec operand.now) }
{
    match operand {
        None => no_reg(),
        Some(Operand::Reg(reg)) => one_reg(*reg),
        Some(Operand::High(reg)) => one_reg(*reg),
        Some(Operand::Imm(_)) => no_reg(),
        Some(Operand::Mem(_)) => no_reg(),
    }
}

/// What a product reads beside its operand.
fn product_reads(width: Width) -> RegSet
    ensures { result.0 ≡ reg_bits (product_reads_spec width) }
{
    match width {
        Width::B8 => one_reg(Reg::Eax),
        Width::W16 => two_regs(Reg::Eax, Reg::Edx),
        Width::D32 => one_reg(Reg::Eax),
    }
}

/// What a product with EAX writes.
fn product_writes(width: Width) -> RegSet
    ensures { result.0 ≡ reg_bits (product_writes_spec width) }
{
    match width {
        Width::B8 => one_reg(Reg::Eax),
        Width::W16 => two_regs(Reg::Eax, Reg::Edx),
        Width::D32 => two_regs(Reg::Eax, Reg::Edx),
    }
}

/// What a division reads beside its operand, and what it writes.
fn quotient_places(width: Width) -> RegSet
    ensures { result.0 ≡ reg_bits (quotient_spec width) }
{
    match width {
        Width::B8 => one_reg(Reg::Eax),
        Width::W16 => two_regs(Reg::Eax, Reg::Edx),
        Width::D32 => two_regs(Reg::Eax, Reg::Edx),
    }
}

/// What both operands read where their values are.
#[tactic(auto, using(crate::proofs::SetLemmas::bits_of_both))]
fn values_of(dst: &Option<Operand>, src: &Option<Operand>) -> RegSet
    ensures { result.0 ≡ reg_bits (value_spec dst.now ++ value_spec src.now) }
{
    value_of(dst).with(value_of(src))
}

/// What is read where the first operand is written and the second is a value.
#[tactic(auto, using(crate::proofs::SetLemmas::bits_of_both))]
fn moved(width: Width, dst: &Option<Operand>, src: &Option<Operand>) -> RegSet
    ensures { result.0 ≡ reg_bits (place_spec width dst.now ++ value_spec src.now) }
{
    place_of(width, dst).with(value_of(src))
}

/// What a form of imul reads.
#[tactic(auto, using(crate::proofs::SetLemmas::bits_of_both))]
fn imul_reads(i: &Instr) -> RegSet
    ensures { result.0 ≡ reg_bits (imul_reads_spec i.now.width i.now.dst i.now.src i.now.imm) }
{
    match i.src {
        None => value_of(&i.dst).with(product_reads(i.width)),
        Some(_) => match i.imm {
            None => values_of(&i.dst, &i.src),
            Some(_) => moved(i.width, &i.dst, &i.src),
        },
    }
}

/// What a form of imul writes.
fn imul_writes(i: &Instr) -> RegSet
    ensures { result.0 ≡ reg_bits (imul_writes_spec i.now.width i.now.dst i.now.src) }
{
    match i.src {
        None => product_writes(i.width),
        Some(_) => target_of(&i.dst),
    }
}

/// What a string instruction reads.
#[tactic(auto, using(crate::proofs::SetLemmas::bits_of_more))]
fn three_regs(a: Reg, b: Reg, c: Reg) -> RegSet
    ensures { result.0 ≡ reg_bits (a ∷ b ∷ c ∷ []) }
{
    one_reg(a).with(two_regs(b, c))
}

/// The registers that an instruction reads: its sources, the registers of its addresses, ESP or EBP where
/// it uses the stack, and a register of which it writes a part. Of a repeated string instruction, those of
/// a count other than 0.
#[tactic(auto, using(crate::proofs::SetLemmas::has_regs))]
pub fn reg_reads(i: &Instr) -> RegSet
    ensures members { HasRegs result (registers_read i.now) }
{
    read_regs(i)
}

#[tactic(auto, using(crate::proofs::SetLemmas::bits_of_both), unfolding(crate::specs::Places::op_reads))]
fn read_regs(i: &Instr) -> RegSet
    ensures { result.0 ≡ reg_bits (registers_read i.now) }
{
    match i.op {
        Op::Add | Op::Or | Op::Adc | Op::Sbb | Op::And | Op::Sub | Op::Xor | Op::Cmp => values_of(
            &i.dst, &i.src,
        ),
        Op::Xchg | Op::Test | Op::Shl | Op::Shr | Op::Sar | Op::Rol | Op::Ror | Op::Cmov(_) =>
            values_of(&i.dst, &i.src),
        Op::Mov | Op::Lea | Op::Movzx(_) | Op::Movsx(_) => moved(i.width, &i.dst, &i.src),
        Op::Push | Op::Call => value_of(&i.dst).with(one_reg(Reg::Esp)),
        Op::Pop => place_of(i.width, &i.dst).with(one_reg(Reg::Esp)),
        Op::Inc | Op::Dec | Op::Not | Op::Neg | Op::Jmp => value_of(&i.dst),
        Op::Mul => value_of(&i.dst).with(product_reads(i.width)),
        Op::Imul => imul_reads(i),
        Op::Cwde | Op::Cdq => one_reg(Reg::Eax),
        Op::Leave => one_reg(Reg::Ebp),
        Op::Setcc(_) => place_of(i.width, &i.dst),
        Op::Ret => one_reg(Reg::Esp),
        Op::Jcc(_) | Op::Nop | Op::Endbr32 | Op::Hlt | Op::Int3 | Op::Ud2 | Op::Cld | Op::Std =>
            no_reg(),
        Op::Div | Op::Idiv => value_of(&i.dst).with(quotient_places(i.width)),
        Op::Movs { rep: false } => two_regs(Reg::Esi, Reg::Edi),
        Op::Movs { rep: true } => three_regs(Reg::Ecx, Reg::Esi, Reg::Edi),
        Op::Stos { rep: false } => two_regs(Reg::Eax, Reg::Edi),
        Op::Stos { rep: true } => three_regs(Reg::Eax, Reg::Ecx, Reg::Edi),
    }
}

/// The registers that an instruction writes, whole or in part. Of a repeated string instruction, those of a
/// count other than 0.
#[tactic(auto, using(crate::proofs::SetLemmas::has_regs))]
pub fn reg_writes(i: &Instr) -> RegSet
    ensures members { HasRegs result (registers_written i.now) }
{
    written_regs(i)
}

#[tactic(auto, using(crate::proofs::SetLemmas::bits_of_both), unfolding(crate::specs::Places::op_writes))]
fn written_regs(i: &Instr) -> RegSet
    ensures { result.0 ≡ reg_bits (registers_written i.now) }
{
    match i.op {
        Op::Add | Op::Or | Op::Adc | Op::Sbb | Op::And | Op::Sub | Op::Xor => target_of(&i.dst),
        Op::Mov | Op::Lea | Op::Inc | Op::Dec | Op::Not | Op::Neg | Op::Shl | Op::Shr | Op::Sar =>
            target_of(&i.dst),
        Op::Rol | Op::Ror | Op::Movzx(_) | Op::Movsx(_) | Op::Setcc(_) | Op::Cmov(_) => target_of(
            &i.dst,
        ),
        Op::Push | Op::Call | Op::Ret => one_reg(Reg::Esp),
        Op::Pop => target_of(&i.dst).with(one_reg(Reg::Esp)),
        Op::Xchg => target_of(&i.dst).with(target_of(&i.src)),
        Op::Mul => product_writes(i.width),
        Op::Imul => imul_writes(i),
        Op::Cwde => one_reg(Reg::Eax),
        Op::Cdq => one_reg(Reg::Edx),
        Op::Leave => two_regs(Reg::Esp, Reg::Ebp),
        Op::Cmp | Op::Test | Op::Jmp | Op::Jcc(_) | Op::Nop | Op::Endbr32 => no_reg(),
        Op::Hlt | Op::Int3 | Op::Ud2 | Op::Cld | Op::Std => no_reg(),
        Op::Div | Op::Idiv => quotient_places(i.width),
        Op::Movs { rep: false } => two_regs(Reg::Esi, Reg::Edi),
        Op::Movs { rep: true } => three_regs(Reg::Ecx, Reg::Esi, Reg::Edi),
        Op::Stos { rep: false } => one_reg(Reg::Edi),
        Op::Stos { rep: true } => two_regs(Reg::Ecx, Reg::Edi),
    }
}

/// No flag.
#[tactic(auto, unfolding(crate::specs::Places::flag_bits))]
fn no_flags() -> FlagSet
    ensures { result.0 ≡ flag_bits [] }
{
    FlagSet(0)
}

/// The flags of a condition.
#[tactic(auto, unfolding(crate::specs::Places::flag_bits))]
fn cond_flags(cond: Cond) -> FlagSet
    ensures { result.0 ≡ flag_bits (cond_flags_spec cond) }
{
    match cond.code() / 2 {
        0 => FlagSet::OF,
        1 => FlagSet::CF,
        2 => FlagSet::ZF,
        3 => FlagSet(1 + 4),
        4 => FlagSet::SF,
        5 => FlagSet::PF,
        6 => FlagSet(8 + 16),
        _ => FlagSet(4 + 8 + 16),
    }
}

/// CF, PF, ZF, SF and OF.
#[tactic(auto, unfolding(crate::specs::Places::flag_bits))]
fn five_flags() -> FlagSet
    ensures { result.0 ≡ flag_bits arithmetic_flags }
{
    FlagSet(1 + 2 + 4 + 8 + 16)
}

/// Whether a shift or a rotate is known to be by 0.
fn is_by_zero(count: &Option<Operand>) -> bool
    ensures { result ≡ is_by_zero_spec count.now }
{
    match count {
        Some(Operand::Imm(count)) => *count % 32 == 0,
        _ => false,
    }
}

/// The flags that an instruction reads: those of its condition, the carry of `Adc` and `Sbb`, and DF of a
/// string instruction.
#[tactic(auto, using(crate::proofs::SetLemmas::has_flags))]
pub fn flag_reads(i: &Instr) -> FlagSet
    ensures members { HasFlags result (flags_read i.now) }
{
    read_flags(i)
}

#[tactic(auto, unfolding(crate::specs::Places::op_flag_reads, crate::specs::Places::flag_bits))]
fn read_flags(i: &Instr) -> FlagSet
    ensures { result.0 ≡ flag_bits (flags_read i.now) }
{
    match i.op {
        Op::Adc | Op::Sbb => FlagSet::CF,
        Op::Setcc(cond) => cond_flags(cond),
        Op::Jcc(cond) => cond_flags(cond),
        Op::Cmov(cond) => cond_flags(cond),
        Op::Movs { .. } | Op::Stos { .. } => FlagSet::DF,
        _ => no_flags(),
    }
}

/// The flags that an instruction may write, also those that it leaves undefined.
#[tactic(auto, using(crate::proofs::SetLemmas::has_flags))]
pub fn flag_writes(i: &Instr) -> FlagSet
    ensures members { HasFlags result (flags_written i.now) }
{
    written_flags(i)
}

#[tactic(auto, unfolding(crate::specs::Places::op_flag_writes, crate::specs::Places::flag_bits))]
fn written_flags(i: &Instr) -> FlagSet
    ensures { result.0 ≡ flag_bits (flags_written i.now) }
{
    match i.op {
        Op::Add
        | Op::Or
        | Op::Adc
        | Op::Sbb
        | Op::And
        | Op::Sub
        | Op::Xor
        | Op::Cmp
        | Op::Test
        | Op::Neg => five_flags(),
        Op::Mul | Op::Imul | Op::Div | Op::Idiv => five_flags(),
        Op::Inc | Op::Dec => FlagSet(2 + 4 + 8 + 16),
        Op::Shl | Op::Shr | Op::Sar => {
            if is_by_zero(&i.src) {
                no_flags()
            } else {
                five_flags()
            }
        }
        Op::Rol | Op::Ror => {
            if is_by_zero(&i.src) {
                no_flags()
            } else {
                FlagSet(1 + 16)
            }
        }
        Op::Cld | Op::Std => FlagSet::DF,
        _ => no_flags(),
    }
}
