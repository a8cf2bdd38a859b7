//! Worked instructions with the registers and flags that they read and write.

use crate::{
    Cond, Flag, FlagSet, Instr, Mem, Op, Operand, Reg, RegSet, Width, flag_reads, flag_writes,
    reg_reads, reg_writes,
};

const EAX: Option<Operand> = Some(Operand::Reg(Reg::Eax));

const ECX: Option<Operand> = Some(Operand::Reg(Reg::Ecx));

const AH: Option<Operand> = Some(Operand::High(Reg::Eax));

const IMM: Option<Operand> = Some(Operand::Imm(32));
/// [ebx+esi*4]
const SUM: Option<Operand> = Some(Operand::Mem(Mem {
    base: Some(Reg::Ebx),
    index: Some(Reg::Esi),
    scale: 4,
    disp: 0,
    gs: false,
}));

/// The bits of the registers read and written, and of the flags read and written.
fn places(
    op: Op,
    width: Width,
    dst: Option<Operand>,
    src: Option<Operand>,
    imm: Option<u32>,
) -> (u8, u8, u8, u8) {
    let i = Instr {
        at: 0,
        len: 1,
        op,
        width,
        dst,
        src,
        imm,
    };
    (
        reg_reads(&i).0,
        reg_writes(&i).0,
        flag_reads(&i).0,
        flag_writes(&i).0,
    )
}

#[test]
fn worked(rt: HostRuntime) {
    let le = Cond::new(14);
    assert_eq!(rt; le.code(), 14);
    let cases = [
        (places(Op::Mov, Width::D32, EAX, ECX, None), (2, 1, 0, 0)),
        (places(Op::Mov, Width::W16, EAX, ECX, None), (3, 1, 0, 0)),
        (places(Op::Mov, Width::B8, AH, SUM, None), (0x49, 1, 0, 0)),
        (
            places(Op::Add, Width::D32, SUM, EAX, None),
            (0x49, 0, 0, 31),
        ),
        (places(Op::Sbb, Width::D32, EAX, EAX, None), (1, 1, 1, 31)),
        (places(Op::Inc, Width::D32, ECX, None, None), (2, 2, 0, 30)),
        (places(Op::Lea, Width::D32, EAX, SUM, None), (0x48, 1, 0, 0)),
        (
            places(Op::Push, Width::D32, SUM, None, None),
            (0x58, 0x10, 0, 0),
        ),
        (
            places(Op::Pop, Width::D32, EAX, None, None),
            (0x10, 0x11, 0, 0),
        ),
        (
            places(Op::Leave, Width::D32, None, None, None),
            (0x20, 0x30, 0, 0),
        ),
        (places(Op::Mul, Width::W16, ECX, None, None), (7, 5, 0, 31)),
        (places(Op::Mul, Width::D32, ECX, None, None), (3, 5, 0, 31)),
        (
            places(Op::Imul, Width::D32, EAX, ECX, Some(9)),
            (2, 1, 0, 31),
        ),
        (places(Op::Imul, Width::D32, EAX, ECX, None), (3, 1, 0, 31)),
        (places(Op::Shl, Width::D32, EAX, ECX, None), (3, 1, 0, 31)),
        (places(Op::Shl, Width::D32, EAX, IMM, None), (1, 1, 0, 0)),
        (places(Op::Ror, Width::D32, EAX, ECX, None), (3, 1, 0, 17)),
        (
            places(Op::Setcc(le), Width::B8, EAX, None, None),
            (1, 1, 28, 0),
        ),
        (
            places(Op::Cmov(le), Width::D32, EAX, ECX, None),
            (3, 1, 28, 0),
        ),
        (places(Op::Nop, Width::D32, SUM, None, None), (0, 0, 0, 0)),
        (places(Op::Div, Width::B8, ECX, None, None), (3, 1, 0, 31)),
        (
            places(Op::Movs { rep: true }, Width::D32, None, None, None),
            (0xC2, 0xC2, 32, 0),
        ),
        (
            places(Op::Stos { rep: false }, Width::B8, None, None, None),
            (0x81, 0x80, 32, 0),
        ),
        (places(Op::Std, Width::D32, None, None, None), (0, 0, 0, 32)),
    ];
    for (found, wanted) in cases.iter() {
        assert_eq!(rt; *found, *wanted);
    }
}

#[test]
fn sets(rt: HostRuntime) {
    let regs = RegSet::only(Reg::Esp).with(RegSet::only(Reg::Edi));
    assert!(rt; regs.has(Reg::Edi) && regs.has(Reg::Esp) && !regs.has(Reg::Eax));
    let flags = FlagSet::only(Flag::Df).with(FlagSet::only(Flag::Cf));
    assert!(rt; flags.has(Flag::Cf) && flags.has(Flag::Df) && !flags.has(Flag::Zf));
}
