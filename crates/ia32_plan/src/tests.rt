//! Rows that are easily got wrong, over a stack of zeros.

ghost use Rattle.std.specs.Prelude.{◌≡◌, IfOk};
ghost use Rattle.image_map.specs.Whole.{IsImage};

use crate::{Calls, Core, Effects, Entry, Plan, Read, Reads, Words, plan};
use ia32_memory::Memory;
use ia32_semantics::{FlagOut, Flags, FlagsOut};
use ia32_types::{Instr, Mem, Op, Operand, Reg, Width};
use image_map::{Image, Spans, Symbols};
use item_list::Items;
use std::alloc::{AllocError, Global};
use std::test::Fail;

const SLOT: u32 = 0xBFF0_000C;

fn image(alloc: Global) -> Result<Image, AllocError>
    ensures { IfOk result (λ i. IsImage i) }
{
    Ok(Image {
        segments: Items::new(alloc),
        externs: Items::new(alloc),
        symbols: Symbols::new(alloc)?,
        any_bytes: Spans::new(alloc),
        words: Items::new(alloc),
        entry: 0x1000,
        bias: 0,
    })
}

/// EAX, ECX and EBX as told, and ESP and EBP at the slot, which holds 11223344.
fn core(alloc: Global, eax: u32, ecx: u32, ebx: u32) -> Result<Core, AllocError> {
    let mut memory = Memory::for_image(alloc, &image(alloc)?, SLOT)?;
    memory.write(Width::D32, SLOT, 0x1122_3344);
    Ok(Core {
        regs: [eax, ecx, 0, ebx, SLOT, SLOT, 0x6000, 0x7000],
        flags: Flags {
            cf: false,
            pf: false,
            zf: false,
            sf: false,
            of: false,
        },
        df: false,
        eip: 0x1000,
        memory,
    })
}

/// An instruction of two bytes at 1000.
fn instr(op: Op, width: Width, dst: Option<Operand>, src: Option<Operand>) -> Instr {
    Instr {
        at: 0x1000,
        len: 2,
        op,
        width,
        dst,
        src,
        imm: None,
    }
}

fn planned(
    core: &Core,
    op: Op,
    width: Width,
    dst: Option<Operand>,
    src: Option<Operand>,
) -> Option<Effects> {
    let plan = plan(core, &instr(op, width, dst, src), &mut Words::new([0; 8]))?;
    Some(plan.effects)
}

fn reg(reg: Reg) -> Option<Operand> {
    Some(Operand::Reg(reg))
}

/// All flags set, of which these are true: bits 0 to 4 are CF, PF, ZF, SF and OF.
fn flags(bits: u8) -> Entry {
    Entry::Flags(FlagsOut {
        cf: FlagOut::Set(bits % 2 == 1),
        pf: FlagOut::Set(bits / 2 % 2 == 1),
        zf: FlagOut::Set(bits / 4 % 2 == 1),
        sf: FlagOut::Set(bits / 8 % 2 == 1),
        of: FlagOut::Set(bits / 16 % 2 == 1),
    })
}

#[test]
fn arithmetic(rt: HostRuntime) -> Result<(), Fail> {
    let core = core(rt.alloc(), 0x1FF, 0x8000_0000, 0x181)?;
    assert_eq!(rt;
        planned(
            &core,
            Op::Add,
            Width::B8,
            reg(Reg::Eax),
            Some(Operand::Imm(1))
        ),
        Some(Effects::Two(Entry::Set(Width::B8, Reg::Eax, 0), flags(7)))
    );
    assert_eq!(rt;
        planned(
            &core,
            Op::Sub,
            Width::D32,
            reg(Reg::Ecx),
            Some(Operand::Imm(1))
        ),
        Some(Effects::Two(Entry::Set(Width::D32, Reg::Ecx, 0x7FFF_FFFF), flags(18)))
    );
    assert_eq!(rt;
        planned(
            &core,
            Op::Shl,
            Width::B8,
            reg(Reg::Ebx),
            Some(Operand::Imm(1))
        ),
        Some(Effects::Two(Entry::Set(Width::B8, Reg::Ebx, 2), flags(17)))
    );
    Ok(())
}

#[test]
fn stack(rt: HostRuntime) -> Result<(), Fail> {
    let core = core(rt.alloc(), 0, 0, 0)?;
    let top = Operand::Mem(Mem {
        base: Some(Reg::Esp),
        index: None,
        scale: 1,
        disp: 0,
        gs: false,
    });
    let width = Width::D32;
    let rises = Entry::Set(width, Reg::Esp, SLOT + 4);
    assert_eq!(rt;
        planned(&core, Op::Pop, width, Some(top), None),
        Some(Effects::Two(
            rises,
            Entry::Store {
                at: SLOT + 4,
                width,
                value: 0x1122_3344
            }
        ))
    );
    assert_eq!(rt;
        planned(&core, Op::Leave, width, None, None),
        Some(Effects::Two(rises, Entry::Set(width, Reg::Ebp, 0x1122_3344)))
    );
    assert_eq!(rt;
        planned(&core, Op::Push, width, reg(Reg::Esp), None),
        Some(Effects::Two(
            Entry::Set(width, Reg::Esp, SLOT - 4),
            Entry::Store {
                at: SLOT - 4,
                width,
                value: SLOT
            }
        ))
    );
    assert_eq!(rt;
        planned(&core, Op::Stos { rep: true }, width, None, None),
        Some(Effects::Nothing)
    );
    Ok(())
}

#[test]
fn words_and_reads(rt: HostRuntime) -> Result<(), Fail> {
    let core = core(rt.alloc(), 0x80, 2, 0)?;
    let mut words = Words::new([0x1_0000, 0, 0x1_0000, 0, 0, 0, 0, 0]);
    let i = instr(Op::Imul, Width::B8, reg(Reg::Ecx), None);
    let halves = Entry::Halves {
        width: Width::B8,
        low: 0,
        high: 0xFF,
    };
    assert_eq!(rt;
        plan(&core, &i, &mut words),
        Some(Plan {
            effects: Effects::Two(halves, flags(1 + 2 + 8 + 16)),
            place: 0x1002,
            calls: Calls::Kept,
            forgets: None,
        })
    );
    assert_eq!(rt; words.used(), 3);
    assert_eq!(rt; words.reads(), Reads::Nothing);
    let ret = instr(Op::Ret, Width::D32, None, None);
    let plan = plan(&core, &ret, &mut words).expect(&rt, "a mapped return word");
    assert_eq!(rt; (plan.place, plan.forgets), (0x1122_3344, Some(SLOT + 4)));
    let width = Width::D32;
    assert_eq!(rt; words.reads(), Reads::One(Read { at: SLOT, width }));
    Ok(())
}
