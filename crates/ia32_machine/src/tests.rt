// A machine starts and executes instructions, or leaves all as it was.
ghost use Rattle.std.specs.Prelude.{◌≡◌, IfOk};
ghost use Rattle.image_map.specs.Whole.{IsImage};
ghost use Rattle.ia32_machine.specs.Machines.{HasNoBlocks};

use super::*;
use ia32_types::{Instr, Mem, Op, Operand, Reg, RegSet, Width};
use image_map::{Block, Image, PF_R, PF_W, PF_X, Segment, Settings, Span, Spans, Symbols};
use item_list::Items;
use std::alloc::{AllocError, Global};
use std::test::Fail;

const WORDS: [u32; 12] = [1, 2, 3, 4, 5, 6, 7, 0x1_0000, 0, 0, 0, 0];

const CHOICE: Choice = Choice { words: [0; 8] };

fn segment(alloc: Global, start: u32, bytes: &[u8], flags: u32) -> Result<Segment, AllocError>
    ensures { IfOk result (λ s. s ≡ record { start = start; bytes = bytes.now; flags = flags }) }
{
    Ok(Segment {
        start,
        bytes: Items::from_slice(alloc, bytes)?,
        flags,
    })
}

/// A segment of code, and one that may be written.
fn image(alloc: Global) -> Result<Image, AllocError>
    ensures { IfOk result (λ i. IsImage i) }
{
    let mut segments = Items::new(alloc);
    segments.push(segment(alloc, 0x1000, &[1, 2, 3, 4], PF_R | PF_X)?)?;
    segments.push(segment(alloc, 0x1004, &[5, 6, 7, 8], PF_R | PF_W)?)?;
    Ok(Image {
        segments,
        externs: Items::new(alloc),
        symbols: Symbols::new(alloc)?,
        any_bytes: Spans::new(alloc),
        words: Items::new(alloc),
        entry: 0x1000,
        bias: 0,
    })
}

fn machine(alloc: Global) -> Result<Machine, AllocError>
    ensures { IfOk result (λ m. HasNoBlocks m) }
{
    let settings = Settings {
        entry: 0x1000,
        rounds: 1,
        kinds: Items::new(alloc),
    };
    Machine::start(alloc, &image(alloc)?, &settings, &WORDS)
}

fn instruction(op: Op, width: Width, dst: Option<Operand>, src: Option<Operand>) -> Instr {
    Instr {
        at: 0x1000,
        len: 2,
        op,
        width,
        dst,
        src,
        imm: None,
    }
}

fn at(address: u32) -> Option<Operand> {
    Some(Operand::Mem(Mem {
        base: None,
        index: None,
        scale: 1,
        disp: address,
        gs: false,
    }))
}

#[test]
fn steps_change_what_they_may(rt: HostRuntime) -> Result<(), Fail> {
    let alloc = rt.alloc();
    let mut machine = machine(alloc)?;
    let sp = machine.slot;
    let eax = Some(Operand::Reg(Reg::Eax));
    let stored = instruction(Op::Mov, Width::W16, at(0x1004), eax);
    let out = machine.step(alloc, &stored, &CHOICE).ok().ok_or("stored")?;
    assert_eq!(rt; out.next, 0x1002);
    assert_eq!(rt; machine.core.memory.word(0x1004), Some(0x807_0001));
    let in_code = instruction(Op::Mov, Width::W16, at(0x1003), eax);
    assert_eq!(rt;
        machine.step(alloc, &in_code, &CHOICE).err(),
        Some(StepError::Fault)
    );
    assert_eq!(rt; machine.core.eip, 0x1002);
    let pushed = instruction(Op::Push, Width::D32, eax, None);
    machine.step(alloc, &pushed, &CHOICE).ok().ok_or("pushed")?;
    assert_eq!(rt; machine.core.memory.word(sp.wrapping_sub(4)), Some(1));
    assert_eq!(rt; machine.core.memory.word(sp), Some(0xFFFF_0000));
    Ok(())
}

/// Gives a machine without blocks one of 16 bytes.
fn given(alloc: Global, machine: &mut Machine) -> Result<(), AllocError>
    requires { HasNoBlocks machine.old }
{
    machine.add_block(
        alloc,
        Block {
            site: 0x1000,
            base: 0x9000_0000,
            size: 16,
        },
    )
}

#[test]
fn blocks_are_mapped(rt: HostRuntime) -> Result<(), Fail> {
    let alloc = rt.alloc();
    let mut machine = machine(alloc)?;
    assert_eq!(rt; machine.core.memory.byte(0x9000_000F), None);
    given(alloc, &mut machine)?;
    assert_eq!(rt; machine.blocks.len(), 1);
    assert_eq!(rt; machine.core.memory.byte(0x9000_000F), Some(0));
    assert_eq!(rt; machine.core.memory.byte(0x9000_0010), None);
    let eax = Some(Operand::Reg(Reg::Eax));
    let stored = instruction(Op::Mov, Width::D32, at(0x9000_000C), eax);
    let out = machine.step(alloc, &stored, &CHOICE).ok().ok_or("stored")?;
    assert_eq!(rt; out.reads.regs, RegSet::EAX);
    assert_eq!(rt; out.writes.regs, RegSet::none());
    let span = Span {
        start: 0x9000_000C,
        end: 0x9000_0010,
    };
    assert_eq!(rt; out.writes.bytes.as_slice(), &[span][..]);
    Ok(())
}
