//! Accesses of a few instructions and externs, and states after a few instructions: with an address that is known, one in an activation, and one that isn't known.

ghost use Rattle.std.specs.Prelude.{IfOk};
ghost use Rattle.image_map.specs.Whole.{IsImage};

use crate::{View, accesses, extern_accesses, post};
use abs_alu::number;
use abs_state::{AbsState, Memory, Registers};
use abs_steps::Access;
use alocs::Cells;
use cell_map::CellMap;
use ia32_types::{FlagSet, Instr, Mem, Op, Operand, Reg, Width};
use image_map::{Image, Kind, RegionId, Spans, Symbols};
use item_list::Items;
use std::alloc::{AllocError, Global};
use std::test::Fail;
use strided::Si;
use vset::{AbsFlags, Part, ValueSet};

fn image(alloc: Global) -> Result<Image, AllocError>
    ensures { IfOk result (λ i. IsImage i) }
{
    Ok(Image {
        segments: Items::new(alloc),
        externs: Items::new(alloc),
        symbols: Symbols::new(alloc)?,
        any_bytes: Spans::new(alloc),
        words: Items::new(alloc),
        entry: 0x1000,
        bias: 0,
    })
}

fn frame(offset: i32) -> ValueSet {
    ValueSet::one(Part {
        region: RegionId::Frame(0x1000),
        si: Si::one(offset),
    })
}

/// ECX is 3, ESP lies in an activation, EDI is an address of the image, and nothing is known of the others.
fn registers(alloc: Global) -> Result<Registers, AllocError> {
    let mut values = Vec::new(alloc);
    values.push(ValueSet::top())?;
    values.push(number(3))?;
    values.push(ValueSet::top())?;
    values.push(ValueSet::top())?;
    values.push(frame(-16))?;
    values.push(ValueSet::top())?;
    values.push(ValueSet::top())?;
    values.push(number(0x2000))?;
    Ok(Registers::new(values))
}

fn state(alloc: Global, one: FlagSet) -> Result<AbsState, AllocError> {
    Ok(AbsState {
        registers: registers(alloc)?,
        flags: AbsFlags {
            zero: FlagSet::all(),
            one,
        },
        cells: CellMap::new(alloc),
        live: Items::from_slice(alloc, &[0x1000])?,
        older: Items::new(alloc),
        links: Items::new(alloc),
        aligns: Items::new(alloc),
        blocks: Items::new(alloc),
        fact: None,
        root: 0x1000,
    })
}

fn instr(op: Op, dst: Option<Operand>) -> Instr {
    Instr {
        at: 0x1000,
        len: 1,
        op,
        width: Width::D32,
        dst,
        src: None,
        imm: None,
    }
}

/// Whether the access with a number in a list is this one.
fn is_access(list: &[Access], i: usize, addr: &ValueSet, len: Option<u32>, write: bool) -> bool {
    match list.get(i) {
        None => false,
        Some(x) => x.addr.equals(addr) && x.len == len && x.write == write,
    }
}

#[test]
fn operands_and_the_stack(rt: HostRuntime) -> Result<(), Fail> {
    let alloc = rt.alloc();
    let a = state(alloc, FlagSet::arithmetic())?;
    let at_stack = Some(Operand::Mem(Mem {
        base: Some(Reg::Esp),
        index: None,
        scale: 1,
        disp: 8,
        gs: false,
    }));
    // The new ESP is a part of where pop stores.
    let popped = accesses(alloc, &a, &instr(Op::Pop, at_stack))?;
    assert_eq!(rt; popped.len(), 2);
    assert!(rt; is_access(popped.as_slice(), 0, &frame(-16), Some(4), false));
    assert!(rt; is_access(popped.as_slice(), 1, &frame(-4), Some(4), true));
    let pushed = accesses(alloc, &a, &instr(Op::Push, at_stack))?;
    assert_eq!(rt; pushed.len(), 2);
    assert!(rt; is_access(pushed.as_slice(), 0, &frame(-8), Some(4), false));
    assert!(rt; is_access(pushed.as_slice(), 1, &frame(-20), Some(4), true));
    let left = accesses(alloc, &a, &instr(Op::Leave, None))?;
    assert_eq!(rt; left.len(), 1);
    assert!(rt; is_access(left.as_slice(), 0, &ValueSet::top(), Some(4), false));
    Ok(())
}

#[test]
fn strings(rt: HostRuntime) -> Result<(), Fail> {
    let alloc = rt.alloc();
    let filled = instr(Op::Stos { rep: true }, None);
    let up = state(alloc, FlagSet::arithmetic())?;
    let known = accesses(alloc, &up, &filled)?;
    assert_eq!(rt; known.len(), 1);
    assert!(rt; is_access(known.as_slice(), 0, &number(0x2000), Some(12), true));
    // DF may be set.
    let either = state(alloc, FlagSet::all())?;
    let unknown = accesses(alloc, &either, &filled)?;
    assert_eq!(rt; unknown.len(), 1);
    assert!(rt; is_access(unknown.as_slice(), 0, &number(0x2000), None, true));
    Ok(())
}

#[test]
fn externs(rt: HostRuntime) -> Result<(), Fail> {
    let alloc = rt.alloc();
    let image = image(alloc)?;
    let cells = Cells::from_cuts(alloc, Vec::new(alloc), &image)?;
    let a = state(alloc, FlagSet::arithmetic())?;
    let view = View {
        state: &a,
        cells: &cells,
        procedure: 0x1000,
    };
    let pure = extern_accesses(alloc, &view, &Kind::Pure(2))?;
    assert_eq!(rt; pure.len(), 3);
    assert!(rt; is_access(pure.as_slice(), 2, &frame(-8), Some(4), false));
    assert_eq!(rt; extern_accesses(alloc, &view, &Kind::Stop)?.len(), 0);
    // Nothing is known of the buffer and its length.
    let fills = extern_accesses(alloc, &view, &Kind::Fills(1, 2))?;
    assert_eq!(rt; fills.len(), 4);
    assert!(rt; is_access(fills.as_slice(), 3, &ValueSet::top(), None, true));
    Ok(())
}

#[test]
fn states(rt: HostRuntime) -> Result<(), Fail> {
    let alloc = rt.alloc();
    let image = image(alloc)?;
    let cells = Cells::from_cuts(alloc, Vec::new(alloc), &image)?;
    let memory = Memory {
        cells: &cells,
        image: &image,
        procedure: 0x1000,
    };
    let a = state(alloc, FlagSet::arithmetic())?;
    let ecx = Some(Operand::Reg(Reg::Ecx));
    let raised = post(alloc, &a, &instr(Op::Inc, ecx), &memory)?;
    assert!(rt; raised.register(Reg::Ecx).equals(&number(4)));
    let pushed = post(alloc, &a, &instr(Op::Push, ecx), &memory)?;
    assert!(rt; pushed.register(Reg::Esp).equals(&frame(-20)));
    let filled = post(alloc, &a, &instr(Op::Stos { rep: true }, None), &memory)?;
    assert!(rt; filled.register(Reg::Edi).equals(&number(0x200C)));
    assert!(rt; filled.register(Reg::Ecx).equals(&number(0)));
    Ok(())
}
