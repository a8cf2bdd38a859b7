// Each warning at its edge, and how many targets of a jump are followed.
ghost use Rattle.std.specs.Prelude.{IfOk};
ghost use Rattle.image_map.specs.Whole.{IsImage};
ghost use Rattle.transfer_flow.specs.Contents.{IsContent, meant};

use abs_semantics::Known;
use abs_state::{AbsState, Registers};
use abs_steps::WarnName;
use alocs::Cells;
use cell_map::CellMap;
use ia32_types::{FlagSet, Instr, Op, Operand, Reg, Width};
use image_map::{Image, Kind, PF_X, RegionId, Segment, Spans, Symbols};
use item_list::Items;
use std::alloc::{AllocError, Global};
use std::test::Fail;
use strided::Si;
use transfer::View;
use transfer_flow::{Content, followed, known_targets, warns};
use vset::{AbsFlags, Part, ValueSet};

/// Sixteen bytes of code.
fn image(alloc: Global) -> Result<Image, AllocError>
    ensures { IfOk result (λ i. IsImage i) }
{
    let mut segments = Items::new(alloc);
    segments.push(Segment {
        start: 0x1000,
        bytes: Items::from_slice(alloc, &[0; 16])?,
        flags: PF_X,
    })?;
    Ok(Image {
        segments,
        externs: Items::new(alloc),
        symbols: Symbols::new(alloc)?,
        any_bytes: Spans::new(alloc),
        words: Items::new(alloc),
        entry: 0x1000,
        bias: 0,
    })
}

/// A value in EAX and EDI, and a stack pointer, where procedure 1000 runs. The block of key 5 has 16 bytes.
fn state(alloc: Global, value: ValueSet, esp: i32) -> Result<AbsState, AllocError> {
    let block = Known {
        region: RegionId::Heap(5),
        number: 16,
    };
    let mut registers = Registers::unknown(alloc)?;
    registers.set(Reg::Esp, offsets(RegionId::Frame(0x1000), esp, esp));
    registers.set(Reg::Eax, value.clone()?);
    registers.set(Reg::Edi, value);
    Ok(AbsState {
        registers,
        flags: AbsFlags {
            zero: FlagSet::all(),
            one: FlagSet::all(),
        },
        cells: CellMap::new(alloc),
        live: Items::from_slice(alloc, &[0x1000])?,
        older: Items::new(alloc),
        links: Items::new(alloc),
        aligns: Items::new(alloc),
        blocks: Items::from_slice(alloc, &[block])?,
        fact: None,
        root: 0x1000,
    })
}

/// All offsets of a region from one to another.
fn offsets(region: RegionId, first: i32, last: i32) -> ValueSet {
    let stride = if first == last { 0 } else { 1 };
    match Si::new(stride, first, last) {
        None => ValueSet::top(),
        Some(si) => ValueSet::one(Part { region, si }),
    }
}

/// stos at EDI, of four bytes.
fn store() -> Content
    ensures { IsContent (meant result) }
{
    Content::Instruction(Instr {
        at: 0x1000,
        len: 1,
        op: Op::Stos { rep: false },
        width: Width::D32,
        dst: None,
        src: None,
        imm: None,
    })
}

fn ret() -> Content
    ensures { IsContent (meant result) }
{
    Content::Instruction(Instr {
        at: 0x1000,
        len: 1,
        op: Op::Ret,
        width: Width::D32,
        dst: None,
        src: None,
        imm: None,
    })
}

/// jmp to what EAX holds.
fn jump() -> Content
    ensures { IsContent (meant result) }
{
    Content::Instruction(Instr {
        at: 0x1000,
        len: 2,
        op: Op::Jmp,
        width: Width::D32,
        dst: Some(Operand::Reg(Reg::Eax)),
        src: None,
        imm: None,
    })
}

/// What can't be followed.
fn told(
    alloc: Global,
    content: &Content,
    value: ValueSet,
    esp: i32,
) -> Result<Vec<WarnName>, AllocError>
    requires { IsContent (meant content.now) }
{
    let image = image(alloc)?;
    let cells = Cells::from_cuts(alloc, Vec::new(alloc), &image)?;
    let state = state(alloc, value, esp)?;
    let view = View {
        state: &state,
        cells: &cells,
        procedure: 0x1000,
    };
    warns(alloc, &view, content, &image)
}

/// The one warning of the second list, where the first has none.
fn first_told(quiet: &[WarnName], told: &[WarnName]) -> Option<WarnName> {
    match (quiet, told) {
        ([], [name]) => Some(*name),
        _ => None,
    }
}

/// The one warning of a write at the second offset of a region, where a write at the first one has none.
fn write_edge(
    alloc: Global,
    region: RegionId,
    within: i32,
    beyond: i32,
) -> Result<Option<WarnName>, AllocError> {
    let content = store();
    let quiet = told(alloc, &content, offsets(region, within, within), 0)?;
    let named = told(alloc, &content, offsets(region, beyond, beyond), 0)?;
    Ok(first_told(quiet.as_slice(), named.as_slice()))
}

#[test]
fn writes(rt: HostRuntime) -> Result<(), Fail> {
    let alloc = rt.alloc();
    let frame = RegionId::Frame(0x1000);
    let unknown = write_edge(alloc, RegionId::Global, 0x7FFF_FFFB, 0x7FFF_FFFC)?;
    assert_eq!(rt; unknown, Some(WarnName::UnknownWrite));
    let far = write_edge(alloc, frame, -0x10_0000, -0x10_0001)?;
    assert_eq!(rt; far, Some(WarnName::OutOfRegion));
    let overrun = write_edge(alloc, RegionId::Heap(5), 12, 13)?;
    assert_eq!(rt; overrun, Some(WarnName::HeapOverrun));
    let slot = write_edge(alloc, frame, -4, -3)?;
    assert_eq!(rt; slot, Some(WarnName::ReturnSlot));
    Ok(())
}

#[test]
fn places(rt: HostRuntime) -> Result<(), Fail> {
    let alloc = rt.alloc();
    let home = told(alloc, &ret(), ValueSet::top(), 0)?;
    let lost = told(alloc, &ret(), ValueSet::top(), -4)?;
    assert_eq!(rt;
        first_told(home.as_slice(), lost.as_slice()),
        Some(WarnName::StackLost)
    );
    let nothing = told(alloc, &Content::Nothing, ValueSet::top(), 0)?;
    assert_eq!(rt;
        first_told(home.as_slice(), nothing.as_slice()),
        Some(WarnName::Undecoded)
    );
    let pure = told(alloc, &Content::Extern(Kind::Pure(0)), ValueSet::top(), 0)?;
    let unknown = told(alloc, &Content::Extern(Kind::Unknown), ValueSet::top(), 0)?;
    assert_eq!(rt;
        first_told(pure.as_slice(), unknown.as_slice()),
        Some(WarnName::UnknownExtern)
    );
    let inside = told(alloc, &jump(), offsets(RegionId::Global, 0x1000, 0x100F), 0)?;
    let outside = told(alloc, &jump(), offsets(RegionId::Global, 0x1000, 0x1010), 0)?;
    assert_eq!(rt;
        first_told(inside.as_slice(), outside.as_slice()),
        Some(WarnName::UnresolvedJump)
    );
    Ok(())
}

/// How many targets a jump has to all numbers from one to another, where they are known, and how many are followed.
fn counted(alloc: Global, first: i32, last: i32) -> Result<(Option<usize>, usize), AllocError> {
    let image = image(alloc)?;
    let cells = Cells::from_cuts(alloc, Vec::new(alloc), &image)?;
    let state = state(alloc, offsets(RegionId::Global, first, last), 0)?;
    let view = View {
        state: &state,
        cells: &cells,
        procedure: 0x1000,
    };
    let operand = Some(Operand::Reg(Reg::Eax));
    let known = known_targets(alloc, &view, &operand)?;
    let places = followed(alloc, &image, &view, &operand)?;
    Ok((known.map(|targets| targets.len()), places.len()))
}

#[test]
fn targets(rt: HostRuntime) {
    for (first, last, known, places) in [
        (0x1000, 0x13FF, Some(1024), 16),
        (0x1000, 0x1400, None, 0),
        (0x100F, 0x1010, Some(2), 1),
    ] {
        let found = counted(rt.alloc(), first, last).expect(&rt, "memory");
        assert_eq!(rt; found.0, known);
        assert_eq!(rt; found.1, places);
    }
}
