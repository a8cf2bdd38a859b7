// Replies that tell a small round, made by hand.
ghost use Rattle.std.specs.Prelude.{◌≡◌, ◌≤ℤ◌, ◌∷◌, [], pos, IfOk};
ghost use Rattle.image_map.specs.Whole.{IsImage};
ghost use Rattle.access_facts.specs.Rows.{AreInside};

use super::{graph_json, locations_text, push_addresses, reading, values_text, warnings_text};
use abs_state::{AbsState, Registers};
use abs_steps::WarnName;
use alocs::{Cells, CutList};
use call_strings::{Context, Node};
use cell_map::CellMap;
use flow_graph::{FlowGraph, FlowNode};
use ia32_types::{FlagSet, Reg};
use image_map::{Image, RegionId, Segment, Spans, Symbols};
use item_list::Items;
use requests::Request;
use rounds::Round;
use slicer::RoundGraph;
use std::alloc::{AllocError, Global};
use std::test::Fail;
use strided::Si;
use vsa::{States, Warning};
use vset::{AbsFlags, Part, ValueSet};

// Sixteen bytes.
fn image(alloc: Global) -> Result<Image, AllocError>
    ensures { IfOk result (λ i. IsImage i) }
{
    let mut segments = Items::new(alloc);
    segments.push(Segment {
        start: 0x1000,
        bytes: Items::from_slice(alloc, &[0; 16])?,
        flags: 0,
    })?;
    Ok(Image {
        segments,
        externs: Items::new(alloc),
        symbols: Symbols::new(alloc)?,
        any_bytes: Spans::new(alloc),
        words: Items::new(alloc),
        entry: 0,
        bias: 0,
    })
}

fn list(alloc: Global, region: RegionId, low: i32, high: i32) -> Result<CutList, AllocError>
    ensures { IfOk result (λ l. l ≡ record { region = region; cuts = low ∷ high ∷ [] }) }
{
    let cuts = Items::from_slice(alloc, &[low, high])?;
    Ok(CutList { region, cuts })
}

fn cells(alloc: Global) -> Result<Cells, AllocError>
    ensures { IfOk result (λ cells. AreInside cells.image) }
{
    let image = image(alloc)?;
    let global = list(alloc, RegionId::Global, 0x1004, 0x1008)?;
    let frame = list(alloc, RegionId::Frame(0x1000), 0, 4)?;
    let mut lists = Vec::new(alloc);
    lists.push(global)?;
    lists.push(frame)?;
    let cells = Cells::from_cuts(alloc, lists, &image)?;
    Ok(cells)
}

// Offsets in a region of each kind.
fn offsets(alloc: Global) -> Result<ValueSet, AllocError> {
    let mut parts = Vec::new(alloc);
    for (region, offset) in [
        (RegionId::Global, 5),
        (RegionId::Frame(0x1000), -4),
        (RegionId::OldFrame(0x1000), -8),
        (RegionId::Heap(0x1005), 0),
        (RegionId::OldHeap(0x1005), 12),
    ] {
        parts.push(Part {
            region,
            si: Si::one(offset),
        })?;
    }
    Ok(ValueSet::from_parts(parts))
}

fn registers(alloc: Global) -> Result<Registers, AllocError> {
    let mut registers = Registers::unknown(alloc)?;
    registers.set(Reg::Eax, offsets(alloc)?);
    registers.set(Reg::Edi, ValueSet::numbers(Si::spaced(4, -8, 16)));
    Ok(registers)
}

fn state(alloc: Global) -> Result<AbsState, AllocError> {
    Ok(AbsState {
        registers: registers(alloc)?,
        flags: AbsFlags {
            zero: FlagSet::none(),
            one: FlagSet::none(),
        },
        cells: CellMap::new(alloc),
        live: Items::new(alloc),
        older: Items::new(alloc),
        links: Items::new(alloc),
        aligns: Items::new(alloc),
        blocks: Items::new(alloc),
        fact: None,
        root: 0x1000,
    })
}

fn node(alloc: Global, proc: u32, sites: &[u32], at: u32) -> Result<Node, AllocError> {
    let sites = Items::from_slice(alloc, sites)?;
    Ok(Node {
        context: Context { proc, sites },
        at,
    })
}

fn nodes(alloc: Global) -> Result<Vec<Node>, AllocError> {
    let mut nodes = Vec::new(alloc);
    nodes.push(node(alloc, 0x1000, &[], 0x1000)?)?;
    nodes.push(node(alloc, 0x1000, &[], 0x1002)?)?;
    nodes.push(node(alloc, 0x1008, &[0x1004, 0x1002], 0x1000)?)?;
    Ok(nodes)
}

fn states(alloc: Global) -> Result<States, AllocError> {
    let mut values = Vec::new(alloc);
    for _ in 0..3u32 {
        values.push(state(alloc)?)?;
    }
    Ok(States {
        lane: 2,
        cells: cells(alloc)?,
        nodes: nodes(alloc)?,
        values,
        full: false,
    })
}

fn flow_node(
    alloc: Global,
    at: u32,
    next: &[u32],
    uses: &[u32],
    defines: &[u32],
) -> Result<FlowNode, AllocError> {
    Ok(FlowNode {
        at,
        next: Items::from_slice(alloc, next)?,
        may_use: Items::from_slice(alloc, uses)?,
        may_def: Items::from_slice(alloc, defines)?,
        must_def: Items::new(alloc),
        branch: next.len() == 2,
        end: next.is_empty(),
    })
}

// A branch that goes to the two nodes behind it, of which the first goes to the second.
fn graph(alloc: Global) -> Result<RoundGraph, AllocError> {
    let mut nodes = Items::new(alloc);
    nodes.push(flow_node(alloc, 0x1000, &[1, 2], &[], &[0, 4])?)?;
    nodes.push(flow_node(alloc, 0x1002, &[2], &[0], &[])?)?;
    nodes.push(flow_node(alloc, 0x1000, &[], &[4], &[])?)?;
    RoundGraph::new(alloc, FlowGraph { nodes })
}

fn warnings(alloc: Global) -> Result<Vec<Warning>, AllocError> {
    let mut warnings = Vec::new(alloc);
    for (at, name) in [
        (0, WarnName::NotClosed),
        (0x1002, WarnName::UnknownWrite),
        (0x1002, WarnName::ReturnSlot),
    ] {
        warnings.push(Warning { at, name })?;
    }
    Ok(warnings)
}

fn round(alloc: Global) -> Result<Round, AllocError>
    ensures { IfOk result (λ r. AreInside r.cells.image) }
{
    let cells = cells(alloc)?;
    Ok(Round {
        number: 1,
        lane: 2,
        cells,
        states: states(alloc)?,
        graph: graph(alloc)?,
        warnings: warnings(alloc)?,
        last: true,
    })
}

#[test]
fn values(rt: HostRuntime) -> Result<(), Fail> {
    let round = round(rt.alloc())?;
    let text = values_text(rt.alloc(), &round, 0x1000)?.expect(&rt, "two nodes");
    assert_eq!(rt;
        text.as_slice(),
        b"values 00001000 round 1 lane 2\n\
        node 00001000 - 00001000\n\
        eax global:0[5,5] frame.00001000:0[-4,-4] oldframe.00001000:0[-8,-8] heap.00001005:0[0,0] oldheap.00001005:0[12,12]\n\
        ecx top\nedx top\nebx top\nesp top\nebp top\nesi top\nedi global:4[-8,16]\n\
        node 00001008 00001002,00001004 00001000\n\
        eax global:0[5,5] frame.00001000:0[-4,-4] oldframe.00001000:0[-8,-8] heap.00001005:0[0,0] oldheap.00001005:0[12,12]\n\
        ecx top\nedx top\nebx top\nesp top\nebp top\nesi top\nedi global:4[-8,16]\n\
        end 2 nodes 3 warnings\n"
            .as_slice()
    );
    assert!(rt; values_text(rt.alloc(), &round, 0x1001)?.is_none());
    Ok(())
}

#[test]
fn locations(rt: HostRuntime) -> Result<(), Fail> {
    let round = round(rt.alloc())?;
    let text = locations_text(rt.alloc(), &round)?;
    assert_eq!(rt;
        text.as_slice(),
        b"locations round 1 lane 2\n\
        global 00001000 00001004\nglobal 00001004 00001008\nglobal 00001008 00001010\n\
        frame 00001000 -1048576 0\nframe 00001000 0 4\nframe 00001000 4 65536\n\
        end 6 cells 3 warnings\n"
            .as_slice()
    );
    Ok(())
}

#[test]
fn warned(rt: HostRuntime) -> Result<(), Fail> {
    let text = warnings_text(rt.alloc(), &round(rt.alloc())?)?;
    assert_eq!(rt;
        text.as_slice(),
        b"warnings round 1 lane 2\n\
        warning NotClosed 00000000\nwarning UnknownWrite 00001002\nwarning ReturnSlot 00001002\n\
        end 3 warnings\n"
            .as_slice()
    );
    Ok(())
}

#[test]
fn json(rt: HostRuntime) -> Result<(), Fail> {
    let text = graph_json(rt.alloc(), &round(rt.alloc())?)?;
    assert_eq!(rt;
        text.as_slice(),
        b"{\"control\":[[0,1]],\"edges\":[[0,1]],\"lane\":2,\"nodes\":[{\"at\":4096,\"proc\":4096,\"sites\":[]},\
        {\"at\":4098,\"proc\":4096,\"sites\":[]},{\"at\":4096,\"proc\":4104,\"sites\":[4098,4100]}],\
        \"round\":1,\"sp\":[[0,2]]}\n"
            .as_slice()
    );
    Ok(())
}

#[test]
fn readings(rt: HostRuntime) -> Result<(), Fail> {
    let round = round(rt.alloc())?;
    for (request, lines) in [
        (Request::Values(0x1002), 11),
        (Request::Values(0x1004), 0),
        (Request::Warnings, 5),
        (Request::Locations, 8),
        (Request::Step, 0),
    ] {
        let text = reading(rt.alloc(), &round, &request)?.unwrap_or(Vec::new(rt.alloc()));
        assert_eq!(rt; text.iter().filter(|byte| **byte == b'\n').count(), lines);
    }
    Ok(())
}

#[test]
fn addresses(rt: HostRuntime) -> Result<(), Fail> {
    let mut text = Vec::new(rt.alloc());
    push_addresses(&mut text, &[0x0804_9000, 0xF000_0000])?;
    assert_eq!(rt; text.as_slice(), b"08049000\nf0000000\n".as_slice());
    Ok(())
}
