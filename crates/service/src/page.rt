//! Room for a reply.

ghost use Rattle.std.specs.Prelude.{◌≡◌, ℕ, ◌≤◌, ◌<◌, ◌^◌, List, [], length, IfOk, OnOk};
ghost use Rattle.dep_graph.specs.Edges.{HasEdges};
ghost use Rattle.access_facts.specs.Rows.{AreInside};
ghost use Rattle.service.specs.Replies.{IsSliceReply};
ghost use Rattle.service.specs.Requests.{IsReading, reading_text};
ghost use Rattle.service.specs.Shown.{shown_text, IsWithin};

use crate::short::{Line, absent};
use dep_graph::Edges;
use flow_graph::{FlowGraph, FlowNode};
use item_list::Items;
use requests::{Request, write_slice};
use round_texts::reading;
use rounds::Round;
use slicer::{Absent, RoundGraph, Scratch, backward};
use std::alloc::{AllocError, Global};
use std::marker::Model;

/// The most nodes that a round may have.
const MOST_NODES: usize = 4096;

/// How many bytes a reply to a slice may have.
const SLICE_BYTES: usize = 40960;

/// Where the text stands.
#[derive(Drop)]
pub(crate) enum Shown {
    /// It is a slice, in the first bytes.
    Slice(usize),
    Short(Line),
    Whole(Vec<u8>),
}

/// The text of the last reply, and room for the next one.
#[derive(Drop)]
pub struct Page {
    scratch: Scratch,
    bytes: Vec<u8>,
    shown: Shown,
}

impl Model for Page {
    ghost use Rattle.std.specs.Prelude.{◌≡◌, ℕ, List, length};
    ghost use Rattle.service.specs.Shown.{shown_text, IsWithin};

    ghost Value = { List ℕ };

    ghost view = { λ p. shown_text p.bytes.items p.shown };

    ghost invariant = { λ p. (p.scratch.size ≡ 4096) × (length p.bytes.items ≡ 40960) × IsWithin p.shown };
}

// A graph with as many nodes as a round may have, and no edges.
fn widest_graph(alloc: Global) -> Result<RoundGraph, AllocError>
    ensures { IfOk result (λ g. length g.flow.nodes ≡ 4096) }
{
    let mut nodes = Items::new(alloc);
    for _ in 0..MOST_NODES {
        nodes.push(FlowNode {
            at: 0,
            next: Items::new(alloc),
            may_use: Items::new(alloc),
            may_def: Items::new(alloc),
            must_def: Items::new(alloc),
            branch: false,
            end: false,
        })?;
    }
    Ok(RoundGraph {
        flow: FlowGraph { nodes },
        edges: Edges {
            ordinary: Items::new(alloc),
            sp: Items::new(alloc),
        },
    })
}

// Writes the reply to a slice of the round, and says where it stands.
fn write_reply(
    scratch: &mut Scratch,
    bytes: &mut [u8],
    round: &Round,
    at: u32,
    skip_sp: bool,
) -> Shown
    requires scratch { scratch.old.size ≡ 4096 }
    requires bytes { length bytes.old ≡ 40960 }
    requires edges { HasEdges round.now.graph.flow.nodes round.now.graph.edges.ordinary round.now.graph.edges.sp }
    requires nodes { length round.now.graph.flow.nodes ≤ 4096 }
    requires warnings { length round.now.warnings.items < 2 ^ 32 }
    ensures scratch { scratch.new.size ≡ 4096 }
    ensures within { IsWithin result }
    ensures reply { IsSliceReply round.now at skip_sp (shown_text bytes.new result) }
{
    match backward(&round.graph, at, skip_sp, scratch) {
        Ok(()) => {
            let warnings = round.warnings.len() as u32;
            let addresses = scratch.addresses();
            let len = write_slice(at, round.number, round.lane, addresses, warnings, bytes);
            Shown::Slice(len as usize)
        }
        Err(Absent) => Shown::Short(absent(at, round.number, round.lane)),
    }
}

// Tells what the round holds, or that the address is absent.
fn read(alloc: Global, round: &Round, request: &Request) -> Result<Shown, AllocError>
    requires reading { IsReading request.now }
    requires inside { AreInside round.now.cells.image }
    ensures text { IfOk result (λ shown. (bytes : List ℕ) → shown_text bytes shown ≡ reading_text round.now request.now) }
    ensures within { IfOk result IsWithin }
{
    match (reading(alloc, round, request)?, request) {
        (Some(text), _) => Ok(Shown::Whole(text)),
        (None, Request::Values(at)) => { Ok(Shown::Short(absent(*at, round.number, round.lane))) }
        _ => unreachable!(),
    }
}

impl Page {
    /// An empty text, and room for the slices of every round.
    ///
    /// # Errors
    /// Where memory is wanting.
    pub fn new(alloc: Global) -> Result<Page, AllocError>
        ensures { IfOk result (λ page. page ≡ []) }
    {
        let scratch = Scratch::new(alloc, &widest_graph(alloc)?)?;
        let bytes = vec![in alloc; 0; SLICE_BYTES]?;
        Ok(Page {
            scratch,
            bytes,
            shown: Shown::Slice(0),
        })
    }

    /// The text.
    pub fn text(&self) -> &[u8]
        ensures { result.now ≡ self.now }
    {
        match &self.shown {
            Shown::Slice(len) => &self.bytes[..*len],
            Shown::Short(line) => line.as_slice(),
            Shown::Whole(text) => text.as_slice(),
        }
    }

    /// Writes the reply to a slice of the round. It takes no memory.
    pub(crate) fn show_slice(&mut self, round: &Round, at: u32, skip_sp: bool)
        requires edges { HasEdges round.now.graph.flow.nodes round.now.graph.edges.ordinary round.now.graph.edges.sp }
        requires nodes { length round.now.graph.flow.nodes ≤ 4096 }
        requires warnings { length round.now.warnings.items < 2 ^ 32 }
        ensures { IsSliceReply round.now at skip_sp self.new }
    {
        self.shown = write_reply(&mut self.scratch, &mut self.bytes, round, at, skip_sp);
    }

    /// Writes the reply that tells what the round holds.
    ///
    /// # Errors
    /// Where memory is wanting.
    pub(crate) fn show_reading(
        &mut self,
        alloc: Global,
        round: &Round,
        request: &Request,
    ) -> Result<(), AllocError>
        requires reading { IsReading request.now }
        requires inside { AreInside round.now.cells.image }
        ensures { OnOk result (self.new ≡ reading_text round.now request.now) }
    {
        self.shown = read(alloc, round, request)?;
        Ok(())
    }

    /// Shows another text.
    pub(crate) fn show_line(&mut self, line: Line)
        ensures { self.new ≡ line.items }
    {
        self.shown = Shown::Short(line);
    }
}
