//! Lists of addresses.
ghost use Rattle.std.specs.Prelude.{◌≡◌, ◌≤◌, ◌<◌, All, Contains, length, IfOk};
ghost use Rattle.chops.specs.Chops.{AreAddresses};

use flow_graph::FlowNode;
use slicer::list_slice;
use std::alloc::{AllocError, Global};
use std::marker::Model;

/// Addresses, in room for as many as there are nodes.
#[derive(Debug, Drop)]
pub struct Listing {
    found: Vec<u32>,
    list: Vec<u32>,
    listed: usize,
}

impl Model for Listing {
    ghost use Rattle.std.specs.Prelude.{◌≡◌, ◌≤◌, length, take};
    ghost use Rattle.slicer.specs.Search.{Listed};

    ghost Value = { Listed };

    ghost view = { λ l. record { size = length l.list.items; addresses = take l.listed l.list.items } };

    ghost invariant = { λ l. (length l.found.items ≡ length l.list.items) × (l.listed ≤ length l.list.items) };
}

impl Listing {
    /// No address, with room for so many.
    pub fn new(alloc: Global, size: usize) -> Result<Listing, AllocError>
        ensures { IfOk result (λ l. l.size ≡ size) }
    {
        let found = vec![in alloc; 0; size]?;
        let list = vec![in alloc; 0; size]?;
        Ok(Listing {
            found,
            list,
            listed: 0,
        })
    }

    /// Lists the addresses of these nodes.
    pub fn list(&mut self, nodes: &[FlowNode], met: &[u32])
        requires inside { All (λ n. n < length nodes.now) met.now }
        requires room { length met.now ≤ self.old.size }
        ensures listed { AreAddresses nodes.now (Contains met.now) self.new.addresses }
        ensures size { self.new.size ≡ self.old.size }
    {
        self.listed = list_slice(nodes, met, &mut self.found, &mut self.list);
    }

    /// The addresses last listed.
    pub fn addresses(&self) -> &[u32]
        ensures { result.now ≡ self.now.addresses }
    {
        &self.list[..self.listed]
    }
}
