//! Numbers of nodes.
ghost use Rattle.std.specs.Prelude.{◌≡◌, ◌≢◌, ◌↔◌, ◌<◌, ◌≤◌, [], ◌∷◌, ◌++◌, length, slice_get, Some, Err, IfOk, OnOk, OnErr};
ghost use Rattle.std.specs.Option.{option_copied};
ghost use Rattle.std.specs.List.{AllPairs, Contains};
ghost use Rattle.call_strings.specs.Nodes.{with_node};

use crate::context::Node;
use indexmap::IndexSet;
use std::alloc::{AllocError, Global};
use std::marker::Model;

/// As many nodes as a table keeps.
pub const MAX_NODES: usize = 4096;

/// Why a node got no number.
#[derive(Clone, Copy, Debug, PartialEq, Eq)]
pub enum NumberError {
    /// The table keeps as many other nodes as it may.
    Full,
    /// There was no memory for it.
    Memory,
}

/// Different nodes in the order in which they came; a node's number is its place, from 0.
#[derive(Drop)]
pub struct NodeTable {
    nodes: IndexSet<Node>,
}

impl Model for NodeTable {
    ghost use Rattle.std.specs.Prelude.{List, length, ◌≤◌};
    ghost use Rattle.call_strings.specs.declared.context.Node.{Node};

    ghost Value = { List Node };

    ghost view = { λ table. table.nodes.keys };

    ghost invariant = { λ table. length table.nodes.keys ≤ 4096 };
}

impl NodeTable {
    /// The table with no node.
    pub fn new(alloc: Global) -> NodeTable
        ensures empty { result ≡ [] }
    {
        NodeTable {
            nodes: IndexSet::new(alloc),
        }
    }

    /// How many nodes the table keeps.
    pub fn len(&self) -> usize
        ensures count { result ≡ length self.now }
        ensures few { result ≤ 4096 }
    {
        self.nodes.len()
    }

    /// The nodes by their numbers.
    pub fn nodes(&self) -> &[Node]
        ensures nodes { result.now ≡ self.now }
        ensures different { AllPairs (λ x y. x ≢ y) self.now }
    {
        self.nodes.as_slice()
    }

    /// The number of a node: its own if the table keeps it, else the next one, which it has from now on.
    ///
    /// # Errors
    ///
    /// `Full` exactly where the table keeps 4,096 nodes, all of them others; `Memory` where there is none for the node. The
    /// table stays as it was.
    pub fn number(&mut self, node: &Node) -> Result<u32, NumberError>
        ensures number { IfOk result (λ n. slice_get self.new n ≡ Some node.now) }
        ensures kept { OnOk result (self.new ≡ with_node self.old node.now) }
        ensures full { (result ≡ Err NumberError.Full) ↔ ((4096 ≤ length self.old) × (Contains self.old node.now → ⊥)) }
        ensures unchanged { OnErr result (self.new ≡ self.old) }
    {
        if let Some(number) = self.nodes.get_index_of(node) {
            return Ok(number as u32);
        }
        if self.nodes.len() >= MAX_NODES {
            return Err(NumberError::Full);
        }
        let Ok(node) = node.copied() else {
            return Err(NumberError::Memory);
        };
        match self.nodes.insert_full(node) {
            Ok((number, _)) => Ok(number as u32),
            Err(_) => Err(NumberError::Memory),
        }
    }
}
