// The nodes that a search has met.
ghost use Rattle.std.specs.Prelude.{◌≡◌, ◌↔◌, ℕ, ◌<◌, ◌≤◌, [], Contains, length, IsTrue, IfOk};
ghost use Rattle.slicer.specs.Search.{Adds};

use flow_graph::is_on;
use std::alloc::{AllocError, Global};
use std::marker::Model;

/// The nodes that a search has met, in order, each once.
#[derive(Debug, Drop)]
pub struct Queue {
    marks: Vec<bool>,
    list: Vec<u32>,
    count: usize,
}

impl Model for Queue {
    ghost use Rattle.std.specs.Prelude.{length, take};
    ghost use Rattle.slicer.specs.Search.{Met, IsQueue};

    ghost Value = { Met };

    ghost view = { λ q. record { size = length q.marks.items; nodes = take q.count q.list.items } };

    ghost invariant = { λ q. IsQueue q.marks.items q.list.items q.count };
}

impl Queue {
    /// No node, with room for so many.
    pub fn new(alloc: Global, size: usize) -> Result<Queue, AllocError>
        ensures size { IfOk result (λ q. q.size ≡ size) }
        ensures nodes { IfOk result (λ q. q.nodes ≡ []) }
    {
        let marks = vec![in alloc; false; size]?;
        let list = vec![in alloc; 0; size]?;
        Ok(Queue {
            marks,
            list,
            count: 0,
        })
    }

    /// Forgets all nodes.
    pub fn clear(&mut self)
        ensures size { self.new.size ≡ self.old.size }
        ensures nodes { self.new.nodes ≡ [] }
    {
        self.marks.fill(false);
        self.count = 0;
    }

    /// How many nodes there are.
    pub fn len(&self) -> usize
        ensures nodes { result ≡ length self.now.nodes }
        ensures within { result ≤ self.now.size }
    {
        self.count
    }

    /// The nodes.
    pub fn nodes(&self) -> &[u32]
        ensures nodes { result.now ≡ self.now.nodes }
        ensures within { length self.now.nodes ≤ self.now.size }
    {
        &self.list[..self.count]
    }

    /// Whether a node is among them.
    pub fn has(&self, node: u32) -> bool
        ensures { IsTrue result ↔ Contains self.now.nodes node }
    {
        is_on(&self.marks, node as usize)
    }

    /// Puts a node at the end where it is wished, unless it is among them already or there is no room for its number.
    pub fn mark_if(&mut self, node: u32, is_wished: bool)
        ensures size { self.new.size ≡ self.old.size }
        ensures adds { Adds (λ n. IsTrue is_wished × (n ≡ node) × (n < self.old.size)) self.old.nodes self.new.nodes }
    {
        let place = node as usize;
        if !is_wished {
            return;
        }
        if place >= self.marks.len() {
            return;
        }
        if self.marks[place] {
            return;
        }
        self.marks[place] = true;
        self.list[self.count] = node;
        self.count += 1;
    }
}
