//! The calls that led to a place.
ghost use Rattle.std.specs.Prelude.{◌≡◌, ◌∷◌, ◌++◌, take, reverse, IfOk};
ghost use Rattle.std.specs.Cmp.{on_equiv, partial_equiv_from_equiv};
ghost use Rattle.std.specs.Cmp.Lexicographic.{nat_list_eq_equiv, slice_cmp};
ghost use Rattle.std.specs.Hash as fed;
ghost use Rattle.std.specs.Ordering.{is_lt, nat_cmp};
ghost use Rattle.call_strings.specs.Nodes.{pushed, same_node, numbers_of, place_cmp, node_before};
ghost use Rattle.call_strings.specs.NodeKeys.{same_hash};

use item_list::Items;
use std::alloc::AllocError;
use std::cmp::Ordering;
use std::hash::{Hash, Hasher};

/// The procedure that runs, by its address, and the newest sites of the calls that led to it, the newest first.
#[derive(Debug, Drop)]
pub struct Context {
    /// The address of the procedure's first instruction.
    pub proc: u32,
    /// The addresses of the call instructions, the newest call first.
    pub sites: Items<u32>,
}

impl Context {
    /// The context of a procedure that a call at `site` enters from here: it keeps the newest `k` sites.
    pub fn push(&self, k: u32, site: u32, callee: u32) -> Result<Context, AllocError>
        ensures pushed { IfOk result (λ c. c ≡ pushed k site callee self.now) }
    {
        let mut sites = self.sites.clone()?.into_vec();
        sites.insert(0, site)?;
        sites.truncate(k as usize);
        Ok(Context {
            proc: callee,
            sites: Items::from_vec(sites),
        })
    }

    /// An equal context.
    pub fn copied(&self) -> Result<Context, AllocError>
        ensures equal { IfOk result (λ c. c ≡ self.now) }
    {
        Ok(Context {
            proc: self.proc,
            sites: self.sites.clone()?,
        })
    }
}

// Which of two lists of sites, the newest first, stands before the other, read from the oldest on.
fn compared_from_oldest(one: &[u32], other: &[u32]) -> Ordering
    ensures { result ≡ slice_cmp nat_cmp (reverse one.now) (reverse other.now) }
{
    one.iter().rev().cmp(other.iter().rev())
}

/// A place of a program: a context and the address of an instruction.
#[derive(Debug, Drop)]
pub struct Node {
    /// The calls that led here.
    pub context: Context,
    /// The instruction's address.
    pub at: u32,
}

impl Node {
    /// An equal node.
    pub fn copied(&self) -> Result<Node, AllocError>
        ensures equal { IfOk result (λ n. n ≡ self.now) }
    {
        Ok(Node {
            context: self.context.copied()?,
            at: self.at,
        })
    }

    // The order of two nodes of one procedure.
    fn is_place_before(&self, other: &Node) -> bool
        ensures { result ≡ is_lt (place_cmp self.now other.now) }
    {
        match compared_from_oldest(
            self.context.sites.as_slice(),
            other.context.sites.as_slice(),
        ) {
            Ordering::Less => true,
            Ordering::Equal => self.at < other.at,
            Ordering::Greater => false,
        }
    }

    /// Whether this node stands before another: by procedure, then by sites from the oldest on, then by address.
    pub fn is_before(&self, other: &Node) -> bool
        ensures { result ≡ node_before self.now other.now }
    {
        if self.context.proc == other.context.proc {
            self.is_place_before(other)
        } else {
            self.context.proc < other.context.proc
        }
    }
}

impl PartialEq for Node {
    ghost eq = { same_node };

    ghost laws = { partial_equiv_from_equiv (on_equiv numbers_of nat_list_eq_equiv) };

    fn eq(&self, other: &Self) -> bool {
        self.at == other.at
            && self.context.proc == other.context.proc
            && self.context.sites.as_slice() == other.context.sites.as_slice()
    }
}

impl Eq for Node {
    ghost laws = { on_equiv numbers_of nat_list_eq_equiv };
}

impl Hash for Node {
    ghost hash_input = { λ n. fed.u32 n.at ++ fed.u32 n.context.proc ++ fed.slice fed.u32 n.context.sites };

    ghost respects_eq = { same_hash };

    fn hash<H: Hasher>(&self, state: &mut H) {
        self.at.hash(state);
        self.context.proc.hash(state);
        self.context.sites.as_slice().hash(state);
    }
}
