//! Questions about a round.
ghost use Rattle.std.specs.Prelude.{◌∷◌, []};
ghost use Rattle.round_answers.specs.Questions.{TellsAbsent, addresses_of};

use chops::is_present;
use flow_graph::FlowNode;

/// What is asked of a round. An address is a number of 32 bits. With `skip_sp` the edges by ESP are left out.
#[derive(Clone, Copy, Debug)]
pub enum Question {
    /// The backward slice of an address.
    Slice { at: u32, skip_sp: bool },
    /// What registers may hold at an address.
    Values { at: u32 },
    /// The cells of memory.
    Locations,
    /// The graph, as JSON.
    Graph,
    /// What an address may influence.
    Forward { at: u32, skip_sp: bool },
    /// What one address may influence and another may depend on.
    Chop { from: u32, at: u32, skip_sp: bool },
    /// The shortest path from one address to another.
    Why { from: u32, at: u32, skip_sp: bool },
    /// The backward slice of an address along calls that match their returns.
    Matched { at: u32, skip_sp: bool },
}

fn absent_one(nodes: &[FlowNode], at: u32) -> Option<u32>
    ensures { TellsAbsent nodes.now (at ∷ []) result }
{
    if is_present(nodes, at) {
        return None;
    }
    Some(at)
}

fn absent_two(nodes: &[FlowNode], from: u32, at: u32) -> Option<u32>
    ensures { TellsAbsent nodes.now (from ∷ at ∷ []) result }
{
    if is_present(nodes, from) {
        return absent_one(nodes, at);
    }
    Some(from)
}

/// The first address of a question at which no node stands.
pub(crate) fn first_absent(nodes: &[FlowNode], question: &Question) -> Option<u32>
    ensures { TellsAbsent nodes.now (addresses_of question.now) result }
{
    match *question {
        Question::Locations | Question::Graph => None,
        Question::Slice { at, .. }
        | Question::Values { at }
        | Question::Forward { at, .. }
        | Question::Matched { at, .. } => absent_one(nodes, at),
        Question::Chop { from, at, .. } | Question::Why { from, at, .. } => {
            absent_two(nodes, from, at)
        }
    }
}
