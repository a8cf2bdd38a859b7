//! A node with its abstract state.

ghost use Rattle.std.specs.Prelude.{◌≡◌, IfOk};
ghost use Rattle.ia32_semantics.specs.Rows.{next_place as next_place_spec};
ghost use Rattle.abs_steps.specs.Successors.{moved_to as moved_to_spec};
ghost use Rattle.transfer_flow.specs.Successors.{view_at};
ghost use Rattle.transfer.specs.Views.{view_by};

use abs_state::{AbsState, Memory};
use alocs::Cells;
use call_strings::Node;
use ia32_types::Instr;
use image_map::{Image, Settings};
use std::alloc::AllocError;
use transfer::View;

/// A program as an analysis divides it: nodes keep the sites of the newest `lane` calls.
#[derive(Drop)]
pub struct Program<'a> {
    pub image: &'a Image,
    pub settings: &'a Settings,
    pub cells: &'a Cells,
    pub lane: u32,
}

/// A node of a program with its abstract state.
#[derive(Drop)]
pub struct Site<'a> {
    pub program: &'a Program<'a>,
    pub node: &'a Node,
    pub state: &'a AbsState,
}

/// Nodes with their abstract states.
pub type Placed = Vec<(Node, AbsState)>;

impl<'a> Site<'a> {
    /// The state at its procedure.
    pub(crate) fn view(&self) -> View<'a>
        ensures { view_by result ≡ view_at self.now }
    {
        View {
            state: self.state,
            cells: self.program.cells,
            procedure: self.node.context.proc,
        }
    }

    /// How memory is seen there.
    pub(crate) fn memory(&self) -> Memory<'a>
        ensures cells { result.cells.now ≡ self.now.program.now.cells.now }
        ensures image { result.image.now ≡ self.now.program.now.image.now }
        ensures procedure { result.procedure ≡ self.now.node.now.context.proc }
    {
        Memory {
            cells: self.program.cells,
            image: self.program.image,
            procedure: self.node.context.proc,
        }
    }
}

/// Another address in the same context.
pub(crate) fn moved_to(at: u32, node: &Node) -> Result<Node, AllocError>
    ensures { IfOk result (λ n. n ≡ moved_to_spec at node.now) }
{
    Ok(Node {
        context: node.context.copied()?,
        at,
    })
}

/// The address behind an instruction.
pub(crate) fn next_place(i: &Instr) -> u32
    ensures { result ≡ next_place_spec i.now }
{
    i.at.wrapping_add(u32::from(i.len))
}
