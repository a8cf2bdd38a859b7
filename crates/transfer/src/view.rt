//! An abstract state where it stands.

ghost use Rattle.std.specs.Prelude.{◌≡◌, IfOk};
ghost use Rattle.abs_state.specs.Views.{seen};
ghost use Rattle.transfer.specs.Steps.{view_in};
ghost use Rattle.transfer.specs.Views.{view_by};
ghost use Rattle.abs_steps.specs.Views.{value_of as value_of_spec, stored_at as stored_at_spec, address_of as address_of_spec};

use abs_state::{AbsState, Memory, read_as};
use alocs::Cells;
use ia32_types::{Operand, Width};
use std::alloc::{AllocError, Global};
use vset::ValueSet;

/// An abstract state at a node of a procedure, where memory is divided into cells.
#[derive(Clone, Copy)]
pub struct View<'a> {
    pub state: &'a AbsState,
    pub cells: &'a Cells,
    /// The address of the procedure's first instruction.
    pub procedure: u32,
}

/// A state as memory is seen.
pub(crate) fn view_of<'a>(memory: &Memory<'a>, state: &'a AbsState) -> View<'a>
    ensures { view_by result ≡ view_in memory.now (seen state.now) }
{
    View {
        state,
        cells: memory.cells,
        procedure: memory.procedure,
    }
}

/// The value of an operand.
pub(crate) fn value_of(
    alloc: Global,
    memory: &Memory<'_>,
    a: &AbsState,
    width: Width,
    operand: &Option<Operand>,
) -> Result<ValueSet, AllocError>
    ensures { IfOk result (λ v. v ≡ value_of_spec (view_in memory.now (seen a.now)) width operand.now) }
{
    view_of(memory, a).value_of(alloc, width, operand)
}

/// The address of an operand in memory.
pub(crate) fn address_of(
    alloc: Global,
    memory: &Memory<'_>,
    a: &AbsState,
    operand: &Option<Operand>,
) -> Result<ValueSet, AllocError>
    ensures { IfOk result (λ v. v ≡ address_of_spec (view_in memory.now (seen a.now)) operand.now) }
{
    view_of(memory, a).address_of(alloc, operand)
}

/// What so many bytes at an address hold.
pub(crate) fn stored_at(
    alloc: Global,
    memory: &Memory<'_>,
    a: &AbsState,
    width: Width,
    at: &ValueSet,
) -> Result<ValueSet, AllocError>
    ensures { IfOk result (λ v. v ≡ stored_at_spec (view_in memory.now (seen a.now)) width at.now) }
{
    view_of(memory, a).stored_at(alloc, width, at)
}

impl<'a> View<'a> {
    /// The value of an operand.
    #[tactic(auto, unfolding(abs_steps::specs::Views::value_of))]
    pub fn value_of(
        &self,
        alloc: Global,
        width: Width,
        operand: &Option<Operand>,
    ) -> Result<ValueSet, AllocError>
        ensures { IfOk result (λ v. v ≡ value_of_spec (view_by self.now) width operand.now) }
    {
        match operand {
            None => Ok(ValueSet::top()),
            Some(o) => self
                .state
                .operand(alloc, self.cells, self.procedure, width, o),
        }
    }

    /// The address of an operand in memory.
    #[tactic(auto, unfolding(abs_steps::specs::Views::address_of))]
    pub(crate) fn address_of(
        &self,
        alloc: Global,
        operand: &Option<Operand>,
    ) -> Result<ValueSet, AllocError>
        ensures { IfOk result (λ v. v ≡ address_of_spec (view_by self.now) operand.now) }
    {
        match operand {
            Some(Operand::Mem(m)) => self.state.address(alloc, m),
            _ => Ok(ValueSet::top()),
        }
    }

    /// What so many bytes at an address hold.
    pub(crate) fn stored_at(
        &self,
        alloc: Global,
        width: Width,
        at: &ValueSet,
    ) -> Result<ValueSet, AllocError>
        ensures { IfOk result (λ v. v ≡ stored_at_spec (view_by self.now) width at.now) }
    {
        let len = width.bytes();
        let value = self.state.read(alloc, self.cells, self.procedure, at, len)?;
        Ok(read_as(width, value))
    }
}
