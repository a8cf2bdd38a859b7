//! Instructions that push and pop.

ghost use Rattle.std.specs.Prelude.{◌≡◌, OnOk};
ghost use Rattle.abs_steps.specs.Rows.{pushed as pushed_spec, popped as popped_spec, left as left_spec};
ghost use Rattle.abs_state.specs.Views.{seen};
ghost use Rattle.transfer.specs.Steps.{after, view_in};

use crate::stores::store_first;
use crate::view::{stored_at, value_of};
use abs_results::{pushed_at, risen};
use abs_state::{AbsState, Memory};
use ia32_types::{Instr, Reg, Width};
use std::alloc::{AllocError, Global};

pub(crate) fn pushed(
    alloc: Global,
    memory: &Memory<'_>,
    i: &Instr,
    a: &mut AbsState,
) -> Result<(), AllocError>
    ensures { OnOk result (seen a.new ≡ after memory.now (pushed_spec (view_in memory.now (seen a.old)) i.now) (seen a.old)) }
{
    let value = value_of(alloc, memory, a, i.width, &i.dst)?;
    let sp = pushed_at(alloc, a.register(Reg::Esp))?;
    a.put_register(Reg::Esp, sp.clone()?);
    a.write(alloc, memory, &sp, 4, &value)
}

/// ESP rises before the address of the operand is made.
pub(crate) fn popped(
    alloc: Global,
    memory: &Memory<'_>,
    i: &Instr,
    a: &mut AbsState,
) -> Result<(), AllocError>
    ensures { OnOk result (seen a.new ≡ after memory.now (popped_spec (view_in memory.now (seen a.old)) i.now) (seen a.old)) }
{
    let value = stored_at(alloc, memory, a, Width::D32, a.register(Reg::Esp))?;
    let sp = risen(alloc, a.register(Reg::Esp))?;
    a.put_register(Reg::Esp, sp);
    store_first(alloc, memory, i, value, a)
}

/// ESP goes back to behind the word at EBP, which goes into EBP.
pub(crate) fn left(alloc: Global, memory: &Memory<'_>, a: &mut AbsState) -> Result<(), AllocError>
    ensures { OnOk result (seen a.new ≡ after memory.now (left_spec (view_in memory.now (seen a.old))) (seen a.old)) }
{
    let value = stored_at(alloc, memory, a, Width::D32, a.register(Reg::Ebp))?;
    let sp = risen(alloc, a.register(Reg::Ebp))?;
    a.put_register(Reg::Esp, sp);
    a.put_register(Reg::Ebp, value);
    Ok(())
}
