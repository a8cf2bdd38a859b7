//! The state after an instruction.

ghost use Rattle.std.specs.Prelude.{◌≡◌, IfOk, OnOk};
ghost use Rattle.abs_steps.specs.Rows.{row as row_spec, post as post_spec};
ghost use Rattle.abs_state.specs.Views.{seen};
ghost use Rattle.transfer.specs.Steps.{after, view_in};

use crate::arithmetic::{altered, compared, computed, shifted};
use crate::moves::{
    Extension, addressed, chosen, copied_over, exchanged, extended, sign_of_ax, sign_of_eax, tested,
};
use crate::products::{divided, imul, multiplied};
use crate::stack::{left, popped, pushed};
use crate::strings::{moved, stored};
use abs_state::{AbsState, Memory};
use ia32_types::{Instr, Op};
use std::alloc::{AllocError, Global};

/// What an instruction does to a state.
#[tactic(auto, unfolding(abs_steps::specs::Rows::row))]
fn row(alloc: Global, memory: &Memory<'_>, i: &Instr, a: &mut AbsState) -> Result<(), AllocError>
    ensures { OnOk result (seen a.new ≡ after memory.now (row_spec i.now.op (view_in memory.now (seen a.old)) i.now) (seen a.old)) }
{
    match i.op {
        Op::Add | Op::Or | Op::Adc | Op::Sbb | Op::And | Op::Sub | Op::Xor => {
            computed(alloc, memory, i, a)
        }
        Op::Shl | Op::Shr | Op::Sar | Op::Rol | Op::Ror => shifted(alloc, memory, i, a),
        Op::Cmp | Op::Test => compared(alloc, memory, i, a),
        Op::Inc | Op::Dec | Op::Not | Op::Neg => altered(alloc, memory, i, a),
        Op::Mul => multiplied(alloc, memory, i, a),
        Op::Imul => imul(alloc, memory, i, a),
        Op::Div => divided(alloc, memory, false, i, a),
        Op::Idiv => divided(alloc, memory, true, i, a),
        Op::Mov => copied_over(alloc, memory, i, a),
        Op::Lea => addressed(alloc, memory, i, a),
        Op::Xchg => exchanged(alloc, memory, i, a),
        Op::Movzx(from) => {
            let extension = Extension {
                signed: false,
                from,
            };
            extended(alloc, memory, extension, i, a)
        }
        Op::Movsx(from) => {
            let extension = Extension { signed: true, from };
            extended(alloc, memory, extension, i, a)
        }
        Op::Cwde => sign_of_ax(alloc, memory, a),
        Op::Cdq => {
            sign_of_eax(a);
            Ok(())
        }
        Op::Setcc(cond) => tested(alloc, memory, cond, i, a),
        Op::Cmov(cond) => chosen(alloc, memory, cond, i, a),
        Op::Push => pushed(alloc, memory, i, a),
        Op::Pop => popped(alloc, memory, i, a),
        Op::Leave => left(alloc, memory, a),
        Op::Movs { rep } => moved(alloc, memory, rep, i.width, a),
        Op::Stos { rep } => stored(alloc, memory, rep, i.width, a),
        Op::Cld => {
            a.set_direction(false);
            Ok(())
        }
        Op::Std => {
            a.set_direction(true);
            Ok(())
        }
        _ => Ok(()),
    }
}

/// The state after an instruction at a node of a procedure. Jumps, calls, returns and what ends a run leave the state here.
#[tactic(auto, unfolding(abs_steps::specs::Rows::post))]
pub fn post(
    alloc: Global,
    a: &AbsState,
    i: &Instr,
    memory: &Memory<'_>,
) -> Result<AbsState, AllocError>
    ensures { IfOk result (λ s. seen s ≡ post_spec (seen a.now) i.now memory.now.cells.now memory.now.image.now memory.now.procedure) }
{
    let mut after = a.clone()?;
    row(alloc, memory, i, &mut after)?;
    Ok(after)
}
