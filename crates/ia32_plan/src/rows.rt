//! The table of operations.

ghost use Rattle.std.specs.Prelude.{◌≡◌, option_map, IfSome, ℕ};
ghost use Rattle.ia32_semantics.specs.State.{AtByte};
ghost use Rattle.ia32_semantics.specs.Reading.{outcome, asks};
ghost use Rattle.ia32_semantics.specs.Rows.{row as row_spec};
ghost use Rattle.ia32_plan.specs.Plans.{outcome_of};
ghost use Rattle.ia32_plan.specs.Views.{state_of, words_left, read_count, has_read, Tells};

use crate::entries::{Effects, Entry, Plan};
use crate::state::Core;
use crate::words::Words;
use ia32_types::{Flag, Instr, Op};

impl Core {
    /// What each operation does.
    #[tactic(auto, using(crate::proofs::ToldLemmas::told_bind, crate::proofs::RowLemmas::told_movs, crate::proofs::RowLemmas::told_stos), unfolding(ia32_semantics::specs::Rows::row))]
    fn row(&self, op: &Op, i: &Instr, words: &mut Words) -> Option<Plan>
        requires { read_count words.old.reads ≡ 0 }
        ensures { Tells (row_spec op.now i.now) self.now words.old outcome_of result words.new }
    {
        match op {
            Op::Add | Op::Or | Op::Adc | Op::Sbb | Op::And | Op::Sub | Op::Xor => self.computed(
                op, i, words,
            ),
            Op::Cmp | Op::Test => self.compared(op, i, words),
            Op::Mov => self.copied_over(i, words),
            Op::Lea => self.addressed(i, words),
            Op::Push => self.pushed(i, words),
            Op::Pop => self.popped(i, words),
            Op::Xchg => self.exchanged(i, words),
            Op::Inc | Op::Dec | Op::Not | Op::Neg => self.altered(op, i, words),
            Op::Mul => self.multiplied(false, i, words),
            Op::Imul => self.imul(i, words),
            Op::Shl | Op::Shr | Op::Sar | Op::Rol | Op::Ror => self.shifted(op, i, words),
            Op::Movzx(from) => self.widened(false, *from, i, words),
            Op::Movsx(from) => self.widened(true, *from, i, words),
            Op::Cwde => self.sign_of_ax(i, words),
            Op::Cdq => self.sign_of_eax(i, words),
            Op::Leave => self.left(i, words),
            Op::Setcc(cond) => self.tested(*cond, i, words),
            Op::Call => self.called(i, words),
            Op::Ret => self.returned(i, words),
            Op::Jmp => self.jumped(i, words),
            Op::Jcc(cond) => self.branched(*cond, i, words),
            Op::Nop | Op::Endbr32 | Op::Hlt => Some(Plan::going_on(i, Effects::Nothing)),
            Op::Int3 | Op::Ud2 => None,
            Op::Cmov(cond) => self.chosen(*cond, i, words),
            Op::Div => self.divided(false, i, words),
            Op::Idiv => self.divided(true, i, words),
            Op::Movs { rep } => Some(Plan::going_on(i, self.moved_string(*rep, i.width))),
            Op::Stos { rep } => Some(Plan::going_on(i, self.stored_string(*rep, i.width))),
            Op::Cld => Some(Plan::turning(i, Flag::Df, false)),
            Op::Std => Some(Plan::turning(i, Flag::Df, true)),
        }
    }
}

/// What an instruction will do in this state with these words of choice. There is no plan exactly where it faults
/// before it changes anything: it is undefined, a byte that it reads isn't mapped, its division has no quotient, it
/// stores where nothing can be stored, or it takes more words than are left. Whether memory may be written where it
/// stores is left to see. `words` tells afterwards which words are left and which numbers were read.
pub fn plan(core: &Core, i: &Instr, words: &mut Words) -> Option<Plan>
    ensures outcome { outcome (row_spec i.now.op i.now) (state_of core.now) (words_left words.old) ≡ option_map (λ p. (outcome_of p, words_left words.new)) result }
    ensures reads { IfSome result (λ p. (a : ℕ) → has_read words.new.reads a ≡ asks (row_spec i.now.op i.now) (state_of core.now) (words_left words.old) (AtByte a)) }
{
    words.forget_reads();
    core.row(&i.op, i, words)
}
