//! Arithmetic, logic, shifts and rotates.

ghost use Rattle.std.specs.Prelude.{◌≡◌, Some};
ghost use Rattle.ia32_semantics.specs.Rows.{carry_in as carry_in_spec, computed as computed_spec, compared as compared_spec, altered as altered_spec, shifted as shifted_spec};
ghost use Rattle.ia32_plan.specs.Plans.{outcome_of};
ghost use Rattle.ia32_plan.specs.Told.{given_by_registers};
ghost use Rattle.ia32_plan.specs.Views.{state_of, read_count, Tells};

use crate::entries::{Effects, Entry, Plan};
use crate::state::Core;
use crate::widths::{computed, shifted};
use crate::words::Words;
use ia32_types::{Instr, Op, Width};

impl Core {
    /// The carry that an operation takes.
    #[tactic(auto, unfolding(ia32_semantics::specs::Rows::carry_in, ia32_semantics::specs::Operands::flag_value))]
    fn carry_in(&self, op: &Op) -> bool
        ensures { given_by_registers (carry_in_spec op.now) (state_of self.now) ≡ Some result }
    {
        match op {
            Op::Adc | Op::Sbb => self.flags.cf,
            _ => false,
        }
    }

    /// Two operands, of which the first takes the result.
    pub(crate) fn computed(&self, op: &Op, i: &Instr, words: &mut Words) -> Option<Plan>
        requires { read_count words.old.reads ≡ 0 }
        ensures { Tells (computed_spec op.now i.now) self.now words.old outcome_of result words.new }
    {
        let a = self.value_of(i.width, &i.dst, words)?;
        let b = self.value_of(i.width, &i.src, words)?;
        let (value, flags) = computed(i.width, op, a, b, self.carry_in(op));
        let stored = self.store_to(i.width, &i.dst, value)?;
        Some(Plan::going_on(i, Effects::Two(stored, Entry::Flags(flags))))
    }

    /// Two operands, of which only flags are made.
    pub(crate) fn compared(&self, op: &Op, i: &Instr, words: &mut Words) -> Option<Plan>
        requires { read_count words.old.reads ≡ 0 }
        ensures { Tells (compared_spec op.now i.now) self.now words.old outcome_of result words.new }
    {
        let a = self.value_of(i.width, &i.dst, words)?;
        let b = self.value_of(i.width, &i.src, words)?;
        let (_, flags) = computed(i.width, op, a, b, false);
        Some(Plan::going_on(i, Effects::One(Entry::Flags(flags))))
    }

    /// One operand, which takes the result.
    pub(crate) fn altered(&self, op: &Op, i: &Instr, words: &mut Words) -> Option<Plan>
        requires { read_count words.old.reads ≡ 0 }
        ensures { Tells (altered_spec op.now i.now) self.now words.old outcome_of result words.new }
    {
        let a = self.value_of(i.width, &i.dst, words)?;
        let (value, flags) = computed(i.width, op, a, 0, false);
        let stored = self.store_to(i.width, &i.dst, value)?;
        Some(Plan::going_on(i, Effects::Two(stored, Entry::Flags(flags))))
    }

    /// A shift or a rotate, by a byte or by CL.
    pub(crate) fn shifted(&self, op: &Op, i: &Instr, words: &mut Words) -> Option<Plan>
        requires { read_count words.old.reads ≡ 0 }
        ensures { Tells (shifted_spec op.now i.now) self.now words.old outcome_of result words.new }
    {
        let count = self.value_of(Width::B8, &i.src, words)?;
        let a = self.value_of(i.width, &i.dst, words)?;
        let (value, flags) = shifted(i.width, op, a, count);
        let flags = self.any_flags(&flags, words)?;
        let stored = self.store_to(i.width, &i.dst, value)?;
        Some(Plan::going_on(i, Effects::Two(stored, Entry::Flags(flags))))
    }
}
