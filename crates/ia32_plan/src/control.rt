//! Calls, returns and jumps.

ghost use Rattle.std.specs.Prelude.{◌≡◌};
ghost use Rattle.ia32_semantics.specs.Rows.{called as called_spec, immediate as immediate_spec, extra_bytes as extra_bytes_spec, returned as returned_spec, jumped as jumped_spec, branched as branched_spec};
ghost use Rattle.ia32_plan.specs.Plans.{outcome_of};
ghost use Rattle.ia32_plan.specs.Told.{given_by_registers};
ghost use Rattle.ia32_plan.specs.Views.{state_of, read_count, Tells};

use crate::entries::{Calls, Effects, Entry, Plan, next_place};
use crate::stack::{push_effects, pushed_at, risen};
use crate::state::Core;
use crate::words::Words;
use ia32_types::{Cond, Instr, Operand, Reg, Width};
use image_map::Activation;

impl Core {
    /// The number of an operand that is one.
    #[tactic(auto, unfolding(ia32_semantics::specs::Rows::immediate))]
    fn immediate(&self, operand: &Option<Operand>) -> Option<u32>
        ensures { given_by_registers (immediate_spec operand.now) (state_of self.now) ≡ result }
    {
        match operand {
            Some(Operand::Imm(number)) => Some(*number),
            _ => None,
        }
    }

    /// How many bytes a ret takes beside the return word.
    #[tactic(auto, unfolding(ia32_semantics::specs::Rows::extra_bytes))]
    fn extra_bytes(&self, operand: &Option<Operand>) -> Option<u32>
        ensures { given_by_registers (extra_bytes_spec operand.now) (state_of self.now) ≡ result }
    {
        match operand {
            None => Some(0),
            Some(_) => self.immediate(operand),
        }
    }

    pub(crate) fn called(&self, i: &Instr, words: &mut Words) -> Option<Plan>
        requires { read_count words.old.reads ≡ 0 }
        ensures { Tells (called_spec i.now) self.now words.old outcome_of result words.new }
    {
        let target = self.value_of(i.width, &i.dst, words)?;
        let sp = self.register(Reg::Esp);
        let base = pushed_at(sp);
        let activation = Activation {
            site: i.at,
            callee: target,
            base,
        };
        Some(Plan {
            effects: push_effects(sp, next_place(i)),
            place: target,
            calls: Calls::Entered(activation),
            forgets: Some(base),
        })
    }

    pub(crate) fn returned(&self, i: &Instr, words: &mut Words) -> Option<Plan>
        requires { read_count words.old.reads ≡ 0 }
        ensures { Tells (returned_spec i.now) self.now words.old outcome_of result words.new }
    {
        let sp = self.register(Reg::Esp);
        let place = self.stored_number(Width::D32, sp, words)?;
        let extra = self.extra_bytes(&i.dst)?;
        let sp = risen(sp, 4 + u64::from(extra));
        Some(Plan {
            effects: Effects::One(Entry::Set(Width::D32, Reg::Esp, sp)),
            place,
            calls: Calls::Left,
            forgets: Some(sp),
        })
    }

    pub(crate) fn jumped(&self, i: &Instr, words: &mut Words) -> Option<Plan>
        requires { read_count words.old.reads ≡ 0 }
        ensures { Tells (jumped_spec i.now) self.now words.old outcome_of result words.new }
    {
        let target = self.value_of(i.width, &i.dst, words)?;
        Some(Plan::going(Effects::Nothing, target))
    }

    pub(crate) fn branched(&self, cond: Cond, i: &Instr, words: &mut Words) -> Option<Plan>
        requires { read_count words.old.reads ≡ 0 }
        ensures { Tells (branched_spec cond i.now) self.now words.old outcome_of result words.new }
    {
        let holds = self.condition(cond);
        let target = self.immediate(&i.dst)?;
        let place = if holds { target } else { next_place(i) };
        Some(Plan::going(Effects::Nothing, place))
    }
}
