//! Moves, extensions, and what goes by a condition.

ghost use Rattle.std.specs.Prelude.{◌≡◌};
ghost use Rattle.ia32_semantics.specs.Rows.{copied_over as copied_over_spec, addressed as addressed_spec, exchanged as exchanged_spec, widened as widened_spec, sign_of_ax as sign_of_ax_spec, sign_of_eax as sign_of_eax_spec, tested as tested_spec, chosen as chosen_spec};
ghost use Rattle.ia32_plan.specs.Plans.{outcome_of};
ghost use Rattle.ia32_plan.specs.Views.{read_count, Tells};

use crate::entries::{Effects, Entry, Plan};
use crate::state::Core;
use crate::widths::{extended, is_negative};
use crate::words::Words;
use ia32_types::{Cond, Instr, Reg, Width};

impl Core {
    pub(crate) fn copied_over(&self, i: &Instr, words: &mut Words) -> Option<Plan>
        requires { read_count words.old.reads ≡ 0 }
        ensures { Tells (copied_over_spec i.now) self.now words.old outcome_of result words.new }
    {
        let value = self.value_of(i.width, &i.src, words)?;
        let stored = self.store_to(i.width, &i.dst, value)?;
        Some(Plan::going_on(i, Effects::One(stored)))
    }

    /// An address, which is stored.
    pub(crate) fn addressed(&self, i: &Instr, words: &mut Words) -> Option<Plan>
        requires { read_count words.old.reads ≡ 0 }
        ensures { Tells (addressed_spec i.now) self.now words.old outcome_of result words.new }
    {
        let address = self.address_of(&i.src)?;
        let stored = self.store_to(i.width, &i.dst, address)?;
        Some(Plan::going_on(i, Effects::One(stored)))
    }

    pub(crate) fn exchanged(&self, i: &Instr, words: &mut Words) -> Option<Plan>
        requires { read_count words.old.reads ≡ 0 }
        ensures { Tells (exchanged_spec i.now) self.now words.old outcome_of result words.new }
    {
        let a = self.value_of(i.width, &i.dst, words)?;
        let b = self.value_of(i.width, &i.src, words)?;
        let first = self.store_to(i.width, &i.dst, b)?;
        let second = self.store_to(i.width, &i.src, a)?;
        Some(Plan::going_on(i, Effects::Two(first, second)))
    }

    /// A narrower source, extended with zeros or with its sign.
    pub(crate) fn widened(
        &self,
        signed: bool,
        from: Width,
        i: &Instr,
        words: &mut Words,
    ) -> Option<Plan>
        requires { read_count words.old.reads ≡ 0 }
        ensures { Tells (widened_spec signed from i.now) self.now words.old outcome_of result words.new }
    {
        let value = self.value_of(from, &i.src, words)?;
        let value = extended(signed, from, i.width, value);
        let stored = self.store_to(i.width, &i.dst, value)?;
        Some(Plan::going_on(i, Effects::One(stored)))
    }

    /// AX into EAX.
    pub(crate) fn sign_of_ax(&self, i: &Instr, words: &mut Words) -> Option<Plan>
        ensures { Tells (sign_of_ax_spec i.now) self.now words.old outcome_of result words.new }
    {
        let ax = self.register(Reg::Eax) % 0x1_0000;
        let value = extended(true, Width::W16, Width::D32, ax);
        let stored = Entry::Set(Width::D32, Reg::Eax, value);
        Some(Plan::going_on(i, Effects::One(stored)))
    }

    /// The sign of EAX into EDX.
    pub(crate) fn sign_of_eax(&self, i: &Instr, words: &mut Words) -> Option<Plan>
        ensures { Tells (sign_of_eax_spec i.now) self.now words.old outcome_of result words.new }
    {
        let negative = is_negative(Width::D32, self.register(Reg::Eax));
        let value = if negative { 0xFFFF_FFFF } else { 0 };
        let stored = Entry::Set(Width::D32, Reg::Edx, value);
        Some(Plan::going_on(i, Effects::One(stored)))
    }

    /// 1 where a condition holds, and 0 where it doesn't.
    pub(crate) fn tested(&self, cond: Cond, i: &Instr, words: &mut Words) -> Option<Plan>
        requires { read_count words.old.reads ≡ 0 }
        ensures { Tells (tested_spec cond i.now) self.now words.old outcome_of result words.new }
    {
        let value = if self.condition(cond) { 1 } else { 0 };
        let stored = self.store_to(i.width, &i.dst, value)?;
        Some(Plan::going_on(i, Effects::One(stored)))
    }

    /// The source where a condition holds, and else what the destination has.
    pub(crate) fn chosen(&self, cond: Cond, i: &Instr, words: &mut Words) -> Option<Plan>
        requires { read_count words.old.reads ≡ 0 }
        ensures { Tells (chosen_spec cond i.now) self.now words.old outcome_of result words.new }
    {
        let holds = self.condition(cond);
        let value = self.value_of(i.width, &i.src, words)?;
        let old = self.value_of(i.width, &i.dst, words)?;
        let stored = self.store_to(i.width, &i.dst, if holds { value } else { old })?;
        Some(Plan::going_on(i, Effects::One(stored)))
    }
}
