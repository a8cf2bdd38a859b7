//! The stack: push, pop and leave.

ghost use Rattle.std.specs.Prelude.{◌≡◌, ◌≤◌, ◌^◌};
ghost use Rattle.ia32_semantics.specs.Rows.{pushed_at as pushed_at_spec, risen as risen_spec, push_effects as push_effects_spec, pushed as pushed_spec, popped as popped_spec, left as left_spec};
ghost use Rattle.ia32_plan.specs.Plans.{all_effects, outcome_of};
ghost use Rattle.ia32_plan.specs.Views.{read_count, Tells};

use crate::entries::{Effects, Entry, Plan};
use crate::operands::raised;
use crate::state::Core;
use crate::words::Words;
use ia32_types::{Instr, Reg, Width};

/// Four bytes lower, as an address.
pub(crate) fn pushed_at(sp: u32) -> u32
    ensures { result ≡ pushed_at_spec sp }
{
    ((u64::from(sp) + 0x1_0000_0000 - 4) % 0x1_0000_0000) as u32
}

/// Some bytes higher, as an address.
pub(crate) fn risen(sp: u32, by: u64) -> u32
    requires { by ≤ 2 ^ 33 }
    ensures { result ≡ risen_spec sp by }
{
    ((u64::from(sp) + by) % 0x1_0000_0000) as u32
}

/// A word put on the stack.
pub(crate) fn push_effects(sp: u32, value: u32) -> Effects
    ensures { all_effects result ≡ push_effects_spec sp value }
{
    let at = pushed_at(sp);
    let stored = Entry::Store {
        at,
        width: Width::D32,
        value,
    };
    Effects::Two(Entry::Set(Width::D32, Reg::Esp, at), stored)
}

impl Core {
    pub(crate) fn pushed(&self, i: &Instr, words: &mut Words) -> Option<Plan>
        requires { read_count words.old.reads ≡ 0 }
        ensures { Tells (pushed_spec i.now) self.now words.old outcome_of result words.new }
    {
        let value = self.value_of(i.width, &i.dst, words)?;
        let sp = self.register(Reg::Esp);
        Some(Plan::going_on(i, push_effects(sp, value)))
    }

    /// ESP rises first, so that an address that ESP is a part of is made with the new one, and `pop esp` keeps the
    /// word.
    pub(crate) fn popped(&self, i: &Instr, words: &mut Words) -> Option<Plan>
        requires { read_count words.old.reads ≡ 0 }
        ensures { Tells (popped_spec i.now) self.now words.old outcome_of result words.new }
    {
        let sp = self.register(Reg::Esp);
        let value = self.stored_number(Width::D32, sp, words)?;
        let stored = self.store_to(i.width, &raised(&i.dst), value)?;
        let rises = Entry::Set(Width::D32, Reg::Esp, risen(sp, 4));
        Some(Plan::going_on(i, Effects::Two(rises, stored)))
    }

    /// ESP takes EBP's address and EBP the word there.
    pub(crate) fn left(&self, i: &Instr, words: &mut Words) -> Option<Plan>
        requires { read_count words.old.reads ≡ 0 }
        ensures { Tells (left_spec i.now) self.now words.old outcome_of result words.new }
    {
        let bp = self.register(Reg::Ebp);
        let value = self.stored_number(Width::D32, bp, words)?;
        let rises = Entry::Set(Width::D32, Reg::Esp, risen(bp, 4));
        let restored = Entry::Set(Width::D32, Reg::Ebp, value);
        Some(Plan::going_on(i, Effects::Two(rises, restored)))
    }
}
