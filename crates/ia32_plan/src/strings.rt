//! String instructions, once or ECX times.

ghost use Rattle.std.specs.Prelude.{◌≡◌, Some, [], ◌∷◌, if◌then◌else◌, ◌==◌};
ghost use Rattle.ia32_types.specs.Numbers.{size};
ghost use Rattle.ia32_semantics.specs.Strings.{string_effects, movs_effects, stos_effects};
ghost use Rattle.ia32_plan.specs.Plans.{entry_effects, all_effects};
ghost use Rattle.ia32_plan.specs.Told.{given_by_registers};
ghost use Rattle.ia32_plan.specs.Views.{state_of};

use crate::entries::{Effects, Entry};
use crate::state::Core;
use ia32_types::{Reg, Width};

impl Core {
    /// So many elements moved.
    #[tactic(auto, unfolding(ia32_semantics::specs::Strings::movs_effects, ia32_semantics::specs::Operands::whole_register, ia32_semantics::specs::Operands::flag_value))]
    fn copied(&self, width: Width, count: u32) -> Entry
        ensures { given_by_registers (movs_effects (size width) count) (state_of self.now) ≡ Some (entry_effects result) }
    {
        let down = self.df;
        Entry::Copied {
            down,
            width,
            count,
            from: self.register(Reg::Esi),
            to: self.register(Reg::Edi),
        }
    }

    /// So many elements filled.
    #[tactic(auto, unfolding(ia32_semantics::specs::Strings::stos_effects, ia32_semantics::specs::Operands::whole_register, ia32_semantics::specs::Operands::flag_value))]
    fn filled(&self, width: Width, count: u32) -> Entry
        ensures { given_by_registers (stos_effects (size width) count) (state_of self.now) ≡ Some (entry_effects result) }
    {
        Entry::Filled {
            down: self.df,
            width,
            value: self.register(Reg::Eax),
            count,
            to: self.register(Reg::Edi),
        }
    }

    /// Elements moved: one, or as many as ECX says.
    #[tactic(auto, using(crate::proofs::ToldLemmas::given_bind), unfolding(ia32_semantics::specs::Strings::repeated, ia32_semantics::specs::Operands::whole_register))]
    pub(crate) fn moved_string(&self, rep: bool, width: Width) -> Effects
        ensures { given_by_registers (string_effects rep (movs_effects (size width))) (state_of self.now) ≡ Some (all_effects result) }
    {
        if !rep {
            return Effects::One(self.copied(width, 1));
        }
        let count = self.register(Reg::Ecx);
        if count == 0 {
            return Effects::Nothing;
        }
        let copied = self.copied(width, count);
        Effects::Two(copied, Entry::Set(Width::D32, Reg::Ecx, 0))
    }

    /// Elements filled: one, or as many as ECX says.
    #[tactic(auto, using(crate::proofs::ToldLemmas::given_bind), unfolding(ia32_semantics::specs::Strings::repeated, ia32_semantics::specs::Operands::whole_register))]
    pub(crate) fn stored_string(&self, rep: bool, width: Width) -> Effects
        ensures { given_by_registers (string_effects rep (stos_effects (size width))) (state_of self.now) ≡ Some (all_effects result) }
    {
        if !rep {
            return Effects::One(self.filled(width, 1));
        }
        let count = self.register(Reg::Ecx);
        if count == 0 {
            return Effects::Nothing;
        }
        let filled = self.filled(width, count);
        Effects::Two(filled, Entry::Set(Width::D32, Reg::Ecx, 0))
    }
}
