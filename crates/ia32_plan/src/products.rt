//! Products and quotients.

ghost use Rattle.std.specs.Prelude.{◌≡◌, ◌<◌, ◌^◌, Some, option_map};
ghost use Rattle.ia32_semantics.specs.Operands.{bits};
ghost use Rattle.ia32_semantics.specs.Division.{division_flags as division_flags_spec};
ghost use Rattle.ia32_semantics.specs.Rows.{product_undefined as product_undefined_spec, dividend_halves as dividend_halves_spec, multiplied as multiplied_spec, multiplied_into as multiplied_into_spec, imul as imul_spec, divided as divided_spec};
ghost use Rattle.ia32_plan.specs.Plans.{outcome_of};
ghost use Rattle.ia32_plan.specs.Told.{given_by_registers};
ghost use Rattle.ia32_plan.specs.Views.{state_of, read_count, Tells};

use crate::draws::settled;
use crate::entries::{Effects, Entry, Plan};
use crate::state::Core;
use crate::widths::{divided, multiplied};
use crate::words::Words;
use ia32_alu::low_part;
use ia32_semantics::{FlagOut, FlagsOut};
use ia32_types::{Instr, Operand, Reg, Width};

/// The flags that a product leaves undefined.
fn product_undefined() -> FlagsOut
    ensures { result ≡ product_undefined_spec }
{
    FlagsOut {
        cf: FlagOut::Kept,
        pf: FlagOut::Undefined,
        zf: FlagOut::Undefined,
        sf: FlagOut::Undefined,
        of: FlagOut::Kept,
    }
}

/// The flags of a quotient, which are all undefined.
#[tactic(auto, unfolding(ia32_semantics::specs::Division::division_flags))]
fn division_flags() -> FlagsOut
    ensures { result ≡ division_flags_spec }
{
    FlagsOut {
        cf: FlagOut::Undefined,
        pf: FlagOut::Undefined,
        zf: FlagOut::Undefined,
        sf: FlagOut::Undefined,
        of: FlagOut::Undefined,
    }
}

impl Core {
    /// What AX, DX:AX or EDX:EAX holds: the high half and the low one.
    #[tactic(auto, unfolding(ia32_semantics::specs::Rows::dividend_halves, ia32_semantics::specs::Operands::whole_register))]
    fn dividend_halves(&self, width: Width) -> (u32, u32)
        ensures given { given_by_registers (dividend_halves_spec width) (state_of self.now) ≡ Some result }
        ensures high { result.0 < 2 ^ bits width }
        ensures low { result.1 < 2 ^ bits width }
    {
        let a = self.register(Reg::Eax);
        let d = self.register(Reg::Edx);
        match width {
            Width::B8 => (a / 0x100 % 0x100, a % 0x100),
            Width::W16 => (d % 0x1_0000, a % 0x1_0000),
            Width::D32 => (d, a),
        }
    }

    /// EAX times an operand.
    pub(crate) fn multiplied(&self, signed: bool, i: &Instr, words: &mut Words) -> Option<Plan>
        requires { read_count words.old.reads ≡ 0 }
        ensures { Tells (multiplied_spec signed i.now) self.now words.old outcome_of result words.new }
    {
        let drawn = self.any_flags(&product_undefined(), words)?;
        let a = low_part(i.width, self.register(Reg::Eax));
        let b = self.value_of(i.width, &i.dst, words)?;
        let (low, high, flags) = multiplied(i.width, signed, a, b);
        let width = i.width;
        let halves = Entry::Halves { width, low, high };
        let flags = Entry::Flags(settled(&drawn, &flags));
        Some(Plan::going_on(i, Effects::Two(halves, flags)))
    }

    /// The low half of the product of two operands, into the first operand of the instruction.
    fn multiplied_into(
        &self,
        i: &Instr,
        first: &Option<Operand>,
        second: &Option<Operand>,
        words: &mut Words,
    ) -> Option<Plan>
        requires { read_count words.old.reads ≡ 0 }
        ensures { Tells (multiplied_into_spec i.now first.now second.now) self.now words.old outcome_of result words.new }
    {
        let drawn = self.any_flags(&product_undefined(), words)?;
        let a = self.value_of(i.width, first, words)?;
        let b = self.value_of(i.width, second, words)?;
        let (low, _, flags) = multiplied(i.width, true, a, b);
        let stored = self.store_to(i.width, &i.dst, low)?;
        let flags = Entry::Flags(settled(&drawn, &flags));
        Some(Plan::going_on(i, Effects::Two(stored, flags)))
    }

    /// A signed product of one, two or three operands.
    pub(crate) fn imul(&self, i: &Instr, words: &mut Words) -> Option<Plan>
        requires { read_count words.old.reads ≡ 0 }
        ensures { Tells (imul_spec i.now i.now.src i.now.imm) self.now words.old outcome_of result words.new }
    {
        match i.src {
            None => self.multiplied(true, i, words),
            Some(_) => match i.imm {
                None => self.multiplied_into(i, &i.dst, &i.src, words),
                Some(imm) => self.multiplied_into(i, &i.src, &Some(Operand::Imm(imm)), words),
            },
        }
    }

    /// AX, DX:AX or EDX:EAX divided by an operand.
    pub(crate) fn divided(&self, signed: bool, i: &Instr, words: &mut Words) -> Option<Plan>
        requires { read_count words.old.reads ≡ 0 }
        ensures { Tells (divided_spec signed i.now) self.now words.old outcome_of result words.new }
    {
        let drawn = self.any_flags(&division_flags(), words)?;
        let by = self.value_of(i.width, &i.dst, words)?;
        let (high, low) = self.dividend_halves(i.width);
        let (quotient, remainder) = divided(i.width, signed, high, low, by)?;
        let width = i.width;
        let quotient = Entry::Quotient {
            width,
            quotient,
            remainder,
        };
        let effects = Effects::Two(quotient, Entry::Flags(drawn));
        Some(Plan::going_on(i, effects))
    }
}
