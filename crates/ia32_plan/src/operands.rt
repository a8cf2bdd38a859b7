//! Operands: what they are, and what storing into them does.

ghost use Rattle.std.specs.Prelude.{◌≡◌, ◌<◌, ◌≤◌, ◌+◌, ◌*◌, ◌^◌, Some, IfSome, option_map};
ghost use Rattle.ia32_types.specs.Numbers.{size};
ghost use Rattle.ia32_semantics.specs.Operands.{bits, register_or_zero as register_or_zero_spec, address as address_spec, stored_number as stored_number_spec, memory_value as memory_value_spec, value as value_spec, value_of as value_of_spec, address_of as address_of_spec, store as store_spec, store_to as store_to_spec, raised as raised_spec};
ghost use Rattle.ia32_plan.specs.Plans.{entry_effects};
ghost use Rattle.ia32_plan.specs.Told.{given_by_registers};
ghost use Rattle.ia32_plan.specs.Views.{state_of, read_count, Tells};

use crate::entries::Entry;
use crate::state::Core;
use crate::words::{Read, Words};
use ia32_alu::low_part;
use ia32_types::{Mem, Operand, Reg, Width};

/// An index times its scale.
#[tactic(auto, using(crate::proofs::OperandLemmas::scaled_fits))]
fn scaled(index: u32, scale: u8) -> u64
    ensures value { result ≡ index * scale }
    ensures below { result < 2 ^ 40 }
{
    u64::from(index) * u64::from(scale)
}

/// An operand whose address is made after ESP has risen by 4.
pub(crate) fn raised(operand: &Option<Operand>) -> Option<Operand>
    ensures { result ≡ raised_spec operand.now }
{
    match operand {
        Some(Operand::Mem(memory)) => match memory.base {
            Some(Reg::Esp) => Some(Operand::Mem(Mem {
                base: memory.base,
                index: memory.index,
                scale: memory.scale,
                disp: memory.disp.wrapping_add(4),
                gs: memory.gs,
            })),
            _ => *operand,
        },
        _ => *operand,
    }
}

impl Core {
    /// What a register of an address holds, and 0 where there is none.
    #[tactic(auto, unfolding(ia32_semantics::specs::Operands::register_or_zero))]
    fn register_or_zero(&self, reg: Option<Reg>) -> u32
        ensures { given_by_registers (register_or_zero_spec reg) (state_of self.now) ≡ Some result }
    {
        match reg {
            None => 0,
            Some(reg) => self.register(reg),
        }
    }

    /// The address of a memory operand, from the base of GS where it counts from there.
    #[tactic(auto, using(crate::proofs::OperandLemmas::address_given))]
    pub(crate) fn address(&self, memory: &Mem) -> u32
        ensures { given_by_registers (address_spec memory.now) (state_of self.now) ≡ Some result }
    {
        let base = u64::from(self.register_or_zero(memory.base));
        let index = scaled(self.register_or_zero(memory.index), memory.scale);
        ((base + index + u64::from(memory.disp)) % 0x1_0000_0000) as u32
    }

    /// The number that memory holds at an address.
    #[tactic(auto, using(crate::proofs::OperandLemmas::told_number))]
    pub(crate) fn stored_number(&self, width: Width, at: u32, words: &mut Words) -> Option<u32>
        requires { read_count words.old.reads ≤ 1 }
        ensures tells { Tells (stored_number_spec (size width) at) self.now words.old (λ v. v) result words.new }
        ensures below { IfSome result (λ v. v < 2 ^ bits width) }
        ensures count { read_count words.new.reads ≤ read_count words.old.reads + 1 }
    {
        let number = self.memory.number(width, at)?;
        words.note(Read { at, width });
        Some(number)
    }

    /// What memory holds at an address; from the base of GS it may hold anything.
    #[tactic(auto, using(crate::proofs::ToldLemmas::told_bind), unfolding(ia32_semantics::specs::Operands::memory_value))]
    fn memory_value(&self, width: Width, gs: bool, at: u32, words: &mut Words) -> Option<u32>
        requires { read_count words.old.reads ≤ 1 }
        ensures tells { Tells (memory_value_spec width gs at) self.now words.old (λ v. v) result words.new }
        ensures below { IfSome result (λ v. v < 2 ^ bits width) }
        ensures count { read_count words.new.reads ≤ read_count words.old.reads + 1 }
    {
        if gs {
            let word = self.any_word(words)?;
            Some(low_part(width, word))
        } else {
            self.stored_number(width, at, words)
        }
    }

    /// What an operand is.
    #[tactic(auto, using(crate::proofs::ToldLemmas::told_bind, crate::proofs::RowLemmas::told_address, ia32_semantics::proofs::OperandLemmas::byte_fits), unfolding(ia32_semantics::specs::Operands::value))]
    fn value(&self, width: Width, operand: &Operand, words: &mut Words) -> Option<u32>
        requires { read_count words.old.reads ≤ 1 }
        ensures tells { Tells (value_spec width operand.now) self.now words.old (λ v. v) result words.new }
        ensures below { IfSome result (λ v. v < 2 ^ bits width) }
        ensures count { read_count words.new.reads ≤ read_count words.old.reads + 1 }
    {
        match operand {
            Operand::Reg(reg) => Some(low_part(width, self.register(*reg))),
            Operand::High(reg) => Some(self.register(*reg) / 0x100 % 0x100),
            Operand::Imm(number) => Some(low_part(width, *number)),
            Operand::Mem(memory) => {
                self.memory_value(width, memory.gs, self.address(memory), words)
            }
        }
    }

    /// What an operand is that an instruction has.
    #[tactic(auto, unfolding(ia32_semantics::specs::Operands::value_of))]
    pub(crate) fn value_of(
        &self,
        width: Width,
        operand: &Option<Operand>,
        words: &mut Words,
    ) -> Option<u32>
        requires { read_count words.old.reads ≤ 1 }
        ensures tells { Tells (value_of_spec width operand.now) self.now words.old (λ v. v) result words.new }
        ensures below { IfSome result (λ v. v < 2 ^ bits width) }
        ensures count { read_count words.new.reads ≤ read_count words.old.reads + 1 }
    {
        match operand {
            None => None,
            Some(operand) => self.value(width, operand, words),
        }
    }

    /// The address of an operand in memory.
    #[tactic(auto, unfolding(ia32_semantics::specs::Operands::address_of))]
    pub(crate) fn address_of(&self, operand: &Option<Operand>) -> Option<u32>
        ensures { given_by_registers (address_of_spec operand.now) (state_of self.now) ≡ result }
    {
        match operand {
            Some(Operand::Mem(memory)) => Some(self.address(memory)),
            _ => None,
        }
    }

    /// What storing a number into an operand does.
    #[tactic(auto, using(crate::proofs::ToldLemmas::given_bind), unfolding(ia32_semantics::specs::Operands::store))]
    fn store(&self, width: Width, operand: &Operand, value: u32) -> Option<Entry>
        ensures { given_by_registers (store_spec width operand.now value) (state_of self.now) ≡ option_map entry_effects result }
    {
        match operand {
            Operand::Reg(reg) => Some(Entry::Set(width, *reg, value)),
            Operand::High(reg) => Some(Entry::High(*reg, value)),
            Operand::Imm(_) => None,
            Operand::Mem(memory) => {
                if memory.gs {
                    return None;
                }
                let at = self.address(memory);
                Some(Entry::Store { at, width, value })
            }
        }
    }

    /// What storing a number into an operand does that an instruction has.
    #[tactic(auto, unfolding(ia32_semantics::specs::Operands::store_to))]
    pub(crate) fn store_to(
        &self,
        width: Width,
        operand: &Option<Operand>,
        value: u32,
    ) -> Option<Entry>
        ensures { given_by_registers (store_to_spec width operand.now value) (state_of self.now) ≡ option_map entry_effects result }
    {
        match operand {
            None => None,
            Some(operand) => self.store(width, operand, value),
        }
    }
}
