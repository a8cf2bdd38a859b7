//! The registers, flags and memory of a machine.

ghost use Rattle.std.specs.Prelude.{◌≡◌, Some};
ghost use Rattle.ia32_types.specs.Numbers.{reg_number};
ghost use Rattle.ia32_semantics.specs.Operands.{condition};
ghost use Rattle.ia32_plan.specs.Told.{given_by_registers};
ghost use Rattle.ia32_plan.specs.Views.{state_of};

use ia32_alu::holds;
use ia32_memory::Memory;
use ia32_semantics::Flags;
use ia32_types::{Cond, Reg};

/// What instructions read and change.
#[derive(Drop)]
pub struct Core {
    /// By their numbers: EAX, ECX, EDX, EBX, ESP, EBP, ESI, EDI.
    pub regs: [u32; 8],
    pub flags: Flags,
    /// The direction flag.
    pub df: bool,
    pub eip: u32,
    pub memory: Memory,
}

impl Core {
    /// What a register holds.
    pub(crate) fn register(&self, reg: Reg) -> u32
        ensures { result ≡ (state_of self.now).registers (reg_number reg) }
    {
        self.regs[usize::from(reg.number())]
    }

    /// Whether a condition holds.
    #[tactic(auto, using(crate::proofs::OperandLemmas::condition_given))]
    pub(crate) fn condition(&self, cond: Cond) -> bool
        ensures { given_by_registers (condition cond) (state_of self.now) ≡ Some result }
    {
        holds(cond, &self.flags)
    }
}
