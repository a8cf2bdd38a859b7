//! Laws of the definitions.

ghost use Rattle.std.specs.Prelude.{◌≡◌, ◌<◌, ℕ, List, [], ◌++◌, length};
ghost use Rattle.ia32_types.specs.declared.Reg.{Reg};
ghost use Rattle.ia32_types.specs.declared.Flag.{Flag};
ghost use Rattle.ia32_types.specs.declared.Instr.{Instr};
ghost use Rattle.ia32_types.specs.Numbers.{reg_number, reg_of, flag_number, flag_of};
ghost use Rattle.ia32_types.specs.declared.sets.RegSet.{RegSet};
ghost use Rattle.ia32_types.specs.declared.sets.FlagSet.{FlagSet};
ghost use Rattle.ia32_types.specs.Sets.{has_reg, has_flag, has_number, reg_numbers, flag_numbers};
ghost use Rattle.ia32_types.specs.Operands.{IsInstruction};
ghost use Rattle.ia32_types.specs.Spells.{Spells};

/// Bytes spell one instruction at most, and no spelling begins another.
pub fn one_spelling()
    ensures { (bytes rest : List ℕ) (at : ℕ) (i j : Instr) → Spells bytes at i → Spells (bytes ++ rest) at j → (rest ≡ []) × (i ≡ j) }
{}

/// What bytes spell stands at their address, is as long as they are, and has the operands of its operation:
/// immediates within their width, a part of a register at 8 bits alone, addresses with a scale of 1, 2, 4 or 8,
/// and no write to memory that counts from GS.
pub fn spelled_instruction()
    ensures operands { (bytes : List ℕ) (at : ℕ) (i : Instr) → Spells bytes at i → IsInstruction i }
    ensures here { (bytes : List ℕ) (at : ℕ) (i : Instr) → Spells bytes at i → i.at ≡ at }
    ensures long { (bytes : List ℕ) (at : ℕ) (i : Instr) → Spells bytes at i → i.len ≡ length bytes }
{}

/// A number below 8 names one register, and a number below 6 one flag.
pub fn one_number()
    ensures reg { (r : Reg) → (reg_number r < 8) × (reg_of (reg_number r) ≡ r) }
    ensures number_of_reg { (n : ℕ) → n < 8 → reg_number (reg_of n) ≡ n }
    ensures flag { (f : Flag) → (flag_number f < 6) × (flag_of (flag_number f) ≡ f) }
    ensures number_of_flag { (n : ℕ) → n < 6 → flag_number (flag_of n) ≡ n }
{}

/// The numbers of a set are those of its members.
#[tactic(auto, using(crate::proofs::SetLemmas::reg_by_number, crate::proofs::SetLemmas::flag_by_number))]
pub fn numbered_members()
    ensures reg { (s : RegSet) (r : Reg) → has_number (reg_numbers s) (reg_number r) ≡ has_reg s r }
    ensures flag { (s : FlagSet) (f : Flag) → has_number (flag_numbers s) (flag_number f) ≡ has_flag s f }
{}
