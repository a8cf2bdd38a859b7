//! Sets of registers and of flags, as bits.

ghost use Rattle.std.specs.Prelude.{⊤, ◌≡◌, ◌<◌, ◌&&◌, ◌||◌, not, true, false, [], ◌∷◌, codes};
ghost use Rattle.std.specs.Int.RustNames.{bit_or};
ghost use Rattle.ia32_types.specs.declared.Reg.{Reg};
ghost use Rattle.ia32_types.specs.declared.Flag.{Flag};
ghost use Rattle.ia32_types.specs.declared.Flag.TheVariants.{Df};
ghost use Rattle.ia32_types.specs.Numbers.{is_same_reg, is_same_flag};
ghost use Rattle.ia32_types.specs.Sets.{has_reg, has_flag, reg_alone, flag_alone, regs_of_both, flags_of_both, flag_if, has_number, reg_numbers, flag_numbers};

use crate::{Flag, Reg};
use bitflags::{Flag as NamedFlag, Flags, bitflag_items};

/// A set of registers: the register of number n has bit n.
#[derive(Clone, Copy, Debug, PartialEq, Eq)]
pub struct RegSet(pub(crate) u8);

bitflag_items! {
    impl RegSet: u8 {
        const EAX = 1;
        const ECX = 2;
        const EDX = 4;
        const EBX = 8;
        const ESP = 16;
        const EBP = 32;
        const ESI = 64;
        const EDI = 128;
    }
}

impl Flags for RegSet {
    type Bits = u8;

    ghost exact = { ⊤ };

    ghost table = { (codes "EAX", 1) ∷ (codes "ECX", 2) ∷ (codes "EDX", 4) ∷ (codes "EBX", 8) ∷ (codes "ESP", 16) ∷ (codes "EBP", 32) ∷ (codes "ESI", 64) ∷ (codes "EDI", 128) ∷ [] };

    ghost set_of = { λ s. s.0 };

    fn flags<'a>() -> &'a [NamedFlag<RegSet>] {
        RegSet::FLAGS
    }

    fn bits(&self) -> u8 {
        self.0
    }

    fn from_bits_retain(bits: u8) -> RegSet {
        RegSet(bits)
    }
}

/// Which numbers are those of the members of a set.
#[derive(Clone, Copy)]
pub struct NumberSet(u8);

impl NumberSet {
    /// Whether a number is that of a member.
    pub fn has(self, number: u32) -> bool
        requires { number < 8 }
        ensures { result ≡ has_number self number }
    {
        let bit = 1 << number;
        self.0 & bit == bit
    }
}

impl RegSet {
    /// No register.
    #[tactic(auto, using(crate::proofs::SetLemmas::no_reg_has))]
    pub fn none() -> RegSet
        ensures members { (x : Reg) → has_reg result x ≡ false }
    {
        RegSet(0)
    }

    /// The set of one register.
    #[tactic(auto, using(crate::proofs::SetLemmas::has_reg_alone))]
    pub fn only(reg: Reg) -> RegSet
        ensures alone { result ≡ reg_alone reg }
        ensures members { (x : Reg) → has_reg result x ≡ is_same_reg x reg }
    {
        match reg {
            Reg::Eax => RegSet::EAX,
            Reg::Ecx => RegSet::ECX,
            Reg::Edx => RegSet::EDX,
            Reg::Ebx => RegSet::EBX,
            Reg::Esp => RegSet::ESP,
            Reg::Ebp => RegSet::EBP,
            Reg::Esi => RegSet::ESI,
            Reg::Edi => RegSet::EDI,
        }
    }

    /// Whether the register is in the set.
    pub fn has(self, reg: Reg) -> bool
        ensures { result ≡ has_reg self reg }
    {
        self.contains(RegSet::only(reg))
    }

    /// The registers of either set.
    #[tactic(auto, using(crate::proofs::SetLemmas::has_reg_of_both))]
    pub fn with(self, other: RegSet) -> RegSet
        ensures both { result ≡ regs_of_both self other }
        ensures members { (x : Reg) → has_reg result x ≡ (has_reg self x || has_reg other x) }
    {
        self.union(other)
    }

    /// The numbers of the registers in the set.
    pub fn numbers(self) -> NumberSet
        ensures { result ≡ reg_numbers self }
    {
        NumberSet(self.0)
    }
}

/// A set of flags: bits 0 to 5 are CF, PF, ZF, SF, OF and DF.
#[derive(Clone, Copy, Debug, PartialEq, Eq)]
pub struct FlagSet(pub(crate) u8);

bitflag_items! {
    impl FlagSet: u8 {
        const CF = 1;
        const PF = 2;
        const ZF = 4;
        const SF = 8;
        const OF = 16;
        const DF = 32;
    }
}

impl Flags for FlagSet {
    type Bits = u8;

    ghost exact = { ⊤ };

    ghost table = { (codes "CF", 1) ∷ (codes "PF", 2) ∷ (codes "ZF", 4) ∷ (codes "SF", 8) ∷ (codes "OF", 16) ∷ (codes "DF", 32) ∷ [] };

    ghost set_of = { λ s. s.0 };

    fn flags<'a>() -> &'a [NamedFlag<FlagSet>] {
        FlagSet::FLAGS
    }

    fn bits(&self) -> u8 {
        self.0
    }

    fn from_bits_retain(bits: u8) -> FlagSet {
        FlagSet(bits)
    }
}

impl FlagSet {
    /// No flag.
    #[tactic(auto, using(crate::proofs::SetLemmas::no_flag_has))]
    pub fn none() -> FlagSet
        ensures members { (x : Flag) → has_flag result x ≡ false }
    {
        FlagSet(0)
    }

    /// All six.
    #[tactic(auto, using(crate::proofs::SetLemmas::all_flags_have))]
    pub fn all() -> FlagSet
        ensures members { (x : Flag) → has_flag result x ≡ true }
    {
        FlagSet(63)
    }

    /// The five that arithmetic writes: all but DF.
    #[tactic(auto, using(crate::proofs::SetLemmas::five_flags_have))]
    pub fn arithmetic() -> FlagSet
        ensures members { (x : Flag) → has_flag result x ≡ not (is_same_flag x Df) }
    {
        FlagSet(31)
    }

    /// A flag where it is asked for, else none.
    #[tactic(auto, using(crate::proofs::SetLemmas::flag_asked_for))]
    pub fn only_if(has: bool, flag: Flag) -> FlagSet
        ensures set { result ≡ flag_if has flag }
        ensures members { (x : Flag) → has_flag result x ≡ (is_same_flag x flag && has) }
    {
        if has { FlagSet::only(flag) } else { FlagSet(0) }
    }

    /// The set of one flag.
    #[tactic(auto, using(crate::proofs::SetLemmas::has_flag_alone))]
    pub fn only(flag: Flag) -> FlagSet
        ensures alone { result ≡ flag_alone flag }
        ensures members { (x : Flag) → has_flag result x ≡ is_same_flag x flag }
    {
        match flag {
            Flag::Cf => FlagSet::CF,
            Flag::Pf => FlagSet::PF,
            Flag::Zf => FlagSet::ZF,
            Flag::Sf => FlagSet::SF,
            Flag::Of => FlagSet::OF,
            Flag::Df => FlagSet::DF,
        }
    }

    /// Whether the flag is in the set.
    pub fn has(self, flag: Flag) -> bool
        ensures { result ≡ has_flag self flag }
    {
        self.contains(FlagSet::only(flag))
    }

    /// The flags of either set.
    #[tactic(auto, using(crate::proofs::SetLemmas::has_flag_of_both))]
    pub fn with(self, other: FlagSet) -> FlagSet
        ensures both { result ≡ flags_of_both self other }
        ensures members { (x : Flag) → has_flag result x ≡ (has_flag self x || has_flag other x) }
    {
        self.union(other)
    }

    /// The flags that are in both sets.
    #[tactic(auto, using(crate::proofs::SetLemmas::has_flag_of_each))]
    pub fn within(self, other: FlagSet) -> FlagSet
        ensures members { (x : Flag) → has_flag result x ≡ (has_flag self x && has_flag other x) }
    {
        FlagSet(self.0 & other.0)
    }

    /// The numbers of the flags in the set.
    pub fn numbers(self) -> NumberSet
        ensures { result ≡ flag_numbers self }
    {
        NumberSet(self.0)
    }
}
