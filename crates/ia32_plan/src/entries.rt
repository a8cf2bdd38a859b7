//! Plans: what an instruction will do.

ghost use Rattle.std.specs.Prelude.{◌≡◌, [], ◌∷◌};
ghost use Rattle.ia32_types.specs.Numbers.{flag_number};
ghost use Rattle.ia32_semantics.specs.Effects.{turns};
ghost use Rattle.ia32_semantics.specs.Outcome.{going as going_spec};
ghost use Rattle.ia32_semantics.specs.Rows.{next_place as next_place_spec};
ghost use Rattle.ia32_plan.specs.Plans.{all_effects, outcome_of};

use ia32_semantics::FlagsOut;
use ia32_types::{Flag, Instr, Reg, Width};
use image_map::Activation;

/// A part of what an instruction changes. A number is cut to its width where it is stored.
#[derive(Clone, Copy, Debug, PartialEq, Eq)]
pub enum Entry {
    /// A register, its low 16 or its low 8 bits take a value.
    Set(Width, Reg, u32),
    /// The bits 8 to 15 of a register take a value.
    High(Reg, u32),
    Turn(Flag, bool),
    /// The flags that are set take their values, and the others keep theirs.
    Flags(FlagsOut),
    /// The bytes from an address on take a number's, the lowest first.
    Store {
        at: u32,
        width: Width,
        value: u32,
    },
    /// AX, DX:AX or EDX:EAX takes the low half and the high half of a product.
    Halves {
        width: Width,
        low: u32,
        high: u32,
    },
    /// AL and AH, AX and DX, or EAX and EDX take quotient and remainder.
    Quotient {
        width: Width,
        quotient: u32,
        remainder: u32,
    },
    /// So many elements are copied, one after another, from the address `from` to `to`, upwards or `down`; ESI and EDI
    /// take the addresses behind them.
    Copied {
        down: bool,
        width: Width,
        count: u32,
        from: u32,
        to: u32,
    },
    /// So many elements from the address `to` on, upwards or `down`, take a value; EDI takes the address behind them.
    Filled {
        down: bool,
        width: Width,
        value: u32,
        count: u32,
        to: u32,
    },
}

/// What an instruction changes of registers, flags and memory, the first entry first.
#[derive(Clone, Copy, Debug, PartialEq, Eq)]
pub enum Effects {
    Nothing,
    One(Entry),
    Two(Entry, Entry),
}

/// What becomes of the calls that haven't returned.
#[derive(Clone, Copy, Debug, PartialEq, Eq)]
pub enum Calls {
    Kept,
    Entered(Activation),
    /// The newest activation ends.
    Left,
}

/// What an instruction will do: what it changes, the place where control goes, what becomes of the calls, and below
/// which address the bytes of the stack are forgotten.
#[derive(Clone, Copy, Debug, PartialEq, Eq)]
pub struct Plan {
    pub effects: Effects,
    pub place: u32,
    pub calls: Calls,
    pub forgets: Option<u32>,
}

/// The place after an instruction.
pub(crate) fn next_place(i: &Instr) -> u32
    ensures { result ≡ next_place_spec i.now }
{
    i.at.wrapping_add(u32::from(i.len))
}

impl Plan {
    /// A plan that only changes registers, flags and memory, and goes to a place.
    pub(crate) fn going(effects: Effects, place: u32) -> Plan
        ensures { outcome_of result ≡ going_spec (all_effects effects) place }
    {
        Plan {
            effects,
            place,
            calls: Calls::Kept,
            forgets: None,
        }
    }

    /// The same, which goes on to the next instruction.
    pub(crate) fn going_on(i: &Instr, effects: Effects) -> Plan
        ensures { outcome_of result ≡ going_spec (all_effects effects) (next_place_spec i.now) }
    {
        Plan::going(effects, next_place(i))
    }

    /// The same, which only turns a flag.
    pub(crate) fn turning(i: &Instr, flag: Flag, value: bool) -> Plan
        ensures { outcome_of result ≡ going_spec (turns (flag_number flag) value ∷ []) (next_place_spec i.now) }
    {
        Plan::going_on(i, Effects::One(Entry::Turn(flag, value)))
    }
}
