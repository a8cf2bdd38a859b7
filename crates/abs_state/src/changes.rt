//! Parts of abstract states that are read and changed.

ghost use Rattle.std.specs.Prelude.{◌≡◌, IfOk, None, Some, if◌then◌else◌, ◌&&◌, false, true};
ghost use Rattle.ia32_types.specs.declared.Flag.{Flag};
ghost use Rattle.ia32_types.specs.declared.Flag.TheVariants.{Df};
ghost use Rattle.ia32_types.specs.Numbers.{reg_number, is_same_flag};
ghost use Rattle.ia32_types.specs.Sets.{has_flag};
ghost use Rattle.ia32_semantics.specs.Effects.{Whole, High};
ghost use Rattle.ia32_semantics.specs.Operands.{part_of};
ghost use Rattle.abs_semantics.specs.States.{value_at as value_at_spec};
ghost use Rattle.abs_semantics.specs.Operands.{is_register, fact_without as fact_without_spec, with_register};
ghost use Rattle.abs_steps.specs.Flags.{with_five, any_five, with_direction};
ghost use Rattle.abs_state.specs.Views.{flag_in, seen};

use crate::parts::{with_part, with_second_byte};
use crate::state::AbsState;
use ia32_types::{Flag, FlagSet, Reg, Width};
use image_map::Cell;
use std::alloc::AllocError;
use vset::{AbsFlags, CmpFact, CmpPlace, ValueSet};

/// Whether a place is a register.
fn is_of(place: &CmpPlace, register: Reg) -> bool
    ensures { result ≡ is_register (reg_number register) place.now }
{
    match place {
        CmpPlace::Reg(r) => r.number() == register.number(),
        CmpPlace::Cell(_) => false,
    }
}

/// What is known of the last comparison, where it wasn't of a register.
fn fact_without(fact: &Option<CmpFact>, register: Reg) -> Option<CmpFact>
    ensures { result ≡ fact_without_spec (reg_number register) fact.now }
{
    match fact {
        Some(fact) if !is_of(&fact.place, register) => Some(*fact),
        _ => None,
    }
}

/// A set without DF.
#[tactic(auto, using(crate::proofs::FlagLemmas::has_five))]
fn five(flags: FlagSet) -> FlagSet
    ensures { (x : Flag) → has_flag result x ≡ (if is_same_flag x Df then false else has_flag flags x) }
{
    flags.within(FlagSet::arithmetic())
}

/// DF, where it is in a set.
#[tactic(auto, using(crate::proofs::FlagLemmas::has_direction))]
fn direction(flags: FlagSet) -> FlagSet
    ensures { (x : Flag) → has_flag result x ≡ (if is_same_flag x Df then has_flag flags x else false) }
{
    flags.within(FlagSet::only(Flag::Df))
}

/// The five flags of arithmetic as some sets say, and DF as others.
#[tactic(auto, using(crate::proofs::FlagLemmas::five_are))]
fn with_five_of(five_of: &AbsFlags, others: &AbsFlags) -> AbsFlags
    ensures { flag_in result ≡ with_five five_of.now (flag_in others.now) }
{
    AbsFlags {
        zero: five(five_of.zero).with(direction(others.zero)),
        one: five(five_of.one).with(direction(others.one)),
    }
}

/// The five flags of arithmetic may be either, and DF is as some sets say.
#[tactic(auto, using(crate::proofs::FlagLemmas::any_five_are))]
fn with_any_five(others: &AbsFlags) -> AbsFlags
    ensures { flag_in result ≡ any_five (flag_in others.now) }
{
    AbsFlags {
        zero: FlagSet::arithmetic().with(direction(others.zero)),
        one: FlagSet::arithmetic().with(direction(others.one)),
    }
}

/// DF is known, and the five flags of arithmetic are as some sets say.
#[tactic(auto, using(crate::proofs::FlagLemmas::direction_is))]
fn with_known_direction(set: bool, others: &AbsFlags) -> AbsFlags
    ensures { flag_in result ≡ with_direction set (flag_in others.now) }
{
    AbsFlags {
        zero: five(others.zero).with(FlagSet::only_if(!set, Flag::Df)),
        one: five(others.one).with(FlagSet::only_if(set, Flag::Df)),
    }
}

impl AbsState {
    /// What a general register may hold.
    pub fn register(&self, register: Reg) -> &ValueSet
        ensures { result.now ≡ (seen self.now).registers (reg_number register) }
    {
        self.registers.value(register)
    }

    /// What a cell may hold.
    pub fn value_at(&self, cell: &Cell) -> Result<ValueSet, AllocError>
        ensures { IfOk result (λ v. v ≡ value_at_spec (seen self.now) cell.now) }
    {
        self.cells.value(cell)
    }

    /// Gives a register another value, so that nothing is known of a comparison of it.
    pub fn put_register(&mut self, register: Reg, value: ValueSet)
        ensures { seen self.new ≡ with_register (seen self.old) Whole (reg_number register) value }
    {
        self.registers.set(register, value);
        self.fact = fact_without(&self.fact, register);
    }

    /// Gives another value to the part of a register that an operand of a width is.
    pub fn put_part(&mut self, width: Width, register: Reg, value: ValueSet)
        ensures { seen self.new ≡ with_register (seen self.old) (part_of width) (reg_number register) value }
    {
        let value = with_part(width, self.registers.value(register), value);
        self.put_register(register, value);
    }

    /// Gives another value to the second byte of a register.
    pub fn put_second_byte(&mut self, register: Reg, value: &ValueSet)
        ensures { seen self.new ≡ with_register (seen self.old) High (reg_number register) value.now }
    {
        let value = with_second_byte(self.registers.value(register), value);
        self.put_register(register, value);
    }

    /// The five flags of arithmetic may be what the sets say; they aren't those of the last comparison any more.
    pub fn set_five(&mut self, flags: &AbsFlags)
        ensures { seen self.new ≡ record (seen self.old) { flags = with_five flags.now (seen self.old).flags; fact = None } }
    {
        self.flags = with_five_of(flags, &self.flags);
        self.fact = None;
    }

    /// Each of the five flags of arithmetic may be either.
    pub fn free_five(&mut self)
        ensures { seen self.new ≡ record (seen self.old) { flags = any_five (seen self.old).flags; fact = None } }
    {
        self.flags = with_any_five(&self.flags);
        self.fact = None;
    }

    /// DF is known.
    pub fn set_direction(&mut self, set: bool)
        ensures { seen self.new ≡ record (seen self.old) { flags = with_direction set (seen self.old).flags; fact = None } }
    {
        self.flags = with_known_direction(set, &self.flags);
        self.fact = None;
    }

    /// The flags are those of a comparison.
    pub fn set_fact(&mut self, fact: CmpFact)
        ensures { seen self.new ≡ record (seen self.old) { fact = Some fact } }
    {
        self.fact = Some(fact);
    }
}
