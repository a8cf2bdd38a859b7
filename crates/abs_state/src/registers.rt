//! What the eight general registers may hold.

ghost use Rattle.std.specs.Prelude.{◌≡◌, ◌↔◌, slice_set, length, replicate, IfOk, IsTrue};
ghost use Rattle.ia32_types.specs.Numbers.{reg_number};
ghost use Rattle.ia32_semantics.specs.State.{put};
ghost use Rattle.vset.specs.Values.{Values};
ghost use Rattle.vset.specs.Values.{Top};
ghost use Rattle.abs_state.specs.Registers.{register_in, registers_of};

use cell_map::{are_same, of_both};
use ia32_types::Reg;
use std::alloc::{AllocError, Global};
use std::marker::Model;
use vset::{Both, ValueSet};

/// What each general register may hold, in the order of their numbers.
#[derive(Drop)]
pub struct Registers {
    values: Vec<ValueSet>,
}

impl Model for Registers {
    ghost use Rattle.std.specs.Prelude.{◌≡◌, List, length};
    ghost use Rattle.vset.specs.Values.{Values};

    ghost Value = { List Values };

    ghost view = { λ r. r.values.items };

    ghost invariant = { λ r. length r.values.items ≡ 8 };
}

impl Registers {
    /// Eight values, in the order of the registers' numbers.
    pub fn new(values: Vec<ValueSet>) -> Registers
        requires { length values.items ≡ 8 }
        ensures { result ≡ values.items }
    {
        Registers { values }
    }

    /// Registers that may hold every value.
    pub fn unknown(alloc: Global) -> Result<Registers, AllocError>
        ensures { IfOk result (λ r. r ≡ replicate 8 Top) }
    {
        let mut values = Vec::new(alloc);
        for _ in 0..8u32 {
            values.push(ValueSet::top())?;
        }
        Ok(Registers { values })
    }

    /// The registers, of which there are eight.
    pub fn values(&self) -> &[ValueSet]
        ensures value { result.now ≡ self.now }
        ensures eight { length result.now ≡ 8 }
    {
        self.values.as_slice()
    }

    /// What a register may hold.
    pub fn value(&self, register: Reg) -> &ValueSet
        ensures { result.now ≡ register_in self.now (reg_number register) }
    {
        &self.values[register.number() as usize]
    }

    /// Another value for a register.
    #[tactic(auto, using(crate::proofs::RegisterLemmas::register_put))]
    pub fn set(&mut self, register: Reg, value: ValueSet)
        ensures list { self.new ≡ slice_set self.old (reg_number register) value }
        ensures values { register_in self.new ≡ put (register_in self.old) (reg_number register) value }
    {
        self.values[register.number() as usize] = value;
    }

    /// The values of both, register by register.
    pub fn of_both(
        &self,
        alloc: Global,
        both: Both,
        other: &Registers,
    ) -> Result<Registers, AllocError>
        ensures { IfOk result (λ r. r ≡ registers_of both self.now other.now) }
    {
        let values = values_of(alloc, both, self.values(), other.values())?;
        Ok(Registers { values })
    }

    /// Whether both are the same.
    pub fn equals(&self, other: &Registers) -> bool
        ensures list { IsTrue result ↔ (self.now ≡ other.now) }
        ensures values { IsTrue result ↔ (register_in self.now ≡ register_in other.now) }
    {
        are_same(self.values(), other.values())
    }
}

impl Clone for Registers {
    ghost is_clone = { λ r clone. clone ≡ r };

    fn clone(&self) -> Result<Registers, AllocError> {
        let values = Vec::from_clones(*self.values.allocator(), self.values.as_slice())?;
        Ok(Registers { values })
    }
}

fn values_of(
    alloc: Global,
    both: Both,
    xs: &[ValueSet],
    ys: &[ValueSet],
) -> Result<Vec<ValueSet>, AllocError>
    requires { length xs.now ≡ length ys.now }
    ensures { IfOk result (λ v. v.items ≡ registers_of both xs.now ys.now) }
{
    let mut out = Vec::new(alloc);
    for i in 0..xs.len() {
        let value = of_both(alloc, both, &xs[i], &ys[i])?;
        out.push(value)?;
    }
    Ok(out)
}
