//! Addresses of memory operands, and the places that an address may mean.

ghost use Rattle.std.specs.Prelude.{◌≡◌, IfOk};
ghost use Rattle.abs_resolve.specs.Forms.{AreTold};
ghost use Rattle.abs_semantics.specs.Operands.{base_value as base_value_spec, multiple_of as multiple_of_spec, scaled as scaled_spec, index_value as index_value_spec, address as address_spec};
ghost use Rattle.abs_semantics.specs.Resolve.{resolve as resolve_spec};
ghost use Rattle.abs_state.specs.Views.{seen};

use crate::state::AbsState;
use abs_alu::number;
use abs_resolve::{Owners, Places};
use abs_results::word_number;
use ia32_types::{Mem, Reg};
use si_bits::mul;
use std::alloc::{AllocError, Global};
use strided::Si;
use vset::ValueSet;

fn base_value(state: &AbsState, base: Option<Reg>) -> Result<ValueSet, AllocError>
    ensures { IfOk result (λ v. v ≡ base_value_spec (seen state.now) base) }
{
    match base {
        None => Ok(number(0)),
        Some(register) => state.registers.value(register).clone(),
    }
}

fn multiple_of(scale: u8, numbers: Option<Si>) -> ValueSet
    ensures { result ≡ multiple_of_spec scale numbers }
{
    match numbers {
        None => ValueSet::top(),
        Some(x) => ValueSet::numbers(mul(&x, &Si::one(i32::from(scale)))),
    }
}

fn scaled(scale: u8, value: &ValueSet) -> Result<ValueSet, AllocError>
    ensures { IfOk result (λ v. v ≡ scaled_spec scale value.now) }
{
    if scale == 1 {
        value.clone()
    } else {
        Ok(multiple_of(scale, value.only_number()))
    }
}

fn index_value(state: &AbsState, index: Option<Reg>, scale: u8) -> Result<ValueSet, AllocError>
    ensures { IfOk result (λ v. v ≡ index_value_spec (seen state.now) index scale) }
{
    match index {
        None => Ok(number(0)),
        Some(register) => scaled(scale, state.registers.value(register)),
    }
}

impl AbsState {
    /// The address of a memory operand: base and index first, and then the displacement.
    #[tactic(auto, unfolding(abs_semantics::specs::Operands::address))]
    pub fn address(&self, alloc: Global, m: &Mem) -> Result<ValueSet, AllocError>
        ensures { IfOk result (λ v. v ≡ address_spec (seen self.now) m.now) }
    {
        let base = base_value(self, m.base)?;
        let index = index_value(self, m.index, m.scale)?;
        let start = base.add(alloc, &index)?;
        let moved = start.add(alloc, &word_number(m.disp))?;
        Ok(moved)
    }

    /// The places of `len` bytes, which are at least one, at an address, at a node of a procedure.
    pub fn resolve(
        &self,
        alloc: Global,
        procedure: u32,
        address: &ValueSet,
        len: u32,
    ) -> Result<Places, AllocError>
        ensures { IfOk result (λ places. AreTold places (resolve_spec (seen self.now) procedure address.now len)) }
    {
        let owners = Owners::new(
            self.live.as_slice(),
            self.older.as_slice(),
            self.links.as_slice(),
            self.blocks.as_slice(),
            self.root,
        );
        owners.resolve(alloc, procedure, address, len)
    }
}
