//! Registers, flags and cells as numbers of places.
ghost use Rattle.std.specs.Prelude.{◌≡◌, ◌++◌, [], ◌∷◌, ◌+◌, cond, List, OnOk, IfOk};
ghost use Rattle.ia32_types.specs.declared.Reg.{Reg};
ghost use Rattle.ia32_types.specs.declared.Flag.{Flag};
ghost use Rattle.ia32_types.specs.Numbers.{flag_number, reg_number};
ghost use Rattle.ia32_types.specs.Sets.{HasFlags, HasRegs, has_flag, has_reg};
ghost use Rattle.access_facts.specs.Places.{cell_places, flag_places, register_places};
ghost use Rattle.access_facts.specs.Rows.{AreRows, cells_in_rows, picks};

use crate::rows::{Row, Test, push_cells, push_if};
use ia32_types::{Flag, FlagSet, Reg, RegSet};
use item_list::Items;
use std::alloc::{AllocError, Global};

fn push_register(places: &mut Vec<u32>, set: RegSet, register: Reg) -> Result<(), AllocError>
    ensures { OnOk result (places.new.items ≡ places.old.items ++ cond (has_reg set register) (reg_number register ∷ []) []) }
{
    push_if(places, set.has(register), u32::from(register.number()))
}

fn push_flag(places: &mut Vec<u32>, set: FlagSet, flag: Flag) -> Result<(), AllocError>
    ensures { OnOk result (places.new.items ≡ places.old.items ++ cond (has_flag set flag) ((flag_number flag + 8) ∷ []) []) }
{
    push_if(places, set.has(flag), u32::from(flag.number()) + 8)
}

// The places of the registers of a set, at the end of others.
fn push_registers(places: &mut Vec<u32>, set: RegSet) -> Result<(), AllocError>
    ensures { (rs : List Reg) → HasRegs set rs → OnOk result (places.new.items ≡ places.old.items ++ register_places rs) }
{
    push_register(places, set, Reg::Eax)?;
    push_register(places, set, Reg::Ecx)?;
    push_register(places, set, Reg::Edx)?;
    push_register(places, set, Reg::Ebx)?;
    push_register(places, set, Reg::Esp)?;
    push_register(places, set, Reg::Ebp)?;
    push_register(places, set, Reg::Esi)?;
    push_register(places, set, Reg::Edi)?;
    Ok(())
}

// The places of the flags of a set, at the end of others.
fn push_flags(places: &mut Vec<u32>, set: FlagSet) -> Result<(), AllocError>
    ensures { (fs : List Flag) → HasFlags set fs → OnOk result (places.new.items ≡ places.old.items ++ flag_places fs) }
{
    push_flag(places, set, Flag::Cf)?;
    push_flag(places, set, Flag::Pf)?;
    push_flag(places, set, Flag::Zf)?;
    push_flag(places, set, Flag::Sf)?;
    push_flag(places, set, Flag::Of)?;
    push_flag(places, set, Flag::Df)?;
    Ok(())
}

/// The places of registers, of flags, and of the cells that a test picks.
pub(crate) fn places_of(
    alloc: Global,
    registers: RegSet,
    flags: FlagSet,
    rows: &[Row],
    test: &Test,
) -> Result<Items<u32>, AllocError>
    requires { AreRows 14 rows.now }
    ensures { (rs : List Reg) (fs : List Flag) → HasRegs registers rs → HasFlags flags fs → IfOk result (λ places. places ≡ register_places rs ++ flag_places fs ++ cell_places (picks test.now) (cells_in_rows rows.now)) }
{
    let mut places = Vec::new(alloc);
    push_registers(&mut places, registers)?;
    push_flags(&mut places, flags)?;
    push_cells(&mut places, rows, test)?;
    Ok(Items::from_vec(places))
}
