//! What a comparison tells of a place.

ghost use Rattle.std.specs.Prelude.{◌≡◌, IfOk};
ghost use Rattle.abs_steps.specs.Rows.{is_remembered as is_remembered_spec, place_at as place_at_spec, place_of as place_of_spec, learned as learned_spec, learned_by};
ghost use Rattle.abs_state.specs.declared.writes.Memory.{Memory};
ghost use Rattle.abs_state.specs.Views.{seen};
ghost use Rattle.transfer.specs.Steps.{after, noted, view_in};

use abs_results::are_one_register;
use abs_state::{AbsState, Memory, cell_at};
use alocs::Cells;
use ia32_types::{Instr, Op, Operand, Width};
use image_map::RegionId;
use std::alloc::{AllocError, Global};
use strided::Si;
use vset::{CmpFact, CmpPlace, Part, ValueSet};

/// Words of the image and of newest activations may be remembered.
fn is_remembered(region: &RegionId) -> bool
    ensures { result ≡ is_remembered_spec region.now }
{
    matches!(region, RegionId::Global | RegionId::Frame(_))
}

/// The word at one place, where it is a cell.
fn place_at(cells: &Cells, place: Option<Part>) -> Option<CmpPlace>
    ensures { result ≡ place_at_spec cells.now place }
{
    match place {
        Some(x) if is_remembered(&x.region) => {
            let cell = cell_at(cells, x.region, x.si.lo(), 4)?;
            Some(CmpPlace::Cell(cell))
        }
        _ => None,
    }
}

/// What an operand of a comparison is.
fn place_of(
    alloc: Global,
    memory: &Memory<'_>,
    a: &AbsState,
    operand: &Option<Operand>,
) -> Result<Option<CmpPlace>, AllocError>
    ensures { IfOk result (λ p. p ≡ place_of_spec (view_in memory.now (seen a.now)) operand.now) }
{
    match operand {
        Some(Operand::Reg(register)) => Ok(Some(CmpPlace::Reg(*register))),
        Some(Operand::Mem(m)) if !m.gs => {
            let address = a.address(alloc, m)?;
            let place = a.lone_range(alloc, memory.procedure, &address, 4)?;
            Ok(place_at(memory.cells, place))
        }
        _ => Ok(None),
    }
}

/// What a comparison of an operand with numbers tells.
#[tactic(auto, using(crate::proofs::StepLemmas::nothing_learned))]
fn learned(
    alloc: Global,
    memory: &Memory<'_>,
    a: &AbsState,
    operand: &Option<Operand>,
    bound: Option<Si>,
) -> Result<Option<CmpFact>, AllocError>
    ensures { IfOk result (λ f. noted f ≡ learned_spec (place_of_spec (view_in memory.now (seen a.now)) operand.now) bound) }
{
    match bound {
        None => Ok(None),
        Some(bound) => match place_of(alloc, memory, a, operand)? {
            None => Ok(None),
            Some(place) => Ok(Some(CmpFact { place, bound })),
        },
    }
}

/// What a comparison with a value tells: with numbers at 32 bits, or of a register with itself, which tests it for 0.
#[tactic(auto, unfolding(abs_steps::specs::Rows::learned_by))]
pub(crate) fn fact_of(
    alloc: Global,
    memory: &Memory<'_>,
    i: &Instr,
    second: &ValueSet,
    a: &AbsState,
) -> Result<Option<CmpFact>, AllocError>
    ensures { IfOk result (λ f. noted f ≡ learned_by (view_in memory.now (seen a.now)) i.now.op i.now.width i.now.dst i.now.src second.now) }
{
    match (i.op, i.width) {
        (Op::Cmp, Width::D32) => learned(alloc, memory, a, &i.dst, second.only_number()),
        (Op::Test, Width::D32) if are_one_register(&i.dst, &i.src) => {
            learned(alloc, memory, a, &i.dst, Some(Si::one(0)))
        }
        _ => Ok(None),
    }
}

/// The flags are those of a comparison that tells something.
pub(crate) fn note(fact: Option<CmpFact>, a: &mut AbsState)
    ensures { (m : Memory) → seen a.new ≡ after m (noted fact) (seen a.old) }
{
    match fact {
        None => {}
        Some(fact) => a.set_fact(fact),
    }
}
