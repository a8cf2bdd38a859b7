//! The accesses to memory of an instruction: what is read, and then what is written.

ghost use Rattle.std.specs.Prelude.{◌≡◌, ◌++◌, ◌∷◌, [], IfOk, false, true};
ghost use Rattle.ia32_types.specs.Numbers.{reg_number};
ghost use Rattle.ia32_semantics.specs.Effects.{Whole};
ghost use Rattle.abs_semantics.specs.Operands.{address as address_spec, with_register};
ghost use Rattle.abs_state.specs.Views.{seen};
ghost use Rattle.abs_steps.specs.Rows.{risen as risen_spec};
ghost use Rattle.abs_steps.specs.Accesses.{word_at as word_at_spec, of_operand as of_operand_spec, first_read as first_read_spec, both_read as both_read_spec, second_read as second_read_spec, first_written as first_written_spec, factors_read as factors_read_spec, product_written as product_written_spec, word_pushed as word_pushed_spec, word_popped as word_popped_spec, reads as reads_spec, writes as writes_spec, accesses as accesses_spec};
ghost use Rattle.transfer.specs.Ranges.{ranged as ranged_spec, string_length as string_length_spec};

use abs_results::{bytes_of, count_of, pushed_at, risen};
use abs_state::AbsState;
use abs_steps::Access;
use ia32_types::{Instr, Mem, Op, Operand, Reg, Width};
use std::alloc::{AllocError, Global};
use vset::ValueSet;

fn none(alloc: Global) -> Vec<Access>
    ensures { result.items ≡ [] }
{
    Vec::new(alloc)
}

fn one(alloc: Global, only: Access) -> Result<Vec<Access>, AllocError>
    ensures { IfOk result (λ v. v.items ≡ only ∷ []) }
{
    let mut out = Vec::new(alloc);
    out.push(only)?;
    Ok(out)
}

/// Some accesses, and then others.
pub(crate) fn joined(first: Vec<Access>, second: Vec<Access>) -> Result<Vec<Access>, AllocError>
    ensures { IfOk result (λ v. v.items ≡ first.items ++ second.items) }
{
    let mut out = first;
    let mut more = second;
    out.append(&mut more)?;
    Ok(out)
}

/// A range of so many bytes, if any, or of a number that isn't known.
pub(crate) fn range(
    alloc: Global,
    write: bool,
    addr: ValueSet,
    len: Option<u32>,
) -> Result<Vec<Access>, AllocError>
    ensures { IfOk result (λ v. v.items ≡ ranged_spec write addr len) }
{
    match len {
        Some(0) => Ok(none(alloc)),
        _ => one(alloc, Access { addr, len, write }),
    }
}

pub(crate) fn word_at(alloc: Global, write: bool, addr: ValueSet) -> Result<Vec<Access>, AllocError>
    ensures { IfOk result (λ v. v.items ≡ word_at_spec write addr ∷ []) }
{
    let len = Some(4);
    one(alloc, Access { addr, len, write })
}

/// The word at a register.
pub(crate) fn word_read(
    alloc: Global,
    a: &AbsState,
    register: Reg,
) -> Result<Vec<Access>, AllocError>
    ensures { IfOk result (λ v. v.items ≡ word_at_spec false ((seen a.now).registers (reg_number register)) ∷ []) }
{
    let addr = a.registers.value(register).clone()?;
    word_at(alloc, false, addr)
}

/// An operand in memory.
fn of_operand(
    alloc: Global,
    write: bool,
    a: &AbsState,
    width: Width,
    operand: &Option<Operand>,
) -> Result<Vec<Access>, AllocError>
    ensures { IfOk result (λ v. v.items ≡ of_operand_spec write (seen a.now) width operand.now) }
{
    match operand {
        Some(Operand::Mem(m)) if !m.gs => {
            let addr = a.address(alloc, m)?;
            let len = Some(width.bytes());
            one(alloc, Access { addr, len, write })
        }
        _ => Ok(none(alloc)),
    }
}

fn first_read(alloc: Global, a: &AbsState, i: &Instr) -> Result<Vec<Access>, AllocError>
    ensures { IfOk result (λ v. v.items ≡ first_read_spec (seen a.now) i.now) }
{
    of_operand(alloc, false, a, i.width, &i.dst)
}

fn second_read(alloc: Global, a: &AbsState, i: &Instr) -> Result<Vec<Access>, AllocError>
    ensures { IfOk result (λ v. v.items ≡ second_read_spec (seen a.now) i.now) }
{
    of_operand(alloc, false, a, i.width, &i.src)
}

fn both_read(alloc: Global, a: &AbsState, i: &Instr) -> Result<Vec<Access>, AllocError>
    ensures { IfOk result (λ v. v.items ≡ both_read_spec (seen a.now) i.now) }
{
    joined(first_read(alloc, a, i)?, second_read(alloc, a, i)?)
}

fn first_written(alloc: Global, a: &AbsState, i: &Instr) -> Result<Vec<Access>, AllocError>
    ensures { IfOk result (λ v. v.items ≡ first_written_spec (seen a.now) i.now) }
{
    of_operand(alloc, true, a, i.width, &i.dst)
}

fn both_written(alloc: Global, a: &AbsState, i: &Instr) -> Result<Vec<Access>, AllocError>
    ensures { IfOk result (λ v. v.items ≡ first_written_spec (seen a.now) i.now ++ of_operand_spec true (seen a.now) i.now.width i.now.src) }
{
    joined(
        first_written(alloc, a, i)?,
        of_operand(alloc, true, a, i.width, &i.src)?,
    )
}

/// What imul reads, by its operands.
fn factors_read(alloc: Global, a: &AbsState, i: &Instr) -> Result<Vec<Access>, AllocError>
    ensures { IfOk result (λ v. v.items ≡ factors_read_spec (seen a.now) i.now i.now.src i.now.imm) }
{
    match (&i.src, i.imm) {
        (None, _) => first_read(alloc, a, i),
        (Some(_), None) => both_read(alloc, a, i),
        (Some(_), Some(_)) => second_read(alloc, a, i),
    }
}

fn product_written(alloc: Global, a: &AbsState, i: &Instr) -> Result<Vec<Access>, AllocError>
    ensures { IfOk result (λ v. v.items ≡ product_written_spec (seen a.now) i.now i.now.src) }
{
    match &i.src {
        None => Ok(none(alloc)),
        Some(_) => first_written(alloc, a, i),
    }
}

/// How many bytes a string instruction moves, where it is known.
fn string_length(a: &AbsState, rep: bool, width: Width) -> Option<u32>
    ensures { result ≡ string_length_spec (seen a.now) rep width }
{
    if !rep {
        return Some(width.bytes());
    }
    let count = count_of(&a.flags, a.registers.value(Reg::Ecx), width.bytes())?;
    Some(bytes_of(width.bytes(), &count))
}

/// What a string instruction moves at a register.
fn string_at(
    alloc: Global,
    a: &AbsState,
    register: Reg,
    write: bool,
    len: Option<u32>,
) -> Result<Vec<Access>, AllocError>
    ensures { IfOk result (λ v. v.items ≡ ranged_spec write ((seen a.now).registers (reg_number register)) len) }
{
    let addr = a.registers.value(register).clone()?;
    range(alloc, write, addr, len)
}

/// What an instruction reads.
#[tactic(auto, unfolding(abs_steps::specs::Accesses::reads), using(crate::proofs::RangeLemmas::string_range_by_length))]
pub fn reads(alloc: Global, a: &AbsState, i: &Instr) -> Result<Vec<Access>, AllocError>
    ensures { IfOk result (λ v. v.items ≡ reads_spec i.now.op (seen a.now) i.now) }
{
    match i.op {
        Op::Add
        | Op::Or
        | Op::Adc
        | Op::Sbb
        | Op::And
        | Op::Sub
        | Op::Xor
        | Op::Cmp
        | Op::Xchg
        | Op::Test
        | Op::Cmov(_) => both_read(alloc, a, i),
        Op::Mov => second_read(alloc, a, i),
        Op::Push
        | Op::Inc
        | Op::Dec
        | Op::Not
        | Op::Neg
        | Op::Mul
        | Op::Shl
        | Op::Shr
        | Op::Sar
        | Op::Call
        | Op::Jmp
        | Op::Rol
        | Op::Ror
        | Op::Div
        | Op::Idiv => first_read(alloc, a, i),
        Op::Imul => factors_read(alloc, a, i),
        Op::Movzx(from) | Op::Movsx(from) => of_operand(alloc, false, a, from, &i.src),
        Op::Pop | Op::Ret => word_read(alloc, a, Reg::Esp),
        Op::Leave => word_read(alloc, a, Reg::Ebp),
        Op::Movs { rep } => string_at(alloc, a, Reg::Esi, false, string_length(a, rep, i.width)),
        _ => Ok(none(alloc)),
    }
}

/// The word that a push or a call puts on the stack.
fn word_pushed(alloc: Global, a: &AbsState) -> Result<Vec<Access>, AllocError>
    ensures { IfOk result (λ v. v.items ≡ word_pushed_spec (seen a.now)) }
{
    let addr = pushed_at(alloc, a.registers.value(Reg::Esp))?;
    word_at(alloc, true, addr)
}

/// The address to which pop stores: ESP has risen.
fn popped_address(alloc: Global, a: &AbsState, m: &Mem) -> Result<ValueSet, AllocError>
    ensures { IfOk result (λ v. v ≡ address_spec (with_register (seen a.now) Whole 4 (risen_spec ((seen a.now).registers 4))) m.now) }
{
    let mut after = a.clone()?;
    let sp = risen(alloc, a.registers.value(Reg::Esp))?;
    after.put_register(Reg::Esp, sp);
    after.address(alloc, m)
}

/// Where pop stores.
fn word_popped(alloc: Global, a: &AbsState, i: &Instr) -> Result<Vec<Access>, AllocError>
    ensures { IfOk result (λ v. v.items ≡ word_popped_spec (seen a.now) i.now) }
{
    match &i.dst {
        Some(Operand::Mem(m)) if !m.gs => {
            let addr = popped_address(alloc, a, m)?;
            let len = Some(i.width.bytes());
            let write = true;
            one(alloc, Access { addr, len, write })
        }
        _ => Ok(none(alloc)),
    }
}

/// What an instruction writes.
#[tactic(auto, unfolding(abs_steps::specs::Accesses::writes), using(crate::proofs::RangeLemmas::string_range_by_length))]
pub fn writes(alloc: Global, a: &AbsState, i: &Instr) -> Result<Vec<Access>, AllocError>
    ensures { IfOk result (λ v. v.items ≡ writes_spec i.now.op (seen a.now) i.now) }
{
    match i.op {
        Op::Add
        | Op::Or
        | Op::Adc
        | Op::Sbb
        | Op::And
        | Op::Sub
        | Op::Xor
        | Op::Mov
        | Op::Lea
        | Op::Inc
        | Op::Dec
        | Op::Not
        | Op::Neg
        | Op::Shl
        | Op::Shr
        | Op::Sar
        | Op::Movzx(_)
        | Op::Movsx(_)
        | Op::Setcc(_)
        | Op::Rol
        | Op::Ror => first_written(alloc, a, i),
        Op::Xchg => both_written(alloc, a, i),
        Op::Imul => product_written(alloc, a, i),
        Op::Push | Op::Call => word_pushed(alloc, a),
        Op::Pop => word_popped(alloc, a, i),
        Op::Movs { rep } | Op::Stos { rep } => {
            string_at(alloc, a, Reg::Edi, true, string_length(a, rep, i.width))
        }
        _ => Ok(none(alloc)),
    }
}

/// The accesses of an instruction: what it reads, and then what it writes.
#[tactic(auto, unfolding(abs_steps::specs::Accesses::accesses))]
pub fn accesses(alloc: Global, a: &AbsState, i: &Instr) -> Result<Vec<Access>, AllocError>
    ensures { IfOk result (λ v. v.items ≡ accesses_spec (seen a.now) i.now) }
{
    joined(reads(alloc, a, i)?, writes(alloc, a, i)?)
}
