//! The registers and flags that a node reads, may write, and writes always.
ghost use Rattle.std.specs.Prelude.{◌≡◌, [], ◌∷◌};
ghost use Rattle.ia32_types.specs.declared.Reg.TheVariants.{Eax, Ecx, Edx, Esp};
ghost use Rattle.ia32_types.specs.Places.{arithmetic_flags};
ghost use Rattle.ia32_types.specs.Sets.{HasFlags, HasRegs};
ghost use Rattle.abs_semantics.specs.States.{AbsState as State};
ghost use Rattle.abs_state.specs.Views.{seen};
ghost use Rattle.abs_steps.specs.Places.{Extern, Instruction};
ghost use Rattle.access_facts.specs.Cores.{flags_always, is_number as is_number_spec, is_once_at_least, is_repeated as is_repeated_spec, is_shift as is_shift_spec, registers_always, writes_flags_always as writes_flags_always_spec, writes_registers_always as writes_registers_always_spec};
ghost use Rattle.access_facts.specs.CoreSets.{AreCores, AreEmpty, IsReturning, stops as stops_spec};
ghost use Rattle.transfer_flow.specs.Contents.{meant};
ghost use Rattle.vset.specs.Values.{only_number};

use abs_state::AbsState;
use ia32_types::{
    Flag, FlagSet, Instr, Op, Operand, Reg, RegSet, flag_reads, flag_writes, reg_reads, reg_writes,
};
use image_map::Kind;
use transfer_flow::Content;

/// The registers and flags of a node.
#[derive(Clone, Copy)]
pub(crate) struct CoreSets {
    pub registers_used: RegSet,
    pub registers_defined: RegSet,
    pub registers_always: RegSet,
    pub flags_used: FlagSet,
    pub flags_defined: FlagSet,
    pub flags_always: FlagSet,
}

#[tactic(auto, unfolding(crate::specs::Cores::is_repeated))]
pub(crate) fn is_repeated(op: &Op) -> bool
    ensures { result ≡ is_repeated_spec op.now }
{
    match op {
        Op::Movs { rep } | Op::Stos { rep } => *rep,
        _ => false,
    }
}

// Whether the count of a repeated instruction is one at least.
fn is_counted(state: &AbsState) -> bool
    ensures { result ≡ is_once_at_least (only_number ((seen state.now).registers 1)) }
{
    match state.registers.value(Reg::Ecx).only_number() {
        None => false,
        Some(count) => 1 <= count.lo(),
    }
}

fn writes_registers_always(state: &AbsState, op: &Op) -> bool
    ensures { result ≡ writes_registers_always_spec (seen state.now) op.now }
{
    if is_repeated(op) {
        is_counted(state)
    } else {
        true
    }
}

#[tactic(auto, unfolding(crate::specs::Cores::is_shift))]
fn is_shift(op: &Op) -> bool
    ensures { result ≡ is_shift_spec op.now }
{
    match op {
        Op::Shl | Op::Shr | Op::Sar | Op::Rol | Op::Ror => true,
        _ => false,
    }
}

fn is_number(operand: &Option<Operand>) -> bool
    ensures { result ≡ is_number_spec operand.now }
{
    match operand {
        Some(Operand::Imm(_)) => true,
        _ => false,
    }
}

fn writes_flags_always(instr: &Instr) -> bool
    ensures { result ≡ writes_flags_always_spec instr.now }
{
    if is_shift(&instr.op) {
        is_number(&instr.src)
    } else {
        true
    }
}

fn no_register() -> RegSet
    ensures { HasRegs result [] }
{
    RegSet::none()
}

fn no_flag() -> FlagSet
    ensures { HasFlags result [] }
{
    FlagSet::none()
}

#[tactic(auto, unfolding(crate::specs::Cores::registers_always))]
fn registers_always_of(state: &AbsState, instr: &Instr) -> RegSet
    ensures { HasRegs result (registers_always (seen state.now) (Instruction instr.now)) }
{
    if writes_registers_always(state, &instr.op) {
        reg_writes(instr)
    } else {
        no_register()
    }
}

#[tactic(auto, unfolding(crate::specs::Cores::flags_always))]
fn flags_always_of(instr: &Instr) -> FlagSet
    ensures { HasFlags result (flags_always (Instruction instr.now)) }
{
    if writes_flags_always(instr) {
        flag_writes(instr)
    } else {
        no_flag()
    }
}

/// The registers and flags of an instruction in an abstract state.
pub(crate) fn instruction_cores(state: &AbsState, instr: &Instr) -> CoreSets
    ensures { AreCores (seen state.now) (Instruction instr.now) result }
{
    CoreSets {
        registers_used: reg_reads(instr),
        registers_defined: reg_writes(instr),
        registers_always: registers_always_of(state, instr),
        flags_used: flag_reads(instr),
        flags_defined: flag_writes(instr),
        flags_always: flags_always_of(instr),
    }
}

// The stack pointer.
fn stack_pointer() -> RegSet
    ensures { HasRegs result (Esp ∷ []) }
{
    RegSet::only(Reg::Esp)
}

// What an extern leaves anything in, and the stack pointer.
fn extern_registers() -> RegSet
    ensures { HasRegs result (Eax ∷ Ecx ∷ Edx ∷ Esp ∷ []) }
{
    RegSet::only(Reg::Eax)
        .with(RegSet::only(Reg::Ecx))
        .with(RegSet::only(Reg::Edx))
        .with(RegSet::only(Reg::Esp))
}

// The five flags of arithmetic.
fn extern_flags() -> FlagSet
    ensures { HasFlags result arithmetic_flags }
{
    FlagSet::only(Flag::Cf)
        .with(FlagSet::only(Flag::Pf))
        .with(FlagSet::only(Flag::Zf))
        .with(FlagSet::only(Flag::Sf))
        .with(FlagSet::only(Flag::Of))
}

/// The registers and flags where nothing is done.
pub(crate) fn no_cores() -> CoreSets
    ensures { AreEmpty result }
{
    let registers = no_register();
    let flags = no_flag();
    CoreSets {
        registers_used: registers,
        registers_defined: registers,
        registers_always: registers,
        flags_used: flags,
        flags_defined: flags,
        flags_always: flags,
    }
}

// Those of an extern that returns.
fn returning_cores() -> CoreSets
    ensures { IsReturning result }
{
    let registers = extern_registers();
    let flags = extern_flags();
    CoreSets {
        registers_used: stack_pointer(),
        registers_defined: registers,
        registers_always: registers,
        flags_used: no_flag(),
        flags_defined: flags,
        flags_always: flags,
    }
}

fn stops(kind: &Kind) -> bool
    ensures { result ≡ stops_spec kind.now }
{
    match kind {
        Kind::Stop => true,
        _ => false,
    }
}

/// The registers and flags of an extern.
pub(crate) fn extern_cores(kind: &Kind) -> CoreSets
    ensures { (state : State) → AreCores state (Extern kind.now) result }
{
    if stops(kind) {
        return no_cores();
    }
    returning_cores()
}

/// The registers and flags of what stands at a node, in an abstract state.
pub(crate) fn cores_of(state: &AbsState, content: &Content) -> CoreSets
    ensures { AreCores (seen state.now) (meant content.now) result }
{
    match content {
        Content::Extern(kind) => extern_cores(kind),
        Content::Instruction(instr) => instruction_cores(state, instr),
        Content::Nothing => no_cores(),
    }
}
