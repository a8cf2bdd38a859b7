//! The places that an instruction reads and writes.

ghost use Rattle.std.specs.Prelude.{◌≡◌, ◌||◌, ◌&&◌, ◌==◌, ◌++◌, false, if◌then◌else◌, slice_index, IfOk, OnOk};
ghost use Rattle.std.specs.Option.{option_to_list};
ghost use Rattle.ia32_types.specs.declared.Reg.{Reg};
ghost use Rattle.ia32_types.specs.declared.Reg.TheVariants.{Ecx};
ghost use Rattle.ia32_types.specs.declared.Flag.{Flag};
ghost use Rattle.ia32_types.specs.declared.Flag.TheVariants.{Cf, Pf, Zf, Sf, Of};
ghost use Rattle.ia32_types.specs.Numbers.{reg_number, flag_number, is_same_reg, is_same_flag, size};
ghost use Rattle.ia32_types.specs.Places.{registers_read as registers_read_spec, flags_read as flags_read_spec};
ghost use Rattle.ia32_types.specs.Sets.{has_reg, has_flag, is_listed_reg, is_listed_flag};
ghost use Rattle.ia32_semantics.specs.State.{InRegister, InFlag};
ghost use Rattle.ia32_semantics.specs.Effects.{effects_write};
ghost use Rattle.ia32_semantics.specs.Laws.{is_repeated as is_repeated_spec};
ghost use Rattle.ia32_plan.specs.Plans.{entry_effects, all_effects};
ghost use Rattle.ia32_machine.specs.Touches.{has_halves, is_set_flag, span_of as span_of_spec, elements_span as elements_span_spec, number_spans as number_spans_spec, source_spans as source_spans_spec, target_spans as target_spans_spec, of_entries, read_spans as read_spans_spec, IsToldOf};

use crate::apply::stepped;
use ia32_memory::Elements;
use ia32_plan::{Core, Effects, Entry, Plan, Reads, Words};
use ia32_semantics::{FlagOut, FlagsOut};
use ia32_types::{Flag, FlagSet, Instr, Op, Reg, RegSet, Width, flag_reads, reg_reads};
use image_map::Span;
use std::alloc::{AllocError, Global};

/// A set of places: registers, flags, and bytes of memory. A byte may lie in several of the spans.
#[derive(Debug, Drop)]
pub struct Touched {
    pub regs: RegSet,
    pub flags: FlagSet,
    pub bytes: Vec<Span>,
}

/// What a step did.
#[derive(Debug, Drop)]
pub struct StepOut {
    /// The places that it read.
    pub reads: Touched,
    /// The places that it wrote.
    pub writes: Touched,
    /// Where control went.
    pub next: u32,
    /// The address below which it forgot the bytes of the stack, if it forgot any.
    pub forgets: Option<u32>,
    /// How many words of choice it took.
    pub used: u32,
}

/// Two registers.
fn pair(a: Reg, b: Reg) -> RegSet
    ensures { (r : Reg) → has_reg result r ≡ (is_same_reg r a || is_same_reg r b) }
{
    RegSet::only(a).with(RegSet::only(b))
}

/// Whether an operation is repeated ECX times.
fn is_repeated(op: &Op) -> bool
    ensures { result ≡ is_repeated_spec op.now }
{
    match op {
        Op::Movs { rep } | Op::Stos { rep } => *rep,
        _ => false,
    }
}

/// Whether an instruction is repeated no times. Then it reads ECX alone.
fn is_idle(core: &Core, op: &Op) -> bool
    ensures { result ≡ (is_repeated_spec op.now && slice_index core.now.regs 1 == 0) }
{
    is_repeated(op) && core.regs[1] == 0
}

/// The registers that an instruction reads.
fn registers_read(core: &Core, i: &Instr) -> RegSet
    ensures { (r : Reg) → has_reg result r ≡ (if is_repeated_spec i.now.op && slice_index core.now.regs 1 == 0 then is_same_reg r Ecx else is_listed_reg (registers_read_spec i.now) r) }
{
    if is_idle(core, &i.op) {
        RegSet::only(Reg::Ecx)
    } else {
        reg_reads(i)
    }
}

/// The flags that an instruction reads.
fn flags_read(core: &Core, i: &Instr) -> FlagSet
    ensures { (f : Flag) → has_flag result f ≡ (if is_repeated_spec i.now.op && slice_index core.now.regs 1 == 0 then false else is_listed_flag (flags_read_spec i.now) f) }
{
    if is_idle(core, &i.op) {
        FlagSet::none()
    } else {
        flag_reads(i)
    }
}

/// The registers that two halves of a width go into.
fn halves(width: Width) -> RegSet
    ensures { (r : Reg) → has_reg result r ≡ has_halves width r }
{
    match width {
        Width::B8 => RegSet::only(Reg::Eax),
        Width::W16 | Width::D32 => pair(Reg::Eax, Reg::Edx),
    }
}

/// The registers that an entry changes.
fn entry_registers(entry: &Entry) -> RegSet
    ensures { (r : Reg) → has_reg result r ≡ effects_write (entry_effects entry.now) (InRegister (reg_number r)) }
{
    match entry {
        Entry::Set(_, reg, _) | Entry::High(reg, _) => RegSet::only(*reg),
        Entry::Turn(..) | Entry::Flags(_) | Entry::Store { .. } => RegSet::none(),
        Entry::Halves { width, .. } => halves(*width),
        Entry::Quotient { width, .. } => halves(*width),
        Entry::Copied { .. } => pair(Reg::Esi, Reg::Edi),
        Entry::Filled { .. } => RegSet::only(Reg::Edi),
    }
}

/// The registers that a plan's effects change.
fn registers_written(effects: &Effects) -> RegSet
    ensures { (r : Reg) → has_reg result r ≡ effects_write (all_effects effects.now) (InRegister (reg_number r)) }
{
    match effects {
        Effects::Nothing => RegSet::none(),
        Effects::One(first) => entry_registers(first),
        Effects::Two(first, second) => entry_registers(first).with(entry_registers(second)),
    }
}

/// A flag, where it is set.
fn flag_set(flag: Flag, out: FlagOut) -> FlagSet
    ensures { (f : Flag) → has_flag result f ≡ is_set_flag flag out f }
{
    match out {
        FlagOut::Set(_) => FlagSet::only(flag),
        FlagOut::Kept | FlagOut::Undefined => FlagSet::none(),
    }
}

/// The flags that are set.
fn flags_set(flags: &FlagsOut) -> FlagSet
    ensures { (f : Flag) → has_flag result f ≡ ((((is_set_flag Cf flags.now.cf f || is_set_flag Pf flags.now.pf f) || is_set_flag Zf flags.now.zf f) || is_set_flag Sf flags.now.sf f) || is_set_flag Of flags.now.of f) }
{
    flag_set(Flag::Cf, flags.cf)
        .with(flag_set(Flag::Pf, flags.pf))
        .with(flag_set(Flag::Zf, flags.zf))
        .with(flag_set(Flag::Sf, flags.sf))
        .with(flag_set(Flag::Of, flags.of))
}

/// The flags that an entry turns.
fn entry_flags(entry: &Entry) -> FlagSet
    ensures { (f : Flag) → has_flag result f ≡ effects_write (entry_effects entry.now) (InFlag (flag_number f)) }
{
    match entry {
        Entry::Turn(flag, _) => FlagSet::only(*flag),
        Entry::Flags(flags) => flags_set(flags),
        Entry::Set(..) | Entry::High(..) | Entry::Store { .. } => FlagSet::none(),
        Entry::Halves { .. } => FlagSet::none(),
        Entry::Quotient { .. } => FlagSet::none(),
        Entry::Copied { .. } => FlagSet::none(),
        Entry::Filled { .. } => FlagSet::none(),
    }
}

/// The flags that a plan's effects turn.
fn flags_written(effects: &Effects) -> FlagSet
    ensures { (f : Flag) → has_flag result f ≡ effects_write (all_effects effects.now) (InFlag (flag_number f)) }
{
    match effects {
        Effects::Nothing => FlagSet::none(),
        Effects::One(first) => entry_flags(first),
        Effects::Two(first, second) => entry_flags(first).with(entry_flags(second)),
    }
}

/// So many bytes from an address on.
fn span_of(at: u32, width: Width) -> Span
    ensures { result ≡ span_of_spec at (size width) }
{
    Span {
        start: at,
        end: at.wrapping_add(width.bytes()),
    }
}

/// The bytes of some elements, from the one at an address on.
fn elements_span(elements: Elements, at: u32) -> Span
    ensures { result ≡ elements_span_spec elements.down (size elements.width) elements.count at }
{
    let Elements { down, width, count } = elements;
    if down {
        let start = stepped(true, width, count.saturating_sub(1), at);
        let end = if count == 0 {
            start
        } else {
            at.wrapping_add(width.bytes())
        };
        Span { start, end }
    } else {
        let end = if count == 0 {
            at
        } else {
            stepped(false, width, count, at)
        };
        Span { start: at, end }
    }
}

/// Puts the numbers that were read behind other spans.
fn push_numbers(spans: &mut Vec<Span>, reads: &Reads) -> Result<(), AllocError>
    ensures { OnOk result (spans.new.items ≡ spans.old.items ++ number_spans_spec reads.now) }
{
    match reads {
        Reads::Nothing => {}
        Reads::One(first) => spans.push(span_of(first.at, first.width))?,
        Reads::Two(first, second) => {
            spans.push(span_of(first.at, first.width))?;
            spans.push(span_of(second.at, second.width))?;
        }
    }
    Ok(())
}

/// The elements that an entry copies.
fn source_spans(entry: &Entry) -> Option<Span>
    ensures { option_to_list result ≡ source_spans_spec entry.now }
{
    match entry {
        Entry::Copied {
            down,
            width,
            count,
            from,
            ..
        } => {
            let elements = Elements {
                down: *down,
                width: *width,
                count: *count,
            };
            Some(elements_span(elements, *from))
        }
        Entry::Set(..)
        | Entry::High(..)
        | Entry::Turn(..)
        | Entry::Flags(_)
        | Entry::Store { .. }
        | Entry::Halves { .. }
        | Entry::Quotient { .. }
        | Entry::Filled { .. } => None,
    }
}

/// The bytes that an entry writes.
fn target_spans(entry: &Entry) -> Option<Span>
    ensures { option_to_list result ≡ target_spans_spec entry.now }
{
    match entry {
        Entry::Store { at, width, .. } => Some(span_of(*at, *width)),
        Entry::Copied {
            down,
            width,
            count,
            to,
            ..
        }
        | Entry::Filled {
            down,
            width,
            count,
            to,
            ..
        } => {
            let elements = Elements {
                down: *down,
                width: *width,
                count: *count,
            };
            Some(elements_span(elements, *to))
        }
        Entry::Set(..)
        | Entry::High(..)
        | Entry::Turn(..)
        | Entry::Flags(_)
        | Entry::Halves { .. }
        | Entry::Quotient { .. } => None,
    }
}

/// Puts a span behind others, where there is one.
fn push(spans: &mut Vec<Span>, span: Option<Span>) -> Result<(), AllocError>
    ensures { OnOk result (spans.new.items ≡ spans.old.items ++ option_to_list span) }
{
    if let Some(span) = span {
        spans.push(span)?;
    }
    Ok(())
}

/// The bytes that a plan reads: the numbers that were read, and the elements that it copies.
fn spans_read(alloc: Global, reads: &Reads, effects: &Effects) -> Result<Vec<Span>, AllocError>
    ensures { IfOk result (λ v. v.items ≡ read_spans_spec reads.now effects.now) }
{
    let mut spans = Vec::new(alloc);
    push_numbers(&mut spans, reads)?;
    match effects {
        Effects::Nothing => {}
        Effects::One(first) => push(&mut spans, source_spans(first))?,
        Effects::Two(first, second) => {
            push(&mut spans, source_spans(first))?;
            push(&mut spans, source_spans(second))?;
        }
    }
    Ok(spans)
}

/// The bytes that a plan writes.
fn spans_written(alloc: Global, effects: &Effects) -> Result<Vec<Span>, AllocError>
    ensures { IfOk result (λ v. v.items ≡ of_entries target_spans_spec effects.now) }
{
    let mut spans = Vec::new(alloc);
    match effects {
        Effects::Nothing => {}
        Effects::One(first) => push(&mut spans, target_spans(first))?,
        Effects::Two(first, second) => {
            push(&mut spans, target_spans(first))?;
            push(&mut spans, target_spans(second))?;
        }
    }
    Ok(spans)
}

/// What a plan of an instruction does. The words tell which numbers were read for it, and how many words were taken.
pub(crate) fn places(
    alloc: Global,
    core: &Core,
    i: &Instr,
    words: &Words,
    plan: &Plan,
) -> Result<StepOut, AllocError>
    ensures { IfOk result (λ out. IsToldOf core.now i.now words.now plan.now out) }
{
    Ok(StepOut {
        reads: Touched {
            regs: registers_read(core, i),
            flags: flags_read(core, i),
            bytes: spans_read(alloc, &words.reads(), &plan.effects)?,
        },
        writes: Touched {
            regs: registers_written(&plan.effects),
            flags: flags_written(&plan.effects),
            bytes: spans_written(alloc, &plan.effects)?,
        },
        next: plan.place,
        forgets: plan.forgets,
        used: words.used() as u32,
    })
}
