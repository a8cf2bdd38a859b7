//! What an extern does where it is called: one step, after which it has returned.

ghost use Rattle.std.specs.Prelude.{◌≡◌, ◌⊎◌, ◌==◌, ℕ, ◌+◌, ◌*◌, ◌-◌, ◌^◌, ◌<◌, max, ◌≤◌, ◌||◌, ◌&&◌, nat_lt, true, false, Some, Err, [], ◌∷◌, is_some, IfOk, OnOk, MatchOption};
ghost use Rattle.image_map.specs.declared.image.Image.{Image};
ghost use Rattle.image_map.specs.declared.region.Kind.TheVariants as kind;
ghost use Rattle.image_map.specs.CallModel.{IsKind};
ghost use Rattle.image_map.specs.Ranges.{is_any};
ghost use Rattle.image_map.specs.Whole.{IsImage};
ghost use Rattle.ia32_types.specs.declared.Reg.{Reg as RegSpec};
ghost use Rattle.ia32_types.specs.declared.Reg.TheVariants.{Eax, Ecx, Edx, Esp};
ghost use Rattle.ia32_types.specs.declared.Flag.{Flag as FlagSpec};
ghost use Rattle.ia32_types.specs.declared.Flag.TheVariants.{Cf, Pf, Zf, Sf, Of};
ghost use Rattle.ia32_types.specs.Numbers.{is_same_reg, is_same_flag};
ghost use Rattle.ia32_types.specs.Sets.{has_reg, has_flag};
ghost use Rattle.ia32_semantics.specs.State.{word_at};
ghost use Rattle.ia32_semantics.specs.Effects.{all_among, is_mapped};
ghost use Rattle.ia32_semantics.specs.Outcome.{IsBlock};
ghost use Rattle.ia32_semantics.specs.Step.{Answers};
ghost use Rattle.ia32_memory.specs.Mapped.{bytes_of, is_in_first, is_open_at};
ghost use Rattle.image_map.specs.Shapes.{shapes};
ghost use Rattle.ia32_memory.specs.Changes.{filled_over, all_in_elements};
ghost use Rattle.ia32_machine.specs.Opens.{KnowsOpen};
ghost use Rattle.ia32_machine.specs.Machines.{state_of, entry_slot, RunsImage};
ghost use Rattle.ia32_run.specs.Answers.{others_of, plain_kind, with_given, IsToldOf, IsNothing};
ghost use Rattle.ia32_run.specs.Steps.{IsDone, CantBeDone};

use crate::answers::{are_eight, return_with};
use crate::heap::{base_given, newest_site};
use ia32_machine::{Machine, StepError, StepOut, Touched, can_move};
use ia32_memory::{Elements, Memory};
use ia32_plan::{Calls, Core};
use ia32_semantics::Allocation;
use ia32_types::{Flag, FlagSet, Reg, RegSet, Width};
use image_map::{Block, Kind, Span};
use std::alloc::{AllocError, Global};

/// The registers that an extern writes.
fn results() -> RegSet
    ensures { (r : RegSpec) → has_reg result r ≡ (((is_same_reg r Eax || is_same_reg r Ecx) || is_same_reg r Edx) || is_same_reg r Esp) }
{
    RegSet::only(Reg::Eax)
        .with(RegSet::only(Reg::Ecx))
        .with(RegSet::only(Reg::Edx))
        .with(RegSet::only(Reg::Esp))
}

/// The flags that it writes.
fn flags() -> FlagSet
    ensures { (f : FlagSpec) → has_flag result f ≡ ((((is_same_flag f Cf || is_same_flag f Pf) || is_same_flag f Zf) || is_same_flag f Sf) || is_same_flag f Of) }
{
    FlagSet::only(Flag::Cf)
        .with(FlagSet::only(Flag::Pf))
        .with(FlagSet::only(Flag::Zf))
        .with(FlagSet::only(Flag::Sf))
        .with(FlagSet::only(Flag::Of))
}

/// Spans of all that is mapped, where they are wanted.
fn all_mapped(alloc: Global, memory: &Memory, wanted: bool) -> Result<Vec<Span>, AllocError>
    ensures { IfOk result (λ v. (a : ℕ) → is_any v.items a ≡ (wanted && (is_some (bytes_of memory.now a) && nat_lt a (2 ^ 32 - 1)))) }
{
    if wanted {
        memory.mapped_spans(alloc)
    } else {
        Ok(Vec::new(alloc))
    }
}

/// One span as a list.
fn one(alloc: Global, span: Span) -> Result<Vec<Span>, AllocError>
    ensures { IfOk result (λ v. v.items ≡ span ∷ []) }
{
    let mut spans = Vec::new(alloc);
    spans.push(span)?;
    Ok(spans)
}

/// What an extern does that answers and returns to a place: it reads so many bytes from ESP on and maybe all of memory, and
/// writes the bytes of a span.
fn told(
    alloc: Global,
    core: &Core,
    reads: (u32, bool),
    written: Span,
    place: u32,
) -> Result<StepOut, AllocError>
    ensures { IfOk result (λ out. IsToldOf core.now reads.0 reads.1 written place out) }
{
    let (bytes, reads_all) = reads;
    let sp = core.regs[4];
    let mut read = all_mapped(alloc, &core.memory, reads_all)?;
    read.push(Span {
        start: sp,
        end: sp.wrapping_add(bytes),
    })?;
    Ok(StepOut {
        reads: Touched {
            regs: RegSet::only(Reg::Esp),
            flags: FlagSet::none(),
            bytes: read,
        },
        writes: Touched {
            regs: results(),
            flags: flags(),
            bytes: one(alloc, written)?,
        },
        next: place,
        forgets: Some(sp.wrapping_add(4)),
        used: 8,
    })
}

/// The return word at an address, where so many bytes from there on are mapped.
fn place_at(memory: &Memory, sp: u32, bytes: u32) -> Option<u32>
    requires { 4 ≤ bytes }
    ensures { MatchOption result (all_among (is_mapped (bytes_of memory.now)) sp bytes ≡ false) (λ place. (all_among (is_mapped (bytes_of memory.now)) sp bytes ≡ true) × (word_at (bytes_of memory.now) sp ≡ Some place)) }
{
    if !memory.is_mapped(sp, bytes) {
        return None;
    }
    memory.word(sp)
}

/// No bytes.
fn nothing() -> Span
    ensures { result ≡ record { start = 0; end = 0 } }
{
    Span { start: 0, end: 0 }
}

/// An extern that reads so many arguments, and maybe all of memory, answers.
fn answer_plain(
    machine: &mut Machine,
    alloc: Global,
    arguments: u32,
    reads_all: bool,
    words: &[u32; 8],
) -> Result<StepOut, StepError>
    requires { arguments ≤ 8 }
    ensures done { (image : Image) (at : ℕ) → IsImage image → RunsImage image machine.old → IfOk result (λ out. IsDone image (Answers at (plain_kind reads_all arguments)) words.now out (state_of machine.old) (state_of machine.new)) }
    ensures runs { (image : Image) → RunsImage image machine.old → OnOk result (RunsImage image machine.new) }
    ensures fault { (image : Image) (at : ℕ) → RunsImage image machine.old → result ≡ Err StepError.Fault → CantBeDone image (Answers at (plain_kind reads_all arguments)) words.now (state_of machine.old) }
{
    are_eight(words);
    let sp = machine.core.regs[4];
    let bytes = 4 + 4 * arguments;
    let place = match place_at(&machine.core.memory, sp, bytes) {
        None => return Err(StepError::Fault),
        Some(place) => place,
    };
    if !can_move(&Calls::Left, machine.frames.as_slice()) {
        return Err(StepError::Fault);
    }
    let out = match told(alloc, &machine.core, (bytes, reads_all), nothing(), place) {
        Err(_) => return Err(StepError::Memory),
        Ok(out) => out,
    };
    match return_with(machine, words, sp, place) {
        Err(_) => return Err(StepError::Memory),
        Ok(()) => {}
    }
    Ok(out)
}

/// What an extern does that ends the program: nothing.
fn told_nothing(alloc: Global, place: u32) -> StepOut
    ensures { IsNothing place result }
{
    StepOut {
        reads: Touched {
            regs: RegSet::none(),
            flags: FlagSet::none(),
            bytes: Vec::new(alloc),
        },
        writes: Touched {
            regs: RegSet::none(),
            flags: FlagSet::none(),
            bytes: Vec::new(alloc),
        },
        next: place,
        forgets: None,
        used: 0,
    }
}

/// A call asked for a block, and was given it unless the base is 0.
fn give(machine: &mut Machine, alloc: Global, at: u32, block: Block) -> Result<(), AllocError>
    requires { (block.base ≡ 0) ⊎ IsBlock machine.old.slot machine.old.blocks.items block }
    ensures state { OnOk result (state_of machine.new ≡ with_given (block.base == 0) at block.site block.base block.size (state_of machine.old)) }
    ensures open { OnOk result ((image : Image) → IsImage image → KnowsOpen image machine.old.core.memory → KnowsOpen image machine.new.core.memory) }
    ensures stack { OnOk result ((a : ℕ) → is_in_first machine.new.core.memory a ≡ is_in_first machine.old.core.memory a) }
{
    machine.allocs.push(Allocation {
        site: block.site,
        extern_at: at,
        base: block.base,
        size: block.size,
    })?;
    if block.base == 0 {
        return Ok(());
    }
    machine.add_block(alloc, block)?;
    Ok(())
}

/// Eight words with another first.
fn with_first(first: u32, words: &[u32; 8]) -> [u32; 8]
    ensures { result ≡ first ∷ others_of words.now }
{
    let [_, ecx, edx, cf, pf, zf, sf, of] = *words;
    [first, ecx, edx, cf, pf, zf, sf, of]
}

/// An extern that allocates answers.
fn answer_alloc(
    machine: &mut Machine,
    alloc: Global,
    words: &[u32; 8],
) -> Result<StepOut, StepError>
    requires { machine.old.slot ≡ entry_slot }
    ensures done { (image : Image) → IsImage image → RunsImage image machine.old → IfOk result (λ out. IsDone image (Answers machine.old.core.eip kind.Alloc) words.now out (state_of machine.old) (state_of machine.new)) }
    ensures runs { (image : Image) → IsImage image → RunsImage image machine.old → OnOk result (RunsImage image machine.new) }
    ensures fault { (image : Image) → IsImage image → RunsImage image machine.old → result ≡ Err StepError.Fault → CantBeDone image (Answers machine.old.core.eip kind.Alloc) words.now (state_of machine.old) }
{
    are_eight(words);
    let sp = machine.core.regs[4];
    let at = machine.core.eip;
    let place = match place_at(&machine.core.memory, sp, 8) {
        None => return Err(StepError::Fault),
        Some(place) => place,
    };
    let size = match machine.core.memory.word(sp.wrapping_add(4)) {
        None => return Err(StepError::Fault),
        Some(size) => size,
    };
    if !can_move(&Calls::Left, machine.frames.as_slice()) {
        return Err(StepError::Fault);
    }
    let site = newest_site(machine.frames.as_slice());
    let base = base_given(machine.blocks.as_slice(), words[0], size);
    let out = match told(alloc, &machine.core, (8, false), nothing(), place) {
        Err(_) => return Err(StepError::Memory),
        Ok(out) => out,
    };
    let results = with_first(base, words);
    match return_with(machine, &results, sp, place) {
        Err(_) => return Err(StepError::Memory),
        Ok(()) => {}
    }
    match give(machine, alloc, at, Block { site, base, size }) {
        Err(_) => return Err(StepError::Memory),
        Ok(()) => {}
    }
    Ok(out)
}

/// The words of two arguments, counted from 1, where the return word and all arguments up to the later one are mapped.
fn range_at(memory: &Memory, sp: u32, buffer: u32, len: u32) -> Option<(u32, u32)>
    requires buffer { (1 ≤ buffer) × (buffer ≤ 8) }
    requires len { (1 ≤ len) × (len ≤ 8) }
    ensures { ((a : ℕ) → is_mapped (bytes_of memory.now) a ≡ true → a + 4 < 2 ^ 32) → MatchOption result (all_among (is_mapped (bytes_of memory.now)) sp (4 + 4 * max buffer len) ≡ false) (λ r. (all_among (is_mapped (bytes_of memory.now)) sp (4 + 4 * max buffer len) ≡ true) × (word_at (bytes_of memory.now) (sp + 4 * buffer) ≡ Some r.0) × (word_at (bytes_of memory.now) (sp + 4 * len) ≡ Some r.1)) }
{
    if !memory.is_mapped(sp, 4 + 4 * buffer.max(len)) {
        return None;
    }
    match memory.word(sp.wrapping_add(4 * buffer)) {
        None => None,
        Some(to) => match memory.word(sp.wrapping_add(4 * len)) {
            None => None,
            Some(count) => Some((to, count)),
        },
    }
}

/// Stores a byte in so many addresses from one on.
fn fill(machine: &mut Machine, to: u32, count: u32, byte: u32)
    ensures state { state_of machine.new ≡ record (state_of machine.old) { memory = filled_over false 1 byte count to (state_of machine.old).memory } }
    ensures shapes { shapes machine.new.core.memory ≡ shapes machine.old.core.memory }
    ensures registers { machine.new.core.regs ≡ machine.old.core.regs }
    ensures frames { machine.new.frames.items ≡ machine.old.frames.items }
{
    let elements = Elements {
        down: false,
        width: Width::B8,
        count,
    };
    machine.core.memory.fill(elements, to, byte);
}

/// Whether each of so many bytes from an address on may be written.
fn is_range_open(memory: &Memory, to: u32, count: u32) -> bool
    ensures { result ≡ all_in_elements (is_open_at memory.now) false 1 count to }
{
    let elements = Elements {
        down: false,
        width: Width::B8,
        count,
    };
    memory.are_open(elements, to)
}

/// An extern that fills answers: as many bytes as one argument says, from where another one says, take a byte of the first word.
fn answer_fills(
    machine: &mut Machine,
    alloc: Global,
    arguments: (u32, u32),
    words: &[u32; 8],
) -> Result<StepOut, StepError>
    requires { IsKind (kind.Fills arguments.0 arguments.1) }
    ensures done { (image : Image) (at : ℕ) → IsImage image → RunsImage image machine.old → IfOk result (λ out. IsDone image (Answers at (kind.Fills arguments.0 arguments.1)) words.now out (state_of machine.old) (state_of machine.new)) }
    ensures runs { (image : Image) → IsImage image → RunsImage image machine.old → OnOk result (RunsImage image machine.new) }
    ensures fault { (image : Image) (at : ℕ) → IsImage image → RunsImage image machine.old → result ≡ Err StepError.Fault → CantBeDone image (Answers at (kind.Fills arguments.0 arguments.1)) words.now (state_of machine.old) }
{
    are_eight(words);
    let (buffer, len) = arguments;
    let sp = machine.core.regs[4];
    let (to, count) = match range_at(&machine.core.memory, sp, buffer, len) {
        None => return Err(StepError::Fault),
        Some(range) => range,
    };
    if !is_range_open(&machine.core.memory, to, count) {
        return Err(StepError::Fault);
    }
    if !can_move(&Calls::Left, machine.frames.as_slice()) {
        return Err(StepError::Fault);
    }
    fill(machine, to, count, words[0] / 65_536 % 256);
    let place = match machine.core.memory.word(sp) {
        None => return Err(StepError::Fault),
        Some(place) => place,
    };
    let written = Span {
        start: to,
        end: to.wrapping_add(count),
    };
    let bytes = 4 + 4 * buffer.max(len);
    let out = match told(alloc, &machine.core, (bytes, false), written, place) {
        Err(_) => return Err(StepError::Memory),
        Ok(out) => out,
    };
    match return_with(machine, words, sp, place) {
        Err(_) => return Err(StepError::Memory),
        Ok(()) => {}
    }
    Ok(out)
}

/// An extern of a kind answers where the machine stands. After an error for want of memory the machine is of no use.
pub(crate) fn answer(
    machine: &mut Machine,
    alloc: Global,
    kind: &Kind,
    words: &[u32; 8],
) -> Result<StepOut, StepError>
    requires kind { IsKind kind.now }
    requires slot { machine.old.slot ≡ entry_slot }
    ensures done { (image : Image) → IsImage image → RunsImage image machine.old → IfOk result (λ out. IsDone image (Answers machine.old.core.eip kind.now) words.now out (state_of machine.old) (state_of machine.new)) }
    ensures runs { (image : Image) → IsImage image → RunsImage image machine.old → OnOk result (RunsImage image machine.new) }
    ensures fault { (image : Image) → IsImage image → RunsImage image machine.old → result ≡ Err StepError.Fault → CantBeDone image (Answers machine.old.core.eip kind.now) words.now (state_of machine.old) }
{
    match kind {
        Kind::Pure(arguments) => answer_plain(machine, alloc, *arguments, false, words),
        Kind::Reader(arguments) => answer_plain(machine, alloc, *arguments, true, words),
        Kind::Alloc => answer_alloc(machine, alloc, words),
        Kind::Stop => Ok(told_nothing(alloc, machine.core.eip)),
        Kind::Unknown => Err(StepError::Fault),
        Kind::Fills(buffer, len) => answer_fills(machine, alloc, (*buffer, *len), words),
    }
}
