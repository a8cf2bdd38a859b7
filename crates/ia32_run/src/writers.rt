//! Which step of a run wrote each place last.

ghost use Rattle.std.specs.Prelude.{◌-◌, ◌^◌, min, List, [], ◌∷◌, ◌++◌, length, None, ◌≡◌, ◌↔◌, ◌⊎◌, ℕ, ◌<◌, ◌+◌, ◌≤◌, ◌&&◌, true, if◌then◌else◌, Some, Contains, OnOk, IfOk};
ghost use Rattle.std.specs.List.Sorted.{IsStrictlyIncreasing};
ghost use Rattle.item_list.specs.Ranges.{within};
ghost use Rattle.last_writers.specs.Writers.{writer_at};
ghost use Rattle.ia32_types.specs.Sets.{has_number};
ghost use Rattle.ia32_semantics.specs.Machine.{Occurrence};
ghost use Rattle.ia32_semantics.specs.Outcome.{is_in_stack, is_below};
ghost use Rattle.ia32_semantics.specs.Step.{Act, reads as reads_spec, writes};
ghost use Rattle.ia32_semantics.specs.CallModel.{IsEntrySlot};
ghost use Rattle.ia32_machine.specs.Touches.{IsTouched};
ghost use Rattle.ia32_run.specs.Writers.{is_wanted as is_wanted_spec, WroteSpans, WroteNumbers, WritesSpans, WritesNumbers, KnowsWriters, ForgetsBelow, ListsSources};

use ia32_machine::{StepOut, Touched};
use ia32_types::NumberSet;
use image_map::Span;
use last_writers::LastWriters;
use std::alloc::{AllocError, Global};

/// The step that wrote each register, flag and byte last.
#[derive(Debug, Drop)]
pub struct Writers {
    /// Registers at their numbers, and flags 8 higher.
    pub places: LastWriters,
    pub bytes: LastWriters,
}

fn write_span(
    alloc: Global,
    writers: &mut LastWriters,
    span: &Span,
    step: u32,
) -> Result<(), AllocError>
    ensures { OnOk result ((a : ℕ) → writer_at writers.new a ≡ (if within span.now.start span.now.end a then Some step else writer_at writers.old a)) }
{
    if span.start < span.end {
        writers.set(alloc, span.start, span.end, Some(step))?;
    }
    Ok(())
}

/// A step has written these spans.
fn write_spans(
    alloc: Global,
    writers: &mut LastWriters,
    spans: &[Span],
    step: u32,
) -> Result<(), AllocError>
    ensures { OnOk result (WroteSpans spans.now step writers.old writers.new) }
{
    for span in spans {
        write_span(alloc, writers, span, step)?;
    }
    Ok(())
}

fn write_number(
    alloc: Global,
    writers: &mut LastWriters,
    numbers: NumberSet,
    place: (u32, u32),
    step: u32,
) -> Result<(), AllocError>
    requires few { place.1 < 8 }
    requires low { place.0 ≤ 8 }
    ensures { OnOk result ((a : ℕ) → writer_at writers.new a ≡ (if within (place.0 + place.1) (place.0 + place.1 + 1) a && has_number numbers place.1 then Some step else writer_at writers.old a)) }
{
    let (low, n) = place;
    if numbers.has(n) {
        writers.set(alloc, low + n, low + n + 1, Some(step))?;
    }
    Ok(())
}

/// A step has written those of so many numbers that a set has. The numbers stand from an address on.
fn write_numbers(
    alloc: Global,
    writers: &mut LastWriters,
    numbers: NumberSet,
    range: (u32, u32),
    step: u32,
) -> Result<(), AllocError>
    requires low { range.0 ≤ 8 }
    requires few { range.1 ≤ 8 }
    ensures { OnOk result (WroteNumbers numbers range.0 range.1 step writers.old writers.new) }
{
    let (low, count) = range;
    for n in 0..count {
        write_number(alloc, writers, numbers, (low, n), step)?;
    }
    Ok(())
}

fn add_span(
    alloc: Global,
    found: &mut Vec<u32>,
    writers: &LastWriters,
    span: &Span,
) -> Result<(), AllocError>
    ensures { OnOk result ((i : ℕ) → Contains found.new.items i ↔ (Contains found.old.items i ⊎ ((a : ℕ) × (within span.now.start span.now.end a ≡ true) × (writer_at writers.now a ≡ Some i)))) }
{
    if span.start < span.end {
        let steps = writers.writers(alloc, span.start, span.end)?;
        found.extend_from_slice(steps.as_slice())?;
    }
    Ok(())
}

/// Puts the last writers of these spans behind others.
fn add_spans(
    alloc: Global,
    found: &mut Vec<u32>,
    writers: &LastWriters,
    spans: &[Span],
) -> Result<(), AllocError>
    ensures { OnOk result ((i : ℕ) → Contains found.new.items i ↔ (Contains found.old.items i ⊎ WritesSpans writers.now spans.now i)) }
{
    for span in spans {
        add_span(alloc, found, writers, span)?;
    }
    Ok(())
}

/// Whether a set has a number other than one that is left out.
fn is_wanted(numbers: NumberSet, skip: u32, n: u32) -> bool
    requires { n < 8 }
    ensures { result ≡ is_wanted_spec numbers skip n }
{
    numbers.has(n) && n != skip
}

fn add_number(
    alloc: Global,
    found: &mut Vec<u32>,
    writers: &LastWriters,
    set: (NumberSet, u32),
    place: (u32, u32),
) -> Result<(), AllocError>
    requires few { place.1 < 8 }
    requires low { place.0 ≤ 8 }
    ensures { OnOk result ((i : ℕ) → Contains found.new.items i ↔ (Contains found.old.items i ⊎ ((is_wanted_spec set.0 set.1 place.1 ≡ true) × (writer_at writers.now (place.0 + place.1) ≡ Some i)))) }
{
    let (low, n) = place;
    if is_wanted(set.0, set.1, n) {
        let span = Span {
            start: low + n,
            end: low + n + 1,
        };
        add_span(alloc, found, writers, &span)?;
    }
    Ok(())
}

/// Puts the last writers of those of so many numbers that a set has, but for one that is left out, behind others. The
/// numbers stand from an address on.
fn add_numbers(
    alloc: Global,
    found: &mut Vec<u32>,
    writers: &LastWriters,
    set: (NumberSet, u32),
    range: (u32, u32),
) -> Result<(), AllocError>
    requires low { range.0 ≤ 8 }
    requires few { range.1 ≤ 8 }
    ensures { OnOk result ((i : ℕ) → Contains found.new.items i ↔ (Contains found.old.items i ⊎ WritesNumbers writers.now set.0 set.1 range.0 range.1 i)) }
{
    let (low, count) = range;
    for n in 0..count {
        add_number(alloc, found, writers, set, (low, n))?;
    }
    Ok(())
}

/// These numbers, rising and each once.
pub fn listed(mut found: Vec<u32>) -> Vec<u32>
    ensures rising { IsStrictlyIncreasing result.items }
    ensures same { (i : ℕ) → Contains result.items i ↔ Contains found.items i }
{
    found.sort_unstable();
    found.dedup();
    found
}

/// The number of the register that is left out, where ESP is, and one that no register has.
fn left_out(skip_sp: bool) -> u32
    ensures { result ≡ (if skip_sp then 4 else 8) }
{
    if skip_sp { 4 } else { 8 }
}

/// The first address of the stack of a run.
fn stack_start(slot: u32) -> u32
    requires { IsEntrySlot slot }
    ensures { result ≡ slot - 2 ^ 20 }
{
    slot - 0x10_0000
}

/// The first address behind the stack of a run that isn't below an address.
fn stack_end(slot: u32, below: u32) -> u32
    requires { IsEntrySlot slot }
    ensures { result ≡ min below (slot + 2 ^ 16) }
{
    below.min(slot + 0x1_0000)
}

/// The bytes of the stack below an address have no writer.
fn forget(
    alloc: Global,
    writers: &mut LastWriters,
    slot: u32,
    below: Option<u32>,
) -> Result<(), AllocError>
    requires { IsEntrySlot slot }
    ensures { OnOk result ((a : ℕ) → writer_at writers.new a ≡ (if is_in_stack slot a && is_below below a then None else writer_at writers.old a)) }
{
    match below {
        None => {}
        Some(below) => {
            let start = stack_start(slot);
            let end = stack_end(slot, below);
            if start < end {
                writers.set(alloc, start, end, None)?;
            }
        }
    }
    Ok(())
}

impl Writers {
    /// Nothing was written.
    pub fn new(alloc: Global) -> Writers
        ensures { KnowsWriters result [] }
    {
        Writers {
            places: LastWriters::new(alloc),
            bytes: LastWriters::new(alloc),
        }
    }

    /// Takes over what a step wrote and forgot, of a run whose entry's return slot has an address. After an error the
    /// writers are of no use.
    pub fn note(
        &mut self,
        alloc: Global,
        out: &StepOut,
        slot: u32,
        step: u32,
    ) -> Result<(), AllocError>
        requires { IsEntrySlot slot }
        ensures { OnOk result ((run : List (Occurrence Act)) (o : Occurrence Act) → length run ≡ step → IsTouched out.now.writes (writes o) → ForgetsBelow slot out.now.forgets o → KnowsWriters self.old run → KnowsWriters self.new (run ++ o ∷ [])) }
    {
        let writes = &out.writes;
        write_numbers(alloc, &mut self.places, writes.regs.numbers(), (0, 8), step)?;
        write_numbers(
            alloc,
            &mut self.places,
            writes.flags.numbers(),
            (8, 6),
            step,
        )?;
        write_spans(alloc, &mut self.bytes, writes.bytes.as_slice(), step)?;
        forget(alloc, &mut self.bytes, slot, out.forgets)?;
        Ok(())
    }

    /// The steps that wrote last what a step reads, rising. ESP may be left out.
    pub fn sources(
        &self,
        alloc: Global,
        reads: &Touched,
        skip_sp: bool,
    ) -> Result<Vec<u32>, AllocError>
        ensures { IfOk result (λ v. (run : List (Occurrence Act)) (o : Occurrence Act) → IsTouched reads.now (reads_spec o) → KnowsWriters self.now run → ListsSources skip_sp run o v.items) }
    {
        let skip = left_out(skip_sp);
        let mut found = Vec::new(alloc);
        add_numbers(
            alloc,
            &mut found,
            &self.places,
            (reads.regs.numbers(), skip),
            (0, 8),
        )?;
        add_numbers(
            alloc,
            &mut found,
            &self.places,
            (reads.flags.numbers(), 8),
            (8, 6),
        )?;
        add_spans(alloc, &mut found, &self.bytes, reads.bytes.as_slice())?;
        Ok(listed(found))
    }
}
