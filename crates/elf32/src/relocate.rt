//! Relocations, applied in order.
ghost use Rattle.std.specs.Prelude.{◌≡◌, ℕ, ◌+◌, ◌/◌, ◌<◌, ◌≤◌, ◌++◌, ◌⊎◌, if◌then◌else◌, length, map, find, position, ◌^◌, IfSome, Ok, Err, IfErr, OnOk};
ghost use Rattle.std.specs.List.{flat_map, list_any};
ghost use Rattle.std.specs.Option.{option_copied};
ghost use Rattle.image_map.specs.Memory.{byte_of};
ghost use Rattle.image_map.specs.Shapes.{shapes};
ghost use Rattle.elf32.specs.declared.error.ElfError.TheVariants as errors;
ghost use Rattle.elf32.specs.Fields.{rows};
ghost use Rattle.elf32.specs.Checks.{end_of, has_type};
ghost use Rattle.elf32.specs.Names.{section_of};
ghost use Rattle.elf32.specs.Shapes.{load_shape, AreLow, has_whole_word};
ghost use Rattle.elf32.specs.Relocating.{place_of, has_word, target, is_kind, uses_symbol, is_undefined, same_symbol, externs_after, symbol_value, memory_after, words_after, step_at, step, relocated, relocation, linked_table as table_of, relocations_of, Advances, Stops};
ghost use Rattle.elf32.specs.Programs.{shown};

use crate::checks::{SHT_DYNSYM, SHT_REL};
use crate::error::ElfError;
use crate::fields::{
    ProgramHeader, Relocation, SectionHeader, SymbolEntry, SymbolId, relocation_at,
};
use crate::memory::Memory;
use image_map::extern_address;
use std::alloc::{AllocError, Global};

// Kinds of relocations (`R_386_`).
const NONE: u32 = 0;

const ADD_SYMBOL: u32 = 1;

const COPY: u32 = 5;

const GLOB_DAT: u32 = 6;

const JMP_SLOT: u32 = 7;

const RELATIVE: u32 = 8;

const RELOCATION_LIMIT: u32 = 65_536;

const EXTERN_LIMIT: usize = 1024;

/// A load under way: its memory, the undefined symbols used so far, and the places of the words that were
/// stored.
#[derive(Drop)]
pub struct Program {
    pub memory: Memory,
    pub externs: Vec<SymbolId>,
    pub words: Vec<u32>,
}

impl SymbolId {
    fn is_same(&self, other: &SymbolId) -> bool
        ensures { result ≡ same_symbol self.now other.now }
    {
        self.table == other.table && self.index == other.index
    }
}

impl Relocation {
    /// Where the relocation writes, as an integer.
    fn place(&self, bias: u32) -> u64
        ensures { result ≡ place_of bias self.now }
    {
        self.r_offset as u64 + bias as u64
    }

    fn is_kind(&self) -> bool
        ensures { result ≡ is_kind self.now.kind }
    {
        matches!(self.kind, NONE | ADD_SYMBOL | COPY..=RELATIVE)
    }

    fn uses_symbol(&self) -> bool
        ensures { result ≡ uses_symbol self.now.kind }
    {
        matches!(self.kind, ADD_SYMBOL | GLOB_DAT | JMP_SLOT)
    }
}

impl SymbolEntry {
    fn is_undefined(&self) -> bool
        ensures { result ≡ is_undefined self.now }
    {
        self.st_shndx == 0
    }
}

impl ProgramHeader {
    fn has_word(&self, bias: u32, r: &Relocation) -> bool
        ensures { result ≡ has_word bias (place_of bias r.now) self.now }
    {
        let place = r.place(bias);
        self.start(bias) <= place && place + 4 <= self.end(bias)
    }
}

/// The segment that has the whole word of a relocation.
fn target<'a>(bias: u32, loads: &'a [ProgramHeader], r: &Relocation) -> Option<&'a ProgramHeader>
    ensures { option_copied result ≡ target bias loads.now r.now }
{
    loads.iter().find(|h| h.has_word(bias, r))
}

/// Counts the symbol of a relocation among the externs, where it is one.
#[tactic(auto, unfolding(crate::specs::Relocating::externs_after))]
fn note_extern(
    externs: &mut Vec<SymbolId>,
    r: &Relocation,
    symbol: &SymbolEntry,
) -> Result<(), AllocError>
    ensures { OnOk result (externs.new.items ≡ externs_after externs.old.items r.now symbol.now) }
{
    if r.uses_symbol() && symbol.is_undefined() && !is_among(externs.as_slice(), &r.id) {
        externs.push(r.id)?;
    }
    Ok(())
}

fn is_among(externs: &[SymbolId], id: &SymbolId) -> bool
    ensures { result ≡ list_any (same_symbol id.now) externs.now }
{
    externs.iter().any(|e| id.is_same(e))
}

fn number_of(externs: &[SymbolId], id: &SymbolId) -> Option<usize>
    ensures number { result ≡ position (same_symbol id.now) externs.now }
    ensures below { IfSome result (λ i. i < length externs.now) }
{
    externs.iter().position(|e| id.is_same(e))
}

/// The value of a symbol: that of the image, or where its extern stands.
#[tactic(auto, unfolding(crate::specs::Relocating::symbol_value))]
fn symbol_value(bias: u32, externs: &[SymbolId], r: &Relocation, symbol: &SymbolEntry) -> u32
    requires { length externs.now ≤ EXTERN_LIMIT }
    ensures { result ≡ symbol_value bias externs.now r.now symbol.now }
{
    if !symbol.is_undefined() {
        return symbol.st_value.wrapping_add(bias);
    }
    match number_of(externs, &r.id) {
        Some(number) => extern_address(number as u32),
        None => extern_address(0),
    }
}

/// Changes the memory as a relocation says.
#[tactic(auto, unfolding(crate::specs::Relocating::memory_after))]
fn change(
    alloc: Global,
    memory: &mut Memory,
    bias: u32,
    load: &ProgramHeader,
    value: u32,
    r: &Relocation,
    symbol: &SymbolEntry,
) -> Result<(), AllocError>
    requires whole { has_whole_word (shapes memory.old.segments.items) (place_of bias r.now) }
    requires inside { place_of bias r.now + 4 ≤ end_of bias load.now }
    requires low { end_of bias load.now ≤ 0x7FFFFFFF }
    ensures changed { OnOk result ((a : ℕ) → byte_of memory.new.segments.items memory.new.any_bytes a ≡ memory_after bias load.now value r.now symbol.now (byte_of memory.old.segments.items memory.old.any_bytes) a) }
    ensures shapes { shapes memory.new.segments.items ≡ shapes memory.old.segments.items }
{
    let place = r.place(bias) as u32;
    match r.kind {
        NONE => Ok(()),
        COPY => {
            let end = (place as u64 + symbol.st_size as u64).min(load.end(bias));
            memory.lose(alloc, place, end as u32)
        }
        RELATIVE => memory.add(alloc, place, bias),
        ADD_SYMBOL => memory.add(alloc, place, value),
        _ => memory.store(alloc, place, value),
    }
}

/// Notes the word that a relocation stores.
#[tactic(auto, unfolding(crate::specs::Relocating::words_after))]
fn note_word(words: &mut Vec<u32>, bias: u32, r: &Relocation) -> Result<(), AllocError>
    requires { place_of bias r.now < 2 ^ 32 }
    ensures { OnOk result (words.new.items ≡ words_after bias words.old.items r.now) }
{
    if r.kind != NONE && r.kind != COPY {
        words.push(r.place(bias) as u32)?;
    }
    Ok(())
}

/// Applies a relocation of a known kind, with its symbol and the segment that it writes to.
fn apply(
    alloc: Global,
    bias: u32,
    load: &ProgramHeader,
    index: u32,
    r: &Relocation,
    symbol: &SymbolEntry,
    program: &mut Program,
) -> Result<(), ElfError>
    requires whole { has_whole_word (shapes program.old.memory.segments.items) (place_of bias r.now) }
    requires inside { place_of bias r.now + 4 ≤ end_of bias load.now }
    requires low { end_of bias load.now ≤ 0x7FFFFFFF }
    ensures ok { OnOk result (step_at bias index (shown program.old) r.now symbol.now load.now ≡ Ok (shown program.new)) }
    ensures err { IfErr result (λ e. (e ≡ errors.Memory) ⊎ (step_at bias index (shown program.old) r.now symbol.now load.now ≡ Err e)) }
    ensures shapes { shapes program.new.memory.segments.items ≡ shapes program.old.memory.segments.items }
    ensures few { OnOk result (index < RELOCATION_LIMIT) }
{
    note_extern(&mut program.externs, r, symbol)?;
    if index >= RELOCATION_LIMIT || program.externs.len() > EXTERN_LIMIT {
        return Err(ElfError::TooMany);
    }
    let value = symbol_value(bias, program.externs.as_slice(), r, symbol);
    change(alloc, &mut program.memory, bias, load, value, r, symbol)?;
    note_word(&mut program.words, bias, r)?;
    Ok(())
}

/// Applies a relocation, or refuses it.
#[tactic(auto, unfolding(crate::specs::Relocating::step))]
fn relocate(
    alloc: Global,
    bias: u32,
    loads: &[ProgramHeader],
    index: u32,
    r: &Relocation,
    program: &mut Program,
) -> Result<(), ElfError>
    requires low { AreLow bias loads.now }
    requires fits { shapes program.old.memory.segments.items ≡ map (load_shape bias) loads.now }
    ensures ok { OnOk result (step bias loads.now index (shown program.old) r.now ≡ Ok (shown program.new)) }
    ensures err { IfErr result (λ e. (e ≡ errors.Memory) ⊎ (step bias loads.now index (shown program.old) r.now ≡ Err e)) }
    ensures fits { shapes program.new.memory.segments.items ≡ map (load_shape bias) loads.now }
    ensures few { OnOk result (index < RELOCATION_LIMIT) }
{
    let Some(symbol) = r.symbol else {
        return Err(ElfError::Relocation(index, r.kind));
    };
    let Some(load) = target(bias, loads, r) else {
        return Err(ElfError::Relocation(index, r.kind));
    };
    if !r.is_kind() {
        return Err(ElfError::Relocation(index, r.kind));
    }
    apply(alloc, bias, load, index, r, &symbol, program)
}

/// Applies the relocations of a section, whose symbols stand in a table. `index` counts the relocations
/// before.
fn relocate_section(
    alloc: Global,
    bytes: &[u8],
    bias: u32,
    loads: &[ProgramHeader],
    section: &SectionHeader,
    table: &SectionHeader,
    index: &mut u32,
    program: &mut Program,
) -> Result<(), ElfError>
    requires low { AreLow bias loads.now }
    requires fits { shapes program.old.memory.segments.items ≡ map (load_shape bias) loads.now }
    ensures ok { OnOk result (Advances bias loads.now index.old (shown program.old) (rows (relocation bytes.now section.now table.now) (section.now.sh_size / 8)) index.new (shown program.new)) }
    ensures err { IfErr result (λ e. (e ≡ errors.Memory) ⊎ Stops bias loads.now index.old (shown program.old) (rows (relocation bytes.now section.now table.now) (section.now.sh_size / 8)) e) }
    ensures fits { shapes program.new.memory.segments.items ≡ map (load_shape bias) loads.now }
{
    let count = section.sh_size / 8;
    for at in 0..count {
        let r = relocation_at(bytes, section, table, at);
        relocate(alloc, bias, loads, *index, &r, program)?;
        *index += 1;
    }
    Ok(())
}

/// The symbol table of a section of relocations.
fn linked_table<'a>(
    sections: &'a [SectionHeader],
    section: &SectionHeader,
) -> Option<&'a SectionHeader>
    ensures { option_copied result ≡ table_of sections.now section.now }
{
    if section.sh_type != SHT_REL {
        return None;
    }
    sections
        .get(section.sh_link as usize)
        .filter(|table| table.sh_type == SHT_DYNSYM)
}

/// Applies all relocations of a file, in the order of its sections.
pub fn relocate_all(
    alloc: Global,
    bytes: &[u8],
    bias: u32,
    loads: &[ProgramHeader],
    sections: &[SectionHeader],
    program: &mut Program,
) -> Result<(), ElfError>
    requires low { AreLow bias loads.now }
    requires fits { shapes program.old.memory.segments.items ≡ map (load_shape bias) loads.now }
    ensures ok { OnOk result (relocated bias loads.now 0 (shown program.old) (flat_map (relocations_of bytes.now sections.now) sections.now) ≡ Ok (shown program.new)) }
    ensures err { IfErr result (λ e. (e ≡ errors.Memory) ⊎ (relocated bias loads.now 0 (shown program.old) (flat_map (relocations_of bytes.now sections.now) sections.now) ≡ Err e)) }
    ensures fits { shapes program.new.memory.segments.items ≡ map (load_shape bias) loads.now }
{
    let mut index = 0;
    for section in sections {
        if let Some(table) = linked_table(sections, section) {
            relocate_section(
                alloc, bytes, bias, loads, section, table, &mut index, program,
            )?;
        }
    }
    Ok(())
}
