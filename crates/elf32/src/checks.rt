//! The checks that need no memory, and the tables that they speak of.
ghost use Rattle.std.specs.Prelude.{◌≡◌, ◌<◌, ◌≤◌, ◌+◌, ◌^◌, [], length, find, IfOk, IfNone};
ghost use Rattle.std.specs.List.{list_any};
ghost use Rattle.std.specs.Option.{option_copied};
ghost use Rattle.elf32.specs.Checks.{no_header, wrong_identity, is_low_32, has_sections, wrong_sizes, wrong_header, short_tables, bias, is_load, loads, start_of, end_of, shares_address, memory_of, is_writable_code, own_cause, load_cause, loads_cause, segments_cause, is_read, ends_outside, sections};

use crate::error::ElfError;
use crate::fields::{
    ProgramHeader, SectionHeader, half, octet, program_header, section_header, word,
};
use image_map::{PF_W, PF_X};
use std::alloc::{AllocError, Global};

// Offsets of the fields of `Elf32_Ehdr`.
const E_TYPE: usize = 16;

const E_MACHINE: usize = 18;

pub const E_ENTRY: usize = 24;

const E_PHOFF: usize = 28;

const E_SHOFF: usize = 32;

const E_PHENTSIZE: usize = 42;

const E_PHNUM: usize = 44;

const E_SHENTSIZE: usize = 46;

const E_SHNUM: usize = 48;

const ET_EXEC: u16 = 2;

const ET_DYN: u16 = 3;

const EM_386: u16 = 3;

const PT_LOAD: u32 = 1;

pub const SHT_SYMTAB: u32 = 2;

pub const SHT_STRTAB: u32 = 3;

pub const SHT_REL: u32 = 9;

pub const SHT_DYNSYM: u32 = 11;

const HEADER_SIZE: usize = 52;

const MEMORY_LIMIT: u64 = 67_108_864;

/// Where a shared object is loaded.
const DYN_BIAS: u32 = 0x0040_0000;

#[tactic(auto, unfolding(crate::specs::Checks::no_header))]
pub fn no_header(bytes: &[u8]) -> Option<ElfError>
    requires { length bytes.now < 2 ^ 32 }
    ensures { result ≡ no_header bytes.now }
{
    if bytes.len() < HEADER_SIZE {
        Some(ElfError::Short(bytes.len() as u32))
    } else {
        None
    }
}

fn is_low_32(bytes: &[u8]) -> bool
    ensures { result ≡ is_low_32 bytes.now }
{
    octet(bytes, 4) == 1 && octet(bytes, 5) == 1
}

#[tactic(auto, unfolding(crate::specs::Checks::wrong_identity))]
pub fn wrong_identity(bytes: &[u8]) -> Option<ElfError>
    ensures { result ≡ wrong_identity bytes.now }
{
    if !bytes.starts_with(b"\x7fELF") {
        return Some(ElfError::Magic);
    }
    if !is_low_32(bytes) {
        return Some(ElfError::Class);
    }
    if half(bytes, E_MACHINE) != EM_386 {
        return Some(ElfError::Machine);
    }
    match half(bytes, E_TYPE) {
        ET_EXEC | ET_DYN => None,
        _ => Some(ElfError::Kind),
    }
}

fn has_sections(bytes: &[u8]) -> bool
    ensures { result ≡ has_sections bytes.now }
{
    word(bytes, E_SHOFF) != 0 && half(bytes, E_SHNUM) != 0
}

fn wrong_sizes(bytes: &[u8]) -> bool
    ensures { result ≡ wrong_sizes bytes.now }
{
    half(bytes, E_PHNUM) == 0
        || half(bytes, E_PHENTSIZE) != 32
        || (has_sections(bytes) && half(bytes, E_SHENTSIZE) != 40)
}

#[tactic(auto, unfolding(crate::specs::Checks::wrong_header))]
pub fn wrong_header(bytes: &[u8]) -> Option<ElfError>
    ensures { result ≡ wrong_header bytes.now }
{
    if wrong_sizes(bytes) {
        return Some(ElfError::Header(65_535));
    }
    if half(bytes, E_PHNUM) > 64 || half(bytes, E_SHNUM) > 1024 {
        Some(ElfError::TooMany)
    } else {
        None
    }
}

#[tactic(auto, unfolding(crate::specs::Checks::short_tables))]
pub fn short_tables(bytes: &[u8]) -> Option<ElfError>
    requires { length bytes.now < 2 ^ 32 }
    ensures { result ≡ short_tables bytes.now }
{
    let programs_end = word(bytes, E_PHOFF) as usize + 32 * half(bytes, E_PHNUM) as usize;
    let sections_end = word(bytes, E_SHOFF) as usize + 40 * half(bytes, E_SHNUM) as usize;
    if bytes.len() < programs_end || (has_sections(bytes) && bytes.len() < sections_end) {
        Some(ElfError::Short(bytes.len() as u32))
    } else {
        None
    }
}

/// How far the addresses in the file are moved up.
#[tactic(auto, unfolding(crate::specs::Checks::bias))]
pub fn bias(bytes: &[u8]) -> u32
    ensures bias { result ≡ bias bytes.now }
    ensures small { result < 2 ^ 31 }
{
    if half(bytes, E_TYPE) == ET_DYN {
        DYN_BIAS
    } else {
        0
    }
}

impl ProgramHeader {
    fn is_load(&self) -> bool
        ensures { result ≡ is_load self.now }
    {
        self.p_type == PT_LOAD && self.p_memsz > 0
    }

    /// The first address, as an integer.
    pub fn start(&self, bias: u32) -> u64
        ensures { result ≡ start_of bias self.now }
    {
        self.p_vaddr as u64 + bias as u64
    }

    /// The address behind the last byte, as an integer.
    pub fn end(&self, bias: u32) -> u64
        ensures { result ≡ end_of bias self.now }
    {
        self.p_vaddr as u64 + bias as u64 + self.p_memsz as u64
    }

    fn shares_address(&self, bias: u32, other: &ProgramHeader) -> bool
        ensures { result ≡ shares_address bias self.now other.now }
    {
        other.start(bias) < self.end(bias) && self.start(bias) < other.end(bias)
    }

    fn is_writable_code(&self) -> bool
        ensures { result ≡ is_writable_code self.now }
    {
        self.p_flags & PF_W == PF_W && self.p_flags & PF_X == PF_X
    }
}

/// The program headers of what is loaded, in order.
#[tactic(auto, unfolding(crate::specs::Checks::loads))]
pub fn loads(alloc: Global, bytes: &[u8]) -> Result<Vec<ProgramHeader>, AllocError>
    ensures { IfOk result (λ v. v.items ≡ loads bytes.now) }
{
    let table = word(bytes, E_PHOFF);
    let count = half(bytes, E_PHNUM) as u32;
    let mut loads = Vec::new(alloc);
    for index in 0..count {
        let header = program_header(bytes, table, index);
        if header.is_load() {
            loads.push(header)?;
        }
    }
    Ok(loads)
}

/// Why a segment can't be loaded, whatever the others are, from a file of `len` bytes.
#[tactic(auto, unfolding(crate::specs::Checks::own_cause))]
fn own_cause(len: u32, bias: u32, header: &ProgramHeader) -> Option<ElfError>
    ensures { result ≡ own_cause len bias header.now }
{
    if header.p_filesz > header.p_memsz {
        return Some(ElfError::Header(header.index));
    }
    if header.p_filesz > 0 && header.p_offset as u64 + header.p_filesz as u64 > len as u64 {
        return Some(ElfError::Short(len));
    }
    if header.start(bias) < 0x1000 || header.end(bias) > 0x7FFF_FFFF {
        return Some(ElfError::Range(header.index));
    }
    if header.is_writable_code() {
        Some(ElfError::WritableCode(header.index))
    } else {
        None
    }
}

/// The first segment that shares an address with this one.
fn sharing<'a>(
    bias: u32,
    before: &'a [ProgramHeader],
    header: &ProgramHeader,
) -> Option<&'a ProgramHeader>
    ensures { option_copied result ≡ find (shares_address bias header.now) before.now }
{
    before
        .iter()
        .find(|other| header.shares_address(bias, other))
}

/// Why a segment can't be loaded after the segments before it, which take `total` bytes of memory.
fn load_cause(
    len: u32,
    bias: u32,
    before: &[ProgramHeader],
    total: u64,
    header: &ProgramHeader,
) -> Option<ElfError>
    requires total { total ≡ memory_of before.now }
    requires few { total ≤ MEMORY_LIMIT }
    ensures cause { result ≡ load_cause len bias before.now header.now }
    ensures few { IfNone result (total + header.now.p_memsz ≤ MEMORY_LIMIT) }
{
    if let Some(cause) = own_cause(len, bias, header) {
        return Some(cause);
    }
    if let Some(other) = sharing(bias, before, header) {
        return Some(ElfError::Overlap(other.index, header.index));
    }
    if total + header.p_memsz as u64 > MEMORY_LIMIT {
        Some(ElfError::TooMany)
    } else {
        None
    }
}

/// The first cause to refuse one of the segments, in their order.
fn loads_cause(len: u32, bias: u32, loads: &[ProgramHeader]) -> Option<ElfError>
    ensures { result ≡ loads_cause len bias [] loads.now }
{
    let mut total = 0u64;
    for (i, header) in loads.iter().enumerate() {
        if let Some(cause) = load_cause(len, bias, &loads[..i], total, header) {
            return Some(cause);
        }
        total += header.p_memsz as u64;
    }
    None
}

/// The first cause to refuse the segments of a file of `len` bytes.
pub fn segments_cause(len: u32, bias: u32, loads: &[ProgramHeader]) -> Option<ElfError>
    ensures { result ≡ segments_cause len bias loads.now }
{
    match loads {
        [] => Some(ElfError::Header(0)),
        [_, ..] => loads_cause(len, bias, loads),
    }
}

/// The section headers.
#[tactic(auto, unfolding(crate::specs::Checks::sections))]
pub fn sections(alloc: Global, bytes: &[u8]) -> Result<Vec<SectionHeader>, AllocError>
    ensures { IfOk result (λ v. v.items ≡ sections bytes.now) }
{
    let mut sections = Vec::new(alloc);
    if !has_sections(bytes) {
        return Ok(sections);
    }
    let table = word(bytes, E_SHOFF);
    let count = half(bytes, E_SHNUM) as u32;
    for index in 0..count {
        sections.push(section_header(bytes, table, index))?;
    }
    Ok(sections)
}

impl SectionHeader {
    fn is_read(&self) -> bool
        ensures { result ≡ is_read self.now }
    {
        matches!(self.sh_type, SHT_SYMTAB | SHT_STRTAB | SHT_REL | SHT_DYNSYM)
    }

    fn ends_outside(&self, len: usize) -> bool
        ensures { result ≡ ends_outside len self.now }
    {
        self.is_read() && self.sh_size > 0 && self.sh_offset as usize + self.sh_size as usize > len
    }
}

/// Whether a section that is read ends after a file of `len` bytes.
pub fn sections_end_outside(len: usize, sections: &[SectionHeader]) -> bool
    ensures { result ≡ list_any (ends_outside len) sections.now }
{
    sections.iter().any(|s| s.ends_outside(len))
}
