//! The string tables of a file, and where names stand in them.
ghost use Rattle.std.specs.Prelude.{◌≡◌, ◌+◌, ◌≤◌, ◌<◌, ◌^◌, length, IfOk, IfSome};
ghost use Rattle.std.specs.List.{list_any};
ghost use Rattle.std.specs.Option.{option_copied};
ghost use Rattle.elf32.specs.Names.{is_linked as is_linked_spec, section_of as section_of_spec, string_bytes as string_bytes_spec};
ghost use Rattle.elf32.specs.Strings.{AreStrings, HaveTables, IsStringLen, linked_bytes as linked_bytes_spec, name_start as name_start_spec, table_at as table_at_spec};

use crate::checks::SHT_STRTAB;
use crate::fields::{SectionHeader, octet};
use crate::load::part;
use memchr::memrchr;
use std::alloc::{AllocError, Global};

/// Where the strings of a section stand in a buffer: `len` bytes, of which the last is a NUL.
#[derive(Clone, Copy)]
pub struct StringTable {
    pub start: u32,
    pub len: u32,
}

/// The strings that sections link, in one buffer, and for each section where its own stand there.
#[derive(Drop)]
pub struct Strings {
    pub buffer: Vec<u8>,
    pub tables: Vec<StringTable>,
}

/// Whether a section links the one with an index.
fn is_linked(sections: &[SectionHeader], index: usize) -> bool
    ensures { result ≡ is_linked_spec sections.now index }
{
    sections.iter().any(|s| s.sh_link as usize == index)
}

/// A section with an index, where it has a type.
fn section_of(sections: &[SectionHeader], sh_type: u32, index: usize) -> Option<&SectionHeader>
    ensures { option_copied result ≡ section_of_spec sections.now sh_type index }
{
    sections.get(index).filter(|s| s.sh_type == sh_type)
}

/// The bytes of a string table, and none where the section is another.
#[tactic(auto, unfolding(crate::specs::Names::string_bytes))]
fn string_bytes<'a>(bytes: &'a [u8], sections: &[SectionHeader], index: usize) -> &'a [u8]
    ensures part { result.now ≡ string_bytes_spec bytes.now sections.now index }
    ensures few { length result.now ≤ length bytes.now }
{
    match section_of(sections, SHT_STRTAB, index) {
        Some(s) => part(bytes, s.sh_offset as usize, s.sh_size as usize),
        None => &[],
    }
}

/// The bytes of a string table that a section links.
fn linked_bytes<'a>(bytes: &'a [u8], sections: &[SectionHeader], index: usize) -> &'a [u8]
    ensures part { result.now ≡ linked_bytes_spec bytes.now sections.now index }
    ensures few { length result.now ≤ length bytes.now }
{
    if is_linked(sections, index) {
        string_bytes(bytes, sections, index)
    } else {
        &[]
    }
}

/// The number of bytes up to the last NUL, and with it.
fn string_len(bytes: &[u8]) -> usize
    ensures { IsStringLen bytes.now result }
{
    match memrchr(0, bytes) {
        Some(last) => last + 1,
        None => 0,
    }
}

/// The strings, one table after the other, or nothing where they would be longer than the file, since tables
/// lie over one another.
fn joined(
    alloc: Global,
    bytes: &[u8],
    sections: &[SectionHeader],
) -> Result<Option<Strings>, AllocError>
    requires { length bytes.now < 2 ^ 32 }
    ensures { IfOk result (λ o. IfSome o (λ s. AreStrings bytes.now sections.now s.buffer.items s.tables.items)) }
{
    let mut buffer = Vec::new(alloc);
    let mut tables = Vec::new(alloc);
    for index in 0..sections.len() {
        let part = linked_bytes(bytes, sections, index);
        let len = string_len(part);
        if len > bytes.len() - buffer.len() {
            return Ok(None);
        }
        tables.push(StringTable {
            start: buffer.len() as u32,
            len: len as u32,
        })?;
        buffer.extend_from_slice(&part[..len])?;
    }
    Ok(Some(Strings { buffer, tables }))
}

/// Where the strings of each section stand in the file.
fn file_tables(
    alloc: Global,
    bytes: &[u8],
    sections: &[SectionHeader],
) -> Result<Vec<StringTable>, AllocError>
    requires { length bytes.now < 2 ^ 32 }
    ensures { IfOk result (λ v. HaveTables bytes.now sections.now bytes.now v.items (length sections.now)) }
{
    let mut tables = Vec::new(alloc);
    for (index, section) in sections.iter().enumerate() {
        let len = string_len(linked_bytes(bytes, sections, index));
        tables.push(StringTable {
            start: section.sh_offset,
            len: len as u32,
        })?;
    }
    Ok(tables)
}

/// The strings that sections link, in a buffer that is no longer than the file.
pub fn file_strings(
    alloc: Global,
    bytes: &[u8],
    sections: &[SectionHeader],
) -> Result<Strings, AllocError>
    requires { length bytes.now < 2 ^ 32 }
    ensures { IfOk result (λ s. AreStrings bytes.now sections.now s.buffer.items s.tables.items) }
{
    if let Some(strings) = joined(alloc, bytes, sections)? {
        return Ok(strings);
    }
    let buffer = Vec::from_slice(alloc, bytes)?;
    let tables = file_tables(alloc, bytes, sections)?;
    Ok(Strings { buffer, tables })
}

/// Where the strings of a section stand.
pub fn table_at(tables: &[StringTable], index: u32) -> StringTable
    ensures { result ≡ table_at_spec tables.now index }
{
    match tables.get(index as usize) {
        Some(table) => *table,
        None => StringTable { start: 0, len: 0 },
    }
}

/// Where the name at an index of a table begins in the buffer, if it isn't empty.
#[tactic(auto, unfolding(crate::specs::Strings::name_start))]
pub fn name_start(buffer: &[u8], table: &StringTable, at: u32) -> Option<u32>
    requires { length buffer.now < 2 ^ 32 }
    ensures start { result ≡ name_start_spec buffer.now table.now at }
    ensures within { IfSome result (λ start. start < length buffer.now) }
{
    if at >= table.len {
        return None;
    }
    let start = table.start as usize + at as usize;
    if octet(buffer, start) == 0 {
        return None;
    }
    Some(start as u32)
}
