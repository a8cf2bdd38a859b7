//! The symbols of a file, whose names stand in one buffer.
ghost use Rattle.std.specs.Prelude.{◌≡◌, ◌/◌, ◌<◌, ◌^◌, true, false, [], ◌∷◌, length, filter, slice_index_or, if◌then◌else◌, IfOk, IfSome, OnOk};
ghost use Rattle.std.specs.List.{flat_map, filter_map, cons_option};
ghost use Rattle.image_map.specs.Names.{symbol_at, symbols_at, HaveSameValues};
ghost use Rattle.elf32.specs.Fields.{symbol_entry as symbol_entry_spec, rows};
ghost use Rattle.elf32.specs.Checks.{has_type};
ghost use Rattle.elf32.specs.Names.{is_linked, symbols_of, symbols_in};
ghost use Rattle.elf32.specs.Found.{IsFound, Adds};
ghost use Rattle.elf32.specs.Strings.{AreStrings, name_start as name_start_spec, place_of, placed, table_at as table_at_spec};

use crate::checks::{SHT_DYNSYM, SHT_SYMTAB};
use crate::fields::{SectionHeader, SymbolEntry, symbol_entry};
use crate::strings::{StringTable, Strings, name_start, table_at};
use image_map::SymbolPlace;
use std::alloc::{AllocError, Global};

/// The symbols found so far, and for each place of the buffer whether the name there is among them: so that
/// tables that overlap add no symbol again.
#[derive(Drop)]
struct Found {
    places: Vec<SymbolPlace>,
    seen: Vec<bool>,
}

impl Found {
    fn has_seen(&self, start: usize) -> bool
        ensures { result ≡ slice_index_or self.now.seen.items start false }
    {
        match self.seen.get(start) {
            Some(seen) => *seen,
            None => false,
        }
    }

    /// Adds a symbol, unless the name at its place is there already.
    fn add(&mut self, buffer: &[u8], place: &SymbolPlace) -> Result<(), AllocError>
        requires found { IsFound buffer.now self.old.seen.items (symbols_at buffer.now self.old.places.items) }
        requires within { place.now.start < length buffer.now }
        ensures adds { OnOk result (Adds (symbols_at buffer.now self.old.places.items) (symbols_at buffer.now self.new.places.items) (symbol_at buffer.now place.now ∷ [])) }
        ensures found { OnOk result (IsFound buffer.now self.new.seen.items (symbols_at buffer.now self.new.places.items)) }
    {
        let start = place.start as usize;
        let seen = self.seen.as_slice();
        if seen[start] {
            return Ok(());
        }
        self.places.push(*place)?;
        self.seen[start] = true;
        Ok(())
    }
}

/// The symbol of an entry, where it is defined and has a name among some strings.
fn symbol_place(
    buffer: &[u8],
    strings: &StringTable,
    bias: u32,
    entry: &SymbolEntry,
) -> Option<SymbolPlace>
    requires { length buffer.now < 2 ^ 32 }
    ensures place { result ≡ place_of bias (name_start_spec buffer.now strings.now entry.now.st_name) entry.now }
    ensures within { IfSome result (λ p. p.start < length buffer.now) }
{
    match name_start(buffer, strings, entry.st_name) {
        None => None,
        Some(start) => {
            if entry.st_shndx == 0 {
                return None;
            }
            let value = entry.st_value.wrapping_add(bias);
            Some(SymbolPlace { start, value })
        }
    }
}

/// Adds the symbol of an entry, where it is defined and has a name.
fn add_symbol(
    buffer: &[u8],
    strings: &StringTable,
    bias: u32,
    entry: &SymbolEntry,
    found: &mut Found,
) -> Result<(), AllocError>
    requires few { length buffer.now < 2 ^ 32 }
    requires found { IsFound buffer.now found.old.seen.items (symbols_at buffer.now found.old.places.items) }
    ensures adds { OnOk result (Adds (symbols_at buffer.now found.old.places.items) (symbols_at buffer.now found.new.places.items) (cons_option (placed buffer.now bias strings.now entry.now) [])) }
    ensures found { OnOk result (IsFound buffer.now found.new.seen.items (symbols_at buffer.now found.new.places.items)) }
{
    // Most entries of tables that overlap end here, after one look into memory.
    if found.has_seen(strings.start as usize + entry.st_name as usize) {
        return Ok(());
    }
    match symbol_place(buffer, strings, bias, entry) {
        None => Ok(()),
        Some(place) => found.add(buffer, &place),
    }
}

/// Adds the symbols of a table, whose names stand in some strings.
fn add_table(
    bytes: &[u8],
    buffer: &[u8],
    strings: &StringTable,
    bias: u32,
    table: &SectionHeader,
    found: &mut Found,
) -> Result<(), AllocError>
    requires few { length buffer.now < 2 ^ 32 }
    requires found { IsFound buffer.now found.old.seen.items (symbols_at buffer.now found.old.places.items) }
    ensures adds { OnOk result (Adds (symbols_at buffer.now found.old.places.items) (symbols_at buffer.now found.new.places.items) (filter_map (placed buffer.now bias strings.now) (rows (symbol_entry_spec bytes.now table.now.sh_offset) (table.now.sh_size / 16)))) }
    ensures found { OnOk result (IsFound buffer.now found.new.seen.items (symbols_at buffer.now found.new.places.items)) }
{
    if strings.len == 0 {
        return Ok(());
    }
    let count = table.sh_size / 16;
    for index in 0..count {
        let entry = symbol_entry(bytes, table.sh_offset, index);
        add_symbol(buffer, strings, bias, &entry, found)?;
    }
    Ok(())
}

/// Adds the symbols of one of the sections, where it has a type.
fn add_section(
    bytes: &[u8],
    sections: &[SectionHeader],
    strings: &Strings,
    bias: u32,
    sh_type: u32,
    section: &SectionHeader,
    found: &mut Found,
) -> Result<(), AllocError>
    requires small { length bytes.now < 2 ^ 32 }
    requires linked { is_linked sections.now section.now.sh_link ≡ true }
    requires strings { AreStrings bytes.now sections.now strings.now.buffer.items strings.now.tables.items }
    requires found { IsFound strings.now.buffer.items found.old.seen.items (symbols_at strings.now.buffer.items found.old.places.items) }
    ensures adds { OnOk result (Adds (symbols_at strings.now.buffer.items found.old.places.items) (symbols_at strings.now.buffer.items found.new.places.items) (if has_type sh_type section.now then symbols_of bytes.now bias sections.now section.now else [])) }
    ensures found { OnOk result (IsFound strings.now.buffer.items found.new.seen.items (symbols_at strings.now.buffer.items found.new.places.items)) }
{
    if section.sh_type != sh_type {
        return Ok(());
    }
    let table = table_at(strings.tables.as_slice(), section.sh_link);
    let buffer = strings.buffer.as_slice();
    add_table(bytes, buffer, &table, bias, section, found)
}

/// Adds the symbols of the tables of a type.
fn add_tables(
    bytes: &[u8],
    sections: &[SectionHeader],
    strings: &Strings,
    bias: u32,
    sh_type: u32,
    found: &mut Found,
) -> Result<(), AllocError>
    requires small { length bytes.now < 2 ^ 32 }
    requires strings { AreStrings bytes.now sections.now strings.now.buffer.items strings.now.tables.items }
    requires found { IsFound strings.now.buffer.items found.old.seen.items (symbols_at strings.now.buffer.items found.old.places.items) }
    ensures adds { OnOk result (Adds (symbols_at strings.now.buffer.items found.old.places.items) (symbols_at strings.now.buffer.items found.new.places.items) (flat_map (symbols_of bytes.now bias sections.now) (filter (has_type sh_type) sections.now))) }
    ensures found { OnOk result (IsFound strings.now.buffer.items found.new.seen.items (symbols_at strings.now.buffer.items found.new.places.items)) }
{
    for section in sections {
        add_section(bytes, sections, strings, bias, sh_type, section, found)?;
    }
    Ok(())
}

/// The symbols of a file, by the places of their names among its strings.
pub fn symbol_places(
    alloc: Global,
    bytes: &[u8],
    sections: &[SectionHeader],
    strings: &Strings,
    bias: u32,
) -> Result<Vec<SymbolPlace>, AllocError>
    requires small { length bytes.now < 2 ^ 32 }
    requires strings { AreStrings bytes.now sections.now strings.now.buffer.items strings.now.tables.items }
    ensures { IfOk result (λ v. HaveSameValues (symbols_at strings.now.buffer.items v.items) (symbols_in bytes.now bias sections.now)) }
{
    let mut found = Found {
        places: Vec::new(alloc),
        seen: vec![in alloc; false; strings.buffer.len()]?,
    };
    add_tables(bytes, sections, strings, bias, SHT_SYMTAB, &mut found)?;
    add_tables(bytes, sections, strings, bias, SHT_DYNSYM, &mut found)?;
    let Found { places, seen: _ } = found;
    Ok(places)
}
