//! Reads an image: the checks in their order, then the segments, the relocations and the symbols.
ghost use Rattle.std.specs.Prelude.{◌≡◌, ◌<◌, ◌^◌, ◌⊎◌, length, map, Ok, Err, IfOk, IfErr};
ghost use Rattle.std.specs.List.{flat_map};
ghost use Rattle.std.specs.Arc.{arc_value};
ghost use Rattle.image_map.specs.Whole.{IsImage};
ghost use Rattle.elf32.specs.declared.error.ElfError.TheVariants as errors;
ghost use Rattle.elf32.specs.Checks.{bias as bias_of, loads as loads_of, sections as sections_of, segments_cause};
ghost use Rattle.image_map.specs.Texts.{text_at};
ghost use Rattle.image_map.specs.Shapes.{shapes};
ghost use Rattle.elf32.specs.Strings.{AreStrings};
ghost use Rattle.elf32.specs.Loading.{header_failure, begun, extern_name, failure, Shows, Loads};
ghost use Rattle.elf32.specs.Programs.{shown};
ghost use Rattle.elf32.specs.Relocating.{relocated, relocations_of};
ghost use Rattle.elf32.specs.Shapes.{load_shape};

use crate::checks::{
    E_ENTRY, bias, loads, no_header, sections, sections_end_outside, segments_cause, short_tables,
    wrong_header, wrong_identity,
};
use crate::error::ElfError;
use crate::fields::{ProgramHeader, SectionHeader, SymbolId, symbol_entry, word};
use crate::load::segments;
use crate::memory::Memory;
use crate::relocate::{Program, relocate_all};
use crate::strings::{Strings, file_strings, name_start, table_at};
use crate::symbols::symbol_places;
use image_map::{Extern, Image, Name, Spans, Symbols};
use item_list::Items;
use std::alloc::{AllocError, Global};
use std::sync::Arc;

/// The first cause to refuse the headers.
fn header_failure(bytes: &[u8]) -> Option<ElfError>
    requires { length bytes.now < 2 ^ 32 }
    ensures { result ≡ header_failure bytes.now }
{
    if let Some(cause) = no_header(bytes) {
        return Some(cause);
    }
    if let Some(cause) = wrong_identity(bytes) {
        return Some(cause);
    }
    if let Some(cause) = wrong_header(bytes) {
        return Some(cause);
    }
    short_tables(bytes)
}

/// Where the name of an extern begins among the strings of the file, and their end where it has none.
fn extern_start(bytes: &[u8], sections: &[SectionHeader], strings: &Strings, id: &SymbolId) -> u32
    requires small { length bytes.now < 2 ^ 32 }
    requires strings { AreStrings bytes.now sections.now strings.now.buffer.items strings.now.tables.items }
    ensures { text_at strings.now.buffer.items result ≡ extern_name bytes.now sections.now id.now }
{
    let buffer = strings.buffer.as_slice();
    match sections.get(id.table as usize) {
        None => buffer.len() as u32,
        Some(section) => {
            let entry = symbol_entry(bytes, section.sh_offset, id.index);
            let table = table_at(strings.tables.as_slice(), section.sh_link);
            match name_start(buffer, &table, entry.st_name) {
                None => buffer.len() as u32,
                Some(start) => start,
            }
        }
    }
}

/// Where the names of the externs begin.
fn extern_starts(
    alloc: Global,
    bytes: &[u8],
    sections: &[SectionHeader],
    strings: &Strings,
    ids: &[SymbolId],
) -> Result<Vec<u32>, AllocError>
    requires small { length bytes.now < 2 ^ 32 }
    requires strings { AreStrings bytes.now sections.now strings.now.buffer.items strings.now.tables.items }
    ensures { IfOk result (λ v. map (text_at strings.now.buffer.items) v.items ≡ map (extern_name bytes.now sections.now) ids.now) }
{
    let mut starts = Vec::new(alloc);
    for id in ids {
        starts.push(extern_start(bytes, sections, strings, id))?;
    }
    Ok(starts)
}

/// The externs whose names begin at some places of a buffer.
fn externs(
    alloc: Global,
    buffer: &Arc<Vec<u8>, Global>,
    starts: &[u32],
) -> Result<Vec<Extern>, AllocError>
    ensures { IfOk result (λ v. map (λ e. e.name) v.items ≡ map (text_at (arc_value buffer.now).items) starts.now) }
{
    let mut externs = Vec::new(alloc);
    for start in starts {
        let name = Name::new(buffer, *start)?;
        externs.push(Extern { name })?;
    }
    Ok(externs)
}

/// The segments of a file, with its relocations applied.
fn program(
    alloc: Global,
    bytes: &[u8],
    bias: u32,
    loads: &[ProgramHeader],
    sections: &[SectionHeader],
) -> Result<Program, ElfError>
    requires { segments_cause (length bytes.now) bias loads.now ≡ None }
    ensures ok { IfOk result (λ p. relocated bias loads.now 0 (begun bytes.now bias loads.now) (flat_map (relocations_of bytes.now sections.now) sections.now) ≡ Ok (shown p)) }
    ensures shapes { IfOk result (λ p. shapes p.memory.segments.items ≡ map (load_shape bias) loads.now) }
    ensures err { IfErr result (λ e. (e ≡ errors.Memory) ⊎ (relocated bias loads.now 0 (begun bytes.now bias loads.now) (flat_map (relocations_of bytes.now sections.now) sections.now) ≡ Err e)) }
{
    let segments = segments(alloc, bytes, bias, loads)?;
    let mut program = Program {
        memory: Memory {
            segments,
            any_bytes: Spans::new(alloc),
        },
        externs: Vec::new(alloc),
        words: Vec::new(alloc),
    };
    relocate_all(alloc, bytes, bias, loads, sections, &mut program)?;
    Ok(program)
}

/// The image of a file, from its program.
fn image(
    alloc: Global,
    bytes: &[u8],
    bias: u32,
    sections: &[SectionHeader],
    program: Program,
) -> Result<Image, AllocError>
    requires small { length bytes.now < 2 ^ 32 }
    requires bias { bias ≡ bias_of bytes.now }
    requires sections { sections.now ≡ sections_of bytes.now }
    requires shapes { shapes program.memory.segments.items ≡ map (load_shape bias) (loads_of bytes.now) }
    ensures { IfOk result (λ i. Shows bytes.now (shown program) i) }
{
    let strings = file_strings(alloc, bytes, sections)?;
    let places = symbol_places(alloc, bytes, sections, &strings, bias)?;
    let ids = program.externs.as_slice();
    let starts = extern_starts(alloc, bytes, sections, &strings, ids)?;
    let Strings { buffer, tables: _ } = strings;
    let buffer = Arc::new(alloc, buffer)?;
    let symbols = Symbols::at_places(&buffer, places)?;
    let externs = externs(alloc, &buffer, starts.as_slice())?;
    let Program {
        memory: Memory {
            segments,
            any_bytes,
        },
        externs: _,
        words,
    } = program;
    Ok(Image {
        segments: Items::from_vec(segments),
        externs: Items::from_vec(externs),
        symbols,
        any_bytes,
        words: Items::from_vec(words),
        entry: word(bytes, E_ENTRY).wrapping_add(bias),
        bias,
    })
}

/// Reads the image of a file, or says which check is the first that fails.
///
/// Each table is read once, and the names of symbols share one copy of the file's strings. `ElfError::Memory`
/// is want of memory, and no fault of the file.
pub fn read_image(alloc: Global, bytes: &[u8]) -> Result<Image, ElfError>
    requires { length bytes.now < 2 ^ 32 }
    // The image of the file, which has one.
    ensures ok { IfOk result (λ i. Loads bytes.now i) }
    // Its segments share no address, lie in the image's range, and none is both code and open to writes.
    ensures image { IfOk result (λ i. IsImage i) }
    // The first check that fails, or want of memory.
    ensures err { IfErr result (λ e. (e ≡ errors.Memory) ⊎ (failure bytes.now ≡ Some e)) }
{
    if let Some(cause) = header_failure(bytes) {
        return Err(cause);
    }
    let len = bytes.len() as u32;
    let bias = bias(bytes);
    let loads = loads(alloc, bytes)?;
    if let Some(cause) = segments_cause(len, bias, loads.as_slice()) {
        return Err(cause);
    }
    let sections = sections(alloc, bytes)?;
    if sections_end_outside(bytes.len(), sections.as_slice()) {
        return Err(ElfError::Short(len));
    }
    let program = program(alloc, bytes, bias, loads.as_slice(), sections.as_slice())?;
    let image = image(alloc, bytes, bias, sections.as_slice(), program)?;
    Ok(image)
}
