//! The headers and entries of a file, each field under its name in the System V ABI.
ghost use Rattle.std.specs.Prelude.{◌≡◌, ◌<◌, ◌^◌};
ghost use Rattle.elf32.specs.Fields.{octet, half, word, program_header, section_header, symbol_entry};
ghost use Rattle.elf32.specs.Relocating.{relocation};

use byteorder::{ByteOrder, LittleEndian};

/// An entry of the program header table (`Elf32_Phdr`), with its index.
#[derive(Clone, Copy)]
pub struct ProgramHeader {
    pub index: u32,
    pub p_type: u32,
    pub p_offset: u32,
    pub p_vaddr: u32,
    pub p_filesz: u32,
    pub p_memsz: u32,
    pub p_flags: u32,
}

/// An entry of the section header table (`Elf32_Shdr`).
#[derive(Clone, Copy)]
pub struct SectionHeader {
    pub sh_type: u32,
    pub sh_offset: u32,
    pub sh_size: u32,
    pub sh_link: u32,
}

/// An entry of a symbol table (`Elf32_Sym`).
#[derive(Clone, Copy)]
pub struct SymbolEntry {
    pub st_name: u32,
    pub st_value: u32,
    pub st_size: u32,
    pub st_shndx: u16,
}

/// A symbol by the section index of its table, and its index there.
#[derive(Clone, Copy)]
pub struct SymbolId {
    pub table: u32,
    pub index: u32,
}

/// An entry of a relocation table (`Elf32_Rel`), with its symbol where the symbol table has it.
#[derive(Clone, Copy)]
pub struct Relocation {
    pub r_offset: u32,
    pub kind: u32,
    pub id: SymbolId,
    pub symbol: Option<SymbolEntry>,
}

/// The byte at an offset, or 0 where the file ends before.
pub fn octet(bytes: &[u8], at: usize) -> u8
    ensures { result ≡ octet bytes.now at }
{
    match bytes.get(at) {
        Some(byte) => *byte,
        None => 0,
    }
}

/// The half word at an offset, or 0 where the file ends before.
#[tactic(auto, unfolding(crate::specs::Fields::half))]
pub fn half(bytes: &[u8], at: usize) -> u16
    ensures { result ≡ half bytes.now at }
{
    if bytes.len() < 2 || bytes.len() - 2 < at {
        return 0;
    }
    LittleEndian::read_u16(&bytes[at..])
}

/// The word at an offset, or 0 where the file ends before.
#[tactic(auto, unfolding(crate::specs::Fields::word))]
pub fn word(bytes: &[u8], at: usize) -> u32
    ensures { result ≡ word bytes.now at }
{
    if bytes.len() < 4 || bytes.len() - 4 < at {
        return 0;
    }
    LittleEndian::read_u32(&bytes[at..])
}

/// The program header with an index, in a table at an offset.
pub fn program_header(bytes: &[u8], table: u32, index: u32) -> ProgramHeader
    ensures { result ≡ program_header bytes.now table index }
{
    let at = table as usize + 32 * index as usize;
    ProgramHeader {
        index,
        p_type: word(bytes, at),
        p_offset: word(bytes, at + 4),
        p_vaddr: word(bytes, at + 8),
        p_filesz: word(bytes, at + 16),
        p_memsz: word(bytes, at + 20),
        p_flags: word(bytes, at + 24),
    }
}

/// The section header with an index, in a table at an offset.
pub fn section_header(bytes: &[u8], table: u32, index: u32) -> SectionHeader
    ensures { result ≡ section_header bytes.now table index }
{
    let at = table as usize + 40 * index as usize;
    SectionHeader {
        sh_type: word(bytes, at + 4),
        sh_offset: word(bytes, at + 16),
        sh_size: word(bytes, at + 20),
        sh_link: word(bytes, at + 24),
    }
}

/// The symbol with an index, in a table at an offset.
pub fn symbol_entry(bytes: &[u8], table: u32, index: u32) -> SymbolEntry
    ensures { result ≡ symbol_entry bytes.now table index }
{
    let at = table as usize + 16 * index as usize;
    SymbolEntry {
        st_name: word(bytes, at),
        st_value: word(bytes, at + 4),
        st_size: word(bytes, at + 8),
        st_shndx: half(bytes, at + 14),
    }
}

/// The relocation with an index, of a section whose symbols stand in a table.
pub fn relocation_at(
    bytes: &[u8],
    section: &SectionHeader,
    table: &SectionHeader,
    at: u32,
) -> Relocation
    ensures { result ≡ relocation bytes.now section.now table.now at }
{
    let at = section.sh_offset as usize + 8 * at as usize;
    let info = word(bytes, at + 4);
    let index = info / 256;
    let symbol = if index < table.sh_size / 16 {
        Some(symbol_entry(bytes, table.sh_offset, index))
    } else {
        None
    };
    Relocation {
        r_offset: word(bytes, at),
        kind: info % 256,
        id: SymbolId {
            table: section.sh_link,
            index,
        },
        symbol,
    }
}
