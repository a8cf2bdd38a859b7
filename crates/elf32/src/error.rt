ghost use Rattle.std.specs.Prelude.{◌≡◌};
ghost use Rattle.elf32.specs.declared.error.ElfError.TheVariants.{Memory};

use std::alloc::{AllocError, AllocFailed};

/// Why a file isn't an executable that can be read: the first check that fails. Numbers of segments are
/// indices of program headers, and a length is that of the file.
#[derive(Clone, Copy, Debug, PartialEq, Eq)]
pub enum ElfError {
    /// The file, of this length, ends before a header, a table, a segment's or a section's bytes end.
    Short(u32),
    /// The file doesn't begin with the four bytes of ELF.
    Magic,
    /// The file isn't of 32 bits with low bytes first.
    Class,
    /// The file isn't for the i386.
    Machine,
    /// The file is neither an executable nor a shared object.
    Kind,
    /// A header's number or size is wrong: of the program header with this index, or of the file (65535).
    Header(u32),
    /// Two segments share an address: the earlier one, and the later one.
    Overlap(u32, u32),
    /// A segment lies outside the image's range of addresses.
    Range(u32),
    /// A segment is both code and open to writes.
    WritableCode(u32),
    /// A relocation, by its index among all, has this kind, and the kind, its symbol or its place is bad.
    Relocation(u32, u32),
    /// One of the limits on segments, sections, memory, relocations or externs is passed.
    TooMany,
    /// There is no memory.
    Memory,
}

impl From<AllocError> for ElfError {
    ghost from_gives = { λ _ e. e ≡ Memory };

    fn from(_e: AllocError) -> ElfError {
        ElfError::Memory
    }
}

impl<T: Drop> From<AllocFailed<T>> for ElfError {
    ghost from_gives = { λ _ e. e ≡ Memory };

    fn from(_e: AllocFailed<T>) -> ElfError {
        ElfError::Memory
    }
}
