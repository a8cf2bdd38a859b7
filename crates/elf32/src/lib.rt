//! Reads executables: ELF32 files for the i386, of the kinds EXEC and DYN (System V ABI, "Object Files",
//! and its Intel386 supplement).
#![tactic(auto)]

mod checks;
mod error;
mod fields;
mod load;
mod memory;
mod read;
mod relocate;
mod strings;
mod symbols;

pub use error::ElfError;
pub use read::read_image;
