//! The memory that ModRM, SIB and a displacement name.

ghost use Rattle.std.specs.Prelude.{◌≡◌, ◌<◌, ◌≤◌, IfOk, ◌^◌};
ghost use Rattle.ia32_types.specs.Memory.{displacement as displacement_reader, disp_bytes as disp_bytes_spec, displaced as displaced_reader, scale_of as scale_of_spec, index_of as index_of_spec, index_scale as index_scale_spec, indexed as indexed_reader, memory as memory_reader};
ghost use Rattle.ia32_decode.specs.Reading.{run};

use crate::NotDecoded;
use crate::bytes::{byte, dword, next_byte};
use crate::forms::sign_extended;
use ia32_types::{Mem, Reg, Width};

/// A displacement of 0, 1 or 4 bytes, where at least `extra` bytes follow it.
#[tactic(auto, using(crate::proofs::RunLemmas::run_then))]
fn displacement(bytes: &[u8], read: u8, count: u8, extra: u8) -> Result<(u32, u8), NotDecoded>
    requires { extra < 20 }
    ensures gives { result ≡ run extra (displacement_reader count) bytes.now read }
    ensures long { IfOk result (λ x. x.0 < 2 ^ 32) }
{
    match count {
        0 => Ok((0, read)),
        1 => {
            let (n, read) = byte(bytes, read, extra)?;
            Ok((sign_extended(Width::D32, u32::from(n)), read))
        }
        _ => dword(bytes, read, extra),
    }
}

/// How many bytes of displacement ModRM's mod field asks for.
fn disp_bytes(mod_field: u8) -> u8
    ensures bytes { result ≡ disp_bytes_spec mod_field }
    ensures few { result ≤ 4 }
{
    match mod_field {
        0 => 0,
        1 => 1,
        _ => 4,
    }
}

/// Base, index and scale.
#[derive(Clone, Copy)]
struct Sum {
    base: Option<Reg>,
    index: Option<Reg>,
    scale: u8,
}

/// The displacement after base, index and scale.
#[tactic(auto, using(crate::proofs::RunLemmas::run_then), unfolding(ia32_types::specs::Memory::displaced))]
fn displaced(
    bytes: &[u8],
    read: u8,
    extra: u8,
    gs: bool,
    sum: &Sum,
    count: u8,
) -> Result<(Mem, u8), NotDecoded>
    requires { extra < 20 }
    ensures { result ≡ run extra (displaced_reader gs sum.now.base sum.now.index sum.now.scale count) bytes.now read }
{
    let (disp, read) = displacement(bytes, read, count, extra)?;
    let memory = Mem {
        base: sum.base,
        index: sum.index,
        scale: sum.scale,
        disp,
        gs,
    };
    Ok((memory, read))
}

/// 2 to the power of SIB's scale field.
fn scale_of(n: u8) -> u8
    ensures { result ≡ scale_of_spec n }
{
    match n {
        0 => 1,
        1 => 2,
        2 => 4,
        _ => 8,
    }
}

/// The register of SIB's index field, where 4 is none.
fn index_of(n: u8) -> Option<Reg>
    ensures { result ≡ index_of_spec n }
{
    if n == 4 {
        None
    } else {
        Some(Reg::from_number(n))
    }
}

/// The scale of an index.
fn index_scale(n: u8, scale_field: u8) -> u8
    ensures { result ≡ index_scale_spec n scale_field }
{
    if n == 4 { 1 } else { scale_of(scale_field) }
}

/// What follows SIB, after this mod field.
#[tactic(auto, unfolding(ia32_types::specs::Memory::indexed))]
fn indexed(
    bytes: &[u8],
    read: u8,
    extra: u8,
    gs: bool,
    mod_field: u8,
    sib: u8,
) -> Result<(Mem, u8), NotDecoded>
    requires { extra < 20 }
    ensures { result ≡ run extra (indexed_reader gs mod_field sib) bytes.now read }
{
    let index = index_of(sib / 8 % 8);
    let scale = index_scale(sib / 8 % 8, sib / 64);
    if sib % 8 == 5 && mod_field == 0 {
        let sum = Sum {
            base: None,
            index,
            scale,
        };
        displaced(bytes, read, extra, gs, &sum, 4)
    } else {
        let sum = Sum {
            base: Some(Reg::from_number(sib % 8)),
            index,
            scale,
        };
        displaced(bytes, read, extra, gs, &sum, disp_bytes(mod_field))
    }
}

/// The memory that a ModRM byte with a mod field below 3 names, where at least `extra` bytes follow it.
#[tactic(auto, unfolding(ia32_types::specs::Memory::memory))]
pub fn memory(
    bytes: &[u8],
    read: u8,
    extra: u8,
    gs: bool,
    modrm: u8,
) -> Result<(Mem, u8), NotDecoded>
    requires { extra < 20 }
    ensures { result ≡ run extra (memory_reader gs modrm) bytes.now read }
{
    let mod_field = modrm / 64;
    if modrm % 8 == 4 {
        let (sib, read) = next_byte(bytes, read, 1 + disp_bytes(mod_field) + extra)?;
        indexed(bytes, read, extra, gs, mod_field, sib)
    } else if modrm % 8 == 5 && mod_field == 0 {
        let sum = Sum {
            base: None,
            index: None,
            scale: 1,
        };
        displaced(bytes, read, extra, gs, &sum, 4)
    } else {
        let sum = Sum {
            base: Some(Reg::from_number(modrm % 8)),
            index: None,
            scale: 1,
        };
        displaced(bytes, read, extra, gs, &sum, disp_bytes(mod_field))
    }
}
