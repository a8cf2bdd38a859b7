//! Decodes instructions of the 32-bit Intel architecture (Intel SDM, volume 2).
#![tactic(auto)]

ghost use Rattle.std.specs.Prelude.{◌≡◌, ◌≤◌, ◌↔◌, length, IfOk};
ghost use Rattle.ia32_types.specs.declared.Instr.{Instr};
ghost use Rattle.ia32_types.specs.Spells.{Begins};
ghost use Rattle.ia32_decode.specs.Decoded.{NoneBegins, SomeLonger, NoLonger, decoded};

mod bytes;
mod forms;
mod instruction;
mod laws;
mod memory;
mod prefixes;
mod rows;

use crate::forms::finished;
use crate::instruction::instruction;
use ia32_types::Instr;
pub use laws::{accepted_prefixes, group_forms};

/// Why bytes were not decoded.
#[derive(Clone, Copy, Debug, PartialEq, Eq)]
pub enum NotDecoded {
    /// No first bytes spell an instruction, and with further bytes some would.
    Short,
    /// No first bytes spell an instruction, whatever follows.
    Unknown,
}

/// What the grammar reads, as the instruction at this address.
fn read_instruction(bytes: &[u8], at: u32) -> Result<Instr, NotDecoded>
    ensures { result ≡ decoded bytes.now at }
{
    match instruction(bytes) {
        Err(cause) => Err(cause),
        Ok((parts, len)) => Ok(finished(at, len, &parts)),
    }
}

/// The instruction that the first of the bytes spell, where they stand at address `at`.
///
/// # Errors
///
/// `Short` exactly where no first bytes spell one and those of some longer input do; `Unknown`
/// exactly where those of no longer input do either.
pub fn decode(bytes: &[u8], at: u32) -> Result<Instr, NotDecoded>
    ensures value { result ≡ decoded bytes.now at }
    ensures ok { (i : Instr) → (result ≡ Ok i) ↔ Begins bytes.now at i }
    ensures short { (result ≡ Err NotDecoded.Short) ↔ (NoneBegins bytes.now at × SomeLonger bytes.now at) }
    ensures unknown { (result ≡ Err NotDecoded.Unknown) ↔ NoLonger bytes.now at }
    ensures place { IfOk result (λ i. i.at ≡ at) }
    ensures some { IfOk result (λ i. 1 ≤ i.len) }
    ensures few { IfOk result (λ i. i.len ≤ 15) }
    ensures within { IfOk result (λ i. i.len ≤ length bytes.now) }
{
    read_instruction(bytes, at)
}
