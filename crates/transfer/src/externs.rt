//! The accesses to memory of an extern, and what it does before it returns.

ghost use Rattle.std.specs.Prelude.{◌≡◌, ◌≤◌, [], ◌∷◌, false, IfOk};
ghost use Rattle.image_map.specs.CallModel.{IsKind};
ghost use Rattle.abs_state.specs.Views.{seen};
ghost use Rattle.abs_steps.specs.Accesses.{argument_at as argument_at_spec, word_at as word_at_spec, argument as argument_spec, words_read as words_read_spec, filled_count, extern_reads as extern_reads_spec, extern_writes as extern_writes_spec, extern_accesses as extern_accesses_spec};
ghost use Rattle.transfer.specs.Views.{view_by};
ghost use Rattle.transfer.specs.Ranges.{length_of};

use crate::access_lists::{joined, range, word_at, word_read};
use crate::view::View;
use abs_alu::number;
use abs_results::{bytes_of, if_counted};
use abs_state::AbsState;
use abs_steps::Access;
use ia32_types::{Reg, Width};
use image_map::Kind;
use std::alloc::{AllocError, Global};
use vset::ValueSet;

/// The address of the n-th argument, counted from 1.
fn argument_at(alloc: Global, a: &AbsState, n: u32) -> Result<ValueSet, AllocError>
    requires { n ≤ 8 }
    ensures { IfOk result (λ v. v ≡ argument_at_spec (seen a.now) n) }
{
    a.registers
        .value(Reg::Esp)
        .add(alloc, &number((4 * n) as i32))
}

fn argument_read(alloc: Global, a: &AbsState, n: u32) -> Result<Vec<Access>, AllocError>
    requires { n ≤ 8 }
    ensures { IfOk result (λ v. v.items ≡ word_at_spec false (argument_at_spec (seen a.now) n) ∷ []) }
{
    let addr = argument_at(alloc, a, n)?;
    word_at(alloc, false, addr)
}

/// The return word and n arguments.
fn words_read(alloc: Global, a: &AbsState, n: u32) -> Result<Vec<Access>, AllocError>
    requires { n ≤ 8 }
    ensures { IfOk result (λ v. v.items ≡ words_read_spec (seen a.now) n) }
{
    let mut out = word_read(alloc, a, Reg::Esp)?;
    for before in 0..n {
        let word = argument_read(alloc, a, before + 1)?;
        out = joined(out, word)?;
    }
    Ok(out)
}

/// What an extern reads.
#[tactic(auto, unfolding(abs_steps::specs::Accesses::extern_reads))]
pub fn extern_reads(alloc: Global, a: &AbsState, kind: &Kind) -> Result<Vec<Access>, AllocError>
    requires { IsKind kind.now }
    ensures { IfOk result (λ v. v.items ≡ extern_reads_spec (seen a.now) kind.now) }
{
    match kind {
        Kind::Pure(n) | Kind::Reader(n) => words_read(alloc, a, *n),
        Kind::Alloc => words_read(alloc, a, 1),
        Kind::Stop => Ok(Vec::new(alloc)),
        Kind::Unknown => words_read(alloc, a, 0),
        Kind::Fills(buffer, length) => words_read(alloc, a, (*buffer).max(*length)),
    }
}

impl<'a> View<'a> {
    /// The value of the n-th argument of an extern, counted from 1.
    pub fn argument(&self, alloc: Global, n: u32) -> Result<ValueSet, AllocError>
        requires { n ≤ 8 }
        ensures { IfOk result (λ v. v ≡ argument_spec (view_by self.now) n) }
    {
        let at = argument_at(alloc, self.state, n)?;
        self.stored_at(alloc, Width::D32, &at)
    }

    /// As many bytes as an argument says, at most, where it is known.
    fn filled_length(&self, alloc: Global, n: u32) -> Result<Option<u32>, AllocError>
        requires { n ≤ 8 }
        ensures { IfOk result (λ l. l ≡ length_of 1 (filled_count (view_by self.now) n)) }
    {
        let length = self.argument(alloc, n)?;
        Ok(match if_counted(1, length.only_number()) {
            None => None,
            Some(count) => Some(bytes_of(1, &count)),
        })
    }
}

/// What an extern writes.
#[tactic(auto, unfolding(abs_steps::specs::Accesses::extern_writes), using(crate::proofs::RangeLemmas::range_by_length))]
pub fn extern_writes(alloc: Global, view: &View<'_>, kind: &Kind) -> Result<Vec<Access>, AllocError>
    requires { IsKind kind.now }
    ensures { IfOk result (λ v. v.items ≡ extern_writes_spec (view_by view.now) kind.now) }
{
    match kind {
        Kind::Fills(buffer, length) => {
            let addr = view.argument(alloc, *buffer)?;
            let len = view.filled_length(alloc, *length)?;
            range(alloc, true, addr, len)
        }
        _ => Ok(Vec::new(alloc)),
    }
}

/// The accesses of an extern: what it reads, and then what it writes.
#[tactic(auto, unfolding(abs_steps::specs::Accesses::extern_accesses))]
pub fn extern_accesses(
    alloc: Global,
    view: &View<'_>,
    kind: &Kind,
) -> Result<Vec<Access>, AllocError>
    requires { IsKind kind.now }
    ensures { IfOk result (λ v. v.items ≡ extern_accesses_spec (view_by view.now) kind.now) }
{
    let reads = extern_reads(alloc, view.state, kind)?;
    joined(reads, extern_writes(alloc, view, kind)?)
}
