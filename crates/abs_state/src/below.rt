//! Which abstract states tell no less than others.

ghost use Rattle.std.specs.Prelude.{◌≡◌, ◌&&◌, true, false};
ghost use Rattle.strided.specs.Operations.{below as interval_below};
ghost use Rattle.abs_semantics.specs.Joins.{same_link};
ghost use Rattle.std.specs.List.{list_all};
ghost use Rattle.ia32_types.specs.Numbers.{reg_number, flag_number};
ghost use Rattle.vset.specs.Operations.{below as values_below};
ghost use Rattle.abs_semantics.specs.States.{has_procedure};
ghost use Rattle.abs_semantics.specs.Below.{register_numbers, flag_numbers, implies, is_flag_below as is_flag_below_spec, is_cell_below, is_link_below as is_link_below_spec, is_at_most as is_at_most_spec, is_size_below as is_size_below_spec, is_number as is_number_spec, is_align_below as is_align_below_spec, is_fact_below as is_fact_below_spec, state_below};
ghost use Rattle.abs_state.specs.Registers.{register_in};
ghost use Rattle.abs_state.specs.Views.{flag_in, seen};

use crate::facts::is_fact_below;
use crate::registers::Registers;
use crate::state::AbsState;
use abs_semantics::{Known, Link};
use cell_map::{has_number, is_same_link, known_number};
use ia32_types::{Flag, Reg};
use vset::AbsFlags;

fn is_register_below(a: &Registers, b: &Registers, register: Reg) -> bool
    ensures { result ≡ values_below (register_in a.now (reg_number register)) (register_in b.now (reg_number register)) }
{
    a.value(register).below(b.value(register))
}

fn are_registers_below(a: &Registers, b: &Registers) -> bool
    ensures { result ≡ list_all (λ n. values_below (register_in a.now n) (register_in b.now n)) register_numbers }
{
    is_register_below(a, b, Reg::Eax)
        && (is_register_below(a, b, Reg::Ecx)
            && (is_register_below(a, b, Reg::Edx)
                && (is_register_below(a, b, Reg::Ebx)
                    && (is_register_below(a, b, Reg::Esp)
                        && (is_register_below(a, b, Reg::Ebp)
                            && (is_register_below(a, b, Reg::Esi)
                                && is_register_below(a, b, Reg::Edi)))))))
}

/// Whether a flag may be so.
#[tactic(auto, using(crate::proofs::ViewLemmas::flag_told))]
pub(crate) fn allows(flags: &AbsFlags, flag: Flag, value: bool) -> bool
    ensures { result ≡ flag_in flags.now (flag_number flag) value }
{
    if value {
        flags.one.has(flag)
    } else {
        flags.zero.has(flag)
    }
}

fn is_allowed_below(a: &AbsFlags, b: &AbsFlags, flag: Flag, value: bool) -> bool
    ensures { result ≡ implies (flag_in a.now (flag_number flag) value) (flag_in b.now (flag_number flag) value) }
{
    !allows(a, flag, value) || allows(b, flag, value)
}

fn is_flag_below(a: &AbsFlags, b: &AbsFlags, flag: Flag) -> bool
    ensures { result ≡ (implies (flag_in a.now (flag_number flag) true) (flag_in b.now (flag_number flag) true) && implies (flag_in a.now (flag_number flag) false) (flag_in b.now (flag_number flag) false)) }
{
    is_allowed_below(a, b, flag, true) && is_allowed_below(a, b, flag, false)
}

fn are_flags_below(a: &AbsState, b: &AbsState) -> bool
    ensures { result ≡ list_all (is_flag_below_spec (seen a.now) (seen b.now)) flag_numbers }
{
    is_flag_below(&a.flags, &b.flags, Flag::Cf)
        && (is_flag_below(&a.flags, &b.flags, Flag::Pf)
            && (is_flag_below(&a.flags, &b.flags, Flag::Zf)
                && (is_flag_below(&a.flags, &b.flags, Flag::Sf)
                    && (is_flag_below(&a.flags, &b.flags, Flag::Of)
                        && is_flag_below(&a.flags, &b.flags, Flag::Df)))))
}

fn are_cells_below(a: &AbsState, b: &AbsState) -> bool
    ensures { result ≡ list_all (is_cell_below (seen a.now)) b.now.cells }
{
    a.cells.below(&a.regions(), &b.cells)
}

fn are_numbers_below(xs: &[u32], ys: &[u32]) -> bool
    ensures { result ≡ list_all (λ p. has_procedure p ys.now) xs.now }
{
    xs.iter().all(|p| has_number(ys, *p))
}

fn is_link_of(m: &Link, l: &Link) -> bool
    ensures { result ≡ (same_link m.now l.now && interval_below l.now.off m.now.off) }
{
    is_same_link(m, l) && l.off.below(&m.off)
}

fn is_link_below(ms: &[Link], l: &Link) -> bool
    ensures { result ≡ is_link_below_spec ms.now l.now }
{
    ms.iter().any(|m| is_link_of(m, l))
}

fn are_links_below(ls: &[Link], ms: &[Link]) -> bool
    ensures { result ≡ list_all (is_link_below_spec ms.now) ls.now }
{
    ls.iter().all(|l| is_link_below(ms, l))
}

fn is_at_most(m: Option<u32>, n: u32) -> bool
    ensures { result ≡ is_at_most_spec m n }
{
    match m {
        None => false,
        Some(m) => m <= n,
    }
}

fn is_size_below(ks: &[Known], k: &Known) -> bool
    ensures { result ≡ is_size_below_spec ks.now k.now }
{
    is_at_most(known_number(ks, &k.region), k.number)
}

fn are_sizes_below(ks: &[Known], ms: &[Known]) -> bool
    ensures { result ≡ list_all (is_size_below_spec ms.now) ks.now }
{
    ks.iter().all(|k| is_size_below(ms, k))
}

fn is_number(m: Option<u32>, n: u32) -> bool
    ensures { result ≡ is_number_spec m n }
{
    match m {
        None => false,
        Some(m) => m == n,
    }
}

fn is_align_below(a: &AbsState, k: &Known) -> bool
    ensures { result ≡ is_align_below_spec (seen a.now) k.now }
{
    !a.has_region(&k.region) || is_number(known_number(a.aligns.as_slice(), &k.region), k.number)
}

fn are_aligns_below(a: &AbsState, ks: &[Known]) -> bool
    ensures { result ≡ list_all (is_align_below_spec (seen a.now)) ks.now }
{
    ks.iter().all(|k| is_align_below(a, k))
}

fn are_lists_below(a: &AbsState, b: &AbsState) -> bool
    ensures { result ≡ (list_all (λ p. has_procedure p b.now.live) a.now.live && (list_all (λ p. has_procedure p b.now.older) a.now.older && (list_all (is_link_below_spec b.now.links) a.now.links && (list_all (is_size_below_spec b.now.blocks) a.now.blocks && (list_all (is_align_below_spec (seen a.now)) b.now.aligns && is_fact_below_spec a.now.fact b.now.fact))))) }
{
    are_numbers_below(a.live.as_slice(), b.live.as_slice())
        && (are_numbers_below(a.older.as_slice(), b.older.as_slice())
            && (are_links_below(a.links.as_slice(), b.links.as_slice())
                && (are_sizes_below(a.blocks.as_slice(), b.blocks.as_slice())
                    && (are_aligns_below(a, b.aligns.as_slice())
                        && is_fact_below(&a.fact, &b.fact)))))
}

impl AbsState {
    /// Whether this state stands for no state that the other doesn't stand for, as far as one pass over both tells.
    pub fn below(&self, other: &AbsState) -> bool
        ensures { result ≡ state_below (seen self.now) (seen other.now) }
    {
        self.root == other.root
            && (are_registers_below(&self.registers, &other.registers)
                && (are_flags_below(self, other)
                    && (are_cells_below(self, other) && are_lists_below(self, other))))
    }
}
