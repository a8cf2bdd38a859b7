//! Whether two abstract states are the same.

ghost use Rattle.std.specs.Prelude.{◌≡◌, ◌↔◌, IsTrue};
ghost use Rattle.std.specs.List.{list_all};
ghost use Rattle.ia32_types.specs.Numbers.{flag_number};
ghost use Rattle.abs_semantics.specs.Below.{flag_numbers};
ghost use Rattle.abs_state.specs.Same.{same_flag_of, same_facts, same_lists_of, same_but_values};
ghost use Rattle.abs_state.specs.Views.{seen};

use crate::below::allows;
use crate::facts::is_same_fact;
use crate::state::AbsState;
use cell_map::are_same;
use ia32_types::Flag;
use vset::{AbsFlags, CmpFact};

/// Whether a flag may be the same in both.
fn is_flag_same(f: &AbsFlags, g: &AbsFlags, flag: Flag) -> bool
    ensures { result ≡ same_flag_of f.now g.now (flag_number flag) }
{
    allows(f, flag, true) == allows(g, flag, true)
        && allows(f, flag, false) == allows(g, flag, false)
}

fn are_flags_same(f: &AbsFlags, g: &AbsFlags) -> bool
    ensures { result ≡ list_all (same_flag_of f.now g.now) flag_numbers }
{
    is_flag_same(f, g, Flag::Cf)
        && (is_flag_same(f, g, Flag::Pf)
            && (is_flag_same(f, g, Flag::Zf)
                && (is_flag_same(f, g, Flag::Sf)
                    && (is_flag_same(f, g, Flag::Of) && is_flag_same(f, g, Flag::Df)))))
}

fn are_facts_same(f: &Option<CmpFact>, g: &Option<CmpFact>) -> bool
    ensures { result ≡ same_facts f.now g.now }
{
    match (f, g) {
        (None, None) => true,
        (Some(f), Some(g)) => is_same_fact(f, g),
        _ => false,
    }
}

fn are_lists_same(a: &AbsState, b: &AbsState) -> bool
    ensures { result ≡ same_lists_of a.now b.now }
{
    are_same(a.live.as_slice(), b.live.as_slice())
        && (are_same(a.older.as_slice(), b.older.as_slice())
            && (are_same(a.links.as_slice(), b.links.as_slice())
                && (are_same(a.aligns.as_slice(), b.aligns.as_slice())
                    && are_same(a.blocks.as_slice(), b.blocks.as_slice()))))
}

/// Whether both are the same but for registers and cells.
fn are_same_but_values(a: &AbsState, b: &AbsState) -> bool
    ensures { result ≡ same_but_values a.now b.now }
{
    a.root == b.root
        && (are_flags_same(&a.flags, &b.flags)
            && (are_facts_same(&a.fact, &b.fact) && are_lists_same(a, b)))
}

impl AbsState {
    /// Whether both tell the same. It stops at the first difference.
    pub fn equals(&self, other: &AbsState) -> bool
        ensures { IsTrue result ↔ (seen self.now ≡ seen other.now) }
    {
        if !are_same_but_values(self, other) {
            return false;
        }
        if !self.registers.equals(&other.registers) {
            return false;
        }
        self.cells.equals(&other.cells)
    }
}
