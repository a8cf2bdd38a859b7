//! Whether two lists are the same.

ghost use Rattle.std.specs.Prelude.{◌≡◌};
ghost use Rattle.abs_semantics.specs.Joins.{same_link as same_link_spec};
ghost use Rattle.cell_map.specs.Lists.{same_lists};

use abs_semantics::{CellValue, Known, Link};
use vset::{ValueSet, is_same_interval};

/// A test whether two things are the same.
pub trait Same {
    ghost use Rattle.std.specs.Prelude.{Bool};

    ghost same: { Self → Self → Bool };

    fn is_same(&self, other: &Self) -> bool
        ensures { result ≡ same self.now other.now };
}

/// Whether two links are of the same procedures and the same age.
pub fn is_same_link(l: &Link, m: &Link) -> bool
    ensures { result ≡ same_link_spec l.now m.now }
{
    l.child == m.child && (l.aged == m.aged && l.parent == m.parent)
}

impl Same for u32 {
    ghost use Rattle.std.specs.Prelude.{◌==◌};

    ghost same = { λ a b. a == b };

    fn is_same(&self, other: &u32) -> bool {
        *self == *other
    }
}

impl Same for ValueSet {
    ghost use Rattle.vset.specs.Operations.{same_values};

    ghost same = { same_values };

    fn is_same(&self, other: &ValueSet) -> bool {
        self.equals(other)
    }
}

impl Same for CellValue {
    ghost use Rattle.cell_map.specs.Lists.{same_entry};

    ghost same = { same_entry };

    fn is_same(&self, other: &CellValue) -> bool {
        self.cell == other.cell && self.value.equals(&other.value)
    }
}

impl Same for Link {
    ghost use Rattle.cell_map.specs.Lists.{same_whole};

    ghost same = { same_whole };

    fn is_same(&self, other: &Link) -> bool {
        is_same_link(self, other) && is_same_interval(&self.off, &other.off)
    }
}

impl Same for Known {
    ghost use Rattle.cell_map.specs.Lists.{same_known};

    ghost same = { same_known };

    fn is_same(&self, other: &Known) -> bool {
        self.region == other.region && self.number == other.number
    }
}

/// Whether two lists have the same elements. It stops at the first difference.
pub fn are_same<T: Same>(xs: &[T], ys: &[T]) -> bool
    ensures { result ≡ same_lists T.same xs.now ys.now }
{
    if xs.len() != ys.len() {
        return false;
    }
    for i in 0..xs.len() {
        if !xs[i].is_same(&ys[i]) {
            return false;
        }
    }
    true
}
