//! Lists of cuts that are compared.
ghost use Rattle.std.specs.Prelude.{◌≡◌};
ghost use Rattle.cell_map.specs.Lists.{same_lists};
ghost use Rattle.rounds.specs.Same.{same_cuts};

use alocs::CutList;

fn is_same(l: &CutList, m: &CutList) -> bool
    ensures { result ≡ same_cuts l.now m.now }
{
    l.region == m.region && l.cuts.as_slice() == m.cuts.as_slice()
}

/// Whether cuts are divided alike into lists.
pub(crate) fn are_same(xs: &[CutList], ys: &[CutList]) -> bool
    ensures { result ≡ same_lists same_cuts xs.now ys.now }
{
    if xs.len() != ys.len() {
        return false;
    }
    for i in 0..xs.len() {
        if !is_same(&xs[i], &ys[i]) {
            return false;
        }
    }
    true
}
