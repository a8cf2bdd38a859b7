//! What the flags were made of, in two states.

ghost use Rattle.std.specs.Prelude.{◌≡◌};
ghost use Rattle.abs_semantics.specs.Joins.{same_place, same_fact, fact_of as fact_of_spec};
ghost use Rattle.abs_semantics.specs.Below.{is_fact_below as is_fact_below_spec};

use vset::{CmpFact, CmpPlace, is_same_interval};

fn is_same_place(a: &CmpPlace, b: &CmpPlace) -> bool
    ensures { result ≡ same_place a.now b.now }
{
    match (a, b) {
        (CmpPlace::Reg(r), CmpPlace::Reg(q)) => r.number() == q.number(),
        (CmpPlace::Cell(c), CmpPlace::Cell(d)) => *c == *d,
        _ => false,
    }
}

pub(crate) fn is_same_fact(f: &CmpFact, g: &CmpFact) -> bool
    ensures { result ≡ same_fact f.now g.now }
{
    is_same_place(&f.place, &g.place) && is_same_interval(&f.bound, &g.bound)
}

/// What the flags of two states were made of, where it is the same in both.
pub fn fact_of(f: &Option<CmpFact>, g: &Option<CmpFact>) -> Option<CmpFact>
    ensures { result ≡ fact_of_spec f.now g.now }
{
    match (f, g) {
        (Some(f), Some(g)) if is_same_fact(f, g) => Some(*f),
        _ => None,
    }
}

pub(crate) fn is_fact_below(f: &Option<CmpFact>, g: &Option<CmpFact>) -> bool
    ensures { result ≡ is_fact_below_spec f.now g.now }
{
    match (f, g) {
        (_, None) => true,
        (None, Some(_)) => false,
        (Some(f), Some(g)) => is_same_fact(f, g),
    }
}
