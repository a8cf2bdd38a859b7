//! The type of value-sets.

ghost use Rattle.std.specs.Prelude.{◌≡◌, [], ◌∷◌, MatchOption, nat_lt, length, false};
ghost use Rattle.std.specs.List.{list_any};
ghost use Rattle.strided.specs.Interval.{Interval};
ghost use Rattle.image_map.specs.declared.region.RegionId.TheVariants as region;
ghost use Rattle.vset.specs.Values.{Values, Top, Parts, settled, says_nothing as says_nothing_spec, is_full as is_full_spec, AreCanonical, CanonicalValues, only_number as only_number_spec};
ghost use Rattle.vset.specs.Operations.{part};

use crate::part::{Part, is_full};
use image_map::RegionId;
use std::alloc::{AllocError, Global};
use std::marker::Model;
use std::slice;
use strided::Si;

/// Parts in order, or every value. One part takes no memory.
#[derive(Drop)]
enum Form {
    Top,
    One(Part),
    Many(Vec<Part>),
}

/// What a register or a cell may hold: every value, or offsets in some regions.
#[derive(Drop)]
pub struct ValueSet {
    form: Form,
}

impl Model for ValueSet {
    ghost use Rattle.vset.specs.Values.{Values, CanonicalValues};
    ghost use Rattle.vset.specs.Forms.{values_of};

    ghost Value = { Values };

    ghost view = { λ v. values_of v.form };

    ghost invariant = { λ v. CanonicalValues (values_of v.form) };
}

/// The most parts of a value-set.
const MOST_PARTS: usize = 8;

impl ValueSet {
    /// Every value.
    pub fn top() -> ValueSet
        ensures { result ≡ Top }
    {
        ValueSet { form: Form::Top }
    }

    /// The offsets of one part.
    #[tactic(auto, unfolding(crate::specs::Values::settled))]
    pub fn one(only: Part) -> ValueSet
        ensures { result ≡ settled (only ∷ []) }
    {
        if is_full(&only.si) {
            ValueSet::top()
        } else {
            ValueSet {
                form: Form::One(only),
            }
        }
    }

    /// The numbers of an interval.
    pub fn numbers(si: Si) -> ValueSet
        ensures { result ≡ settled (part region.Global si ∷ []) }
    {
        ValueSet::one(Part {
            region: RegionId::Global,
            si,
        })
    }

    /// The offsets of parts in order: every value where a part is full or they are more than eight.
    #[tactic(auto, unfolding(crate::specs::Values::settled))]
    pub fn from_parts(parts: Vec<Part>) -> ValueSet
        ensures { result ≡ settled parts.items }
    {
        if says_nothing(parts.as_slice()) {
            ValueSet::top()
        } else {
            ValueSet {
                form: Form::Many(parts),
            }
        }
    }

    /// The parts, or `None` where every value is meant.
    pub fn parts(&self) -> Option<&[Part]>
        ensures value { MatchOption result (self.now ≡ Top) (λ ps. self.now ≡ Parts ps.now) }
        ensures canonical { CanonicalValues self.now }
    {
        match &self.form {
            Form::Top => None,
            Form::One(part) => Some(slice::from_ref(part)),
            Form::Many(parts) => Some(parts.as_slice()),
        }
    }

    /// The numbers of the value-set, where it has nothing but numbers.
    pub fn only_number(&self) -> Option<Si>
        ensures { result ≡ only_number_spec self.now }
    {
        match self.parts() {
            Some([only]) if only.region == RegionId::Global => Some(only.si),
            _ => None,
        }
    }
}

/// Whether a part is full. Where none is, all have intervals of the one form.
fn has_full(parts: &[Part]) -> bool
    ensures value { result ≡ list_any (λ p. is_full_spec p.si) parts.now }
    ensures canonical { result ≡ false → AreCanonical parts.now }
{
    for p in parts {
        if is_full(&p.si) {
            return true;
        }
    }
    false
}

fn is_crowded(parts: &[Part]) -> bool
    ensures { result ≡ nat_lt 8 (length parts.now) }
{
    MOST_PARTS < parts.len()
}

/// Whether some parts are no more than every value.
fn says_nothing(parts: &[Part]) -> bool
    ensures value { result ≡ says_nothing_spec parts.now }
    ensures canonical { result ≡ false → AreCanonical parts.now }
{
    has_full(parts) || is_crowded(parts)
}

impl Clone for ValueSet {
    ghost is_clone = { λ value clone. clone ≡ value };

    fn clone(&self) -> Result<ValueSet, AllocError> {
        let form = match &self.form {
            Form::Top => Form::Top,
            Form::One(part) => Form::One(*part),
            Form::Many(parts) => {
                Form::Many(Vec::from_slice(*parts.allocator(), parts.as_slice())?)
            }
        };
        Ok(ValueSet { form })
    }
}
