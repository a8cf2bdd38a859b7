//! What a store asks of its values.

ghost use Rattle.std.specs.Prelude.{◌≡◌, ℕ};

/// A value with the number of its round.
pub trait Numbered {
    /// What the values of a store have in common. Contracts alone read it.
    type Tag;

    /// The value belongs to the tag, in the lane of this number.
    ghost belongs: { Self.Tag → ℕ → Self → Type 0 };

    /// The number is that of a round which the lane can have, under the tag.
    ghost possible: { Self.Tag → ℕ → ℕ → Type 0 };

    /// The number of the value's round.
    ghost number: { Self → ℕ };

    /// The number of the value's round.
    fn round(&self) -> u32
        ensures { result ≡ number self.now };

    ghost belongs_to_possible: { (tag : Self.Tag) (lane : ℕ) (x : Self) → belongs tag lane x → possible tag lane (number x) };
}
