//! What the sweeps ask of a domain of abstract states.
ghost use Rattle.std.specs.Prelude.{◌≡◌, ℕ, false, map, IfOk};
ghost use Rattle.sweeps.specs.Meaning.{Meaning, IsLawful};

use std::alloc::AllocError;

/// Places of a program, and the states in which runs may come to them.
pub trait Domain {
    /// A place of the program, where one state is kept.
    type Place: Drop;

    /// What is known of a run that stands at a place.
    type State: Drop;

    /// What the methods give.
    ghost meaning: { Self → Meaning Self.Place Self.State };

    /// Whether one place stands before another in the order of places.
    fn is_before(&self, place: &Self::Place, other: &Self::Place) -> bool
        ensures { result ≡ (meaning self.now).before place.now other.now };

    /// The address of a place. A place that has a successor whose address isn't greater than its own is one that widens.
    fn address(&self, place: &Self::Place) -> u32
        ensures { result ≡ (meaning self.now).address place.now };

    /// An equal place.
    fn copy_place(&self, place: &Self::Place) -> Result<Self::Place, AllocError>
        ensures { IfOk result (λ p. p ≡ place.now) };

    /// An equal state.
    fn copy_state(&self, state: &Self::State) -> Result<Self::State, AllocError>
        ensures { IfOk result (λ s. s ≡ state.now) };

    /// Whether the states of other places may concern this one. It spares asking for each of them.
    fn looks_at_others(&self, place: &Self::Place) -> bool
        ensures { result ≡ false → (other : Self.Place) → (meaning self.now).concerns place.now other ≡ false };

    /// Whether the successors of a place are made of another's state too.
    fn concerns(&self, place: &Self::Place, other: &Self::Place) -> bool
        ensures { result ≡ (meaning self.now).concerns place.now other.now };

    /// Where control may go from a place that has this state, with which states. The others are the places that concern it, in their
    /// order, with their states.
    fn successors<'a>(
        &self,
        place: &Self::Place,
        state: &Self::State,
        others: &[(&'a Self::Place, &'a Self::State)],
    ) -> Result<Vec<(Self::Place, Self::State)>, AllocError>
        ensures { IfOk result (λ v. v.items ≡ (meaning self.now).successors place.now state.now (map {B = Self.Place × Self.State} (λ o. (o.0.now, o.1.now)) others.now)) };

    /// A state that allows what either allows.
    fn join(&self, state: &Self::State, other: &Self::State) -> Result<Self::State, AllocError>
        ensures { IfOk result (λ s. s ≡ (meaning self.now).join state.now other.now) };

    /// The old state widened by the new one.
    fn widen(&self, old: &Self::State, new: &Self::State) -> Result<Self::State, AllocError>
        ensures { IfOk result (λ s. s ≡ (meaning self.now).widen old.now new.now) };

    /// The new state, with everything allowed wherever it differs from the old one.
    fn top_differences(
        &self,
        old: &Self::State,
        new: &Self::State,
    ) -> Result<Self::State, AllocError>
        ensures { IfOk result (λ s. s ≡ (meaning self.now).topped old.now new.now) };

    /// Whether one state allows no more than another.
    fn is_below(&self, state: &Self::State, other: &Self::State) -> bool
        ensures { result ≡ (meaning self.now).below state.now other.now };

    /// Whether two states don't differ.
    fn is_same(&self, state: &Self::State, other: &Self::State) -> bool
        ensures { result ≡ (meaning self.now).same state.now other.now };

    /// The places are in one strict order, and no state differs from itself.
    ghost lawful: { (domain : Self) → IsLawful (meaning domain) };
}
