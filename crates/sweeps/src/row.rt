//! The rows of a map.

/// A place with its state, and how often the state has changed.
#[derive(Drop)]
pub struct Row<P, S> {
    /// The place.
    pub place: P,
    /// The state in which runs may come to the place.
    pub state: S,
    /// The changes of the state in growing sweeps; the place's entering is the first.
    pub changes: u32,
}
