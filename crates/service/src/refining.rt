//! What a refiner keeps.

/// Where a refiner stands, which lanes have their last round, and what it has done.
#[derive(Drop)]
pub(crate) struct Refining {
    /// The lane that it visits.
    pub(crate) lane: u32,
    pub(crate) settled: [bool; 4],
    /// How many rounds it has published.
    pub(crate) made: u32,
    /// How often it has pinned a round.
    pub(crate) pins: u32,
}
