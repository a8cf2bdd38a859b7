//! Points at which a session or a refiner may be held.

/// What a session or a refiner has just done.
#[derive(Clone, Copy, Debug, PartialEq, Eq)]
pub enum Point {
    /// It has pinned a round.
    Pinned,
    /// It has made its reply, or its round, and let the pinned round go.
    Answered,
}

/// A point that a session or a refiner passes.
#[derive(Clone, Copy, Debug, PartialEq, Eq)]
pub struct Place {
    /// The session's number; a refiner's is 0.
    pub session: u32,
    /// The number of the session's request, or of the refiner's pin, from 1.
    pub request: u32,
    pub point: Point,
}

/// Who is told of each point, and may hold the one who passes it.
pub trait Gate {
    /// It passes this point.
    fn pass(&self, place: Place);
}

/// A gate that holds nobody.
#[derive(Clone, Copy, Debug)]
pub struct OpenGate;

impl Gate for OpenGate {
    fn pass(&self, _: Place) {}
}
