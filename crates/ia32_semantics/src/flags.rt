/// The five flags of arithmetic.
#[derive(Clone, Copy, Debug, PartialEq, Eq)]
pub struct Flags {
    /// Carry.
    pub cf: bool,
    /// Parity.
    pub pf: bool,
    /// Zero.
    pub zf: bool,
    /// Sign.
    pub sf: bool,
    /// Overflow.
    pub of: bool,
}

/// What an operation does to a flag.
#[derive(Clone, Copy, Debug, PartialEq, Eq)]
pub enum FlagOut {
    Kept,
    Set(bool),
    /// It may be either afterwards.
    Undefined,
}

/// What an operation does to the five flags of arithmetic.
#[derive(Clone, Copy, Debug, PartialEq, Eq)]
pub struct FlagsOut {
    pub cf: FlagOut,
    pub pf: FlagOut,
    pub zf: FlagOut,
    pub sf: FlagOut,
    pub of: FlagOut,
}
