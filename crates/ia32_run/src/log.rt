//! What is told of a run.

use ia32_machine::StepOut;
use item_list::Items;

/// How a run ends.
#[derive(Clone, Copy, Debug, PartialEq, Eq)]
pub enum Finish {
    /// The entry returns.
    Return,
    /// HLT is executed.
    Halt,
    /// An extern ends the program.
    Stop,
    /// The next step is a fault.
    Fault,
    /// It has as many steps as it may have.
    Limit,
}

/// A step of a run.
#[derive(Debug, Drop)]
pub struct Occurrence {
    /// The address at which it stands.
    pub at: u32,
    /// The earlier steps on which it depends directly by last write, rising. Steps count from 0.
    pub depends: Items<u32>,
    /// The same where ESP is left out.
    pub depends_skip: Items<u32>,
}

/// The steps of a run, and how it ends.
#[derive(Debug, Drop)]
pub struct RunLog {
    pub steps: Items<Occurrence>,
    pub finish: Finish,
}

/// A step that the machine made.
#[derive(Debug, Drop)]
pub struct Made {
    /// The address at which it stands.
    pub at: u32,
    pub out: StepOut,
    /// How the run ends, where the step completes it.
    pub finish: Option<Finish>,
}
