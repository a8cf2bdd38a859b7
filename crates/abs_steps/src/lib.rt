//! Abstract steps: what instructions, calls, returns and externs do to abstract states, which memory they access, where control
//! goes, and what can't be followed. These are definitions, and no code.
#![tactic(auto)]

mod accesses;
mod warnings;

pub use accesses::Access;
pub use warnings::WarnName;
