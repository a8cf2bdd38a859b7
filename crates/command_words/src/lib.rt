//! The words of the command line: what the program is asked to do, and with which options.
#![tactic(auto)]

mod grammar;
mod line;
mod options;
mod reading;
mod task;
mod text;
mod values;

pub use line::{CommandLine, Entry, ExternKind, Options, Task, WordsError};
pub use reading::parse;
pub use text::Text;
