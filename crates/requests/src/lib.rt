//! The grammar of scripts, and the text of replies that need no abstract state. Both are the project's own.
#![tactic(auto)]

mod digits;
mod line;
mod request;
mod script;
mod text;
mod words;

pub use line::content;
pub use request::{LineCause, Request, Script, ScriptError};
pub use script::{first_line_len, read_programs_script, read_script};
pub use text::write_slice;

#[cfg(test)]
mod tests;
