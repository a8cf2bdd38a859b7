//! Instructions as text.
#![tactic(auto)]

mod names;
mod print;
mod text;

pub use print::{print_instr, write_instr};
pub use text::Text;
