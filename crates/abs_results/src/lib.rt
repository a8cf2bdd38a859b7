//! What operations give of value-sets beside those of arithmetic: conditions, extensions, quotients, an aligned stack pointer, and the
//! pointers and counts of string instructions.
#![tactic(auto)]

mod alignment;
mod conditions;
mod extensions;
mod operations;
mod pointers;
mod quotients;
#[cfg(test)]
mod tests;

pub use alignment::aligned_or;
pub use conditions::{chosen_by, may_hold, truth_of};
pub use extensions::{any_of, known_at, sign_of, widened, word_number};
pub use operations::{Operation, are_one_register, is_zero, keeps_flags, operated};
pub use pointers::{bytes_of, count_of, grown, if_counted, pushed_at, risen, stepped};
pub use quotients::known_quotient;
