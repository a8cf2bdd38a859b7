//! The conditions of jcc, setcc and cmovcc.

ghost use Rattle.std.specs.Prelude.{◌≡◌};
ghost use Rattle.ia32_semantics.specs.Condition.{holds as holds_spec, even_condition as even_condition_spec};

use crate::bits::differ;
use ia32_semantics::Flags;
use ia32_types::Cond;

/// The condition of number `2 * n`.
#[tactic(auto, unfolding(ia32_semantics::specs::Condition::even_condition))]
fn even_condition(n: u8, flags: &Flags) -> bool
    ensures { result ≡ even_condition_spec n flags.now }
{
    match n {
        0 => flags.of,
        1 => flags.cf,
        2 => flags.zf,
        3 => flags.cf || flags.zf,
        4 => flags.sf,
        5 => flags.pf,
        6 => differ(flags.sf, flags.of),
        _ => flags.zf || differ(flags.sf, flags.of),
    }
}

/// Whether a condition holds of the flags.
#[tactic(auto, unfolding(ia32_semantics::specs::Condition::holds))]
pub fn holds(cond: Cond, flags: &Flags) -> bool
    ensures { result ≡ holds_spec cond flags.now }
{
    let code = cond.code();
    if code % 2 == 1 {
        !even_condition(code / 2, flags)
    } else {
        even_condition(code / 2, flags)
    }
}
