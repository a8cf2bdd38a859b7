//! Quotients of words that are known.

ghost use Rattle.std.specs.Prelude.{◌≡◌};
ghost use Rattle.abs_steps.specs.Results.{known_quotient as known_quotient_spec};

use abs_alu::known;
use ia32_alu::divide;
use ia32_types::Width;
use vset::ValueSet;

/// Quotient and remainder of EDX:EAX by an operand at 32 bits, where each is one word and there is a quotient.
pub fn known_quotient(
    width: Width,
    signed: bool,
    high: &ValueSet,
    low: &ValueSet,
    by: &ValueSet,
) -> Option<(u32, u32)>
    ensures { result ≡ known_quotient_spec width signed high.now low.now by.now }
{
    match width {
        Width::D32 => {
            let high = known::<32>(high)?;
            let low = known::<32>(low)?;
            let by = known::<32>(by)?;
            divide::<32>(signed, high, low, by)
        }
        _ => None,
    }
}
