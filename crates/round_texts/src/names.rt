//! How warnings are named.
ghost use Rattle.std.specs.Prelude.{◌≡◌};
ghost use Rattle.round_texts.specs.Warnings.{name_text};

use abs_steps::WarnName;

/// The name of a warning.
pub(crate) fn name_of<'a>(name: WarnName) -> &'a [u8]
    ensures { result.now ≡ name_text name }
{
    match name {
        WarnName::Undecoded => b"Undecoded",
        WarnName::UnresolvedJump => b"UnresolvedJump",
        WarnName::UnknownWrite => b"UnknownWrite",
        WarnName::OutOfRegion => b"OutOfRegion",
        WarnName::HeapOverrun => b"HeapOverrun",
        WarnName::ReturnSlot => b"ReturnSlot",
        WarnName::StackLost => b"StackLost",
        WarnName::UnknownExtern => b"UnknownExtern",
        WarnName::Full => b"Full",
        WarnName::NotClosed => b"NotClosed",
    }
}
