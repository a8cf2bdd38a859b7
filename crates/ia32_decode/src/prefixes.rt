//! The prefixes of an instruction.

ghost use Rattle.std.specs.Prelude.{◌≡◌, ◌≤◌, option_and_then};
ghost use Rattle.ia32_types.specs.Prefixes.{no_prefixes as no_prefixes_spec, is_prefix as is_prefix_spec, gs_after as gs_after_spec, cs_after as cs_after_spec, ds_after as ds_after_spec, later as later_spec, is_earlier as is_earlier_spec, unless_lost as unless_lost_spec, with_segment as with_segment_spec, with_repeat as with_repeat_spec, next_prefixes as next_prefixes_spec, bytes_after as bytes_after_spec};

use crate::forms::is_gs;
use ia32_types::forms::{Prefixes, Repeat, Segment};

/// No prefix yet.
pub fn no_prefixes() -> Prefixes
    ensures { result ≡ no_prefixes_spec }
{
    Prefixes {
        operand16: false,
        segment: Segment::None,
        repeat: Repeat::Absent,
    }
}

/// Whether a byte is a prefix.
pub fn is_prefix(byte: u8) -> bool
    ensures { result ≡ is_prefix_spec byte }
{
    byte == 0x66 || byte == 0x65 || byte == 0x2E || byte == 0x3E || byte == 0xF3
}

/// The segment after 65.
fn gs_after(segment: Segment) -> Option<Segment>
    ensures { result ≡ gs_after_spec segment }
{
    match segment {
        Segment::None => Some(Segment::Gs),
        Segment::Cs => None,
        Segment::Ds => None,
        Segment::Gs => Some(Segment::Gs),
    }
}

/// The segment after 2E.
fn cs_after(segment: Segment) -> Option<Segment>
    ensures { result ≡ cs_after_spec segment }
{
    match segment {
        Segment::None => Some(Segment::Cs),
        Segment::Cs => Some(Segment::Cs),
        Segment::Ds => Some(Segment::Cs),
        Segment::Gs => None,
    }
}

/// The segment after 3E.
fn ds_after(segment: Segment) -> Option<Segment>
    ensures { result ≡ ds_after_spec segment }
{
    match segment {
        Segment::None => Some(Segment::Ds),
        Segment::Cs => Some(Segment::Cs),
        Segment::Ds => Some(Segment::Ds),
        Segment::Gs => None,
    }
}

/// F3, after one more prefix.
fn later(repeat: Repeat) -> Repeat
    ensures { result ≡ later_spec repeat }
{
    match repeat {
        Repeat::Absent => Repeat::Absent,
        Repeat::Last => Repeat::Earlier,
        Repeat::Earlier => Repeat::Earlier,
    }
}

/// Whether prefixes have followed F3.
fn is_earlier(repeat: Repeat) -> bool
    ensures { result ≡ is_earlier_spec repeat }
{
    matches!(repeat, Repeat::Earlier)
}

/// The prefixes, unless nothing may follow them.
fn unless_lost(prefixes: &Prefixes) -> Option<Prefixes>
    ensures { result ≡ unless_lost_spec prefixes.now }
{
    if is_earlier(prefixes.repeat) && is_gs(prefixes.segment) {
        None
    } else {
        Some(*prefixes)
    }
}

/// The prefixes with this segment.
fn with_segment(prefixes: &Prefixes, segment: Option<Segment>) -> Option<Prefixes>
    ensures { result ≡ option_and_then (with_segment_spec prefixes.now) segment }
{
    match segment {
        None => None,
        Some(segment) => unless_lost(&Prefixes {
            operand16: prefixes.operand16,
            segment,
            repeat: later(prefixes.repeat),
        }),
    }
}

/// The prefixes with F3, which stands once.
fn with_repeat(prefixes: &Prefixes) -> Option<Prefixes>
    ensures { result ≡ with_repeat_spec prefixes.now prefixes.now.repeat }
{
    match prefixes.repeat {
        Repeat::Absent => Some(Prefixes {
            operand16: prefixes.operand16,
            segment: prefixes.segment,
            repeat: Repeat::Last,
        }),
        Repeat::Last => None,
        Repeat::Earlier => None,
    }
}

/// The prefixes with one more, if anything may follow it.
#[tactic(auto, unfolding(ia32_types::specs::Prefixes::next_prefixes))]
pub fn next_prefixes(prefixes: &Prefixes, byte: u8) -> Option<Prefixes>
    ensures { result ≡ next_prefixes_spec prefixes.now byte }
{
    match byte {
        0x66 => unless_lost(&Prefixes {
            operand16: true,
            segment: prefixes.segment,
            repeat: later(prefixes.repeat),
        }),
        0x65 => with_segment(prefixes, gs_after(prefixes.segment)),
        0x2E => with_segment(prefixes, cs_after(prefixes.segment)),
        0x3E => with_segment(prefixes, ds_after(prefixes.segment)),
        _ => with_repeat(prefixes),
    }
}

/// The fewest bytes that follow.
pub fn bytes_after(prefixes: &Prefixes) -> u8
    ensures { result ≡ bytes_after_spec prefixes.now prefixes.now.repeat }
{
    match prefixes.repeat {
        Repeat::Absent => 1,
        Repeat::Last => {
            if prefixes.operand16 && is_gs(prefixes.segment) {
                3
            } else {
                1
            }
        }
        Repeat::Earlier => 1,
    }
}
