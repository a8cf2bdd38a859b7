//! The reply that lists warnings.
ghost use Rattle.std.specs.Prelude.{◌≡◌, ◌++◌, ◌∷◌, [], codes, map, IfOk, OnOk};
ghost use Rattle.std.specs.List.{flat_map};
ghost use Rattle.std.specs.Fmt.{decimal};
ghost use Rattle.requests.specs.Texts.{warning_line};
ghost use Rattle.round_texts.specs.Warnings.{named, warnings_reply};

use crate::lines::{Place, push_address, push_first_line};
use crate::names::name_of;
use crate::push::push_number;
use rounds::Round;
use std::alloc::{AllocError, Global};
use vsa::Warning;

fn push_warning(text: &mut Vec<u8>, warning: &Warning) -> Result<(), AllocError>
    ensures { OnOk result (text.new.items ≡ text.old.items ++ warning_line (named warning.now)) }
{
    text.extend_from_slice(b"warning ")?;
    text.extend_from_slice(name_of(warning.name))?;
    text.extend_from_slice(b" ")?;
    push_address(text, warning.at)
}

fn push_warnings(text: &mut Vec<u8>, warnings: &[Warning]) -> Result<(), AllocError>
    ensures { OnOk result (text.new.items ≡ text.old.items ++ flat_map warning_line (map named warnings.now)) }
{
    let mut rest = warnings;
    'warnings_left: while let Some((warning, after)) = rest.split_first() {
        push_warning(text, warning)?;
        rest = after;
    }
    Ok(())
}

fn push_count(text: &mut Vec<u8>, count: usize) -> Result<(), AllocError>
    ensures { OnOk result (text.new.items ≡ text.old.items ++ (codes "end " ++ (decimal count ++ (codes " warnings" ++ 10 ∷ [])))) }
{
    text.extend_from_slice(b"end ")?;
    push_number(text, count as u64)?;
    text.extend_from_slice(b" warnings\n")
}

/// The reply that lists the warnings of a round.
///
/// # Errors
/// Where memory is wanting.
pub fn warnings_text(alloc: Global, round: &Round) -> Result<Vec<u8>, AllocError>
    ensures { IfOk result (λ text. text.items ≡ warnings_reply round.now) }
{
    let mut text = Vec::new(alloc);
    let place = Place {
        round: round.number,
        lane: round.lane,
    };
    push_first_line(&mut text, b"warnings", &[], place)?;
    push_warnings(&mut text, &round.warnings)?;
    push_count(&mut text, round.warnings.len())?;
    Ok(text)
}
