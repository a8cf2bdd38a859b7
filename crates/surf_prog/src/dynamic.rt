// The lines of a dynamic slice.
ghost use Rattle.std.specs.Prelude.{◌≡◌, ◌<◌, ◌^◌, ◌++◌, length, IfOk, OnOk, MatchOption};
ghost use Rattle.std.specs.List.{flat_map};
ghost use Rattle.std.specs.Fmt.{decimal};
ghost use Rattle.requests.specs.Texts.{address_line};
ghost use Rattle.dynamic_slices.specs.Slices.{IsNeverAt, places_told, DependOnEarlier};
ghost use Rattle.surf_prog.specs.Tracing.{dynamic_text as dynamic_text_spec, TellsSlice, TellsLog};

use dynamic_slices::{dynamic_slice, last_at};
use ia32_run::Occurrence;
use std::alloc::{AllocError, Global};
use surf_base::hex8;

/// What is told of a run.
#[derive(Drop)]
pub enum Traced {
    Text(Vec<u8>),
    /// It never comes to this address, which was named.
    Never(u32),
}

/// Puts a number behind a text.
pub fn push_number(alloc: Global, text: &mut Vec<u8>, number: u32) -> Result<(), AllocError>
    ensures { OnOk result (text.new.items ≡ text.old.items ++ decimal number) }
{
    text.extend_from_slice(number.to_string(alloc)?.as_bytes())
}

fn push_address(text: &mut Vec<u8>, address: u32) -> Result<(), AllocError>
    ensures { OnOk result (text.new.items ≡ text.old.items ++ address_line address) }
{
    text.extend_from_slice(&hex8(address))?;
    text.extend_from_slice(b"\n")
}

// Puts a line for each address behind a text.
fn push_addresses(text: &mut Vec<u8>, addresses: &[u32]) -> Result<(), AllocError>
    ensures { OnOk result (text.new.items ≡ text.old.items ++ flat_map address_line addresses.now) }
{
    let mut rest = addresses;
    'addresses_left: while let Some((address, after)) = rest.split_first() {
        push_address(text, *address)?;
        rest = after;
    }
    Ok(())
}

fn dynamic_text(alloc: Global, at: u32, last: u32, addresses: &[u32]) -> Result<Vec<u8>, AllocError>
    ensures { IfOk result (λ text. text.items ≡ dynamic_text_spec at last addresses.now) }
{
    let mut text = Vec::new(alloc);
    text.extend_from_slice(b"dynamic ")?;
    text.extend_from_slice(&hex8(at))?;
    text.extend_from_slice(b" occurrence ")?;
    push_number(alloc, &mut text, last)?;
    text.extend_from_slice(b"\n")?;
    push_addresses(&mut text, addresses)?;
    Ok(text)
}

// The lines of the dynamic slice of the last step at an address, if there is such a step.
fn slice_lines(
    alloc: Global,
    steps: &[Occurrence],
    at: u32,
    skip_sp: bool,
) -> Result<Option<Vec<u8>>, AllocError>
    requires short { length steps.now < 2 ^ 32 }
    requires earlier { DependOnEarlier skip_sp steps.now }
    ensures { IfOk result (λ lines. MatchOption lines (IsNeverAt (places_told steps.now) at) (λ text. TellsSlice skip_sp steps.now at text.items)) }
{
    match last_at(steps, at) {
        None => Ok(None),
        Some(last) => {
            let addresses = dynamic_slice(alloc, steps, last, skip_sp)?;
            let text = dynamic_text(alloc, at, last, &addresses)?;
            Ok(Some(text))
        }
    }
}

/// The lines of the dynamic slice of the last step at an address, if one is named; or that no step stands there.
pub fn dynamic_lines(
    alloc: Global,
    steps: &[Occurrence],
    at: Option<u32>,
    skip_sp: bool,
) -> Result<Traced, AllocError>
    requires short { length steps.now < 2 ^ 32 }
    requires earlier { DependOnEarlier skip_sp steps.now }
    ensures { IfOk result (λ traced. TellsLog skip_sp steps.now at traced) }
{
    match at {
        None => Ok(Traced::Text(Vec::new(alloc))),
        Some(at) => match slice_lines(alloc, steps, at, skip_sp)? {
            None => Ok(Traced::Never(at)),
            Some(text) => Ok(Traced::Text(text)),
        },
    }
}
