//! Lists of warnings.

ghost use Rattle.std.specs.Prelude.{◌≡◌, ◌<◌, ◌||◌, not, get_or, length, map, OnOk};
ghost use Rattle.std.specs.List.{fold, position, position_or_len};
ghost use Rattle.vsa.specs.Warned.{name_number, same_warning, warning_before, with_warning, named_at};

use abs_steps::WarnName;
use std::alloc::AllocError;

/// What can't be followed at an address, or, at address 0, of a whole map.
#[derive(Clone, Copy, Debug)]
pub struct Warning {
    pub at: u32,
    pub name: WarnName,
}

/// The place of a name in the order of names.
fn number(name: WarnName) -> u32
    ensures { result ≡ name_number name }
{
    match name {
        WarnName::Undecoded => 0,
        WarnName::UnresolvedJump => 1,
        WarnName::UnknownWrite => 2,
        WarnName::OutOfRegion => 3,
        WarnName::HeapOverrun => 4,
        WarnName::ReturnSlot => 5,
        WarnName::StackLost => 6,
        WarnName::UnknownExtern => 7,
        WarnName::Full => 8,
        WarnName::NotClosed => 9,
    }
}

fn is_same(a: &Warning, b: &Warning) -> bool
    ensures { result ≡ same_warning a.now b.now }
{
    a.at == b.at && number(a.name) == number(b.name)
}

/// Whether one warning stands before another: by address, then in the order of names.
fn is_before(a: &Warning, b: &Warning) -> bool
    ensures { result ≡ warning_before a.now b.now }
{
    if a.at == b.at {
        number(a.name) < number(b.name)
    } else {
        a.at < b.at
    }
}

fn stops_at(x: &Warning, w: &Warning) -> bool
    ensures { result ≡ (same_warning x.now w.now || not (warning_before x.now w.now)) }
{
    is_same(x, w) || !is_before(x, w)
}

fn first_place(ws: &[Warning], w: &Warning) -> Option<usize>
    ensures { result ≡ position (λ x. same_warning x w.now || not (warning_before x w.now)) ws.now }
{
    ws.iter().position(|x| stops_at(x, w))
}

/// Where a warning stands among others, or would.
fn place_of(ws: &[Warning], w: &Warning) -> usize
    ensures { result ≡ position_or_len (λ x. same_warning x w.now || not (warning_before x w.now)) ws.now }
{
    match first_place(ws, w) {
        Some(place) => place,
        None => ws.len(),
    }
}

/// Puts a warning among others in their order, once.
pub(crate) fn note(ws: &mut Vec<Warning>, w: Warning) -> Result<(), AllocError>
    ensures { OnOk result (ws.new.items ≡ with_warning ws.old.items w) }
{
    let place = place_of(ws.as_slice(), &w);
    if place < ws.len() && is_same(&ws[place], &w) {
        ws[place] = w;
        return Ok(());
    }
    ws.insert(place, w)?;
    Ok(())
}

/// A name by its place.
fn name_at(names: &[WarnName], place: usize) -> WarnName
    requires { place < length names.now }
    ensures { result ≡ get_or names.now place result }
{
    names[place]
}

/// Puts the names of what can't be followed at an address among other warnings.
pub(crate) fn note_names(
    ws: &mut Vec<Warning>,
    at: u32,
    names: &[WarnName],
) -> Result<(), AllocError>
    ensures { OnOk result (ws.new.items ≡ fold with_warning ws.old.items (map (named_at at) names.now)) }
{
    for i in 0..names.len() {
        let name = name_at(names, i);
        note(ws, Warning { at, name })?;
    }
    Ok(())
}
