// The text of an image's instructions.
ghost use Rattle.std.specs.Prelude.{◌≡◌, ◌++◌, ◌∷◌, [], ◌<◌, ◌^◌, ◌↔◌, Some, IfSome, IfOk, OnOk, codes};
ghost use Rattle.std.specs.Fmt.{decimal};
ghost use Rattle.ia32_types.specs.declared.Instr.{Instr};
ghost use Rattle.surf_prog.specs.Listing.{StandsAt, instr_line, IsTheListing};

use ia32_fetch::fetched;
use ia32_print::print_instr;
use ia32_types::Instr;
use image_map::Image;
use std::alloc::{AllocError, Global};
use surf_base::hex8;

// The instruction at an address, if it has 32 bits.
fn standing(image: &Image, at: u64) -> Option<Instr>
    ensures stands { (i : Instr) → (result ≡ Some i) ↔ StandsAt image.now at i }
    ensures below { IfSome result (λ i. at < 2 ^ 32) }
{
    if at < 1 << 32 {
        fetched(image, at as u32)
    } else {
        None
    }
}

fn push_line(text: &mut Vec<u8>, instr: &Instr) -> Result<(), AllocError>
    ensures { OnOk result (text.new.items ≡ text.old.items ++ instr_line instr.now) }
{
    text.extend_from_slice(&hex8(instr.at))?;
    text.extend_from_slice(b" ")?;
    text.extend_from_slice(print_instr(instr).as_slice())?;
    text.extend_from_slice(b"\n")
}

// The text with its last line.
fn ended(alloc: Global, mut text: Vec<u8>, count: u32) -> Result<Vec<u8>, AllocError>
    ensures { IfOk result (λ whole. whole.items ≡ text.items ++ (codes "end " ++ (decimal count ++ 10 ∷ []))) }
{
    text.extend_from_slice(b"end ")?;
    text.extend_from_slice(count.to_string(alloc)?.as_bytes())?;
    text.extend_from_slice(b"\n")?;
    Ok(text)
}

/// The text of the instructions from an address on, at most `steps` of them: they stand one after
/// the other, and the list ends before a place that isn't code or doesn't decode.
pub fn listing(alloc: Global, image: &Image, at: u32, steps: u32) -> Result<Vec<u8>, AllocError>
    ensures { IfOk result (λ text. IsTheListing image.now at steps text.items) }
{
    let mut text = Vec::new(alloc);
    let mut count = 0;
    let mut place = u64::from(at);
    'places: while count < steps {
        match standing(image, place) {
            None => return ended(alloc, text, count),
            Some(instr) => {
                push_line(&mut text, &instr)?;
                count += 1;
                place += u64::from(instr.len);
            }
        }
    }
    ended(alloc, text, count)
}
