// Where an image is entered.
ghost use Rattle.std.specs.Prelude.{◌≡◌};
ghost use Rattle.surf_prog.specs.Entry.{entry_place as entry_spec};

use command_words::Entry;
use image_map::Image;

/// The place that is named, or that of the image's file, unless no symbol has the name.
pub fn entry_place(image: &Image, entry: &Option<Entry>) -> Option<u32>
    ensures { result ≡ entry_spec image.now entry.now }
{
    match entry {
        None => Some(image.entry),
        Some(Entry::Address(at)) => Some(*at),
        Some(Entry::Symbol(name)) => image.symbol(name.as_str().as_bytes()),
    }
}
