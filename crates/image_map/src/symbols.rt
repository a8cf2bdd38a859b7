//! Symbols that are found by their names.
ghost use Rattle.std.specs.Prelude.{◌≡◌, [], find, IfOk};
ghost use Rattle.std.specs.Arc.{arc_value};
ghost use Rattle.std.specs.Option.{option_copied};
ghost use Rattle.std.specs.Str.{bytes_eq};
ghost use Rattle.image_map.specs.Names.{symbols_at, value_of};
ghost use Rattle.image_map.specs.Texts.{text_at};

use crate::name::{is_text, rest};
use std::alloc::{AllocError, Global};
use std::marker::Model;
use std::sync::Arc;

/// Where a symbol's name begins in a buffer, and the symbol's value.
#[derive(Clone, Copy, Debug)]
pub struct SymbolPlace {
    pub start: u32,
    pub value: u32,
}

/// Symbols, whose names stand in a shared buffer, each up to a NUL. Among those of one name the first counts.
#[derive(Drop)]
pub struct Symbols {
    buffer: Arc<Vec<u8>, Global>,
    places: Vec<SymbolPlace>,
}

impl Model for Symbols {
    ghost use Rattle.std.specs.Prelude.{List};
    ghost use Rattle.std.specs.Arc.{arc_value};
    ghost use Rattle.image_map.specs.Names.{Symbol, symbols_at};

    ghost Value = { List Symbol };

    ghost view = { λ s. symbols_at (arc_value s.buffer).items s.places.items };
}

impl Symbols {
    /// No symbol.
    pub fn new(alloc: Global) -> Result<Symbols, AllocError>
        ensures { IfOk result (λ s. s ≡ []) }
    {
        let buffer = Arc::new(alloc, Vec::new(alloc))?;
        Ok(Symbols {
            buffer,
            places: Vec::new(alloc),
        })
    }

    /// The symbols at places of a buffer.
    pub fn at_places(
        buffer: &Arc<Vec<u8>, Global>,
        places: Vec<SymbolPlace>,
    ) -> Result<Symbols, AllocError>
        ensures { IfOk result (λ s. s ≡ symbols_at (arc_value buffer.now).items places.items) }
    {
        let buffer = Arc::try_clone(buffer)?;
        Ok(Symbols { buffer, places })
    }

    /// The value of the first symbol with a name. It looks at each symbol before, and there at no more bytes than
    /// the name has, and one.
    pub fn value(&self, name: &[u8]) -> Option<u32>
        ensures { result ≡ value_of self.now name.now }
    {
        let bytes: &Vec<u8> = &self.buffer;
        first_value(bytes.as_slice(), self.places.as_slice(), name)
    }
}

impl Clone for Symbols {
    ghost is_clone = { λ s clone. clone ≡ s };

    fn clone(&self) -> Result<Symbols, AllocError> {
        Symbols::at_places(&self.buffer, self.places.clone()?)
    }
}

/// The first of the places at which a name stands.
fn first_place<'a>(buffer: &[u8], places: &'a [SymbolPlace], name: &[u8]) -> Option<&'a SymbolPlace>
    ensures { option_copied result ≡ find (λ p. bytes_eq (text_at buffer.now p.start) name.now) places.now }
{
    places
        .iter()
        .find(|place| is_text(rest(buffer, place.start as usize), name))
}

fn first_value(buffer: &[u8], places: &[SymbolPlace], name: &[u8]) -> Option<u32>
    ensures { result ≡ value_of (symbols_at buffer.now places.now) name.now }
{
    match first_place(buffer, places, name) {
        Some(place) => Some(place.value),
        None => None,
    }
}
