ghost use Rattle.std.specs.Prelude.{◌≡◌, ◌≤◌, length, drop, IfOk};
ghost use Rattle.std.specs.Arc.{arc_value};
ghost use Rattle.std.specs.List.{list_any};
ghost use Rattle.std.specs.Str.{bytes_eq};
ghost use Rattle.image_map.specs.Texts.{is_nul, is_end as is_end_spec, first_text, text_at};

use std::alloc::{AllocError, Global};
use std::marker::Model;
use std::sync::Arc;

/// A name that stands in a buffer, from a place up to the first NUL or the buffer's end. Names share their
/// buffer, so that many long names cost no more than the buffer.
#[derive(Drop)]
pub struct Name {
    buffer: Arc<Vec<u8>, Global>,
    start: u32,
}

impl Model for Name {
    ghost use Rattle.std.specs.Prelude.{List, ℕ};
    ghost use Rattle.std.specs.Arc.{arc_value};
    ghost use Rattle.image_map.specs.Texts.{text_at};

    ghost Value = { List ℕ };

    ghost view = { λ n. text_at (arc_value n.buffer).items n.start };
}

impl Name {
    /// The name that begins at a place of a shared buffer, and is empty where the buffer ends before.
    pub fn new(buffer: &Arc<Vec<u8>, Global>, start: u32) -> Result<Name, AllocError>
        ensures { IfOk result (λ n. n ≡ text_at (arc_value buffer.now).items start) }
    {
        let buffer = Arc::try_clone(buffer)?;
        Ok(Name { buffer, start })
    }

    /// Whether the name is a text. It looks at no more bytes than the text has, and one.
    pub fn is(&self, text: &[u8]) -> bool
        ensures { result ≡ bytes_eq self.now text.now }
    {
        let bytes: &Vec<u8> = &self.buffer;
        is_text(rest(bytes.as_slice(), self.start as usize), text)
    }
}

impl Clone for Name {
    ghost is_clone = { λ n clone. clone ≡ n };

    fn clone(&self) -> Result<Name, AllocError> {
        Name::new(&self.buffer, self.start)
    }
}

/// The bytes from a place on, and none where they end before.
pub fn rest(bytes: &[u8], start: usize) -> &[u8]
    ensures { result.now ≡ drop start bytes.now }
{
    if start < bytes.len() {
        &bytes[start..]
    } else {
        &[]
    }
}

fn has_nul(text: &[u8]) -> bool
    ensures { result ≡ list_any is_nul text.now }
{
    text.iter().any(|byte| *byte == 0)
}

/// Whether a text ends where these bytes begin.
fn is_end(bytes: &[u8]) -> bool
    ensures { result ≡ is_end_spec bytes.now }
{
    match bytes {
        [] => true,
        [first, ..] => *first == 0,
    }
}

/// Whether bytes begin with a text that ends there.
pub fn is_text(bytes: &[u8], text: &[u8]) -> bool
    ensures { result ≡ bytes_eq (first_text bytes.now) text.now }
{
    match bytes.strip_prefix(text) {
        None => false,
        Some(after) => {
            if has_nul(text) {
                return false;
            }
            is_end(after)
        }
    }
}
