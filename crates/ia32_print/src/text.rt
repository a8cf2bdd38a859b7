// A short text that takes no memory.
ghost use Rattle.std.specs.Prelude.{◌≡◌, ◌+◌, ◌≤◌, [], ◌++◌, length};

use std::marker::Model;

// More than the longest text of an instruction.
const ROOM: usize = 96;

/// The text of one instruction, at most 96 bytes; contracts see the list of them.
#[derive(Drop)]
pub struct Text {
    bytes: [u8; 96],
    len: usize,
}

impl Model for Text {
    ghost use Rattle.std.specs.Prelude.{ℕ, ◌≤◌, List, take};

    ghost Value = { List ℕ };

    ghost view = { λ t. take t.len t.bytes };

    ghost invariant = { λ t. t.len ≤ 96 };
}

impl Text {
    pub(crate) fn new() -> Text
        ensures { result ≡ [] }
    {
        Text {
            bytes: [0; ROOM],
            len: 0,
        }
    }

    // Appends a piece.
    pub(crate) fn push(&mut self, piece: &[u8])
        requires { length self.old + length piece.now ≤ 96 }
        ensures { self.new ≡ self.old ++ piece.now }
    {
        let end = self.len + piece.len();
        self.bytes[self.len..end].copy_from_slice(piece);
        self.len = end;
    }

    /// Its bytes, which are ASCII.
    pub fn as_slice(&self) -> &[u8]
        ensures { result.now ≡ self.now }
    {
        &self.bytes[..self.len]
    }
}
