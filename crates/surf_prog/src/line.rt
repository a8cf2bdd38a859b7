// A line that is put together in memory.
ghost use Rattle.std.specs.Prelude.{◌≡◌, ◌==◌, [], Some};

use std::alloc::Global;
use surf_base::{Sink, SinkFailed};

/// The pieces that were written so far, and how many were refused for want of memory.
#[derive(Drop)]
pub struct Line {
    pub text: Vec<u8>,
    pub faults: u64,
}

impl Line {
    /// An empty line.
    pub fn new(alloc: Global) -> Line
        ensures empty { result.text.items ≡ [] }
        ensures calm { result.faults ≡ 0 }
    {
        Line {
            text: Vec::new(alloc),
            faults: 0,
        }
    }

    /// Whether no piece was refused.
    pub fn is_whole(&self) -> bool
        ensures { result ≡ (self.now.faults == 0) }
    {
        self.faults == 0
    }

    /// The text of the line.
    pub fn text(&self) -> &[u8]
        ensures { result.now ≡ self.now.text.items }
    {
        self.text.as_slice()
    }
}

impl Sink for Line {
    ghost written = { λ line. Some line.text.items };

    ghost faults = { λ line. line.faults };

    fn write(&mut self, piece: &[u8]) -> Result<(), SinkFailed> {
        if self.text.extend_from_slice(piece).is_ok() {
            return Ok(());
        }
        self.faults = self.faults.saturating_add(1);
        Err(SinkFailed)
    }
}
