// A sink in memory, for tests.
ghost use Rattle.std.specs.Prelude.{◌≤◌, vec_len};

use crate::calls::Calls;
use crate::{Sink, SinkFailed};
use std::alloc::{AllocError, Global};

/// A text in memory, of which everything is told. Listed calls of it fail, and so does a piece that has no room;
/// a call that fails takes nothing of its piece.
#[derive(Drop)]
pub struct MemorySink {
    buffer: Vec<u8>,
    filled: usize,
    calls: Calls,
    faults: u64,
    ghost fits: { filled ≤ vec_len buffer },
}

impl MemorySink {
    ghost use Rattle.std.specs.Prelude.{◌≡◌, [], IfOk};
    ghost use Rattle.surf_base.specs.MemorySink.{sink_text, sink_room, sink_calls, sink_failing, sink_faults};

    /// A sink for at most `room` bytes. The calls with the listed numbers, counted from 1, fail.
    pub fn new(alloc: Global, room: u32, failing: Vec<u32>) -> Result<MemorySink, AllocError>
        ensures empty { IfOk result (λ sink. sink_text sink ≡ []) }
        ensures room { IfOk result (λ sink. sink_room sink ≡ room) }
        ensures calls { IfOk result (λ sink. sink_calls sink ≡ 0) }
        ensures failing { IfOk result (λ sink. sink_failing sink ≡ failing.items) }
        ensures counts { IfOk result (λ sink. sink_faults sink ≡ 0) }
    {
        Ok(MemorySink {
            buffer: vec![in alloc; 0; room as usize]?,
            filled: 0,
            calls: Calls::new(failing),
            faults: 0,
        })
    }

    /// What was written.
    pub fn written(&self) -> &[u8]
        ensures { result.now ≡ sink_text self.now }
    {
        &self.buffer[..self.filled]
    }
}

impl Sink for MemorySink {
    ghost use Rattle.std.specs.Prelude.{◌≡◌, ◌<◌, ◌+◌, ◌⊎◌, ◌↔◌, ℕ, Some, length, Contains, IsErr, OnOk, OnErr};
    ghost use Rattle.surf_base.specs.Faults.{Rose};
    ghost use Rattle.surf_base.specs.Sink.{Appends, AppendsPart};
    ghost use Rattle.surf_base.specs.MemorySink.{sink_text, sink_room, sink_calls, sink_failing, sink_faults};
    ghost use Rattle.surf_base.specs.Calls.{next_call};

    ghost written = { λ sink. Some (sink_text sink) };

    ghost faults = { sink_faults };

    fn write(&mut self, piece: &[u8]) -> Result<(), SinkFailed>
        ensures appended { OnOk result (Appends (Some (sink_text self.old)) (Some (sink_text self.new)) piece.now) }
        ensures part { OnErr result (AppendsPart (Some (sink_text self.old)) (Some (sink_text self.new)) piece.now) }
        ensures cause { OnErr result (Rose (sink_faults self.old) (sink_faults self.new)) }
        ensures kept { OnOk result (sink_faults self.new ≡ sink_faults self.old) }
        ensures counts { sink_faults self.old ≤ sink_faults self.new }
        // A failing call takes nothing.
        ensures nothing { OnErr result (sink_text self.new ≡ sink_text self.old) }
        ensures fails { IsErr result ↔ (Contains (sink_failing self.old) (next_call (sink_calls self.old))
            ⊎ (sink_room self.old < length (sink_text self.old) + length piece.now)) }
        ensures calls { sink_calls self.new ≡ next_call (sink_calls self.old) }
        ensures room { sink_room self.new ≡ sink_room self.old }
        ensures failing { sink_failing self.new ≡ sink_failing self.old }
    {
        let fails = self.calls.next_fails();
        let room = self.buffer.len() - self.filled;
        if fails || room < piece.len() {
            self.faults = self.faults.saturating_add(1);
            return Err(SinkFailed);
        }
        let end = self.filled + piece.len();
        self.buffer[self.filled..end].copy_from_slice(piece);
        self.filled = end;
        Ok(())
    }
}
