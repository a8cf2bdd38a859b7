//! The map of last writers.

ghost use Rattle.std.specs.Prelude.{◌≡◌, ◌↔◌, ℕ, ◌<◌, if◌then◌else◌, None, Contains, OnOk, OnErr, IfOk};
ghost use Rattle.std.specs.List.Sorted.{IsStrictlyIncreasing};
ghost use Rattle.item_list.specs.Ranges.{within};
ghost use Rattle.last_writers.specs.Writers.{writer_at, IsWriterIn};

use crate::spans::{Written, passed, replace, rest, steps_before};
use std::alloc::{AllocError, Global};
use std::marker::Model;

/// The step that wrote each address last. A change or a look-up costs what it touches: a range is one span, however
/// long it is.
#[derive(Debug, Drop)]
pub struct LastWriters {
    spans: Vec<Written>,
}

impl Model for LastWriters {
    ghost use Rattle.std.specs.Prelude.{List};
    ghost use Rattle.last_writers.specs.declared.spans.Written.{Written};
    ghost use Rattle.last_writers.specs.Writers.{IsRising};

    ghost Value = { List Written };

    ghost view = { λ w. w.spans.items };

    ghost invariant = { λ w. IsRising w.spans.items };
}

impl LastWriters {
    /// No address has a writer.
    pub fn new(alloc: Global) -> LastWriters
        ensures { (a : ℕ) → writer_at result a ≡ None }
    {
        LastWriters {
            spans: Vec::new(alloc),
        }
    }

    /// From now on a step is the last writer of the addresses from `start` up to, and without, `end`; or, with no
    /// step, these have no writer. After an error all is as before.
    pub fn set(
        &mut self,
        alloc: Global,
        start: u32,
        end: u32,
        step: Option<u32>,
    ) -> Result<(), AllocError>
        requires { start < end }
        ensures ok { OnOk result ((a : ℕ) → writer_at self.new a ≡ (if within start end a then step else writer_at self.old a)) }
        ensures err { OnErr result (self.new ≡ self.old) }
    {
        replace(alloc, &mut self.spans, start, end, step)?;
        Ok(())
    }

    /// The last writers of the addresses from `start` up to, and without, `end`: rising, each once.
    pub fn writers(&self, alloc: Global, start: u32, end: u32) -> Result<Vec<u32>, AllocError>
        requires { start < end }
        ensures rising { IfOk result (λ v. IsStrictlyIncreasing v.items) }
        ensures all { IfOk result (λ v. (step : ℕ) → Contains v.items step ↔ IsWriterIn self.now start end step) }
    {
        let spans = self.spans.as_slice();
        let mut steps = steps_before(alloc, rest(spans, passed(spans, start)), end)?;
        steps.sort_unstable();
        steps.dedup();
        Ok(steps)
    }
}
