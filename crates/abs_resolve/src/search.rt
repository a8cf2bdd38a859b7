//! The search for places along links, level by level.

ghost use Rattle.std.specs.Prelude.{◌≡◌, ◌+◌, ◌++◌, map, [], ◌∷◌, IfOk, OnOk, false};
ghost use Rattle.vset.specs.declared.part.Part.{Part};
ghost use Rattle.abs_semantics.specs.Resolve.{rising_onto, met_after, levels, most_links, told_of_few, resolve as resolve_spec};
ghost use Rattle.abs_resolve.specs.Forms.{verdict_of, AreTold};
ghost use Rattle.abs_resolve.specs.Search.{Noted, all_noted, finished, is_crowd, noted, nothing, put_if, with_reason};
ghost use Rattle.abs_resolve.specs.Owned.{state_of};

use crate::levels::next_level;
use crate::owners::Owners;
use crate::parts::{is_too_long, put, rising};
use crate::verdicts::{Access, Verdict, is_listed, is_refused_by, verdict_at};
use abs_semantics::Reason;
use std::alloc::{AllocError, Global};
use std::marker::Model;
use vset::{Part, ValueSet};

/// The places of an address.
#[derive(Drop)]
pub struct Places {
    /// Intervals of offsets in regions, rising, each once.
    pub entries: Vec<Part>,
    /// Why the address may mean other places too, rising, each once.
    pub reasons: Vec<Reason>,
}

/// What was met so far.
#[derive(Drop)]
struct Findings {
    seen: Vec<Part>,
    entries: Vec<Part>,
    unknown_write: bool,
    out_of_region: bool,
    heap_overrun: bool,
}

impl Model for Findings {
    ghost use Rattle.abs_resolve.specs.Search.{Noted};

    ghost Value = { Noted };

    ghost view = { λ s. record { seen = s.seen.items; entries = s.entries.items; unknown_write = s.unknown_write; out_of_region = s.out_of_region; heap_overrun = s.heap_overrun } };
}

fn put_where(wanted: bool, x: &Part, parts: &mut Vec<Part>) -> Result<(), AllocError>
    ensures { OnOk result (parts.new.items ≡ put_if wanted x.now parts.old.items) }
{
    if wanted {
        put(x, parts)?;
    }
    Ok(())
}

fn push_where(wanted: bool, reason: Reason, reasons: &mut Vec<Reason>) -> Result<(), AllocError>
    ensures { OnOk result (reasons.new.items ≡ reasons.old.items ++ with_reason wanted reason []) }
{
    if wanted {
        reasons.push(reason)?;
    }
    Ok(())
}

/// No place, and one reason.
fn refused(alloc: Global, reason: Reason) -> Result<Places, AllocError>
    ensures { IfOk result (λ places. AreTold places (record { entries = []; reasons = reason ∷ [] })) }
{
    let mut reasons = Vec::new(alloc);
    reasons.push(reason)?;
    Ok(Places {
        entries: Vec::new(alloc),
        reasons,
    })
}

impl Findings {
    fn new(alloc: Global) -> Findings
        ensures { result ≡ nothing }
    {
        Findings {
            seen: Vec::new(alloc),
            entries: Vec::new(alloc),
            unknown_write: false,
            out_of_region: false,
            heap_overrun: false,
        }
    }

    /// Notes a part, of which this becomes.
    fn note(&mut self, verdict: &Verdict, x: &Part) -> Result<(), AllocError>
        ensures { OnOk result (self.new ≡ noted (verdict_of verdict.now) x.now self.old) }
    {
        put(x, &mut self.seen)?;
        put_where(is_listed(verdict), x, &mut self.entries)?;
        self.unknown_write = self.unknown_write || is_refused_by(Reason::UnknownWrite, verdict);
        self.out_of_region = self.out_of_region || is_refused_by(Reason::OutOfRegion, verdict);
        self.heap_overrun = self.heap_overrun || is_refused_by(Reason::HeapOverrun, verdict);
        Ok(())
    }

    /// Notes what is met after so many links.
    fn note_level(
        &mut self,
        owners: &Owners,
        access: &Access,
        followed: usize,
        level: &[Part],
    ) -> Result<(), AllocError>
        ensures { OnOk result (self.new ≡ all_noted (state_of owners.now) access.now.procedure access.now.len self.old (map (met_after followed) level.now)) }
    {
        for x in level {
            self.note(&verdict_at(owners, access, followed, x), x)?;
        }
        Ok(())
    }

    fn is_crowded(&self) -> bool
        ensures { result ≡ is_crowd self.now.seen }
    {
        is_too_long(self.seen.as_slice())
    }

    fn finish(self, alloc: Global) -> Result<Places, AllocError>
        ensures { is_crowd self.seen ≡ false → IfOk result (λ places. AreTold places (finished self)) }
    {
        let mut reasons = Vec::new(alloc);
        push_where(self.unknown_write, Reason::UnknownWrite, &mut reasons)?;
        push_where(self.out_of_region, Reason::OutOfRegion, &mut reasons)?;
        push_where(self.heap_overrun, Reason::HeapOverrun, &mut reasons)?;
        Ok(Places {
            entries: self.entries,
            reasons,
        })
    }
}

/// The places of parts, found along links.
fn search(
    alloc: Global,
    owners: &Owners,
    access: &Access,
    parts: &[Part],
) -> Result<Places, AllocError>
    ensures { IfOk result (λ places. AreTold places (told_of_few (state_of owners.now) access.now.procedure access.now.len (levels (state_of owners.now) access.now.procedure access.now.len (most_links (state_of owners.now) + 1) 0 (rising_onto [] parts.now)))) }
{
    let mut findings = Findings::new(alloc);
    let mut level = rising(alloc, parts)?;
    let most = owners.most_links();
    let mut followed = 0;
    while !level.is_empty() {
        findings.note_level(owners, access, followed, level.as_slice())?;
        if findings.is_crowded() {
            return refused(alloc, Reason::OutOfRegion);
        }
        if most < followed {
            return findings.finish(alloc);
        }
        level = match next_level(alloc, owners, access, followed, level.as_slice())? {
            Some(next) => next,
            None => return refused(alloc, Reason::OutOfRegion),
        };
        followed += 1;
    }
    findings.finish(alloc)
}

impl Owners<'_> {
    /// The places of `len` bytes, which are at least one, at an address, at a node of a procedure.
    #[tactic(auto, unfolding(abs_semantics::specs::Resolve::resolve))]
    pub fn resolve(
        &self,
        alloc: Global,
        procedure: u32,
        address: &ValueSet,
        len: u32,
    ) -> Result<Places, AllocError>
        ensures { IfOk result (λ places. AreTold places (resolve_spec (state_of self.now) procedure address.now len)) }
    {
        match address.parts() {
            None => refused(alloc, Reason::UnknownWrite),
            Some(parts) => search(alloc, self, &Access { procedure, len }, parts),
        }
    }
}
