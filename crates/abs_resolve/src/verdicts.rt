//! What becomes of an interval in a region.

ghost use Rattle.std.specs.Prelude.{◌≡◌, ◌+ℤ◌, pos, negsuc, int_lt, int_le, not, ◌&&◌, ◌||◌, ◌==◌, if◌then◌else◌};
ghost use Rattle.std.specs.List.{list_any};
ghost use Rattle.strided.specs.Interval.{Interval};
ghost use Rattle.abs_semantics.specs.Resolve.{end_of as end_of_spec, links_from, is_empty, is_below_callee as is_below_callee_spec, global_verdict as global_verdict_spec, parent_verdict as parent_verdict_spec, frame_verdict as frame_verdict_spec, block_verdict as block_verdict_spec, verdict as verdict_spec, is_listed as is_listed_spec, is_refused_by as is_refused_by_spec, same_reason};
ghost use Rattle.abs_resolve.specs.Forms.{verdict_of};
ghost use Rattle.abs_resolve.specs.Owned.{state_of};

use crate::owners::{Owners, is_link_of};
use abs_semantics::{Link, Reason};
use image_map::RegionId;
use strided::Si;
use vset::Part;

fn is_same_reason(a: &Reason, b: Reason) -> bool
    ensures { result ≡ same_reason a.now b }
{
    match (a, b) {
        (Reason::UnknownWrite, Reason::UnknownWrite)
        | (Reason::OutOfRegion, Reason::OutOfRegion)
        | (Reason::HeapOverrun, Reason::HeapOverrun) => true,
        _ => false,
    }
}

#[derive(Clone, Copy)]
pub(crate) enum Verdict {
    Refuses(Reason),
    /// It is listed.
    Stays,
    /// It is followed along its links, and listed as well, or not.
    Follows(bool),
}

/// Whether what becomes of an interval lists it.
pub(crate) fn is_listed(verdict: &Verdict) -> bool
    ensures { result ≡ is_listed_spec (verdict_of verdict.now) }
{
    match verdict {
        Verdict::Refuses(_) => false,
        Verdict::Stays => true,
        Verdict::Follows(as_well) => *as_well,
    }
}

/// Whether it is refused for this reason.
pub(crate) fn is_refused_by(reason: Reason, verdict: &Verdict) -> bool
    ensures { result ≡ is_refused_by_spec reason (verdict_of verdict.now) }
{
    match verdict {
        Verdict::Refuses(other) => is_same_reason(other, reason),
        Verdict::Stays | Verdict::Follows(_) => false,
    }
}

/// Where an address is looked at: a node's procedure, and how many bytes.
#[derive(Clone, Copy)]
pub(crate) struct Access {
    pub(crate) procedure: u32,
    pub(crate) len: u32,
}

/// The activations of a procedure: its newest, or the others.
#[derive(Clone, Copy)]
pub(crate) struct Activations {
    pub(crate) procedure: u32,
    pub(crate) aged: bool,
}

fn is_less(a: i64, b: i64) -> bool
    ensures { result ≡ int_lt a b }
{
    a < b
}

fn start_of(si: &Si) -> i64
    ensures { result ≡ si.now.lo }
{
    i64::from(si.lo())
}

/// The offset behind the last byte of a range of so many bytes from each offset.
fn end_of(si: &Si, len: u32) -> i64
    ensures { result ≡ end_of_spec si.now len }
{
    i64::from(si.hi()) + i64::from(len)
}

fn global_verdict(si: &Si, len: u32) -> Verdict
    ensures { verdict_of result ≡ global_verdict_spec len si.now }
{
    let end = end_of(si, len);
    let is_of_stack = is_less(start_of(si), -(1 << 30)) && is_less(-1_879_048_192, end);
    if is_less(i64::from(i32::MAX), end) || is_of_stack {
        Verdict::Refuses(Reason::UnknownWrite)
    } else {
        Verdict::Stays
    }
}

fn is_slot_above(link: &Link, procedure: u32, lo: i64) -> bool
    ensures { result ≡ (link.now.parent == procedure && int_lt lo (link.now.off.hi +ℤ pos 4)) }
{
    link.parent == procedure && is_less(lo, i64::from(link.off.hi()) + 4)
}

/// Whether an interval begins below the end of the return slot of an activation that one of this procedure has called.
fn is_below_callee(owners: &Owners, procedure: u32, si: &Si) -> bool
    ensures { result ≡ is_below_callee_spec (state_of owners.now) procedure si.now }
{
    let lo = start_of(si);
    owners
        .links()
        .iter()
        .any(|link| is_slot_above(link, procedure, lo))
}

fn has_link(owners: &Owners, of: &Activations) -> bool
    ensures { result ≡ list_any (λ l. l.child == of.now.procedure && (if of.now.aged then l.aged else not l.aged)) (state_of owners.now).links }
{
    owners
        .links()
        .iter()
        .any(|link| is_link_of(link, of.procedure, of.aged))
}

fn has_no_link(owners: &Owners, of: &Activations) -> bool
    ensures { result ≡ is_empty (links_from (state_of owners.now) of.now.procedure of.now.aged) }
{
    !has_link(owners, of)
}

fn parent_verdict(owners: &Owners, followed: usize, of: &Activations, si: &Si) -> Verdict
    ensures { verdict_of result ≡ parent_verdict_spec (state_of owners.now) followed of.now.procedure of.now.aged si.now }
{
    if is_less(start_of(si), 4) || has_no_link(owners, of) || owners.most_links() < followed {
        Verdict::Refuses(Reason::OutOfRegion)
    } else {
        Verdict::Follows(owners.is_root(of.procedure))
    }
}

fn is_outside(si: &Si, len: u32) -> bool
    ensures { result ≡ (int_lt si.now.lo (negsuc 1048575) || int_lt (pos 65536) (end_of_spec si.now len)) }
{
    is_less(start_of(si), -(1 << 20)) || is_less(1 << 16, end_of(si, len))
}

/// Whether an interval may lie in what these activations have called.
fn is_of_callee(owners: &Owners, procedure: u32, of: &Activations, si: &Si) -> bool
    ensures { result ≡ ((of.now.aged || not (of.now.procedure == procedure)) && is_below_callee_spec (state_of owners.now) of.now.procedure si.now) }
{
    if of.aged || of.procedure != procedure {
        is_below_callee(owners, of.procedure, si)
    } else {
        false
    }
}

/// Whether the bytes are the activation's own: they end with its return slot, or nothing has called it.
fn is_own(owners: &Owners, of: &Activations, si: &Si, len: u32) -> bool
    ensures { result ≡ (int_le (end_of_spec si.now len) (pos 4) || (is_empty (links_from (state_of owners.now) of.now.procedure of.now.aged) && of.now.procedure == (state_of owners.now).root)) }
{
    if end_of(si, len) <= 4 {
        return true;
    }
    has_no_link(owners, of) && owners.is_root(of.procedure)
}

fn frame_verdict(
    owners: &Owners,
    access: &Access,
    followed: usize,
    of: &Activations,
    si: &Si,
) -> Verdict
    ensures { verdict_of result ≡ frame_verdict_spec (state_of owners.now) access.now.procedure access.now.len followed of.now.procedure of.now.aged si.now }
{
    if is_outside(si, access.len) {
        return Verdict::Refuses(Reason::OutOfRegion);
    }
    if is_of_callee(owners, access.procedure, of, si) {
        return Verdict::Refuses(Reason::OutOfRegion);
    }
    if is_own(owners, of, si, access.len) {
        return Verdict::Stays;
    }
    parent_verdict(owners, followed, of, si)
}

fn block_verdict(owners: &Owners, len: u32, region: &RegionId, si: &Si) -> Verdict
    ensures { verdict_of result ≡ block_verdict_spec (state_of owners.now) len region.now si.now }
{
    if is_less(start_of(si), 0) || is_less(i64::from(owners.size_of(region)), end_of(si, len)) {
        Verdict::Refuses(Reason::HeapOverrun)
    } else {
        Verdict::Stays
    }
}

/// What becomes of a part after so many links.
#[tactic(auto, unfolding(abs_semantics::specs::Resolve::verdict))]
pub(crate) fn verdict_at(owners: &Owners, access: &Access, followed: usize, x: &Part) -> Verdict
    ensures { verdict_of result ≡ verdict_spec (state_of owners.now) access.now.procedure access.now.len followed x.now }
{
    match x.region {
        RegionId::Global => global_verdict(&x.si, access.len),
        RegionId::Frame(procedure) => {
            let of = Activations {
                procedure,
                aged: false,
            };
            frame_verdict(owners, access, followed, &of, &x.si)
        }
        RegionId::OldFrame(procedure) => {
            let of = Activations {
                procedure,
                aged: true,
            };
            frame_verdict(owners, access, followed, &of, &x.si)
        }
        RegionId::Heap(_) | RegionId::OldHeap(_) => {
            block_verdict(owners, access.len, &x.region, &x.si)
        }
    }
}
