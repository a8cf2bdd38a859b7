//! Where a return goes back to: the calls that may have led to the activation that ends.

ghost use Rattle.std.specs.Prelude.{◌≡◌, ◌==◌, ◌&&◌, not, ◌++◌, ◌∷◌, [], ◌<◌, length, nat_eq, take, map, filter, IfOk, OnOk};
ghost use Rattle.std.specs.Cmp.Lexicographic.{pointwise};
ghost use Rattle.std.specs.List.{list_any, flat_map};
ghost use Rattle.image_map.specs.CallModel.{AreSettings};
ghost use Rattle.call_strings.specs.Nodes.{same_node};
ghost use Rattle.abs_steps.specs.Successors.{at_node, callee_node, returned_each as returned_each_spec};
ghost use Rattle.abs_state.specs.Views.{seen};
ghost use Rattle.transfer_flow.specs.Successors.{all_placed, placed_of, states_of, caller_by, is_parent as is_parent_spec, if_near, behind, by_link, place_after as place_after_spec};

use crate::contents::{Content, content_at};
use crate::site::{Placed, Program, Site, moved_to, next_place};
use crate::target_lists::targets;
use abs_semantics::Link;
use abs_state::AbsState;
use call_states::returned;
use call_strings::Node;
use ia32_types::Op;
use std::alloc::{AllocError, Global};
use transfer::View;

/// A node of a call that may have led to the activation that ends, and the place after the call.
#[derive(Drop)]
struct Caller<'a> {
    node: &'a Node,
    next: u32,
}

/// Whether the newest `lane` sites are those that a call at `site` leaves.
fn are_sites_after(lane: u32, site: u32, sites: &[u32], found: &[u32]) -> bool
    ensures { result ≡ pointwise nat_eq (take lane (site ∷ sites.now)) found.now }
{
    if lane == 0 {
        return found.is_empty();
    }
    match found.split_first() {
        None => false,
        Some((newest, older)) => {
            let kept = sites.len().min(lane as usize - 1);
            *newest == site && &sites[..kept] == older
        }
    }
}

/// Whether a call at a node, of the procedure of another node, leaves that node's context.
pub fn may_have_led(lane: u32, caller: &Node, node: &Node) -> bool
    ensures { result ≡ same_node (callee_node lane caller.now.at node.now.context.proc caller.now) (record node.now { at = node.now.context.proc }) }
{
    are_sites_after(
        lane,
        caller.at,
        caller.context.sites.as_slice(),
        node.context.sites.as_slice(),
    )
}

fn has_target(targets: &[u32], procedure: u32) -> bool
    ensures { result ≡ list_any (λ t. t == procedure) targets.now }
{
    targets.iter().any(|t| *t == procedure)
}

/// The place after the call at a node, where the instruction there is a call that may go to a procedure.
fn place_after_call(
    alloc: Global,
    site: &Site<'_>,
    procedure: u32,
) -> Result<Option<u32>, AllocError>
    requires { AreSettings (length site.now.program.now.image.now.externs) site.now.program.now.settings.now }
    ensures { IfOk result (λ next. next ≡ place_after_spec site.now.program.now.image.now site.now.program.now.settings.now (states_of site.now.program.now []) (at_node site.now.node.now (seen site.now.state.now)) procedure) }
{
    let program = site.program;
    match content_at(program.image, program.settings, site.node.at) {
        Content::Instruction(i) => match i.op {
            Op::Call => {
                let targets = targets(alloc, &site.view(), &i.dst)?;
                Ok(if has_target(targets.as_slice(), procedure) {
                    Some(next_place(&i))
                } else {
                    None
                })
            }
            _ => Ok(None),
        },
        _ => Ok(None),
    }
}

fn leads_from(procedure: u32, caller: u32, link: &Link) -> bool
    ensures { result ≡ ((link.now.child == procedure && not link.now.aged) && caller == link.now.parent) }
{
    link.child == procedure && !link.aged && caller == link.parent
}

/// Whether a procedure is the parent of a link by which the newest activation of another was called.
fn is_parent(procedure: u32, links: &[Link], caller: u32) -> bool
    ensures { result ≡ is_parent_spec procedure links.now caller }
{
    links.iter().any(|link| leads_from(procedure, caller, link))
}

/// Puts a caller behind others, if the node is one by some link. Instructions are decoded at nodes of parents alone.
fn put_caller<'a>(
    alloc: Global,
    site: &Site<'_>,
    links: &[Link],
    other: (&'a Node, &AbsState),
    out: &mut Vec<Caller<'a>>,
) -> Result<(), AllocError>
    requires { AreSettings (length site.now.program.now.image.now.externs) site.now.program.now.settings.now }
    ensures { OnOk result (map caller_by out.new.items ≡ map caller_by out.old.items ++ if_near site.now.program.now.image.now site.now.program.now.settings.now (states_of site.now.program.now []) site.now.node.now links.now (placed_of other.entry)) }
{
    let (node, state) = other;
    if !is_parent(site.node.context.proc, links, node.context.proc) {
        return Ok(());
    }
    if !may_have_led(site.program.lane, node, site.node) {
        return Ok(());
    }
    let caller = Site {
        program: site.program,
        node,
        state,
    };
    if let Some(next) = place_after_call(alloc, &caller, site.node.context.proc)? {
        out.push(Caller { node, next })?;
    }
    Ok(())
}

/// The nodes whose call may have led to the activation that ends, by some link.
fn callers<'a>(
    alloc: Global,
    site: &Site<'_>,
    links: &[Link],
    others: &[(&'a Node, &'a AbsState)],
) -> Result<Vec<Caller<'a>>, AllocError>
    requires { AreSettings (length site.now.program.now.image.now.externs) site.now.program.now.settings.now }
    ensures { IfOk result (λ v. map caller_by v.items ≡ flat_map (λ o. if_near site.now.program.now.image.now site.now.program.now.settings.now (states_of site.now.program.now []) site.now.node.now links.now (placed_of o)) others.now) }
{
    let mut out = Vec::new(alloc);
    for other in others {
        put_caller(alloc, site, links, *other, &mut out)?;
    }
    Ok(out)
}

/// Puts the place after a call behind others, where the call is one of a procedure.
fn put_behind(
    out: &mut Placed,
    caller: &Caller<'_>,
    parent: u32,
    state: &AbsState,
) -> Result<(), AllocError>
    ensures { OnOk result (all_placed out.new.items ≡ all_placed out.old.items ++ behind parent (seen state.now) (caller_by caller.now)) }
{
    if caller.node.context.proc == parent {
        let node = moved_to(caller.next, caller.node)?;
        let copy = state.clone()?;
        out.push((node, copy))?;
    }
    Ok(())
}

/// Puts the places after the calls of a procedure behind others, all with one state.
fn put_all_behind(
    out: &mut Placed,
    callers: &[Caller<'_>],
    parent: u32,
    state: &AbsState,
) -> Result<(), AllocError>
    ensures { OnOk result (all_placed out.new.items ≡ all_placed out.old.items ++ flat_map (behind parent (seen state.now)) (map caller_by callers.now)) }
{
    for caller in callers {
        put_behind(out, caller, parent, state)?;
    }
    Ok(())
}

/// A return that takes some bytes more, from a state.
#[derive(Drop)]
struct Return<'a> {
    procedure: u32,
    extra: u32,
    from: &'a AbsState,
}

/// Puts where a return goes back to by a link behind others, if the link is one of the newest activation of its procedure.
fn put_by_link(
    alloc: Global,
    out: &mut Placed,
    callers: &[Caller<'_>],
    ending: &Return<'_>,
    link: &Link,
) -> Result<(), AllocError>
    requires { ending.now.extra < 65536 }
    ensures { OnOk result (all_placed out.new.items ≡ all_placed out.old.items ++ by_link (map caller_by callers.now) ending.now.procedure ending.now.extra (seen ending.now.from.now) link.now) }
{
    if link.child == ending.procedure && !link.aged {
        let after = returned(alloc, link, ending.extra, ending.from)?;
        put_all_behind(out, callers, link.parent, &after)?;
    }
    Ok(())
}

/// Where a return goes back to by some links.
fn by_links(
    alloc: Global,
    callers: &[Caller<'_>],
    ending: &Return<'_>,
    links: &[Link],
) -> Result<Placed, AllocError>
    requires { ending.now.extra < 65536 }
    ensures { IfOk result (λ v. all_placed v.items ≡ flat_map (by_link (map caller_by callers.now) ending.now.procedure ending.now.extra (seen ending.now.from.now)) links.now) }
{
    let mut out = Vec::new(alloc);
    for link in links {
        put_by_link(alloc, &mut out, callers, ending, link)?;
    }
    Ok(out)
}

/// Where a return goes back to that takes some bytes more, from a state: by link, and then by the node of the call.
pub(crate) fn returned_each(
    alloc: Global,
    site: &Site<'_>,
    others: &[(&Node, &AbsState)],
    extra: u32,
    from: &AbsState,
) -> Result<Placed, AllocError>
    requires settings { AreSettings (length site.now.program.now.image.now.externs) site.now.program.now.settings.now }
    requires few { extra < 65536 }
    ensures { IfOk result (λ v. all_placed v.items ≡ returned_each_spec site.now.program.now.image.now site.now.program.now.settings.now (states_of site.now.program.now others.now) site.now.node.now extra (seen from.now)) }
{
    let links = from.links.as_slice();
    let found = callers(alloc, site, links, others)?;
    let ending = Return {
        procedure: site.node.context.proc,
        extra,
        from,
    };
    let placed = by_links(alloc, found.as_slice(), &ending, links)?;
    Ok(placed)
}
