//! What registers may hold at nodes.
ghost use Rattle.std.specs.Prelude.{◌≡◌, ◌++◌, ◌∷◌, [], length, reverse, IfOk, OnOk};
ghost use Rattle.std.specs.List.{flat_map};
ghost use Rattle.surf_base.specs.Hex.{hex8_text};
ghost use Rattle.vset.specs.Values.{Parts};
ghost use Rattle.abs_state.specs.Registers.{register_in};
ghost use Rattle.abs_state.specs.Views.{seen};
ghost use Rattle.abs_steps.specs.Successors.{at_node};
ghost use Rattle.vsa.specs.Views.{placed_with};
ghost use Rattle.round_texts.specs.Values.{data_lines, ends_text, interval_text, node_line, node_text, part_text, placed_at, pointer_lines, register_line, register_lines, sites_text, value_text};

use crate::lines::push_address;
use crate::push::{push_digits, push_number, push_signed};
use crate::regions::push_region;
use abs_state::{AbsState, Registers};
use call_strings::Node;
use ia32_types::Reg;
use std::alloc::AllocError;
use strided::Si;
use vset::{Part, ValueSet};

fn push_ends(text: &mut Vec<u8>, lo: i32, hi: i32) -> Result<(), AllocError>
    ensures { OnOk result (text.new.items ≡ text.old.items ++ ends_text lo hi) }
{
    text.extend_from_slice(b"[")?;
    push_signed(text, lo)?;
    text.extend_from_slice(b",")?;
    push_signed(text, hi)?;
    text.extend_from_slice(b"]")
}

fn push_interval(text: &mut Vec<u8>, si: &Si) -> Result<(), AllocError>
    ensures { OnOk result (text.new.items ≡ text.old.items ++ interval_text si.now) }
{
    push_number(text, u64::from(si.stride()))?;
    push_ends(text, si.lo(), si.hi())
}

fn push_part(text: &mut Vec<u8>, part: &Part) -> Result<(), AllocError>
    ensures { OnOk result (text.new.items ≡ text.old.items ++ part_text part.now) }
{
    push_region(text, b'.', part.region)?;
    text.extend_from_slice(b":")?;
    push_interval(text, &part.si)
}

// Puts parts, each after a space, behind a text.
fn push_more_parts(text: &mut Vec<u8>, parts: &[Part]) -> Result<(), AllocError>
    ensures { OnOk result (text.new.items ≡ text.old.items ++ flat_map (λ p. 32 ∷ part_text p) parts.now) }
{
    let mut rest = parts;
    'parts_left: while let Some((part, after)) = rest.split_first() {
        text.extend_from_slice(b" ")?;
        push_part(text, part)?;
        rest = after;
    }
    Ok(())
}

fn push_parts(text: &mut Vec<u8>, parts: &[Part]) -> Result<(), AllocError>
    ensures { OnOk result (text.new.items ≡ text.old.items ++ value_text (Parts parts.now)) }
{
    match parts.split_first() {
        None => Ok(()),
        Some((first, others)) => {
            push_part(text, first)?;
            push_more_parts(text, others)
        }
    }
}

fn push_value(text: &mut Vec<u8>, value: &ValueSet) -> Result<(), AllocError>
    ensures { OnOk result (text.new.items ≡ text.old.items ++ value_text value.now) }
{
    match value.parts() {
        None => text.extend_from_slice(b"top"),
        Some(parts) => push_parts(text, parts),
    }
}

fn push_register(text: &mut Vec<u8>, name: &[u8], value: &ValueSet) -> Result<(), AllocError>
    ensures { OnOk result (text.new.items ≡ text.old.items ++ register_line name.now value.now) }
{
    text.extend_from_slice(name)?;
    text.extend_from_slice(b" ")?;
    push_value(text, value)?;
    text.extend_from_slice(b"\n")
}

fn push_data_registers(text: &mut Vec<u8>, registers: &Registers) -> Result<(), AllocError>
    ensures { OnOk result (text.new.items ≡ text.old.items ++ data_lines (register_in registers.now)) }
{
    push_register(text, b"eax", registers.value(Reg::Eax))?;
    push_register(text, b"ecx", registers.value(Reg::Ecx))?;
    push_register(text, b"edx", registers.value(Reg::Edx))?;
    push_register(text, b"ebx", registers.value(Reg::Ebx))
}

fn push_pointers(text: &mut Vec<u8>, registers: &Registers) -> Result<(), AllocError>
    ensures { OnOk result (text.new.items ≡ text.old.items ++ pointer_lines (register_in registers.now)) }
{
    push_register(text, b"esp", registers.value(Reg::Esp))?;
    push_register(text, b"ebp", registers.value(Reg::Ebp))?;
    push_register(text, b"esi", registers.value(Reg::Esi))?;
    push_register(text, b"edi", registers.value(Reg::Edi))
}

fn push_registers(text: &mut Vec<u8>, registers: &Registers) -> Result<(), AllocError>
    ensures { OnOk result (text.new.items ≡ text.old.items ++ register_lines (register_in registers.now)) }
{
    push_data_registers(text, registers)?;
    push_pointers(text, registers)
}

// Puts call sites, the last of them first and each after a comma, behind a text.
fn push_newer_sites(text: &mut Vec<u8>, sites: &[u32]) -> Result<(), AllocError>
    ensures { OnOk result (text.new.items ≡ text.old.items ++ flat_map (λ site. 44 ∷ hex8_text site) (reverse sites.now)) }
{
    let mut rest = sites;
    'sites_left: while let Some((site, newer)) = rest.split_last() {
        text.extend_from_slice(b",")?;
        push_digits(text, *site)?;
        rest = newer;
    }
    Ok(())
}

// Puts call sites, of which the newest is the first, behind a text.
fn push_sites(text: &mut Vec<u8>, sites: &[u32]) -> Result<(), AllocError>
    ensures { OnOk result (text.new.items ≡ text.old.items ++ sites_text sites.now) }
{
    match sites.split_last() {
        None => text.extend_from_slice(b"-"),
        Some((oldest, newer)) => {
            push_digits(text, *oldest)?;
            push_newer_sites(text, newer)
        }
    }
}

fn push_node_line(text: &mut Vec<u8>, node: &Node) -> Result<(), AllocError>
    ensures { OnOk result (text.new.items ≡ text.old.items ++ node_line node.now) }
{
    text.extend_from_slice(b"node ")?;
    push_digits(text, node.context.proc)?;
    text.extend_from_slice(b" ")?;
    push_sites(text, node.context.sites.as_slice())?;
    text.extend_from_slice(b" ")?;
    push_address(text, node.at)
}

fn push_node(text: &mut Vec<u8>, node: &Node, state: &AbsState) -> Result<(), AllocError>
    ensures { OnOk result (text.new.items ≡ text.old.items ++ node_text (at_node node.now (seen state.now))) }
{
    push_node_line(text, node)?;
    push_registers(text, &state.registers)
}

// Puts a node behind a text if it stands at an address, and says how many nodes that is.
fn push_if_at(
    text: &mut Vec<u8>,
    node: &Node,
    state: &AbsState,
    at: u32,
) -> Result<usize, AllocError>
    ensures text { OnOk result (text.new.items ≡ text.old.items ++ flat_map node_text (placed_at at (at_node node.now (seen state.now) ∷ []))) }
    ensures count { IfOk result (λ count. count ≡ length (placed_at at (at_node node.now (seen state.now) ∷ []))) }
{
    if node.at == at {
        push_node(text, node, state)?;
        Ok(1)
    } else {
        Ok(0)
    }
}

/// Puts those of some nodes that stand at an address, with their states, behind a text, and says how many they are.
pub(crate) fn push_nodes(
    text: &mut Vec<u8>,
    nodes: &[Node],
    states: &[AbsState],
    at: u32,
) -> Result<usize, AllocError>
    ensures text { OnOk result (text.new.items ≡ text.old.items ++ flat_map node_text (placed_at at (placed_with nodes.now states.now))) }
    ensures count { IfOk result (λ count. count ≡ length (placed_at at (placed_with nodes.now states.now))) }
{
    let mut count = 0;
    let mut nodes_left = nodes;
    let mut states_left = states;
    'nodes: while let Some((node, later_nodes)) = nodes_left.split_first() {
        match states_left.split_first() {
            None => return Ok(count),
            Some((state, later_states)) => {
                count += push_if_at(text, node, state, at)?;
                nodes_left = later_nodes;
                states_left = later_states;
            }
        }
    }
    Ok(count)
}
