//! The reply that lists cells.
ghost use Rattle.std.specs.Prelude.{◌≡◌, ◌++◌, IfOk, OnOk};
ghost use Rattle.std.specs.List.{flat_map};
ghost use Rattle.alocs.specs.declared.cells.CutList.{CutList};
ghost use Rattle.alocs.specs.Cells.{cells_of as cells_of_spec};
ghost use Rattle.access_facts.specs.Rows.{AreInside};
ghost use Rattle.round_texts.specs.Locations.{cell_line, end_text, ends_text, listed_cells as listed_cells_spec, locations_reply};

use crate::lines::{Place, push_first_line, push_last_line};
use crate::push::{push_digits, push_signed};
use crate::regions::push_region;
use alocs::{Cells, CutList};
use image_map::{Cell, RegionId};
use rounds::Round;
use std::alloc::{AllocError, Global};
use strided::Si;

fn push_end(text: &mut Vec<u8>, region: RegionId, offset: i32) -> Result<(), AllocError>
    ensures { OnOk result (text.new.items ≡ text.old.items ++ end_text region offset) }
{
    match region {
        RegionId::Global => push_digits(text, offset.cast_unsigned()),
        _ => push_signed(text, offset),
    }
}

fn push_ends(text: &mut Vec<u8>, cell: &Cell) -> Result<(), AllocError>
    ensures { OnOk result (text.new.items ≡ text.old.items ++ ends_text cell.now) }
{
    push_end(text, cell.region, cell.start)?;
    text.extend_from_slice(b" ")?;
    push_end(text, cell.region, cell.end)
}

fn push_cell(text: &mut Vec<u8>, cell: &Cell) -> Result<(), AllocError>
    ensures { OnOk result (text.new.items ≡ text.old.items ++ cell_line cell.now) }
{
    push_region(text, b' ', cell.region)?;
    text.extend_from_slice(b" ")?;
    push_ends(text, cell)?;
    text.extend_from_slice(b"\n")
}

fn push_cells(text: &mut Vec<u8>, cells: &[Cell]) -> Result<(), AllocError>
    ensures { OnOk result (text.new.items ≡ text.old.items ++ flat_map cell_line cells.now) }
{
    let mut rest = cells;
    'cells_left: while let Some((cell, after)) = rest.split_first() {
        push_cell(text, cell)?;
        rest = after;
    }
    Ok(())
}

// The cells of a region: those that some offset of all touches.
fn cells_of(alloc: Global, cells: &Cells, region: RegionId) -> Result<Vec<Cell>, AllocError>
    requires { AreInside cells.now.image }
    ensures { IfOk result (λ v. v.items ≡ cells_of_spec cells.now region) }
{
    let found = cells.touching(alloc, region, &Si::full(), 1)?;
    Ok(found)
}

// The cells of the regions of some lists.
fn listed(alloc: Global, cells: &Cells, lists: &[CutList]) -> Result<Vec<Cell>, AllocError>
    requires { AreInside cells.now.image }
    ensures { IfOk result (λ v. v.items ≡ flat_map (λ (l : CutList). cells_of_spec cells.now l.region) lists.now) }
{
    let mut all = Vec::new(alloc);
    let mut rest = lists;
    'lists_left: while let Some((list, after)) = rest.split_first() {
        let found = cells_of(alloc, cells, list.region)?;
        all.extend_from_slice(&found)?;
        rest = after;
    }
    Ok(all)
}

// The cells of the regions that have a list.
#[tactic(auto, unfolding(crate::specs::Locations::listed_cells))]
fn listed_cells(alloc: Global, cells: &Cells) -> Result<Vec<Cell>, AllocError>
    requires { AreInside cells.now.image }
    ensures { IfOk result (λ v. v.items ≡ listed_cells_spec cells.now) }
{
    listed(alloc, cells, cells.lists())
}

/// The reply that lists the cells of a round.
///
/// # Errors
/// Where memory is wanting.
pub fn locations_text(alloc: Global, round: &Round) -> Result<Vec<u8>, AllocError>
    requires inside { AreInside round.now.cells.image }
    ensures { IfOk result (λ text. text.items ≡ locations_reply round.now) }
{
    let cells = listed_cells(alloc, &round.cells)?;
    let mut text = Vec::new(alloc);
    let place = Place {
        round: round.number,
        lane: round.lane,
    };
    push_first_line(&mut text, b"locations", &[], place)?;
    push_cells(&mut text, &cells)?;
    push_last_line(&mut text, cells.len(), b" cells ", round.warnings.len())?;
    Ok(text)
}
