//! The places that a node may use, may define and must define.
ghost use Rattle.std.specs.Prelude.{◌≡◌, Bool, IfOk, List};
ghost use Rattle.image_map.specs.declared.image.Image.{Image};
ghost use Rattle.abs_steps.specs.Places.{Content};
ghost use Rattle.abs_steps.specs.Views.{View};
ghost use Rattle.access_facts.specs.CoreSets.{AreCores};
ghost use Rattle.access_facts.specs.Rows.{AreRows, cells_in_rows};
ghost use Rattle.access_facts.specs.Sets.{may_def, may_use, must_def, older_behind, read_reaches, sure_reaches, write_reaches};

use crate::core_sets::CoreSets;
use crate::places::places_of;
use crate::reach::Reach;
use crate::rows::{Row, Test};
use image_map::Image;
use item_list::Items;
use std::alloc::{AllocError, Global};

/// The places that a node may use, by its registers and flags and by how far its reads may reach.
pub(crate) fn used_places(
    alloc: Global,
    rows: &[Row],
    cores: &CoreSets,
    reads: &[Reach],
) -> Result<Items<u32>, AllocError>
    requires { AreRows 14 rows.now }
    ensures { (v : View) (content : Content) → AreCores v.state content cores.now → reads.now ≡ read_reaches v content → IfOk result (λ places. places ≡ may_use (cells_in_rows rows.now) v content) }
{
    let test = Test::Read(reads);
    let places = places_of(alloc, cores.registers_used, cores.flags_used, rows, &test)?;
    Ok(places)
}

/// The places that it may define.
pub(crate) fn defined_places(
    alloc: Global,
    rows: &[Row],
    cores: &CoreSets,
    image: &Image,
    writes: &[Reach],
) -> Result<Items<u32>, AllocError>
    requires { AreRows 14 rows.now }
    ensures { (v : View) (content : Content) (goes_on : Bool) → AreCores v.state content cores.now → writes.now ≡ write_reaches image.now v content goes_on → IfOk result (λ places. places ≡ may_def image.now (cells_in_rows rows.now) v content goes_on) }
{
    let test = Test::Written(image, writes);
    let places = places_of(
        alloc,
        cores.registers_defined,
        cores.flags_defined,
        rows,
        &test,
    )?;
    Ok(places)
}

/// The places that it must define, where these procedures have older activations behind it.
pub(crate) fn sure_places(
    alloc: Global,
    rows: &[Row],
    cores: &CoreSets,
    older: &[u32],
    writes: &[Reach],
) -> Result<Items<u32>, AllocError>
    requires { AreRows 14 rows.now }
    ensures { (image : Image) (v : View) (content : Content) (goes_on : Bool) → AreCores v.state content cores.now → older.now ≡ older_behind v content goes_on → writes.now ≡ sure_reaches image v content goes_on → IfOk result (λ places. places ≡ must_def image (cells_in_rows rows.now) v content goes_on) }
{
    let test = Test::Filled(older, writes);
    let places = places_of(
        alloc,
        cores.registers_always,
        cores.flags_always,
        rows,
        &test,
    )?;
    Ok(places)
}
