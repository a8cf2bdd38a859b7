//! The sets of places of one node.
ghost use Rattle.std.specs.Prelude.{◌≡◌, Bool, IfOk, [], if◌then◌else◌};
ghost use Rattle.image_map.specs.declared.image.Image.{Image};
ghost use Rattle.abs_steps.specs.Places.{Content};
ghost use Rattle.abs_steps.specs.Views.{View};
ghost use Rattle.access_facts.specs.CoreSets.{AreCores};
ghost use Rattle.access_facts.specs.NodeSets.{AreAccesses, AreSets};
ghost use Rattle.access_facts.specs.Rows.{AreRows, cells_in_rows};

use crate::core_sets::CoreSets;
use crate::reach::Reach;
use crate::rows::Row;
use crate::sets::{defined_places, sure_places, used_places};
use image_map::Image;
use item_list::Items;
use std::alloc::{AllocError, Global};

/// How far the accesses of a node may reach.
#[derive(Drop)]
pub(crate) struct NodeAccesses {
    pub reads: Vec<Reach>,
    pub writes: Vec<Reach>,
    /// Whether what is written is written always.
    pub is_sure: bool,
    /// The procedures that have older activations behind the node.
    pub older: Vec<u32>,
}

/// The places that a node may use, may define and must define.
#[derive(Drop)]
pub(crate) struct NodeSets {
    pub may_use: Items<u32>,
    pub may_def: Items<u32>,
    pub must_def: Items<u32>,
}

fn sure_writes(accesses: &NodeAccesses) -> &[Reach]
    ensures { result.now ≡ (if accesses.now.is_sure then accesses.now.writes.items else []) }
{
    if accesses.is_sure {
        accesses.writes.as_slice()
    } else {
        &[]
    }
}

/// The sets of a node by its registers, flags and accesses.
pub(crate) fn node_sets(
    alloc: Global,
    rows: &[Row],
    image: &Image,
    cores: &CoreSets,
    accesses: &NodeAccesses,
) -> Result<NodeSets, AllocError>
    requires { AreRows 14 rows.now }
    ensures { (v : View) (content : Content) (goes_on : Bool) → AreCores v.state content cores.now → AreAccesses image.now v content goes_on accesses.now → IfOk result (AreSets image.now (cells_in_rows rows.now) v content goes_on) }
{
    let may_use = used_places(alloc, rows, cores, accesses.reads.as_slice())?;
    let may_def = defined_places(alloc, rows, cores, image, accesses.writes.as_slice())?;
    let sure = sure_writes(accesses);
    let must_def = sure_places(alloc, rows, cores, accesses.older.as_slice(), sure)?;
    Ok(NodeSets {
        may_use,
        may_def,
        must_def,
    })
}
