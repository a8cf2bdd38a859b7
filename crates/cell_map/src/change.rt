//! Cells that get other values in one pass.

ghost use Rattle.std.specs.Prelude.{◌≡◌, map, IfOk, OnOk};
ghost use Rattle.cell_map.specs.Lists.{AreRising};
ghost use Rattle.cell_map.specs.Changes.{or_kept, cell_of, with_given};

use abs_semantics::CellValue;
use std::alloc::{AllocError, Global};
use vset::ValueSet;

/// What cells hold after a change, each by what it held.
pub trait Change {
    ghost use Rattle.image_map.specs.declared.region.Cell.{Cell};
    ghost use Rattle.vset.specs.Values.{Values};

    /// What a cell holds that held a value.
    ghost given: { Self → Cell → Values → Values };

    /// The cell's other value, or `None` where it keeps the one that it has.
    fn value(&self, alloc: Global, entry: &CellValue) -> Result<Option<ValueSet>, AllocError>
        ensures { IfOk result (λ v. or_kept v entry.now.value ≡ given self.now entry.now.cell entry.now.value) };
}

/// Changes an entry.
fn change_entry<C: Change>(
    alloc: Global,
    change: &C,
    entry: &mut CellValue,
) -> Result<(), AllocError>
    ensures ok { OnOk result (entry.new ≡ with_given (C.given change.now) entry.old) }
    ensures cell { entry.new.cell ≡ entry.old.cell }
{
    if let Some(value) = change.value(alloc, entry)? {
        entry.value = value;
    }
    Ok(())
}

/// Changes each of some entries.
pub(crate) fn change_all<C: Change>(
    alloc: Global,
    change: &C,
    entries: &mut Vec<CellValue>,
) -> Result<(), AllocError>
    ensures ok { OnOk result (entries.new.items ≡ map (with_given (C.given change.now)) entries.old.items) }
    ensures cells { map cell_of entries.new.items ≡ map cell_of entries.old.items }
{
    for i in 0..entries.len() {
        change_entry(alloc, change, &mut entries[i])?;
    }
    Ok(())
}
