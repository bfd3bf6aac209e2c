//! Tables of ranges, leaf by leaf.

ghost use Rattle.std.specs.Prelude.{map, List, IfOk, OnOk};
ghost use Rattle.fb_model.specs.Declarations.{BlockTree, SourceTree};
ghost use Rattle.fb_model.specs.NetworkTyping.{ElaboratesWith};
ghost use Rattle.fb_model.specs.System.{System};
ghost use Rattle.fb_flat.specs.Tables.{AreDevices};
ghost use Rattle.fb_ranges.specs.Views.{spans_of};
ghost use Rattle.fb_find_ranges.specs.FoundTables.{AreFoundTables, GivesLast, IsLonger};

use crate::last_rows;
use fb_check_ranges::leaves_of;
use fb_flat::{Flat, FlatDevice};
use fb_ranges::Ranges;
use std::alloc::{AllocError, Global};

// Adds the tables of the leaves of a device.
fn add_tables(alloc: Global, device: &FlatDevice, all: &mut Vec<Ranges>) -> Result<(), AllocError>
    ensures { OnOk result (IsLonger (GivesLast device.now) (map spans_of all.old.items) (map spans_of all.new.items)) }
{
    let leaves = leaves_of(alloc, device.resources.as_slice())?;
    let mut own = last_rows(alloc, leaves.as_slice())?;
    all.append(&mut own)
}

/// The ranges of all leaves of a system after the last rounds, leaf by leaf.
pub fn tables(alloc: Global, flat: &Flat) -> Result<Vec<Ranges>, AllocError>
    ensures { (library : List BlockTree) (source : SourceTree) (s : System) → ElaboratesWith library source s → AreDevices flat.now.devices.items s.devices → IfOk result (λ v. AreFoundTables s.devices (map spans_of v.items)) }
{
    let mut all = Vec::new(alloc);
    for device in &flat.devices {
        add_tables(alloc, device, &mut all)?;
    }
    Ok(all)
}
