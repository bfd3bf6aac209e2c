//! All leaves of a system.

ghost use Rattle.std.specs.Prelude.{◌≡◌, ◌++◌, map, IfOk, OnOk};
ghost use Rattle.fb_check_ranges.specs.Places.{leaves_in};
ghost use Rattle.fb_find_demands.specs.Leaves.{leaves_under};

use fb_check_ranges::leaves_of;
use fb_flat::{FlatDevice, Leaf};
use std::alloc::{AllocError, Global};

// Adds the leaves of a device.
fn add_device<'a>(
    alloc: Global,
    device: &'a FlatDevice,
    all: &mut Vec<&'a Leaf>,
) -> Result<(), AllocError>
    ensures { OnOk result (map (λ l. l.now) all.new.items ≡ map (λ l. l.now) all.old.items ++ leaves_in device.now.resources.items) }
{
    let own = leaves_of(alloc, device.resources.as_slice())?;
    for leaf in &own {
        all.push(*leaf)?;
    }
    Ok(())
}

/// All leaves of devices, in order.
pub(crate) fn every_leaf<'a>(
    alloc: Global,
    devices: &'a [FlatDevice],
) -> Result<Vec<&'a Leaf>, AllocError>
    ensures { IfOk result (λ v. map (λ l. l.now) v.items ≡ leaves_under devices.now) }
{
    let mut all = Vec::new(alloc);
    for device in devices {
        add_device(alloc, device, &mut all)?;
    }
    Ok(all)
}
