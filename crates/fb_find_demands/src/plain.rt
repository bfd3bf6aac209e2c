//! The demands of a system whatever its algorithms cost.

ghost use Rattle.std.specs.Prelude.{◌≡◌, [], List, map, IfOk};
ghost use Rattle.std.specs.List.{flat_map};
ghost use Rattle.fb_model.specs.System.{System};
ghost use Rattle.fb_model.specs.Ranges.{Range};
ghost use Rattle.fb_model.specs.Certificates.{all_leaves, channels_of};
ghost use Rattle.fb_model.specs.Demands.{bare_demands, bare_network};
ghost use Rattle.fb_model.specs.Columns.{demands};
ghost use Rattle.fb_flat.specs.Tables.{AreDevices};
ghost use Rattle.fb_find_demands.specs.Rights.{numbered, rights_of};
ghost use Rattle.fb_find_demands.specs.Leaves.{AreClosed, leaf_rights};

use crate::leaves::every_leaf;
use crate::{Numbering, Right, Tariff, add_channels, add_leaf};
use fb_flat::{Flat, Leaf};
use std::alloc::{AllocError, Global};

// The demands of leaves, where a dispatch or a crossing counts `unit`, datagrams are followed or not, and algorithms cost nothing.
fn plain_leaves(
    alloc: Global,
    numbering: &Numbering,
    unit: u64,
    follows: bool,
    leaves: &[&Leaf],
) -> Result<Vec<Right>, AllocError>
    ensures { IfOk result (λ v. rights_of v.items ≡ flat_map (leaf_rights numbering.now unit follows []) (map (λ l. l.now) leaves.now)) }
{
    let mut rights = Vec::new(alloc);
    let tariff = Tariff {
        unit,
        follows,
        prices: &[],
    };
    for leaf in leaves {
        add_leaf(alloc, numbering, &tariff, *leaf, &mut rights)?;
    }
    Ok(rights)
}

/// The demands of a system where a dispatch or a crossing counts `unit`, and algorithms cost nothing: with 1 those that hold whatever algorithms cost, with 0 those of places.
pub fn plain_rights(
    alloc: Global,
    numbering: &Numbering,
    unit: u64,
    flat: &Flat,
) -> Result<Vec<Right>, AllocError>
    ensures bare { (s : System) → AreDevices flat.now.devices.items s.devices → AreClosed s.devices → unit ≡ 1 → IfOk result (λ v. rights_of v.items ≡ numbered numbering.now (bare_demands (all_leaves s.devices))) }
    ensures places { (s : System) → AreDevices flat.now.devices.items s.devices → AreClosed s.devices → unit ≡ 0 → (ranges : List Range) → IfOk result (λ v. rights_of v.items ≡ numbered numbering.now (demands 0 ranges (all_leaves s.devices))) }
{
    let leaves = every_leaf(alloc, flat.devices.as_slice())?;
    plain_leaves(alloc, numbering, unit, false, leaves.as_slice())
}

/// The demands of the network that hold whatever algorithms cost and how often datagrams are delivered: a dispatch or a crossing counts 1, algorithms cost nothing,
/// and a datagram is admitted once at each device.
pub fn network_rights(
    alloc: Global,
    numbering: &Numbering,
    flat: &Flat,
) -> Result<Vec<Right>, AllocError>
    ensures { (s : System) → AreDevices flat.now.devices.items s.devices → AreClosed s.devices → numbering.now.channels.items ≡ channels_of (all_leaves s.devices) → IfOk result (λ v. rights_of v.items ≡ numbered numbering.now (bare_network (all_leaves s.devices))) }
{
    let leaves = every_leaf(alloc, flat.devices.as_slice())?;
    let mut rights = plain_leaves(alloc, numbering, 1, true, leaves.as_slice())?;
    add_channels(alloc, numbering, 1, leaves.as_slice(), &mut rights)?;
    Ok(rights)
}
