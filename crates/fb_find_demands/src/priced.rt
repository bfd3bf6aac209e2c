//! The demands of a system where its algorithms cost their most steps.

ghost use Rattle.std.specs.Prelude.{◌≡◌, ◌++◌, List, map, IfOk, OnOk};
ghost use Rattle.std.specs.List.{AllByRecursion};
ghost use Rattle.std.specs.Option.{option_map};
ghost use Rattle.fb_model.specs.System.{System};
ghost use Rattle.fb_model.specs.Ranges.{Range};
ghost use Rattle.fb_model.specs.Certificates.{all_leaves, channels_of};
ghost use Rattle.fb_model.specs.Columns.{demands, network_demands};
ghost use Rattle.fb_flat.specs.Tables.{AreDevices};
ghost use Rattle.fb_ranges.specs.Views.{spans_of};
ghost use Rattle.fb_find_demands.specs.Rights.{numbered, rights_of};
ghost use Rattle.fb_find_demands.specs.Leaves.{AreClosed};
ghost use Rattle.fb_find_demands.specs.Prices.{AreClear, AreTables, IsPriced, priced, priced_leaf};

use crate::known::Priced;
use crate::leaves::every_leaf;
use crate::prices::leaf_prices;
use crate::{Numbering, Right, Tariff, add_channels, add_leaf};
use fb_flat::{Flat, Leaf};
use fb_ranges::Ranges;
use std::alloc::{AllocError, Global};

// A leaf with its table of ranges, where there is one.
#[derive(Clone, Copy)]
struct TabledLeaf<'a> {
    leaf: &'a Leaf,
    table: Option<&'a Ranges>,
}

// Adds the demands of a leaf, where datagrams are followed or not, and its algorithms cost their most steps under its table.
fn add_priced<'a>(
    alloc: Global,
    numbering: &Numbering,
    follows: bool,
    known: &mut Vec<Priced<'a>>,
    tabled: &TabledLeaf<'a>,
    rights: &mut Vec<Right>,
) -> Result<(), AllocError>
    requires { AllByRecursion IsPriced known.old.items }
    ensures known { OnOk result (AllByRecursion IsPriced known.new.items) }
    ensures rights { OnOk result (rights_of rights.new.items ≡ rights_of rights.old.items ++ priced_leaf numbering.now follows tabled.now.leaf.now (option_map (λ t. spans_of t.now) tabled.now.table)) }
{
    let prices = leaf_prices(alloc, known, tabled.leaf, tabled.table)?;
    let tariff = Tariff {
        unit: 1,
        follows,
        prices: prices.as_slice(),
    };
    add_leaf(alloc, numbering, &tariff, tabled.leaf, rights)
}

// The same of all leaves, each with its table.
fn priced_leaves(
    alloc: Global,
    numbering: &Numbering,
    follows: bool,
    leaves: &[&Leaf],
    tables: &[Ranges],
) -> Result<Vec<Right>, AllocError>
    ensures { IfOk result (λ v. rights_of v.items ≡ priced numbering.now follows (map (λ l. l.now) leaves.now) (map spans_of tables.now)) }
{
    let mut known = Vec::new(alloc);
    let mut rights = Vec::new(alloc);
    for index in 0..leaves.len() {
        add_priced(
            alloc,
            numbering,
            follows,
            &mut known,
            &TabledLeaf {
                leaf: leaves[index],
                table: tables.get(index),
            },
            &mut rights,
        )?;
    }
    Ok(rights)
}

/// The demands of a system's steps, where the algorithms of its leaves, in their order, cost their most steps under these tables of ranges.
pub fn priced_rights(
    alloc: Global,
    numbering: &Numbering,
    flat: &Flat,
    tables: &[Ranges],
) -> Result<Vec<Right>, AllocError>
    ensures { (s : System) → AreDevices flat.now.devices.items s.devices → AreClosed s.devices → (ranges : List Range) → AreTables ranges (map spans_of tables.now) (all_leaves s.devices) → AreClear ranges (all_leaves s.devices)
        → IfOk result (λ v. rights_of v.items ≡ numbered numbering.now (demands 1 ranges (all_leaves s.devices))) }
{
    let leaves = every_leaf(alloc, flat.devices.as_slice())?;
    priced_leaves(alloc, numbering, false, leaves.as_slice(), tables)
}

/// The same of the steps on all devices, where each datagram is delivered at most so often to a device.
pub fn far_rights(
    alloc: Global,
    numbering: &Numbering,
    repeats: u8,
    flat: &Flat,
    tables: &[Ranges],
) -> Result<Vec<Right>, AllocError>
    ensures { (s : System) → AreDevices flat.now.devices.items s.devices → AreClosed s.devices → numbering.now.channels.items ≡ channels_of (all_leaves s.devices) → (ranges : List Range) → AreTables ranges (map spans_of tables.now) (all_leaves s.devices) → AreClear ranges (all_leaves s.devices)
        → IfOk result (λ v. rights_of v.items ≡ numbered numbering.now (network_demands repeats ranges (all_leaves s.devices))) }
{
    let leaves = every_leaf(alloc, flat.devices.as_slice())?;
    let mut rights = priced_leaves(alloc, numbering, true, leaves.as_slice(), tables)?;
    add_channels(alloc, numbering, repeats, leaves.as_slice(), &mut rights)?;
    Ok(rights)
}
