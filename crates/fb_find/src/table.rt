//! The tables of leaves by the rows RANGE of a certificate.

ghost use Rattle.std.specs.Prelude.{◌≡◌, ◌++◌, map, IfOk, OnOk};
ghost use Rattle.fb_ranges.specs.Views.{spans_of};
ghost use Rattle.fb_check_ranges.specs.Places.{leaves_in};
ghost use Rattle.fb_find_ranges.specs.AddedRows.{flat_leaves};
ghost use Rattle.fb_find.specs.Parts.{table_in};

use fb_cert::Certificate;
use fb_check_ranges::{block_rows, leaves_of};
use fb_flat::{Body, Flat, FlatDevice, Leaf};
use fb_ranges::Ranges;
use std::alloc::{AllocError, Global};

// The table of a leaf. A service has no rows.
fn leaf_table(alloc: Global, certificate: &Certificate, leaf: &Leaf) -> Result<Ranges, AllocError>
    ensures { IfOk result (λ r. spans_of r ≡ table_in certificate.now leaf.now) }
{
    match &leaf.body {
        Body::Basic(block) => block_rows(alloc, certificate, leaf.path.as_str(), block),
        Body::Served(_) => Ranges::new(alloc),
    }
}

// Adds the tables of leaves.
fn add_tables(
    alloc: Global,
    certificate: &Certificate,
    leaves: &[&Leaf],
    all: &mut Vec<Ranges>,
) -> Result<(), AllocError>
    ensures { OnOk result (map spans_of all.new.items ≡ map spans_of all.old.items ++ map (table_in certificate.now) (map (λ l. l.now) leaves.now)) }
{
    for leaf in leaves {
        all.push(leaf_table(alloc, certificate, *leaf)?)?;
    }
    Ok(())
}

// Adds those of a device.
fn add_device(
    alloc: Global,
    certificate: &Certificate,
    device: &FlatDevice,
    all: &mut Vec<Ranges>,
) -> Result<(), AllocError>
    ensures { OnOk result (map spans_of all.new.items ≡ map spans_of all.old.items ++ map (table_in certificate.now) (leaves_in device.now.resources.items)) }
{
    let leaves = leaves_of(alloc, device.resources.as_slice())?;
    add_tables(alloc, certificate, leaves.as_slice(), all)
}

/// The tables of all leaves, leaf by leaf.
pub(crate) fn tables_in(
    alloc: Global,
    flat: &Flat,
    certificate: &Certificate,
) -> Result<Vec<Ranges>, AllocError>
    ensures { IfOk result (λ v. map spans_of v.items ≡ map (table_in certificate.now) (flat_leaves flat.now.devices.items)) }
{
    let mut all = Vec::new(alloc);
    for device in &flat.devices {
        add_device(alloc, certificate, device, &mut all)?;
    }
    Ok(all)
}
