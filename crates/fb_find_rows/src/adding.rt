//! The rows DEPTH of a certificate.

ghost use Rattle.std.specs.Prelude.{◌≡◌, ◌∷◌, [], ℕ, List, map, string_bytes, IfErr, OnOk};
ghost use Rattle.std.specs.List.{flat_map};
ghost use Rattle.fb_model.specs.Names.{Path};
ghost use Rattle.fb_model.specs.System as book;
ghost use Rattle.fb_model.specs.Wires.{resource_leaves};
ghost use Rattle.fb_cert.specs.Views.{certificate_of, rows_of};
ghost use Rattle.fb_flat.specs.Tables.{AreDevices, IsDevice, IsResource};
ghost use Rattle.fb_find_rows.specs.Needs.{AreFresh, all_rows, device_rows, IsPastFault, paths, resource_texts, with_more};
ghost use Rattle.fb_model.specs.Finding.{IsPastAmong, IsPastHere, IsPastIn, needed_depth};

use crate::need::needed;
use fb_cert::{Certificate, Row};
use fb_faults::NoBound;
use fb_flat::{Flat, FlatDevice, FlatResource};
use std::alloc::Global;

/// The greatest depth of a row.
const LIMIT: u64 = 4096;

// Adds the row of a resource.
fn add_resource(
    alloc: Global,
    resource: &FlatResource,
    certificate: &mut Certificate,
) -> Result<(), NoBound>
    ensures rows { (n : ℕ) (path : Path) (r : book.Resource) → IsResource n path resource.now r → AreFresh (paths (rows_of certificate.old).depths) (string_bytes resource.now.path ∷ [])
        → OnOk result (rows_of certificate.new ≡ with_more ((string_bytes resource.now.path, needed_depth (certificate_of certificate.old) (resource_leaves n path r)) ∷ []) (rows_of certificate.old)) }
    ensures refused { (n : ℕ) (path : Path) (r : book.Resource) → IsResource n path resource.now r → IfErr result (IsPastFault (λ text. IsPastHere (certificate_of certificate.old) text n path r)) }
{
    let depth = needed(alloc, certificate, resource)?;
    if depth > LIMIT {
        return Err(NoBound::Limit(resource.path.clone()?));
    }
    let _ = certificate.add(alloc, Row::Depth(resource.path.as_str(), depth))?;
    Ok(())
}

// Adds the rows of a device's resources.
fn add_device(
    alloc: Global,
    device: &FlatDevice,
    certificate: &mut Certificate,
) -> Result<(), NoBound>
    ensures rows { (d : book.Device) → IsDevice device.now d → AreFresh (paths (rows_of certificate.old).depths) (resource_texts device.now)
        → OnOk result (rows_of certificate.new ≡ with_more (device_rows (certificate_of certificate.old) device.now d) (rows_of certificate.old)) }
    ensures refused { (d : book.Device) → IsDevice device.now d → AreFresh (paths (rows_of certificate.old).depths) (resource_texts device.now) → IfErr result (IsPastFault (λ text. IsPastIn (certificate_of certificate.old) text 0 (d.name ∷ []) d.resources)) }
{
    for resource in &device.resources {
        add_resource(alloc, resource, certificate)?;
    }
    Ok(())
}

/// Adds the row DEPTH of each resource: the least that is at least 1, the places of each of its arrivals, and those of all its BEGIN together.
///
/// Refused with `Limit` and a resource that needs more than 4096.
pub fn add_depths(alloc: Global, flat: &Flat, certificate: &mut Certificate) -> Result<(), NoBound>
    ensures rows { (ds : List book.Device) → AreDevices flat.now.devices.items ds → AreFresh (paths (rows_of certificate.old).depths) (flat_map resource_texts flat.now.devices.items)
        → OnOk result (rows_of certificate.new ≡ with_more (all_rows (certificate_of certificate.old) flat.now.devices.items ds) (rows_of certificate.old)) }
    ensures refused { (ds : List book.Device) → AreDevices flat.now.devices.items ds → AreFresh (paths (rows_of certificate.old).depths) (flat_map resource_texts flat.now.devices.items) → IfErr result (IsPastFault (λ text. IsPastAmong (certificate_of certificate.old) text ds)) }
{
    for device in &flat.devices {
        add_device(alloc, device, certificate)?;
    }
    Ok(())
}
