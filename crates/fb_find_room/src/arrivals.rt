//! The places of one arrival of each kind.

ghost use Rattle.std.specs.Prelude.{◌≡◌, ◌∷◌, [], List, min, IfOk};
ghost use Rattle.fb_model.specs.System as book;
ghost use Rattle.fb_model.specs.Wires as wires;
ghost use Rattle.fb_model.specs.CertificateText.{names_in};
ghost use Rattle.fb_cert.specs.Views.{certificate_of};
ghost use Rattle.fb_flat.specs.Tables.{AreDevices, AreLeaves, IsDevice};
ghost use Rattle.fb_find_room.specs.Room.{arrivals_at, arrivals_in, arrivals_of};

use fb_cert::Certificate;
use fb_check_rows::arrival_places;
use fb_flat::{Flat, FlatDevice, FlatResource};
use std::alloc::{AllocError, Global};

// Those of a resource, as far as `u64` tells.
fn at_resource(
    alloc: Global,
    certificate: &Certificate,
    resource: &FlatResource,
) -> Result<u64, AllocError>
    ensures { (all : List wires.Leaf) → AreLeaves resource.now.leaves.items all → IfOk result (λ n. n ≡ min (arrivals_of (certificate_of certificate.now) all) 18446744073709551615) }
{
    let mut places: u64 = 0;
    for leaf in &resource.leaves {
        let Ok(more) = arrival_places(alloc, certificate, leaf) else {
            return Err(AllocError);
        };
        places = places.saturating_add(more);
    }
    Ok(places)
}

// Those of a device's resource of this path, 0 where it has none.
fn at_device(
    alloc: Global,
    certificate: &Certificate,
    path: &str,
    device: &FlatDevice,
) -> Result<u64, AllocError>
    ensures { (d : book.Device) → IsDevice device.now d → IfOk result (λ n. n ≡ min (arrivals_in (certificate_of certificate.now) (names_in path.now) 0 (d.name ∷ []) d.resources) 18446744073709551615) }
{
    let mut places: u64 = 0;
    for resource in &device.resources {
        if resource.path.as_str() == path {
            places = places.saturating_add(at_resource(alloc, certificate, resource)?);
        }
    }
    Ok(places)
}

/// The places of one arrival of each kind at the resource of this path, as far as `u64` tells; 0 where there is none.
pub(crate) fn at_path(
    alloc: Global,
    certificate: &Certificate,
    path: &str,
    flat: &Flat,
) -> Result<u64, AllocError>
    ensures { (ds : List book.Device) → AreDevices flat.now.devices.items ds → IfOk result (λ n. n ≡ min (arrivals_at (certificate_of certificate.now) (names_in path.now) ds) 18446744073709551615) }
{
    let mut places: u64 = 0;
    for device in &flat.devices {
        places = places.saturating_add(at_device(alloc, certificate, path, device)?);
    }
    Ok(places)
}
