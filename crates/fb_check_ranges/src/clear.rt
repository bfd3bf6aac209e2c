//! When the rows of a system are clear.

ghost use Rattle.std.specs.Prelude.{List, map, IfErr, OnOk};
ghost use Rattle.std.specs.List.{AllByRecursion, Any};
ghost use Rattle.fb_model.specs.System.{System};
ghost use Rattle.fb_model.specs.Wires as wires;
ghost use Rattle.fb_model.specs.Ranges.{LeafClears};
ghost use Rattle.fb_cert.specs.Views.{certificate_of};
ghost use Rattle.fb_flat.specs.Tables.{AreLeaves, AreDevices};
ghost use Rattle.fb_check_ranges.specs.Places.{ArePlaces};
ghost use Rattle.fb_check_ranges.specs.Fitting.{AreKnown};
ghost use Rattle.fb_model.specs.Misfits.{AllClear, IsUnclear, OneLeafFails};
ghost use Rattle.fb_check_ranges.specs.Tables.{AreKnownLeaves, DevicePasses, DeviceRefused};

use crate::leaf::leaf_clear;
use crate::place::{Places, leaves_of, places};
use fb_cert::Certificate;
use fb_faults::Unclear;
use fb_flat::{Flat, FlatDevice, Leaf};
use std::alloc::Global;

// The rows of all leaves of a device are clear.
fn leaves_clear(
    alloc: Global,
    certificate: &Certificate,
    places: &Places,
    leaves: &[&Leaf],
) -> Result<(), Unclear>
    ensures clears { ArePlaces (map (λ l. l.now) leaves.now) places.now → (bs : List wires.Leaf) → AreLeaves (map (λ l. l.now) leaves.now) bs → AreKnownLeaves bs → OnOk result (AllByRecursion (LeafClears (certificate_of certificate.now).ranges bs) bs) }
    ensures refused { ArePlaces (map (λ l. l.now) leaves.now) places.now → (bs : List wires.Leaf) → AreLeaves (map (λ l. l.now) leaves.now) bs → AreKnownLeaves bs → IfErr result (OneLeafFails (certificate_of certificate.now).ranges bs) }
{
    let mut known = Vec::new(alloc);
    for leaf in leaves {
        leaf_clear(alloc, certificate, places, &mut known, *leaf)?;
    }
    Ok(())
}

// The rows of a device are clear.
fn device_clear(
    alloc: Global,
    certificate: &Certificate,
    device: &FlatDevice,
) -> Result<(), Unclear>
    ensures clears { OnOk result (DevicePasses (certificate_of certificate.now).ranges device.now) }
    ensures refused { IfErr result (λ f. DeviceRefused (certificate_of certificate.now).ranges f device.now) }
{
    let leaves = leaves_of(alloc, device.resources.as_slice())?;
    let places = places(alloc, leaves.as_slice())?;
    leaves_clear(alloc, certificate, &places, leaves.as_slice())
}

// The rows of all devices are clear.
fn devices_clear(
    alloc: Global,
    certificate: &Certificate,
    devices: &[FlatDevice],
) -> Result<(), Unclear>
    ensures clears { OnOk result (AllByRecursion (DevicePasses (certificate_of certificate.now).ranges) devices.now) }
    ensures refused { IfErr result (λ f. Any (DeviceRefused (certificate_of certificate.now).ranges f) devices.now) }
{
    for device in devices {
        device_clear(alloc, certificate, device)?;
    }
    Ok(())
}

/// All rows are clear: they lie in the types of their variables and hold the start values; what connected inputs take lies in their rows;
/// and every algorithm and every guard is clear under them.
///
/// Refused with `Start`, `Link`, `Kept` or `IndexOrDivisor`, only where it is so.
pub fn rows_clear(alloc: Global, flat: &Flat, certificate: &Certificate) -> Result<(), Unclear>
    ensures clears { (s : System) → AreDevices flat.now.devices.items s.devices → AreKnown s → OnOk result (AllClear (certificate_of certificate.now).ranges s) }
    ensures refused { (s : System) → AreDevices flat.now.devices.items s.devices → AreKnown s → IfErr result (IsUnclear (certificate_of certificate.now).ranges s) }
{
    devices_clear(alloc, certificate, flat.devices.as_slice())
}
