//! When the queues of a system are deep enough.

ghost use Rattle.std.specs.Prelude.{IfErr, OnOk};
ghost use Rattle.std.specs.List.{AllByRecursion, Any};
ghost use Rattle.fb_model.specs.System.{System};
ghost use Rattle.fb_cert.specs.Views.{certificate_of};
ghost use Rattle.fb_flat.specs.Tables.{AreDevices};
ghost use Rattle.fb_check_rows.specs.Depths.{ResourceFits, DeviceFits, IsDepthFault, IsDeep};
ghost use Rattle.fb_model.specs.Misfits.{IsShallowFault};

use crate::begin::begins_fit;
use crate::resource::arrivals_fit;
use fb_cert::Certificate;
use fb_faults::Shallow;
use fb_flat::{Flat, FlatDevice, FlatResource};
use std::alloc::Global;

// A resource's queue is deep enough.
fn resource_fits(
    alloc: Global,
    certificate: &Certificate,
    resource: &FlatResource,
) -> Result<(), Shallow>
    ensures fits { OnOk result (ResourceFits certificate.now resource.now) }
    ensures refused { IfErr result (IsDepthFault certificate.now resource.now) }
{
    arrivals_fit(alloc, certificate, resource)?;
    begins_fit(alloc, certificate, resource)
}

// The queues of a device are deep enough.
fn device_fits(alloc: Global, certificate: &Certificate, device: &FlatDevice) -> Result<(), Shallow>
    ensures fits { OnOk result (DeviceFits certificate.now device.now) }
    ensures refused { IfErr result (λ f. Any (λ r. IsDepthFault certificate.now r f) device.now.resources.items) }
{
    for resource in &device.resources {
        resource_fits(alloc, certificate, resource)?;
    }
    Ok(())
}

// All queues are deep enough.
fn tables_fit(alloc: Global, certificate: &Certificate, flat: &Flat) -> Result<(), Shallow>
    ensures fits { OnOk result (AllByRecursion (DeviceFits certificate.now) flat.now.devices.items) }
    ensures refused { IfErr result (λ f. Any (λ d. Any (λ r. IsDepthFault certificate.now r f) d.resources.items) flat.now.devices.items) }
{
    for device in &flat.devices {
        device_fits(alloc, certificate, device)?;
    }
    Ok(())
}

/// The depth of each resource is at least the places of each of its arrivals, and those of all its BEGIN together.
///
/// Refused with the path of a resource of which it is not so.
pub fn depths_fit(alloc: Global, flat: &Flat, certificate: &Certificate) -> Result<(), Shallow>
    ensures fits { (s : System) → AreDevices flat.now.devices.items s.devices → OnOk result (AllByRecursion (IsDeep (certificate_of certificate.now)) s.devices) }
    ensures refused { (s : System) → AreDevices flat.now.devices.items s.devices → IfErr result (IsShallowFault (certificate_of certificate.now) s) }
{
    tables_fit(alloc, certificate, flat)
}
