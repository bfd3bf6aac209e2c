//! The leaves of a system, or the resource that follows too many connections.

ghost use Rattle.std.specs.Prelude.{◌≡◌, ◌≤◌, ℕ, Option, map, string_bytes, IfErr, IfOk, OnOk};
ghost use Rattle.std.specs.List.{AllByRecursion, Any};
ghost use Rattle.fb_model.specs.Certificates.{FollowsFew};
ghost use Rattle.fb_model.specs.Wires.{most_followed, resource_count};
ghost use Rattle.fb_model.specs.Written.{IsWritten};
ghost use Rattle.fb_flat.specs.Leaves.{flat_device, written_device};
ghost use Rattle.fb_types.specs.Views.{system_of, resource_of, device_of};
ghost use Rattle.fb_find_rows.specs.Needs.{IsPastFault};
ghost use Rattle.fb_model.specs.Finding.{IsNeverBound};
ghost use Rattle.fb_find.specs.Crowds.{IsCrowded};

use fb_faults::{NoBound, TypeFault};
use fb_flat::{Flat, flatten, flatten_resource, joined};
use fb_types::{Configuration, Device, Resource, Typed};
use std::alloc::Global;

// Whether a resource follows few connections.
fn resource_follows_few(alloc: Global, device: &str, resource: &Resource) -> Result<(), NoBound>
    ensures few { OnOk result (resource_count (resource_of resource.now) ≤ most_followed) }
    ensures refused { IfErr result (IsPastFault (λ text. IsCrowded device.now text resource.now)) }
{
    match flatten_resource(alloc, device, resource) {
        Ok(leaves) => {
            leaves.let_go();
            Ok(())
        }
        Err(TypeFault::Limit(_)) => Err(NoBound::Limit(joined(
            alloc,
            device,
            resource.name.as_str(),
        )?)),
        Err(_) => Err(NoBound::OutOfMemory),
    }
}

// Whether the resources of a device do.
fn device_follows_few(alloc: Global, device: &Device) -> Result<(), NoBound>
    ensures few { OnOk result (AllByRecursion (λ r. resource_count (resource_of r) ≤ most_followed) device.now.resources.items) }
    ensures refused { IfErr result (IsPastFault (λ text. Any (IsCrowded (string_bytes device.now.name) text) device.now.resources.items)) }
{
    for resource in &device.resources {
        resource_follows_few(alloc, device.name.as_str(), resource)?;
    }
    Ok(())
}

// Whether those of all devices do.
fn system_follows_few(alloc: Global, typed: &Configuration) -> Result<(), NoBound>
    ensures few { OnOk result (AllByRecursion (λ d. AllByRecursion (λ r. resource_count (resource_of r) ≤ most_followed) d.resources.items) typed.now.devices.items) }
    ensures refused { IfErr result (IsPastFault (λ text. Any (λ d. Any (IsCrowded (string_bytes d.name) text) d.resources.items) typed.now.devices.items)) }
{
    for device in &typed.devices {
        device_follows_few(alloc, device)?;
    }
    Ok(())
}

// Why there are no leaves: a resource that follows too many connections, or want of memory.
fn crowded(alloc: Global, typed: &Configuration) -> NoBound
    ensures { IsPastFault (λ text. Any (λ d. Any (IsCrowded (string_bytes d.name) text) d.resources.items) typed.now.devices.items) result }
{
    match system_follows_few(alloc, typed) {
        Ok(()) => NoBound::OutOfMemory,
        Err(fault) => fault,
    }
}

/// The leaves of a system and their wires.
pub(crate) fn leaves(alloc: Global, typed: &Typed) -> Result<Flat, NoBound>
    ensures tables { IfOk result (λ f. map flat_device f.devices.items ≡ map written_device (system_of typed.now).devices) }
    ensures few { OnOk result (AllByRecursion FollowsFew (system_of typed.now).devices) }
    ensures refused { (repeats : Option ℕ) → IfErr result (IsNeverBound repeats (system_of typed.now)) }
{
    typed.stands_in_text();
    match flatten(alloc, typed) {
        Ok(flat) => Ok(flat),
        Err(_) => Err(crowded(alloc, typed.configuration())),
    }
}
