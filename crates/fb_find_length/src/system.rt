//! Rows of instances, resources and devices.

ghost use Rattle.std.specs.Prelude.{◌≡◌, ◌+◌, ◌<◌, ◌≤◌, suc, length, map, nat_lt, string_bytes};
ghost use Rattle.std.specs.Option.{MatchOption};
ghost use Rattle.fb_model.specs.CertificateText.{most_characters};
ghost use Rattle.fb_model_lengths.specs.Lengths.{least_length};
ghost use Rattle.fb_types_networks.specs.Views.{placed_of, instances_of};
ghost use Rattle.fb_types.specs.Views.{resource_of, device_of, system_of};
ghost use Rattle.fb_find_length.specs.Counting.{AreAlike, placed_length, inner_length, resource_length, resources_length, device_length, devices_length};

use crate::leaf::{block, service};
use fb_types::{Device, Resource, Typed};
use fb_types_networks::{Body, Instance};

// The most characters of a certificate's text.
const LONGEST: usize = 16_777_216;

// The length of a path with a name and a dot behind it. Lengths above the limit are not told apart.
fn longer(path: usize, name: &str) -> usize
    requires { path ≤ 16777217 }
    ensures alike { AreAlike result (path + suc (length name.now)) }
    ensures small { result ≤ 16777217 }
{
    if name.len() >= LONGEST + 1 - path {
        LONGEST + 1
    } else {
        path + name.len() + 1
    }
}

// What is left behind the rows of an instance.
#[cycle(spending)]
fn instance(left: usize, path: usize, repeats: Option<u8>, instance: &Instance) -> Option<usize>
    requires left { left ≤ 16777216 }
    requires path { path ≤ 16777217 }
    ensures { MatchOption result (left < placed_length repeats path (placed_of instance.now)) (λ rest. rest + placed_length repeats path (placed_of instance.now) ≡ left) }
{
    let path = longer(path, instance.name.as_str());
    match &instance.body {
        Body::Basic(of) => block(left, path, repeats, of),
        Body::Served(of) => service(left, path, repeats, of),
        Body::Composite(_, network) => instances(left, path, repeats, &network.instances),
    }
}

// What is left behind the rows of instances.
#[cycle(spending)]
fn instances(left: usize, path: usize, repeats: Option<u8>, instances: &[Instance]) -> Option<usize>
    requires left { left ≤ 16777216 }
    requires path { path ≤ 16777217 }
    ensures { MatchOption result (left < inner_length repeats path (instances_of instances.now)) (λ rest. rest + inner_length repeats path (instances_of instances.now) ≡ left) }
{
    let mut left = left;
    for each in instances {
        match instance(left, path, repeats, each) {
            Some(rest) => left = rest,
            None => return None,
        }
    }
    Some(left)
}

// What is left behind the rows of a resource.
fn resource(left: usize, path: usize, repeats: Option<u8>, resource: &Resource) -> Option<usize>
    requires left { left ≤ 16777216 }
    requires path { path ≤ 16777217 }
    ensures { MatchOption result (left < resource_length repeats path (resource_of resource.now)) (λ rest. rest + resource_length repeats path (resource_of resource.now) ≡ left) }
{
    let path = longer(path, resource.name.as_str());
    instances(left, path, repeats, &resource.network.instances)
}

// What is left behind the rows of resources.
fn resources(left: usize, path: usize, repeats: Option<u8>, resources: &[Resource]) -> Option<usize>
    requires left { left ≤ 16777216 }
    requires path { path ≤ 16777217 }
    ensures { MatchOption result (left < resources_length repeats path (map resource_of resources.now)) (λ rest. rest + resources_length repeats path (map resource_of resources.now) ≡ left) }
{
    let mut left = left;
    for each in resources {
        match resource(left, path, repeats, each) {
            Some(rest) => left = rest,
            None => return None,
        }
    }
    Some(left)
}

// What is left behind the rows of a device.
fn device(left: usize, repeats: Option<u8>, device: &Device) -> Option<usize>
    requires { left ≤ 16777216 }
    ensures { MatchOption result (left < device_length repeats (device_of device.now)) (λ rest. rest + device_length repeats (device_of device.now) ≡ left) }
{
    resources(
        left,
        longer(0, device.name.as_str()),
        repeats,
        &device.resources,
    )
}

// What is left behind the rows of devices.
fn devices(left: usize, repeats: Option<u8>, devices: &[Device]) -> Option<usize>
    requires { left ≤ 16777216 }
    ensures { MatchOption result (left < devices_length repeats (map device_of devices.now)) (λ rest. rest + devices_length repeats (map device_of devices.now) ≡ left) }
{
    let mut left = left;
    for each in devices {
        match device(left, repeats, each) {
            Some(rest) => left = rest,
            None => return None,
        }
    }
    Some(left)
}

/// Whether the rows that a system must have are longer than a certificate's text may be. With `repeats` it is so of those with a row REPEATS.
pub fn rows_are_long(typed: &Typed, repeats: Option<u8>) -> bool
    ensures { result ≡ nat_lt most_characters (least_length repeats (system_of typed.now)) }
{
    devices(LONGEST, repeats, &typed.configuration().devices).is_none()
}
