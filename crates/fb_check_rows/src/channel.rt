//! The rows CHANNEL of a certificate against the channels that a system names.

ghost use Rattle.std.specs.Prelude.{◌≡◌, ◌++◌, IfOk, IfErr, OnOk, MatchResult};
ghost use Rattle.std.specs.List.{AllByRecursion, flat_map};
ghost use Rattle.fb_model.specs.Wires.{Serviced};
ghost use Rattle.fb_model.specs.Certificates.{channel_in};
ghost use Rattle.fb_cert.specs.Views.{rows_of};
ghost use Rattle.fb_flat.specs.Leaves.{kind_of};
ghost use Rattle.fb_types_services.specs.Views.{service_of};
ghost use Rattle.fb_check_rows.specs.Channels.{leaf_channels, resource_channels, device_channels, channels_named, HasChannel, IsNamed, MissesChannel, KnowsNot, channels_due, HaveSameChannels, IsOtherChannel};

use fb_cert::Certificate;
use fb_faults::RowFault;
use fb_flat::{Body, Flat, FlatDevice, FlatResource, Leaf};
use fb_types_services::Service;
use std::alloc::{AllocError, Global};

// The channel of a PUBLISH or SUBSCRIBE.
fn served_channel(service: &Service) -> Option<u16>
    ensures { result ≡ channel_in (Serviced (service_of service.now)) }
{
    match service {
        Service::Publish(channel, _) | Service::Subscribe(channel, _) => Some(channel.number),
        Service::Input(_, _) | Service::Output(_, _) => None,
        Service::Delay | Service::Cycle | Service::Restart => None,
    }
}

/// The channel of a leaf, if it is a PUBLISH or SUBSCRIBE.
pub fn channel_of(leaf: &Leaf) -> Option<u16>
    ensures { result ≡ channel_in (kind_of leaf.now.body) }
{
    match &leaf.body {
        Body::Basic(_) => None,
        Body::Served(service) => served_channel(service),
    }
}

// Adds the channel of a leaf, if it has one.
fn add_leaf(leaf: &Leaf, numbers: &mut Vec<u16>) -> Result<(), AllocError>
    ensures { OnOk result (numbers.new.items ≡ numbers.old.items ++ leaf_channels leaf.now) }
{
    match channel_of(leaf) {
        Some(number) => Ok(numbers.push(number)?),
        None => Ok(()),
    }
}

// Adds the channels of a resource.
fn add_resource(resource: &FlatResource, numbers: &mut Vec<u16>) -> Result<(), AllocError>
    ensures { OnOk result (numbers.new.items ≡ numbers.old.items ++ resource_channels resource.now) }
{
    for leaf in &resource.leaves {
        add_leaf(leaf, numbers)?;
    }
    Ok(())
}

// Adds the channels of a device.
fn add_device(device: &FlatDevice, numbers: &mut Vec<u16>) -> Result<(), AllocError>
    ensures { OnOk result (numbers.new.items ≡ numbers.old.items ++ device_channels device.now) }
{
    for resource in &device.resources {
        add_resource(resource, numbers)?;
    }
    Ok(())
}

// The channel of each PUBLISH and SUBSCRIBE.
fn channels(alloc: Global, flat: &Flat) -> Result<Vec<u16>, AllocError>
    ensures { IfOk result (λ v. v.items ≡ channels_named flat.now.devices.items) }
{
    let mut numbers = Vec::new(alloc);
    for device in &flat.devices {
        add_device(device, &mut numbers)?;
    }
    Ok(numbers)
}

// Each of these channels has a row.
fn none_missing(numbers: &[u16], certificate: &Certificate) -> Result<(), RowFault>
    ensures { MatchResult result (λ u. AllByRecursion (HasChannel (rows_of certificate.now)) numbers.now) (MissesChannel numbers.now (rows_of certificate.now)) }
{
    for number in numbers {
        if certificate.channel(*number).is_none() {
            return Err(RowFault::MissingChannel(*number));
        }
    }
    Ok(())
}

// Each row is of one of these channels.
fn none_unknown(numbers: &[u16], certificate: &Certificate) -> Result<(), RowFault>
    ensures { MatchResult result (λ u. AllByRecursion (IsNamed numbers.now) (rows_of certificate.now).channels) (KnowsNot numbers.now (rows_of certificate.now)) }
{
    for index in 0..certificate.channel_count() {
        let Some((number, _)) = certificate.channel_at(index) else {
            return Ok(());
        };
        if !numbers.contains(&number) {
            return Err(RowFault::UnknownChannel(number));
        }
    }
    Ok(())
}

// The channels that must have rows: those of each PUBLISH and SUBSCRIBE where there is a row REPEATS, and else none.
fn due(alloc: Global, flat: &Flat, certificate: &Certificate) -> Result<Vec<u16>, AllocError>
    ensures { IfOk result (λ v. v.items ≡ channels_due (rows_of certificate.now).repeats flat.now.devices.items) }
{
    match certificate.repeats() {
        Some(_) => channels(alloc, flat),
        None => Ok(Vec::new(alloc)),
    }
}

/// With a row REPEATS there is a row of each channel that the system names, and else there is none.
pub(crate) fn channels_match(
    alloc: Global,
    flat: &Flat,
    certificate: &Certificate,
) -> Result<(), RowFault>
    ensures same { OnOk result (HaveSameChannels flat.now.devices.items (rows_of certificate.now)) }
    ensures refused { IfErr result (IsOtherChannel flat.now.devices.items (rows_of certificate.now)) }
{
    let numbers = due(alloc, flat, certificate)?;
    none_missing(numbers.as_slice(), certificate)?;
    none_unknown(numbers.as_slice(), certificate)
}
