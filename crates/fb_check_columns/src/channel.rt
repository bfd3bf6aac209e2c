//! When the rows of channels pay for what their datagrams cost.

ghost use Rattle.std.specs.Prelude.{◌≡◌, ◌≤◌, ◌++◌, ◌*◌, List, map, IfOk, IfErr, OnOk, MatchResult};
ghost use Rattle.std.specs.List.{AllByRecursion, flat_map};
ghost use Rattle.fb_model.specs.Services.{arrive};
ghost use Rattle.fb_model.specs.System.{System};
ghost use Rattle.fb_model.specs.Wires.{Serviced};
ghost use Rattle.fb_model.specs.Certificates.{admitted, far_of};
ghost use Rattle.fb_model.specs.CertificateText.{most_steps};
ghost use Rattle.fb_cert.specs.Views.{certificate_of};
ghost use Rattle.fb_types_services.specs.Views.{channel_of, service_of};
ghost use Rattle.fb_flat.specs.Tables.{AreDevices};
ghost use Rattle.fb_check_ranges.specs.Places.{leaves_in};
ghost use Rattle.fb_check_columns.specs.declared.column.Column.TheVariants.{Far};
ghost use Rattle.fb_check_columns.specs.Channels.{Cost, AreCosts, heard_by, heard_at, heard_under, cost_of, cost_in, ChannelPays, IsOwingChannel};
ghost use Rattle.fb_model.specs.Misfits.{ChannelsPay, IsShortChannel};
ghost use Rattle.fb_check_columns.specs.Paying.{IsMemory};
ghost use Rattle.fb_check_columns.specs.Reckoning.{weight_of};
ghost use Rattle.fb_check_columns.specs.Sums.{IsSum};

use crate::column::{Column, is_within, plus};
use crate::weights::weight;
use fb_cert::Certificate;
use fb_check_ranges::leaves_of;
use fb_faults::Shortfall;
use fb_flat::{Body, Flat, FlatDevice, Leaf};
use fb_types_services::points::ARRIVE;
use fb_types_services::{Channel, Service};
use fb_words::Format;
use std::alloc::Global;

/// A channel, and what one of its datagrams may cost at one SUBSCRIBE.
#[derive(Drop)]
struct Heard {
    channel: u16,
    cost: Option<u64>,
}

// How often a datagram of a channel may be admitted at a SUBSCRIBE.
fn times(repeats: u8, channel: &Channel) -> u8
    ensures { result ≡ admitted repeats (channel_of channel.now) }
{
    match channel.format {
        Format::First => repeats,
        Format::Second => 1,
    }
}

// What it may cost at the SUBSCRIBE of this path.
fn cost(
    alloc: Global,
    certificate: &Certificate,
    repeats: u8,
    path: &str,
    channel: &Channel,
) -> Result<Option<u64>, Shortfall>
    ensures value { IfOk result (λ s. IsSum s (admitted repeats (channel_of channel.now) * weight_of Far certificate.now path.now arrive)) }
    ensures refused { IfErr result IsMemory }
{
    let far = weight(alloc, certificate, Column::Far, path, ARRIVE)?;
    Ok(u64::from(times(repeats, channel)).checked_mul(far))
}

// Adds the channel and its cost, where this is a SUBSCRIBE.
fn add_served(
    alloc: Global,
    certificate: &Certificate,
    repeats: u8,
    path: &str,
    service: &Service,
    heard: &mut Vec<Heard>,
) -> Result<(), Shortfall>
    ensures heard { (xs : List Cost) → AreCosts heard.old.items xs → OnOk result (AreCosts heard.new.items (xs ++ heard_by certificate.now repeats path.now (Serviced (service_of service.now)))) }
    ensures refused { IfErr result IsMemory }
{
    match service {
        Service::Subscribe(channel, _) => {
            let cost = cost(alloc, certificate, repeats, path, channel)?;
            heard.push(Heard {
                channel: channel.number,
                cost,
            })?;
            Ok(())
        }
        Service::Input(_, _) | Service::Output(_, _) | Service::Publish(_, _) => Ok(()),
        Service::Delay | Service::Cycle | Service::Restart => Ok(()),
    }
}

// The same of a leaf.
fn add_leaf(
    alloc: Global,
    certificate: &Certificate,
    repeats: u8,
    leaf: &Leaf,
    heard: &mut Vec<Heard>,
) -> Result<(), Shortfall>
    ensures heard { (xs : List Cost) → AreCosts heard.old.items xs → OnOk result (AreCosts heard.new.items (xs ++ heard_at certificate.now repeats leaf.now)) }
    ensures refused { IfErr result IsMemory }
{
    let path = leaf.path.as_str();
    match &leaf.body {
        Body::Basic(_) => Ok(()),
        Body::Served(service) => add_served(alloc, certificate, repeats, path, service, heard),
    }
}

// The same of each of these leaves.
fn add_leaves(
    alloc: Global,
    certificate: &Certificate,
    repeats: u8,
    leaves: &[&Leaf],
    heard: &mut Vec<Heard>,
) -> Result<(), Shortfall>
    ensures heard { (xs : List Cost) → AreCosts heard.old.items xs → OnOk result (AreCosts heard.new.items (xs ++ flat_map (heard_at certificate.now repeats) (map (λ l. l.now) leaves.now))) }
    ensures refused { IfErr result IsMemory }
{
    for leaf in leaves {
        add_leaf(alloc, certificate, repeats, *leaf, heard)?;
    }
    Ok(())
}

// The same of the leaves of a device.
fn add_device(
    alloc: Global,
    certificate: &Certificate,
    repeats: u8,
    device: &FlatDevice,
    heard: &mut Vec<Heard>,
) -> Result<(), Shortfall>
    ensures heard { (xs : List Cost) → AreCosts heard.old.items xs → OnOk result (AreCosts heard.new.items (xs ++ flat_map (heard_at certificate.now repeats) (leaves_in device.now.resources.items))) }
    ensures refused { IfErr result IsMemory }
{
    let leaves = leaves_of(alloc, device.resources.as_slice())?;
    add_leaves(alloc, certificate, repeats, leaves.as_slice(), heard)
}

// What is heard on devices: of each SUBSCRIBE its channel, and what a datagram may cost there.
fn heard_under(
    alloc: Global,
    certificate: &Certificate,
    repeats: u8,
    devices: &[FlatDevice],
) -> Result<Vec<Heard>, Shortfall>
    ensures heard { IfOk result (λ v. AreCosts v.items (heard_under certificate.now repeats devices.now)) }
    ensures refused { IfErr result IsMemory }
{
    let mut heard = Vec::new(alloc);
    for device in devices {
        add_device(alloc, certificate, repeats, device, &mut heard)?;
    }
    Ok(heard)
}

// What a channel is charged with here.
fn cost_of(heard: &Heard, channel: u16) -> Option<u64>
    ensures { (x : Cost) → heard.now.channel ≡ x.channel → IsSum heard.now.cost x.steps → IsSum result (cost_of channel x) }
{
    if heard.channel == channel {
        heard.cost
    } else {
        Some(0)
    }
}

// What a datagram of a channel may cost at all its SUBSCRIBE.
fn total(heard: &[Heard], channel: u16) -> Option<u64>
    ensures { (xs : List Cost) → AreCosts heard.now xs → IsSum result (cost_in channel xs) }
{
    let mut sum = Some(0);
    for each in heard {
        sum = plus(sum, cost_of(each, channel));
    }
    sum
}

// The row of a channel.
fn row(certificate: &Certificate, channel: u16) -> u64
    ensures value { result ≡ (far_of (certificate_of certificate.now)).sending channel }
    ensures small { result ≤ most_steps }
{
    certificate.stands_in_text();
    Column::Far.sending(certificate, channel)
}

// The row of a channel pays for what a datagram may cost at all its SUBSCRIBE.
fn channel_pays(certificate: &Certificate, heard: &[Heard], channel: u16) -> Result<(), Shortfall>
    ensures { (xs : List Cost) → AreCosts heard.now xs → MatchResult result (λ u. ChannelPays certificate.now xs channel) (IsOwingChannel certificate.now xs) }
{
    if is_within(total(heard, channel), row(certificate, channel)) {
        Ok(())
    } else {
        Err(Shortfall::Channel(channel))
    }
}

// The same of each channel that is heard.
fn each_pays(certificate: &Certificate, heard: &[Heard]) -> Result<(), Shortfall>
    ensures { (xs : List Cost) → AreCosts heard.now xs → MatchResult result (λ u. AllByRecursion (λ (x : Cost). ChannelPays certificate.now xs x.channel) xs) (IsOwingChannel certificate.now xs) }
{
    for each in heard {
        channel_pays(certificate, heard, each.channel)?;
    }
    Ok(())
}

/// The rows of all channels pay, where each datagram is delivered at most so often to a device: each for all that one of its datagrams may cause at the SUBSCRIBE of all devices.
///
/// Refused with `Channel`, only where it is so.
pub fn channels_pay(
    alloc: Global,
    flat: &Flat,
    certificate: &Certificate,
    repeats: u8,
) -> Result<(), Shortfall>
    ensures pays { (s : System) → AreDevices flat.now.devices.items s.devices → OnOk result (ChannelsPay (certificate_of certificate.now) repeats s) }
    ensures refused { (s : System) → AreDevices flat.now.devices.items s.devices → IfErr result (IsShortChannel (certificate_of certificate.now) repeats s) }
{
    certificate.stands_in_text();
    let heard = heard_under(alloc, certificate, repeats, flat.devices.as_slice())?;
    each_pays(certificate, heard.as_slice())
}
