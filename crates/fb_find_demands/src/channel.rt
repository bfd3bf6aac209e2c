//! The demands of channels.

ghost use Rattle.std.specs.Prelude.{◌≡◌, ◌==◌, ◌++◌, ◌∷◌, [], map, replicate, IfOk, OnOk, if◌then◌else◌};
ghost use Rattle.std.specs.List.{flat_map};
ghost use Rattle.fb_model.specs.Certificates as book;
ghost use Rattle.fb_types_services.specs.Views.{service_of};
ghost use Rattle.fb_flat.specs.Leaves.{kind_of};
ghost use Rattle.fb_model.specs.Wires.{Serviced};
ghost use Rattle.fb_find_laws.specs.Nodes.{by_number};
ghost use Rattle.fb_find_demands.specs.Channels.{channels_ask, heard_in, of_channel};
ghost use Rattle.fb_find_demands.specs.Rights.{numbered, numbers_of, right_of, rights_of};

use crate::numbered::Numbering;
use crate::right::Right;
use fb_flat::{Body, Leaf};
use fb_types_services::Service;
use fb_types_services::points::ARRIVE;
use fb_words::Format;
use std::alloc::{AllocError, Global};

// How often a datagram of a channel may be admitted where this is the own channel and its format, where each is delivered at most so often to a device.
fn admitted(repeats: u8, number: u16, own: u16, format: Format) -> u8
    ensures { result ≡ (if own == number then book.admitted repeats (record { number = own; format = format }) else 0) }
{
    if own != number {
        return 0;
    }
    match format {
        Format::First => repeats,
        Format::Second => 1,
    }
}

// How often a service may admit it.
fn served(repeats: u8, number: u16, service: &Service) -> u8
    ensures { result ≡ book.admissions repeats number (Serviced (service_of service.now)) }
{
    match service {
        Service::Subscribe(channel, _) => admitted(repeats, number, channel.number, channel.format),
        Service::Input(_, _) | Service::Output(_, _) | Service::Publish(_, _) => 0,
        Service::Delay | Service::Cycle | Service::Restart => 0,
    }
}

// How often a leaf may admit it.
fn admissions(repeats: u8, number: u16, body: &Body) -> u8
    ensures { result ≡ book.admissions repeats number (kind_of body.now) }
{
    match body {
        Body::Basic(_) => 0,
        Body::Served(service) => served(repeats, number, service),
    }
}

// Adds a number so often.
fn add_times(number: usize, count: u8, terms: &mut Vec<usize>) -> Result<(), AllocError>
    ensures { OnOk result (terms.new.items ≡ terms.old.items ++ replicate count number) }
{
    for _ in 0..count {
        terms.push(number)?;
    }
    Ok(())
}

// Adds the arrival of a leaf, as often as it may admit a datagram of the channel.
fn add_heard(
    alloc: Global,
    numbering: &Numbering,
    repeats: u8,
    number: u16,
    leaf: &Leaf,
    terms: &mut Vec<usize>,
) -> Result<(), AllocError>
    ensures { OnOk result (terms.new.items ≡ terms.old.items ++ map (numbers_of numbering.now) (heard_in repeats number leaf.now)) }
{
    let count = admissions(repeats, number, &leaf.body);
    if count == 0 {
        return Ok(());
    }
    let arrival = numbering.event(alloc, leaf.path.as_str(), ARRIVE)?;
    add_times(arrival, count, terms)
}

// The number of a channel pays for the arrivals of a datagram at all its SUBSCRIBE.
fn channel_right(
    alloc: Global,
    numbering: &Numbering,
    repeats: u8,
    leaves: &[&Leaf],
    number: u16,
) -> Result<Right, AllocError>
    ensures { IfOk result (λ r. right_of r ≡ by_number (numbers_of numbering.now) (of_channel repeats (map (λ l. l.now) leaves.now) number)) }
{
    let mut terms = Vec::new(alloc);
    for leaf in leaves {
        add_heard(alloc, numbering, repeats, number, *leaf, &mut terms)?;
    }
    Ok(Right {
        node: numbering.channel(number)?,
        constant: 0,
        terms,
    })
}

// Adds the demands of channels.
fn add_each(
    alloc: Global,
    numbering: &Numbering,
    repeats: u8,
    leaves: &[&Leaf],
    numbers: &[u16],
    rights: &mut Vec<Right>,
) -> Result<(), AllocError>
    ensures { OnOk result (rights_of rights.new.items ≡ rights_of rights.old.items ++ numbered numbering.now (channels_ask repeats (map (λ l. l.now) leaves.now) numbers.now)) }
{
    for number in numbers {
        rights.push(channel_right(alloc, numbering, repeats, leaves, *number)?)?;
    }
    Ok(())
}

/// Adds the demands of all channels that have numbers, where each datagram is delivered at most so often to a device.
pub fn add_channels(
    alloc: Global,
    numbering: &Numbering,
    repeats: u8,
    leaves: &[&Leaf],
    rights: &mut Vec<Right>,
) -> Result<(), AllocError>
    ensures { OnOk result (rights_of rights.new.items ≡ rights_of rights.old.items ++ numbered numbering.now (channels_ask repeats (map (λ l. l.now) leaves.now) numbering.now.channels.items)) }
{
    add_each(
        alloc,
        numbering,
        repeats,
        leaves,
        numbering.channels.as_slice(),
        rights,
    )
}
