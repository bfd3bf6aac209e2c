//! The numbers of a certificate that fits.

use crate::ends::{put_ends, type_list};
use crate::finding::kind_name;
use fb_cert::{Amount, Certificate};
use fb_flat::{FlatResource, Leaf, joined};
use fb_turns::{Turns, count_turns};
use fb_verified::Verified;
use fb_words::Format;
use fbr_explain::{Counted, Ways, channels_behind, dispatches_of, leaves_by_channel};
use fbr_leaves::{admitted, channel_of, leaves_in, numbered, received_from};
use fbr_needs::{Arrival, Queue, queue_in};
use fbr_objects::{List, Object};
use std::alloc::{AllocError, Global};

// A row of steps and places, and of steps on all devices where there is one.
fn row_object(alloc: Global, path: &str, amount: Amount, far: Option<u64>) -> Object {
    let mut object = Object::new(alloc);
    object.text("path", path);
    object.number("steps", amount.steps);
    object.number("places", amount.places);
    object.maybe_number("far", far);
    object
}

// The rows of events: WEIGHT and FAR.
fn event_list(alloc: Global, certificate: &Certificate) -> List {
    let mut list = List::new(alloc);
    for index in 0..certificate.weight_count() {
        if let Some((path, amount)) = certificate.weight_at(index) {
            list.object(row_object(alloc, path, amount, certificate.far(path)));
        }
    }
    list
}

// The rows of states: CHARGE and FARSTATE.
fn state_list(alloc: Global, certificate: &Certificate) -> List {
    let mut list = List::new(alloc);
    for index in 0..certificate.charge_count() {
        if let Some((path, amount)) = certificate.charge_at(index) {
            list.object(row_object(alloc, path, amount, certificate.far_state(path)));
        }
    }
    list
}

// The rows of variables: RANGE.
fn range_list(alloc: Global, certificate: &Certificate) -> List {
    let mut list = List::new(alloc);
    for index in 0..certificate.range_count() {
        if let Some((path, range)) = certificate.range_at(index) {
            let mut object = Object::new(alloc);
            object.text("path", path);
            object.signed("lowest", range.low);
            object.signed("highest", range.high);
            list.object(object);
        }
    }
    list
}

// The channels on which an arrival of a leaf can be sent on.
fn put_ways(
    alloc: Global,
    ways: Ways<'_>,
    leaf: &Leaf,
    event: &str,
    object: &mut Object,
) -> Result<(), AllocError> {
    let channels = channels_behind(alloc, ways, leaf, event)?;
    let mut list = List::new(alloc);
    for channel in &channels {
        list.number(u64::from(*channel));
    }
    object.list("channels", list);
    Ok(())
}

// The leaf of an arrival, and the name of its event.
fn leaf_of<'a, 'p>(ways: Ways<'a>, path: &'p str) -> Option<(&'a Leaf, &'p str)> {
    let (front, event) = path.rsplit_once('.')?;
    let number = ways.numbers.get(front)?;
    Some((ways.leaves.get(*number).copied()?, event))
}

// How many dispatches one event at an arrival of a leaf causes.
fn put_dispatches(
    alloc: Global,
    verified: &Verified,
    counted: Counted<'_>,
    leaf: &Leaf,
    event: &str,
    object: &mut Object,
) -> Result<(), AllocError> {
    let dispatches = dispatches_of(alloc, verified, counted, leaf, event)?;
    let mut counts = Object::new(alloc);
    counts.number("all", dispatches.all);
    counts.number("in_a_row", dispatches.in_a_row);
    counts.flag("alone", dispatches.is_alone);
    counts.number("end", dispatches.end);
    object.object("dispatches", counts);
    Ok(())
}

// What one event at an arrival causes at most, and how many of it the queue takes at once.
fn arrival_object(
    alloc: Global,
    verified: &Verified,
    ways: Ways<'_>,
    counted: Counted<'_>,
    queue: &Queue<'_>,
    arrival: &Arrival,
) -> Result<Object, AllocError> {
    let path = arrival.path.as_str();
    let far = verified.far_of(path);
    let mut object = Object::new(alloc);
    object.text("path", path);
    object.text("kind", kind_name(arrival.kind));
    object.number("steps", verified.steps_of(path).unwrap_or(0));
    object.number("places", arrival.places);
    object.number("fits", queue.fitting(arrival));
    object.maybe_number("far", far);
    if let Some((leaf, event)) = leaf_of(ways, path) {
        if far.is_some() {
            put_ways(alloc, ways, leaf, event, &mut object)?;
        }
        put_dispatches(alloc, verified, counted, leaf, event, &mut object)?;
    }
    Ok(object)
}

// The queue of a resource and its arrivals.
fn resource_object(
    alloc: Global,
    verified: &Verified,
    resource: &FlatResource,
    turns: &Turns,
) -> Result<Object, AllocError> {
    let queue = queue_in(alloc, verified.certificate(), resource)?;
    let counted = Counted {
        resource,
        depth: queue.depth,
        turns,
    };
    let leaves = leaves_in(alloc, resource)?;
    let numbers = numbered(alloc, &leaves)?;
    let ways = Ways {
        numbers: &numbers,
        leaves: &leaves,
    };
    let mut list = List::new(alloc);
    for arrival in &queue.arrivals {
        let object = arrival_object(alloc, verified, ways, counted, &queue, arrival)?;
        list.object(object);
    }
    let mut object = Object::new(alloc);
    object.text("path", queue.path);
    object.number("depth", queue.depth);
    object.number("each_once", queue.places());
    object.list("arrivals", list);
    Ok(object)
}

// All resources.
fn resource_list(alloc: Global, verified: &Verified) -> Result<List, AllocError> {
    let turns = count_turns(alloc, verified)?;
    let mut list = List::new(alloc);
    for device in &verified.flat().devices {
        for resource in &device.resources {
            let object = resource_object(alloc, verified, resource, &turns)?;
            list.object(object);
        }
    }
    Ok(list)
}

// A SUBSCRIBE: how often a datagram may be admitted there, where that is known, and what it causes.
fn receiver_object(alloc: Global, verified: &Verified, path: &str, times: Option<u8>) -> Object {
    let mut object = Object::new(alloc);
    object.text("path", path);
    if let Some(times) = times {
        object.number("times", u64::from(times));
    }
    object.number("steps", verified.steps_of(path).unwrap_or(0));
    object.maybe_number("far", verified.far_of(path));
    object
}

// Adds the format of a channel and the types of its values, which are those of each of its ends.
fn put_form(alloc: Global, leaves: &[&Leaf], object: &mut Object) {
    if let Some(leaf) = leaves.first() {
        if let Some(channel) = channel_of(leaf) {
            let format: u64 = match channel.format {
                Format::First => 1,
                Format::Second => 2,
            };
            object.number("format", format);
        }
        object.list("types", type_list(alloc, leaf));
    }
}

// A channel: its format and types, who sends on it, and where its datagrams come to.
fn channel_object(
    alloc: Global,
    verified: &Verified,
    number: u16,
    leaves: &[&Leaf],
) -> Result<Object, AllocError> {
    let repeats = verified.certificate().repeats();
    let mut from = List::new(alloc);
    let mut to = List::new(alloc);
    for leaf in leaves {
        match received_from(leaf) {
            Some(channel) => {
                let path = joined(alloc, leaf.path.as_str(), "ARRIVE")?;
                let times = match repeats {
                    Some(repeats) => Some(admitted(repeats, channel)),
                    None => None,
                };
                to.object(receiver_object(alloc, verified, path.as_str(), times));
            }
            None => from.text(leaf.path.as_str()),
        }
    }
    let mut object = Object::new(alloc);
    object.number("number", u64::from(number));
    put_form(alloc, leaves, &mut object);
    object.maybe_number("far", verified.certificate().channel(number));
    object.list("from", from);
    object.list("to", to);
    Ok(object)
}

// All channels.
fn channel_list(alloc: Global, verified: &Verified) -> Result<List, AllocError> {
    let found = leaves_by_channel(alloc, verified.flat())?;
    let mut list = List::new(alloc);
    for (number, leaves) in &found {
        list.object(channel_object(alloc, verified, *number, leaves)?);
    }
    Ok(list)
}

/// Adds the numbers of a certificate that fits: of events, states and variables, the queue of each resource with its arrivals, and the channels; and the INPUTs and
/// OUTPUTs.
pub fn put_bounds(
    alloc: Global,
    verified: &Verified,
    object: &mut Object,
) -> Result<(), AllocError> {
    let certificate = verified.certificate();
    if let Some(repeats) = certificate.repeats() {
        object.number("repeats", u64::from(repeats));
    }
    object.list("events", event_list(alloc, certificate));
    object.list("states", state_list(alloc, certificate));
    object.list("ranges", range_list(alloc, certificate));
    object.list("resources", resource_list(alloc, verified)?);
    object.list("channels", channel_list(alloc, verified)?);
    put_ends(alloc, verified.flat(), object);
    Ok(())
}
